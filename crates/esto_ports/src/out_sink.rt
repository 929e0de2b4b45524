//! A sink over standard output. It tells nothing of what was written.
ghost use Rattle.std.specs.Prelude.{◌≡◌, ◌≤◌, None};
ghost use Rattle.esto_ports.specs.Put.{Puts};
ghost use Rattle.esto_ports.specs.OutSink.{CountsPut};

use crate::ports::{Sink, SinkError};
use std::marker::Model;

/// A sink over standard output, which contracts see as its count of faults.
#[derive(Drop)]
pub struct OutSink<'a, R: Print> {
    rt: &'a R,
    faults: u64,
}

impl<'a, R: Print> Model for OutSink<'a, R> {
    ghost use Rattle.std.specs.Prelude.{ℕ};

    ghost Value = { ℕ };

    ghost view = { λ s. s.faults };
}

impl<'a, R: Print> OutSink<'a, R> {
    /// No fault yet.
    pub fn new(rt: &'a R) -> OutSink<'a, R>
        ensures { result ≡ 0 }
    {
        OutSink { rt, faults: 0 }
    }
}

// Writes all bytes, and answers whether it could. Each turn gives at least one byte, or is at a fault.
fn write_out<R: Print>(rt: &R, bytes: &[u8]) -> bool {
    let mut rest = bytes;
    'writing: while !rest.is_empty() {
        match rt.write_some(rest) {
            Ok(0) => return false,
            Ok(count) => rest = &rest[count..],
            Err(_) => return false,
        }
    }
    true
}

impl<'a, R: Print> Sink for OutSink<'a, R> {
    ghost written = { λ _. None };

    ghost faults = { λ s. s };

    ghost puts = { λ _. None };

    /// The count rises at Failed alone. At its last value every put fails, and the machine isn't asked.
    fn put(&mut self, bytes: &[u8]) -> Result<(), SinkError>
        ensures answer { Puts None None self.old self.new bytes.now result }
        ensures later { self.old ≤ self.new }
        ensures count { CountsPut self.old self.new result }
    {
        if self.faults == u64::MAX {
            return Err(SinkError::Failed);
        }
        if write_out(self.rt, bytes) {
            return Ok(());
        }
        self.faults = self.faults.saturating_add(1);
        Err(SinkError::Failed)
    }
}
