//! A sink in memory, at which chosen calls fail.
ghost use Rattle.std.specs.Prelude.{◌≡◌, ◌≤◌, [], ◌∷◌, ◌++◌, Some, OnOk, OnErr, take};
ghost use Rattle.std.specs.FinMap as map;
ghost use Rattle.std.specs.Ordering.{nat_cmp};
ghost use Rattle.esto_ports.specs.Asked.{CountsOne};
ghost use Rattle.esto_ports.specs.Put.{Puts};
ghost use Rattle.esto_ports.specs.MemorySink.{AfterPut};

use crate::calls::is_listed;
use crate::ports::{Sink, SinkError};
use esto_term::{Bytes, List, OutOfMemory, Values};
use std::alloc::Global;
use std::marker::Model;

/// A sink in memory. It tells what was written and how many puts there were. It fails at the calls that are listed to
/// fail, and at those that are listed to be refused memory is wanting.
#[derive(Drop)]
pub struct MemorySink {
    written: Bytes,
    // Calls, with how many bytes each keeps. The newest first, which hides the older ones of its call.
    fails: List<(u64, u64)>,
    refuses: Values<u64>,
    calls: u64,
    faults: u64,
    puts: u64,
}

impl Model for MemorySink {
    ghost use Rattle.esto_ports.specs.MemorySink.{SinkState, sink_code};
    ghost use Rattle.std.specs.FinMap as map;

    ghost Value = { SinkState };

    ghost coded = { sink_code };

    ghost view = { λ s. record {
      written = s.written;
      fails = map.from_entries s.fails;
      refuses = s.refuses;
      calls = s.calls;
      faults = s.faults;
      puts = s.puts;
    } };
}

impl MemorySink {
    /// Nothing written, no listed call, no call and no fault yet.
    pub fn new(alloc: Global) -> MemorySink
        ensures { result ≡ record {
          written = [];
          fails = map.empty;
          refuses = [];
          calls = 0;
          faults = 0;
          puts = 0;
        } }
    {
        MemorySink {
            written: Bytes::new(alloc),
            fails: List::new(alloc),
            refuses: Values::new(alloc),
            calls: 0,
            faults: 0,
            puts: 0,
        }
    }

    /// Lists a call that is to fail once it has put the first `kept` bytes, at most all. Calls are counted
    /// from 1. Of two entries for one call the later counts.
    pub fn fail_at(&mut self, call: u64, kept: u64) -> Result<(), OutOfMemory>
        ensures ok { OnOk result
            (self.new ≡ record self.old { fails = map.insert self.old.fails call kept }) }
        ensures err { OnErr result (self.new ≡ self.old) }
    {
        self.fails.insert(0, (call, kept))
    }

    /// Lists a call at which memory is to be wanting, unless it fails. Calls are counted from 1.
    pub fn refuse_at(&mut self, call: u64) -> Result<(), OutOfMemory>
        ensures ok { OnOk result
            (self.new ≡ record self.old { refuses = self.old.refuses ++ call ∷ [] }) }
        ensures err { OnErr result (self.new ≡ self.old) }
    {
        self.refuses.push(call)
    }

    /// How many puts there were. The count stays at 2^64 - 1.
    pub fn puts(&self) -> u64
        ensures { result ≡ self.now.puts }
    {
        self.puts
    }

    /// All that was written.
    pub fn written(&self) -> &[u8]
        ensures { result.now ≡ self.now.written }
    {
        self.written.bytes()
    }
}

// How many bytes a call that fails keeps, by the newest entry.
fn find_kept(fails: &[(u64, u64)], call: u64) -> Option<u64>
    ensures { result ≡ map.get (map.from_entries {R = nat_cmp} fails.now) call }
{
    'calls: for entry in fails {
        if call.cmp(&entry.0).is_eq() {
            return Some(entry.1);
        }
    }
    None
}

// The first bytes, at most all.
fn first(bytes: &[u8], kept: u64) -> &[u8]
    ensures { result.now ≡ take kept bytes.now }
{
    let kept = kept as usize;
    if kept < bytes.len() {
        &bytes[..kept]
    } else {
        bytes
    }
}

impl Sink for MemorySink {
    ghost written = { λ s. Some s.written };

    ghost faults = { λ s. s.faults };

    ghost puts = { λ s. Some s.puts };

    /// Failed comes only at a call that is listed to fail, and there no other answer comes but OutOfMemory. That comes at
    /// each other call that is listed to be refused. Every put counts as a call.
    fn put(&mut self, bytes: &[u8]) -> Result<(), SinkError>
        ensures answer { Puts (Some self.old.written) (Some self.new.written)
            self.old.faults self.new.faults bytes.now result }
        ensures puts { CountsOne (Some self.old.puts) (Some self.new.puts) result }
        ensures later { self.old.faults ≤ self.new.faults }
        ensures after { AfterPut self.old bytes.now result self.new }
    {
        self.calls = self.calls.saturating_add(1);
        if let Some(kept) = find_kept(self.fails.items(), self.calls) {
            self.puts = self.puts.saturating_add(1);
            self.written.append(first(bytes, kept))?;
            self.faults = self.faults.saturating_add(1);
            return Err(SinkError::Failed);
        }
        if is_listed(self.refuses.items(), self.calls) {
            return Err(SinkError::OutOfMemory);
        }
        self.puts = self.puts.saturating_add(1);
        self.written.append(bytes)?;
        Ok(())
    }
}
