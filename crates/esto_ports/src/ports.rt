//! Where files are fetched from and text is put, and why that fails.
ghost use Rattle.std.specs.Prelude.{◌≡◌, ◌<◌, ◌≤◌, ◌^◌, List, ℕ, Option};
ghost use Rattle.esto_ports.specs.Asked.{Asks, CountsOne};
ghost use Rattle.esto_ports.specs.Files.{Files};
ghost use Rattle.esto_ports.specs.Fetch.{Fetches};
ghost use Rattle.esto_ports.specs.Put.{Puts};
ghost use Rattle.esto_ports.specs.declared.ports.ShelfError.TheVariants as shelf;
ghost use Rattle.esto_ports.specs.declared.ports.SinkError.TheVariants as sink;

use esto_term::{Bytes, OutOfMemory, Text};
use std::alloc::Global;
use thiserror::Error;

/// Why a file is not fetched.
#[derive(Debug, Drop, Error)]
pub enum ShelfError {
    /// The shelf was at a fault, which it counted.
    #[error("the file cannot be read")]
    Failed,
    /// The file is longer than the limit. So many bytes were read: one more than the limit.
    #[error("the file is too long: {0} bytes were read")]
    TooLong(u64),
    #[error("out of memory")]
    OutOfMemory,
}

/// Why bytes are not put.
#[derive(Debug, Drop, Error)]
pub enum SinkError {
    /// The sink was at a fault, which it counted.
    #[error("the text cannot be written")]
    Failed,
    #[error("out of memory")]
    OutOfMemory,
}

impl From<OutOfMemory> for ShelfError {
    ghost from_gives = { λ _ e. e ≡ shelf.OutOfMemory };

    fn from(_: OutOfMemory) -> ShelfError {
        ShelfError::OutOfMemory
    }
}

impl From<OutOfMemory> for SinkError {
    ghost from_gives = { λ _ e. e ≡ sink.OutOfMemory };

    fn from(_: OutOfMemory) -> SinkError {
        SinkError::OutOfMemory
    }
}

/// Where files are fetched from.
pub trait Shelf {
    /// The files, where the shelf tells them.
    ghost files: { Self → Option Files };

    /// How many fetches were at a fault. The count stays at 2^64 - 1.
    ghost faults: { Self → ℕ };

    /// The names that were asked for, in order, where the shelf tells them.
    ghost asked: { Self → Option (List (List ℕ)) };

    /// The bytes of the file of that name, which are at most `limit`. Failed comes only where the count of
    /// faults rose. Where the files are told, TooLong comes exactly where the fetch isn't at a fault and the
    /// file is longer than `limit`; want of memory aside. The name comes to those that were asked for, where they
    /// are told; at OutOfMemory it may not.
    fn fetch(&mut self, alloc: Global, name: &Text, limit: u64) -> Result<Bytes, ShelfError>
        requires { limit < 2 ^ 32 }
        ensures answer { Fetches (files self.old) name.now limit
            (faults self.old) (faults self.new) result }
        ensures files { files self.new ≡ files self.old }
        ensures asked { Asks (asked self.old) (asked self.new) name.now result }
        ensures later { faults self.old ≤ faults self.new };
}

/// Where text is put.
pub trait Sink {
    /// What was written, where the sink tells it.
    ghost written: { Self → Option (List ℕ) };

    /// How many puts were at a fault. The count stays at 2^64 - 1.
    ghost faults: { Self → ℕ };

    /// How many puts there were, where the sink tells it. The count stays at 2^64 - 1.
    ghost puts: { Self → Option ℕ };

    /// Puts the bytes at the end of what was written. Failed comes only where the count of faults rose, and
    /// a prefix of the bytes was put. At OutOfMemory nothing was, and the put may not be counted.
    fn put(&mut self, bytes: &[u8]) -> Result<(), SinkError>
        ensures answer { Puts (written self.old) (written self.new)
            (faults self.old) (faults self.new) bytes.now result }
        ensures puts { CountsOne (puts self.old) (puts self.new) result }
        ensures later { faults self.old ≤ faults self.new };
}
