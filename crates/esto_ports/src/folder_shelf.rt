//! A shelf over the machine's files. It tells nothing of what they hold.
ghost use Rattle.std.specs.Prelude.{◌≡◌, ◌<◌, ◌≤◌, ◌^◌, length, take, None, IfOk, IfSome};
ghost use Rattle.esto_ports.specs.Fetch.{Fetches};
ghost use Rattle.esto_ports.specs.FolderShelf.{CountsFetch};
ghost use Rattle.esto_ports.specs.declared.folder_shelf.ReadError.TheVariants as read;

use crate::ports::{Shelf, ShelfError};
use esto_term::{Bytes, OutOfMemory, Text};
use std::alloc::Global;
use std::fs;
use std::io::Read;
use std::marker::Model;
use std::rt::Files;

/// A shelf over the machine's files, which contracts see as its count of faults. A name is a path.
#[derive(Drop)]
pub struct FolderShelf<'a, R: Files> {
    rt: &'a R,
    faults: u64,
}

impl<'a, R: Files> Model for FolderShelf<'a, R> {
    ghost use Rattle.std.specs.Prelude.{ℕ};

    ghost Value = { ℕ };

    ghost view = { λ s. s.faults };
}

impl<'a, R: Files> FolderShelf<'a, R> {
    /// No fault yet.
    pub fn new(rt: &'a R) -> FolderShelf<'a, R>
        ensures { result ≡ 0 }
    {
        FolderShelf { rt, faults: 0 }
    }
}

// Why a file could not be read.
#[derive(Drop)]
enum ReadError {
    Fault,
    OutOfMemory,
}

impl From<OutOfMemory> for ReadError {
    ghost from_gives = { λ _ e. e ≡ read.OutOfMemory };

    fn from(_: OutOfMemory) -> ReadError {
        ReadError::OutOfMemory
    }
}

// Reads to the end, or so many bytes. Each turn takes at least one byte. Where the reader's bytes are known,
// it gives the first of them.
fn read_up_to<F: Read>(alloc: Global, file: &mut F, most: usize) -> Result<Bytes, ReadError>
    ensures within { IfOk result (λ bytes. length bytes ≤ most) }
    ensures first { IfOk result (λ bytes.
        IfSome (F.remaining file.old) (λ rest. bytes ≡ take most rest)) }
{
    let mut bytes = Bytes::new(alloc);
    let mut buffer = [0u8; 4096];
    'reading: while bytes.bytes().len() < most {
        let room = (most - bytes.bytes().len()).min(4096);
        match file.read(&mut buffer[..room]) {
            Ok(0) => break,
            Ok(count) => bytes.append(&buffer[..count])?,
            Err(_) => return Err(ReadError::Fault),
        }
    }
    Ok(bytes)
}

fn read_file<R: Files>(rt: &R, alloc: Global, path: &str, most: usize) -> Result<Bytes, ReadError>
    ensures { IfOk result (λ bytes. length bytes ≤ most) }
{
    match fs::open(rt, path) {
        Ok(mut file) => read_up_to(alloc, &mut file, most),
        Err(_) => Err(ReadError::Fault),
    }
}

impl<'a, R: Files> Shelf for FolderShelf<'a, R> {
    ghost files = { λ _. None };

    ghost faults = { λ s. s };

    ghost asked = { λ _. None };

    /// The count rises at Failed alone. At its last value every fetch fails, and the machine isn't asked.
    fn fetch(&mut self, alloc: Global, name: &Text, limit: u64) -> Result<Bytes, ShelfError>
        requires { limit < 2 ^ 32 }
        ensures answer { Fetches None name.now limit self.old self.new result }
        ensures later { self.old ≤ self.new }
        ensures count { CountsFetch self.old self.new result }
    {
        if self.faults == u64::MAX {
            return Err(ShelfError::Failed);
        }
        match read_file(self.rt, alloc, name.as_str(), limit as usize + 1) {
            Ok(bytes) => {
                if bytes.bytes().len() as u64 > limit {
                    return Err(ShelfError::TooLong(limit + 1));
                }
                Ok(bytes)
            }
            Err(ReadError::Fault) => {
                self.faults = self.faults.saturating_add(1);
                Err(ShelfError::Failed)
            }
            Err(ReadError::OutOfMemory) => Err(ShelfError::OutOfMemory),
        }
    }
}
