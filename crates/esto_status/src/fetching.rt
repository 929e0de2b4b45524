//! The fetch of a file, which all commands share.
ghost use Rattle.std.specs.Prelude.{◌≡◌, ◌<◌, ◌≤◌, ◌^◌, IfOk};
ghost use Rattle.esto_ports.specs.Faults.{Rises};
ghost use Rattle.esto_status.specs.Answers.{Answers};
ghost use Rattle.esto_status.specs.Asked.{AsksIn};
ghost use Rattle.esto_ports.specs.Marks.{without_mark};
ghost use Rattle.esto_status.specs.Fetch.{fetches};

use crate::status::Status;
use esto_ports::{MARK, Shelf, ShelfError};
use esto_term::{Bytes, OutOfMemory, Replicate, Text};
use std::alloc::Global;

// The bytes without the one byte-order mark that they may begin with.
fn after_mark(bytes: &[u8]) -> &[u8]
    ensures { result.now ≡ without_mark bytes.now }
{
    if bytes.starts_with(&MARK) {
        &bytes[MARK.len()..]
    } else {
        bytes
    }
}

// A fetched file as it is read.
fn opened(alloc: Global, file: &Bytes) -> Result<Bytes, OutOfMemory>
    ensures { IfOk result (λ bytes. bytes ≡ without_mark file.now) }
{
    Bytes::from_slice(alloc, after_mark(file.bytes()))
}

/// Fetches a file, and gives its bytes after one leading byte-order mark, or the status that refuses the command.
/// The limit counts the file as it is. Its name comes to those that were asked of the shelf; where memory was wanting, it
/// may not.
pub fn fetch<S: Shelf>(
    alloc: Global,
    shelf: &mut S,
    name: &Text,
    limit: u64,
) -> Result<Bytes, Status>
    requires { limit < 2 ^ 32 }
    ensures answer { Answers (fetches (S.files shelf.old) name.now limit)
        (Rises S.faults shelf.old shelf.new) result }
    ensures asked { AsksIn (S.asked shelf.old) (S.asked shelf.new)
        (fetches (S.files shelf.old) name.now limit) result }
    ensures files { S.files shelf.new ≡ S.files shelf.old }
    ensures later { S.faults shelf.old ≤ S.faults shelf.new }
{
    match shelf.fetch(alloc, name, limit) {
        Ok(file) => {
            let bytes = opened(alloc, &file)?;
            Ok(bytes)
        }
        Err(ShelfError::Failed) => Err(Status::ReadFault(name.copy(alloc)?)),
        Err(ShelfError::TooLong(_)) => Err(Status::TooLong(name.copy(alloc)?, limit)),
        Err(ShelfError::OutOfMemory) => Err(Status::OutOfMemory),
    }
}
