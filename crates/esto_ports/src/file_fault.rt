//! What is wrong with the content of a file.
ghost use Rattle.std.specs.Prelude.{◌≡◌};
ghost use Rattle.esto_ports.specs.declared.file_fault.FileError.TheVariants as file;

use esto_term::OutOfMemory;
use thiserror::Error;

/// The kinds of faults of a file's content.
#[derive(Clone, Copy, Debug, PartialEq, Eq)]
pub enum FileKind {
    /// A CSV file has no record.
    NoHeader,
    /// The header of a CSV file has a declared column not exactly once.
    Header,
    /// A record of a CSV file has not as many cells as the header.
    Length,
    /// A cell is not UTF-8.
    NotUtf8,
    /// A line of a JSON file, or the whole of it, is no JSON value.
    BadJson,
    /// A JSON file is no array.
    NotArray,
    /// A line of a key file has not as many cells as there are columns.
    Cells,
}

/// The first fault of a file's content, and where it is. The place of Header is the number of the column, and that of
/// every other kind the number of the record or line, counted from 1. It is 0 for the header and for the whole file.
#[derive(Clone, Copy, Debug, PartialEq, Eq)]
pub struct FileFault {
    pub kind: FileKind,
    pub place: u64,
}

/// Why a file's content is not read.
#[derive(Debug, Drop, Error)]
pub enum FileError {
    /// The content has a fault, and this is the first.
    #[error("the file has a fault")]
    Fault(FileFault),
    #[error("out of memory")]
    OutOfMemory,
}

impl From<OutOfMemory> for FileError {
    ghost from_gives = { λ _ e. e ≡ file.OutOfMemory };

    fn from(_: OutOfMemory) -> FileError {
        FileError::OutOfMemory
    }
}
