//! Cells as codes.
ghost use Rattle.std.specs.Prelude.{◌≡◌, length, OnOk};
ghost use Rattle.esto_columns.specs.Interned.{Grows};
ghost use Rattle.esto_stores.specs.Coded.{FaultsNext, PutsCode, PutsCodes};

use esto_columns::{Codes, Rows};
use esto_ports::{FileError, FileKind, fault};
use esto_term::{TextError, Values};

/// Puts the code of a cell at the end of the codes, if it is a text. A new text gets a code.
pub fn push_code(cell: &[u8], codes: &mut Codes, row: &mut Values<u64>) -> Result<(), TextError>
    ensures put { PutsCode cell.now row.old codes.new row.new result }
    ensures grown { Grows codes.old codes.new }
{
    match codes.intern(cell) {
        Ok(code) => match row.push(code) {
            Ok(()) => Ok(()),
            Err(_) => Err(TextError::OutOfMemory),
        },
        Err(error) => Err(error),
    }
}

/// The fault of the kind at the row after these, or want of memory where that row has no number.
pub fn next_fault(kind: FileKind, coded: &Rows) -> FileError
    ensures { FaultsNext kind coded.now result }
{
    match coded.len().checked_add(1) {
        Some(number) => fault(kind, number as u64),
        None => FileError::OutOfMemory,
    }
}

/// Puts the codes that were read of a row's cells after the rows of codes. A cell that is no text is the row's fault.
pub fn put_codes(
    read: Result<(), TextError>,
    row: &[u64],
    coded: &mut Rows,
) -> Result<(), FileError>
    requires { OnOk read (length row.now ≡ coded.old.arity) }
    ensures { PutsCodes read row.now coded.old coded.new result }
{
    match read {
        Ok(()) => match coded.add(row) {
            Ok(()) => Ok(()),
            Err(_) => Err(FileError::OutOfMemory),
        },
        Err(TextError::NotUtf8) => Err(next_fault(FileKind::NotUtf8, coded)),
        Err(TextError::OutOfMemory) => Err(FileError::OutOfMemory),
    }
}
