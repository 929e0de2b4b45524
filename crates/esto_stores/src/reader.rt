//! Records of a CSV text, one after the other.
ghost use Rattle.std.specs.Prelude.{◌≡◌, IfOk, true};
ghost use Rattle.csv.specs.Reading.{strip_bom, error_kind};
ghost use Rattle.csv.specs.Records.{fields_of};
ghost use Rattle.csv.specs.declared.parser.State.TheVariants as st;
ghost use Rattle.esto_stores.specs.Left.{Reads, left_of, records_at, IsWant, Takes};

use csv::{ByteRecord, ErrorKind, Reader, ReaderBuilder};
use esto_term::OutOfMemory;
use std::alloc::Global;

/// A reader of all records of these bytes, with one leading mark dropped.
pub fn open_reader<'a>(alloc: Global, bytes: &'a [u8]) -> Reader<&'a [u8]>
    ensures reads { Reads result }
    ensures left { left_of result ≡ records_at st.StartRecord (strip_bom bytes.now) }
{
    ReaderBuilder::new()
        .has_headers(false)
        .flexible(true)
        .from_reader(alloc, bytes)
}

// Reading records of any length from memory leaves no error but want of memory.
fn want(error: csv::Error) -> OutOfMemory
    requires { IsWant (error_kind error) }
{
    match error.into_kind() {
        ErrorKind::Io(_) => OutOfMemory,
        ErrorKind::OutOfMemory => OutOfMemory,
        _ => unreachable!(),
    }
}

/// The next record, and whether there is one.
pub fn read_next(reader: &mut Reader<&[u8]>, cells: &mut ByteRecord) -> Result<bool, OutOfMemory>
    requires { Reads reader.old }
    ensures taken { IfOk result (λ found.
        Takes (left_of reader.old) found (fields_of cells.new) (left_of reader.new)) }
    ensures reads { IfOk result (λ found. (found ≡ true) → Reads reader.new) }
{
    match reader.read_byte_record(cells) {
        Ok(found) => Ok(found),
        Err(error) => Err(want(error)),
    }
}
