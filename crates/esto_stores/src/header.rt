//! The header of a CSV file.
ghost use Rattle.std.specs.Prelude.{◌≡◌, ◌∷◌, List, map, IfOk};
ghost use Rattle.csv.specs.Records.{fields_of};
ghost use Rattle.esto_ports.specs.FileFaults.{Gives};
ghost use Rattle.esto_stores.specs.Header.{ReadsHeader};
ghost use Rattle.esto_stores.specs.Left.{Reads, left_of};
ghost use Rattle.esto_stores.specs.Rows.{Row};
ghost use Rattle.esto_stores.specs.Table.{times_in, place_in, header_fault};

use crate::cells::{all_are_texts, cell_at};
use crate::reader::read_next;
use csv::{ByteRecord, Reader};
use esto_ports::{FileError, FileKind, fault};
use esto_term::{Places, Text, Values};
use std::alloc::Global;

/// How many cells each record has, and where the cells of the declared columns stand.
#[derive(Drop)]
pub struct Header {
    pub width: usize,
    pub places: Places,
}

// How many cells of the header are this name.
fn count_name(header: &ByteRecord, name: &[u8]) -> usize
    ensures { result ≡ times_in (fields_of header.now) name.now }
{
    let mut count: usize = 0;
    'cells: for place in 0..header.len() {
        if cell_at(header, place) == name {
            count += 1;
        }
    }
    count
}

// Where the first cell of the header is that is this name, or else the header's length.
fn find_name(header: &ByteRecord, name: &[u8]) -> usize
    ensures { result ≡ place_in (fields_of header.now) name.now }
{
    'cells: for place in 0..header.len() {
        if cell_at(header, place) == name {
            return place;
        }
    }
    header.len()
}

// Where the declared columns stand, or the first of them that the header has not exactly once.
fn find_columns(alloc: Global, header: &ByteRecord, columns: &[Text]) -> Result<Places, FileError>
    ensures { let cells = fields_of header.now in
        Gives (map (place_in cells) columns.now) (header_fault cells 1 columns.now) result }
{
    let mut places = Values::new(alloc);
    'columns: for column in columns {
        if count_name(header, column.bytes()) != 1 {
            return Err(fault(FileKind::Header, places.len() as u64 + 1));
        }
        places.push(find_name(header, column.bytes()))?;
    }
    Ok(places)
}

// The header that these cells are, or its first fault.
fn header_of(alloc: Global, cells: &ByteRecord, columns: &[Text]) -> Result<Header, FileError>
    ensures { (rows : List Row) → ReadsHeader columns.now (fields_of cells.now ∷ rows) rows result }
{
    if !all_are_texts(cells) {
        return Err(fault(FileKind::NotUtf8, 0));
    }
    match find_columns(alloc, cells, columns) {
        Ok(places) => Ok(Header {
            width: cells.len(),
            places,
        }),
        Err(error) => Err(error),
    }
}

// The header, which is the first of the records that the reader has left, or its first fault. The record is read into
// the cells.
fn first_header(
    alloc: Global,
    reader: &mut Reader<&[u8]>,
    cells: &mut ByteRecord,
    columns: &[Text],
) -> Result<Header, FileError>
    requires { Reads reader.old }
    ensures header { ReadsHeader columns.now (left_of reader.old) (left_of reader.new) result }
    ensures reads { IfOk result (λ _. Reads reader.new) }
{
    match read_next(reader, cells) {
        Ok(true) => header_of(alloc, cells, columns),
        Ok(false) => Err(fault(FileKind::NoHeader, 0)),
        Err(_) => Err(FileError::OutOfMemory),
    }
}

/// The header, which is the first of the records that the reader has left, or its first fault.
pub fn read_header(
    alloc: Global,
    reader: &mut Reader<&[u8]>,
    columns: &[Text],
) -> Result<Header, FileError>
    requires { Reads reader.old }
    ensures header { ReadsHeader columns.now (left_of reader.old) (left_of reader.new) result }
    ensures reads { IfOk result (λ _. Reads reader.new) }
{
    let mut cells = ByteRecord::new(alloc);
    first_header(alloc, reader, &mut cells, columns)
}
