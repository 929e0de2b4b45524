//! The rows of CSV files as rows of codes.
ghost use Rattle.std.specs.Prelude.{◌≡◌, [], length, map};
ghost use Rattle.csv.specs.Records.{fields_of};
ghost use Rattle.esto_columns.specs.Interned.{Grows};
ghost use Rattle.esto_ports.specs.declared.file_fault.FileKind.TheVariants as kinds;
ghost use Rattle.esto_stores.specs.Coded.{AddsRow, CodesCells, CodesRows, FillsRows};
ghost use Rattle.esto_stores.specs.Left.{Reads, left_of};
ghost use Rattle.esto_stores.specs.Rows.{first_fault};
ghost use Rattle.esto_stores.specs.Table.{cells_at, fault_of_records, rows_of_records, table_fault, table_rows};

use crate::cells::cell_at;
use crate::coded_rows::{next_fault, push_code, put_codes};
use crate::header::{Header, read_header};
use crate::marks::drop_marks;
use crate::reader::{open_reader, read_next};
use csv::{ByteRecord, Reader};
use esto_columns::{Codes, Rows};
use esto_ports::{FileError, FileKind};
use esto_term::{Text, TextError, TextRow, Values};
use std::alloc::Global;

// Makes the row the codes of the cells at these places, if they are texts. New texts get codes.
fn code_cells(
    cells: &ByteRecord,
    places: &[usize],
    codes: &mut Codes,
    row: &mut Values<u64>,
) -> Result<(), TextError>
    ensures coded { CodesCells (cells_at places.now (fields_of cells.now))
        codes.new row.new result }
    ensures grown { Grows codes.old codes.new }
{
    row.truncate(0);
    'places: for place in places {
        push_code(cell_at(cells, *place), codes, row)?;
    }
    Ok(())
}

// Puts the codes of a record under the header after the rows of codes, or finds its fault.
fn add_record(
    cells: &ByteRecord,
    header: &Header,
    codes: &mut Codes,
    row: &mut Values<u64>,
    coded: &mut Rows,
) -> Result<(), FileError>
    requires { length header.now.places ≡ coded.old.arity }
    ensures adds { AddsRow kinds.Length header.now.width (cells_at header.now.places)
        (fields_of cells.now) codes.old coded.old codes.new coded.new result }
    ensures grown { Grows codes.old codes.new }
{
    if cells.len() != header.width {
        return Err(next_fault(FileKind::Length, coded));
    }
    let read = code_cells(cells, header.places.items(), codes, row);
    put_codes(read, row.items(), coded)
}

// Puts the codes of the records that the reader has left into the rows of codes, up to the first fault. Each record is
// read into the cells, and coded into the row.
fn add_records(
    reader: &mut Reader<&[u8]>,
    header: &Header,
    cells: &mut ByteRecord,
    codes: &mut Codes,
    row: &mut Values<u64>,
    coded: &mut Rows,
) -> Result<(), FileError>
    requires reads { Reads reader.old }
    requires empty { coded.old ≡ record { arity = length header.now.places; rows = [] } }
    ensures rows { let left = left_of reader.old in
        let taken = cells_at header.now.places in
        FillsRows (map taken left) (first_fault kinds.Length header.now.width taken 1 left)
        (length header.now.places) codes.new coded.new result }
    ensures grown { Grows codes.old codes.new }
{
    'records: while read_next(reader, cells)? {
        add_record(cells, header, codes, row, coded)?;
    }
    Ok(())
}

// The records that the reader has left under the header, as rows of codes. Each record is read into the cells, and
// coded into the row.
fn code_under(
    alloc: Global,
    reader: &mut Reader<&[u8]>,
    header: &Header,
    cells: &mut ByteRecord,
    codes: &mut Codes,
    row: &mut Values<u64>,
) -> Result<Rows, FileError>
    requires { Reads reader.old }
    ensures rows { let left = left_of reader.old in
        let taken = cells_at header.now.places in
        CodesRows (map taken left) (first_fault kinds.Length header.now.width taken 1 left)
        (length header.now.places) codes.new result }
    ensures grown { Grows codes.old codes.new }
{
    let mut coded = Rows::new(alloc, header.places.len())?;
    add_records(reader, header, cells, codes, row, &mut coded)?;
    Ok(coded)
}

// The records that the reader has left, the header first, as rows of codes.
fn code_records(
    alloc: Global,
    reader: &mut Reader<&[u8]>,
    columns: &[Text],
    codes: &mut Codes,
) -> Result<Rows, FileError>
    requires { Reads reader.old }
    ensures rows { let records = left_of reader.old in
        CodesRows (rows_of_records columns.now records) (fault_of_records columns.now records)
        (length columns.now) codes.new result }
    ensures grown { Grows codes.old codes.new }
{
    let header = read_header(alloc, reader, columns)?;
    let mut cells = ByteRecord::new(alloc);
    let mut row = Values::new(alloc);
    code_under(alloc, reader, &header, &mut cells, codes, &mut row)
}

/// The rows of a CSV file that declares these columns as rows of codes, or its first fault. Rows and fault are those of
/// `open_table`, but no row of texts is made: each cell of a declared column gets its code as its record is read. New
/// texts get codes; where there is a fault, those of the rows before it may have got theirs.
pub fn code_table(
    alloc: Global,
    bytes: &[u8],
    columns: &TextRow,
    codes: &mut Codes,
) -> Result<Rows, FileError>
    ensures rows { CodesRows (table_rows columns.now bytes.now) (table_fault columns.now bytes.now)
        (length columns.now) codes.new result }
    ensures grown { Grows codes.old codes.new }
{
    let mut reader = open_reader(alloc, drop_marks(bytes));
    code_records(alloc, &mut reader, columns.items(), codes)
}
