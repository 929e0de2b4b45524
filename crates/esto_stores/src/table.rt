//! The rows of CSV files.
ghost use Rattle.std.specs.Prelude.{◌≡◌, ◌+◌, length, map};
ghost use Rattle.esto_ports.specs.declared.file_fault.FileKind.TheVariants as kinds;
ghost use Rattle.esto_ports.specs.FileFaults.{Gives};
ghost use Rattle.csv.specs.Records.{fields_of};
ghost use Rattle.esto_stores.specs.Rows.{AddsTexts, first_fault};
ghost use Rattle.esto_stores.specs.Left.{Reads, left_of};
ghost use Rattle.esto_stores.specs.Table.{cells_at, fault_of_records, rows_of_records, table_fault, table_rows};

use crate::cells::{put_row, text_row};
use crate::header::read_header;
use crate::marks::drop_marks;
use crate::reader::{open_reader, read_next};
use csv::{ByteRecord, Reader};
use esto_ports::{FileError, FileKind, fault};
use esto_term::{List, Text, TextError, TextRow, TextRows};
use std::alloc::Global;

// Puts the cells at these places of the record of this number, which is to have so many, as a row after these, or finds its
// fault.
fn add_record(
    alloc: Global,
    cells: &ByteRecord,
    width: usize,
    places: &[usize],
    number: u64,
    rows: &mut TextRows,
) -> Result<(), FileError>
    requires { number ≡ length rows.old + 1 }
    ensures { AddsTexts kinds.Length width (cells_at places.now) (fields_of cells.now)
        rows.old rows.new result }
{
    if cells.len() != width {
        return Err(fault(FileKind::Length, number));
    }
    match text_row(alloc, cells, places) {
        Ok(row) => put_row(row, rows),
        Err(TextError::NotUtf8) => Err(fault(FileKind::NotUtf8, number)),
        Err(TextError::OutOfMemory) => Err(FileError::OutOfMemory),
    }
}

// The records that the reader has left, as rows of the cells at these places. Each record is read into the cells.
fn read_rows(
    alloc: Global,
    reader: &mut Reader<&[u8]>,
    cells: &mut ByteRecord,
    width: usize,
    places: &[usize],
) -> Result<TextRows, FileError>
    requires { Reads reader.old }
    ensures { let left = left_of reader.old in
        let taken = cells_at places.now in
        Gives (map taken left) (first_fault kinds.Length width taken 1 left) result }
{
    let mut rows: TextRows = List::new(alloc);
    'records: while read_next(reader, cells)? {
        let number = rows.len() as u64 + 1;
        add_record(alloc, cells, width, places, number, &mut rows)?;
    }
    Ok(rows)
}

// The rows of the records that the reader has left, the header first.
fn open_records(
    alloc: Global,
    reader: &mut Reader<&[u8]>,
    columns: &[Text],
) -> Result<TextRows, FileError>
    requires { Reads reader.old }
    ensures { let records = left_of reader.old in
        Gives (rows_of_records columns.now records) (fault_of_records columns.now records) result }
{
    let header = read_header(alloc, reader, columns)?;
    let mut cells = ByteRecord::new(alloc);
    read_rows(
        alloc,
        reader,
        &mut cells,
        header.width,
        header.places.items(),
    )
}

/// The rows of a CSV file that declares these columns, or its first fault. Records are those that `csv` reads at its
/// default settings, of any length, after each byte-order mark at the start; the first is the header. The declared
/// columns stand in any places of it, and others are not looked at. NoHeader comes at place 0 where there is no record;
/// NotUtf8 at place 0 where a cell of the header is not UTF-8; Header at the first declared column, counted from 1, that
/// the header has not exactly once. Then, record by record, counted from 1 after the header: Length where it has not as
/// many cells as the header, and NotUtf8 where a cell of a declared column is not UTF-8.
pub fn open_table(alloc: Global, bytes: &[u8], columns: &TextRow) -> Result<TextRows, FileError>
    ensures { Gives (table_rows columns.now bytes.now) (table_fault columns.now bytes.now) result }
{
    let mut reader = open_reader(alloc, drop_marks(bytes));
    open_records(alloc, &mut reader, columns.items())
}
