//! The text of a CSV file.
ghost use Rattle.std.specs.Prelude.{◌≡◌, ◌≢◌, ◌<◌, ◌++◌, true, map, length, All, AllPairs, IfOk, OnOk, None};
ghost use Rattle.std.specs.List.{list_all};
ghost use Rattle.csv.specs.Writing.{default_writer, row_text};
ghost use Rattle.esto_stores.specs.Rows.{are_texts};
ghost use Rattle.esto_stores.specs.Table.{table_rows, table_fault};
ghost use Rattle.esto_stores.specs.TableText.{StartsPlain, Writes, written, table_text};

use csv::{Writer, WriterBuilder};
use esto_term::{Bytes, OutOfMemory, Text, TextRow, TextRows};
use std::alloc::Global;

// The cells of a row, lent.
fn lend_cells<'a>(alloc: Global, row: &'a [Text]) -> Result<Vec<&'a [u8]>, OutOfMemory>
    ensures cells { IfOk result (λ cells. map (λ cell. cell.now) cells.items ≡ row.now) }
    ensures texts { IfOk result (λ _. are_texts row.now ≡ true) }
{
    let mut cells = Vec::new(alloc);
    'cells: for cell in row {
        if cells.push(cell.bytes()).is_err() {
            return Err(OutOfMemory);
        }
    }
    Ok(cells)
}

// Writes one record. A writer over memory and rows of equal length leave no error but want of memory.
fn put_cells(writer: &mut Writer<Vec<u8>>, cells: &[&[u8]]) -> Result<(), OutOfMemory>
    requires { Writes writer.old }
    ensures writes { OnOk result (Writes writer.new) }
    ensures text { OnOk result (written writer.new
        ≡ written writer.old ++ row_text default_writer (map (λ cell. cell.now) cells.now)) }
{
    match writer.write_fields(cells) {
        Ok(()) => Ok(()),
        Err(_) => Err(OutOfMemory),
    }
}

// Writes the record of a row.
fn put_row(alloc: Global, writer: &mut Writer<Vec<u8>>, row: &[Text]) -> Result<(), OutOfMemory>
    requires { Writes writer.old }
    ensures writes { OnOk result (Writes writer.new) }
    ensures text { OnOk result
        (written writer.new ≡ written writer.old ++ row_text default_writer row.now) }
    ensures texts { OnOk result (are_texts row.now ≡ true) }
{
    let cells = lend_cells(alloc, row)?;
    put_cells(writer, cells.as_slice())
}

// The bytes, which are moved where they are a text, and else copied.
fn taken(alloc: Global, bytes: Vec<u8>) -> Result<Bytes, OutOfMemory>
    ensures { IfOk result (λ it. it ≡ bytes.items) }
{
    match String::from_utf8(bytes) {
        Ok(text) => Ok(Bytes::from_string(text)),
        Err(error) => Bytes::from_slice(alloc, error.as_bytes()),
    }
}

// The bytes that the writer has written.
fn ended(alloc: Global, writer: Writer<Vec<u8>>) -> Result<Bytes, OutOfMemory>
    requires { Writes writer }
    ensures { IfOk result (λ text. text ≡ written writer) }
{
    match writer.into_inner() {
        Ok(bytes) => taken(alloc, bytes),
        Err(_) => Err(OutOfMemory),
    }
}

// A writer that has written the columns.
fn started(alloc: Global, columns: &TextRow) -> Result<Writer<Vec<u8>>, OutOfMemory>
    ensures writes { IfOk result Writes }
    ensures text { IfOk result
        (λ writer. written writer ≡ row_text default_writer columns.now) }
    ensures columns { IfOk result (λ _. are_texts columns.now ≡ true) }
{
    let mut writer = WriterBuilder::new().from_writer(Vec::new(alloc));
    put_row(alloc, &mut writer, columns.items())?;
    Ok(writer)
}

// Writes the columns and then the rows.
fn put_rows(alloc: Global, columns: &TextRow, rows: &TextRows) -> Result<Bytes, OutOfMemory>
    ensures text { IfOk result (λ text. text ≡ table_text columns.now rows.now) }
    ensures columns { IfOk result (λ _. are_texts columns.now ≡ true) }
    ensures rows { IfOk result (λ _. list_all are_texts rows.now ≡ true) }
{
    let mut writer = started(alloc, columns)?;
    'rows: for row in rows.items() {
        put_row(alloc, &mut writer, row.items())?;
    }
    ended(alloc, writer)
}

/// The text of these columns, whatever they are, and of the rows under them, whose cells are lent: a CSV record of each.
pub fn write_lent_records(
    alloc: Global,
    columns: &TextRow,
    rows: &[&[&[u8]]],
) -> Result<Bytes, OutOfMemory>
    requires { All (λ row. length row.now ≡ length columns.now) rows.now }
    ensures { IfOk result (λ text. text
        ≡ table_text columns.now (map (λ row. map (λ cell. cell.now) row.now) rows.now)) }
{
    let mut writer = started(alloc, columns)?;
    'rows: for row in rows {
        put_cells(&mut writer, *row)?;
    }
    ended(alloc, writer)
}

/// The text of these columns, whatever they are, and of the rows under them: a CSV record of each.
pub fn write_records(
    alloc: Global,
    columns: &TextRow,
    rows: &TextRows,
) -> Result<Bytes, OutOfMemory>
    requires { All (λ row. length row ≡ length columns.now) rows.now }
    ensures { IfOk result (λ text. text ≡ table_text columns.now rows.now) }
{
    put_rows(alloc, columns, rows)
}

/// The text of a CSV file with these columns and rows. It is opened as the same rows.
pub fn write_table(alloc: Global, columns: &TextRow, rows: &TextRows) -> Result<Bytes, OutOfMemory>
    requires some { 0 < length columns.now }
    requires distinct { AllPairs ◌≢◌ columns.now }
    requires plain { StartsPlain columns.now }
    requires lengths { All (λ row. length row ≡ length columns.now) rows.now }
    ensures text { IfOk result (λ text. text ≡ table_text columns.now rows.now) }
    ensures rows { IfOk result (λ text. table_rows columns.now text ≡ rows.now) }
    ensures fault { IfOk result (λ text. table_fault columns.now text ≡ None) }
{
    put_rows(alloc, columns, rows)
}
