//! Cells and records of CSV.
ghost use Rattle.std.specs.Prelude.{◌≡◌, ◌∷◌, [], IfOk};
ghost use Rattle.csv.specs.Writing.{default_writer, row_text};
ghost use Rattle.esto_status.specs.Line.{cell_of};

use csv::WriterBuilder;
use esto_stores::write_records;
use esto_term::{Bytes, List, OutOfMemory, TextRow};
use std::alloc::Global;

// The record of this one cell, with the line feed that ends it.
fn cell_record(alloc: Global, cell: &[u8]) -> Result<Vec<u8>, OutOfMemory>
    ensures { IfOk result (λ text. text.items ≡ row_text default_writer (cell.now ∷ [])) }
{
    let mut writer = WriterBuilder::new().from_writer(Vec::new(alloc));
    if writer.write_fields(&[cell]).is_err() {
        return Err(OutOfMemory);
    }
    match writer.into_inner() {
        Ok(text) => Ok(text),
        Err(_) => Err(OutOfMemory),
    }
}

/// The cell as a record of one cell has it, without the line feed.
pub fn cell_text(alloc: Global, cell: &[u8]) -> Result<Bytes, OutOfMemory>
    ensures { IfOk result (λ text. text ≡ cell_of cell.now) }
{
    let text = cell_record(alloc, cell)?;
    let without_end = text.len().saturating_sub(1);
    Bytes::from_slice(alloc, &text[..without_end])
}

/// The record of these cells, with the line feed that ends it.
pub fn record_text(alloc: Global, cells: &TextRow) -> Result<Bytes, OutOfMemory>
    ensures { IfOk result (λ text. text ≡ row_text default_writer cells.now) }
{
    let rows = List::new(alloc);
    write_records(alloc, cells, &rows)
}
