//! The cells of a record as texts.
ghost use Rattle.std.specs.Prelude.{◌≡◌, ◌++◌, ◌∷◌, [], slice_index_or, MatchResult};
ghost use Rattle.std.specs.Str.{is_utf8};
ghost use Rattle.csv.specs.Records.{fields_of};
ghost use Rattle.esto_stores.specs.Rows.{are_texts, PutsCell, ReadsRow};
ghost use Rattle.esto_stores.specs.Table.{cells_at};

use csv::ByteRecord;
use esto_ports::FileError;
use esto_term::{List, OutOfMemory, Text, TextError, TextRow, TextRows};
use std::alloc::Global;
use std::str;

/// The cell at a place, or no bytes past the end.
pub fn cell_at(cells: &ByteRecord, place: usize) -> &[u8]
    ensures { result.now ≡ slice_index_or (fields_of cells.now) place [] }
{
    match cells.get(place) {
        Some(cell) => cell,
        None => &[],
    }
}

// Whether bytes are UTF-8.
fn is_text(bytes: &[u8]) -> bool
    ensures { result ≡ is_utf8 bytes.now }
{
    str::from_utf8(bytes).is_ok()
}

/// Whether each cell is UTF-8.
pub fn all_are_texts(cells: &ByteRecord) -> bool
    ensures { result ≡ are_texts (fields_of cells.now) }
{
    'cells: for place in 0..cells.len() {
        if !is_text(cell_at(cells, place)) {
            return false;
        }
    }
    true
}

/// Puts a cell at the end of a row, if it is a text.
pub fn push_cell(alloc: Global, row: &mut TextRow, cell: &[u8]) -> Result<(), TextError>
    ensures { PutsCell row.old cell.now row.new result }
{
    match Text::from_bytes(alloc, cell) {
        Ok(text) => match row.push(text) {
            Ok(()) => Ok(()),
            Err(_) => Err(TextError::OutOfMemory),
        },
        Err(error) => Err(error),
    }
}

/// Puts a row after these.
pub fn put_row(row: TextRow, rows: &mut TextRows) -> Result<(), FileError>
    ensures { MatchResult result (λ _. rows.new ≡ rows.old ++ row ∷ [])
        (λ error. error ≡ FileError.OutOfMemory) }
{
    match rows.push(row) {
        Ok(()) => Ok(()),
        Err(_) => Err(FileError::OutOfMemory),
    }
}

/// The row of the cells at these places, if they are texts.
pub fn text_row(alloc: Global, cells: &ByteRecord, places: &[usize]) -> Result<TextRow, TextError>
    ensures { ReadsRow (cells_at places.now (fields_of cells.now)) result }
{
    let Ok(mut row) = List::with_room(alloc, places.len()) else {
        return Err(TextError::OutOfMemory);
    };
    'places: for place in places {
        push_cell(alloc, &mut row, cell_at(cells, *place))?;
    }
    Ok(row)
}
