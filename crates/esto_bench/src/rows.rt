//! The rows of the made case.
ghost use Rattle.std.specs.Prelude.{◌≡◌, ◌<◌, ◌≤◌, ◌+◌, ◌*◌, ◌++◌, ◌∷◌, [], None, IfOk, OnOk};
ghost use Rattle.std.specs.Fmt.{decimal};
ghost use Rattle.esto_stores.specs.Table.{table_rows, table_fault};
ghost use Rattle.esto_stores.specs.TableText.{table_text};
ghost use Rattle.esto_bench.specs.Case.{IsMadeCatalogue, made_columns, made_row, made_rows};
ghost use Rattle.esto_bench.specs.Made.{AreOpenedBelow};

use crate::case::MAX_SIZE;
use crate::fragments::made_columns;
use esto_mapping::Catalogue;
use esto_ports::FileError;
use esto_run::{FragmentRows, no_rows, open_fragment};
use esto_stores::write_table;
use esto_term::{Bytes, List, OutOfMemory, Text, TextRow, TextRows};
use std::alloc::Global;

/// How many rows each relation has.
pub const ROWS: usize = 97;

// The number in decimal.
fn decimal_text(alloc: Global, number: usize) -> Result<Text, OutOfMemory>
    ensures { IfOk result (λ it. it ≡ decimal number) }
{
    let text = format!(in alloc; "{number}")?;
    Text::from_str(alloc, text.as_str())
}

// Puts the number in decimal at the end.
fn push_decimal(alloc: Global, row: &mut TextRow, number: usize) -> Result<(), OutOfMemory>
    ensures { OnOk result (row.new ≡ row.old ++ decimal number ∷ []) }
{
    let text = decimal_text(alloc, number)?;
    row.push(text)
}

// The row of the relation at the place.
fn made_row(alloc: Global, relation: usize, place: usize) -> Result<TextRow, OutOfMemory>
    requires relation { relation < MAX_SIZE }
    requires place { place < ROWS }
    ensures { IfOk result (λ it. it ≡ made_row relation place) }
{
    let mut row = List::new(alloc);
    push_decimal(alloc, &mut row, place)?;
    push_decimal(alloc, &mut row, (3 * place + (relation + 1)) % ROWS)?;
    Ok(row)
}

// The rows of the relation.
#[tactic(auto, using(crate::proofs::BothLemmas::mapped_more))]
fn made_rows(alloc: Global, relation: usize) -> Result<TextRows, OutOfMemory>
    requires { relation < MAX_SIZE }
    ensures { IfOk result (λ it. it ≡ made_rows relation) }
{
    let mut rows = List::new(alloc);
    'places: for place in 0..ROWS {
        let row = made_row(alloc, relation, place)?;
        rows.push(row)?;
    }
    Ok(rows)
}

// The content of the file of both fragments of the relation.
fn content_of(alloc: Global, relation: usize) -> Result<Bytes, OutOfMemory>
    requires { relation < MAX_SIZE }
    ensures text { IfOk result (λ it. it ≡ table_text made_columns (made_rows relation)) }
    ensures rows { IfOk result (λ it. table_rows made_columns it ≡ made_rows relation) }
    ensures fault { IfOk result (λ it. table_fault made_columns it ≡ None) }
{
    let columns = made_columns(alloc)?;
    let rows = made_rows(alloc, relation)?;
    write_table(alloc, &columns, &rows)
}

// Opens the content of the fragment of the number.
fn open_made(
    alloc: Global,
    catalogue: &Catalogue,
    size: usize,
    number: usize,
    opened: &mut FragmentRows,
) -> Result<(), OutOfMemory>
    requires made { IsMadeCatalogue size catalogue.now }
    requires few { size ≤ MAX_SIZE }
    requires there { number < 2 * size }
    requires opened { AreOpenedBelow catalogue.now number opened.old }
    ensures { OnOk result (AreOpenedBelow catalogue.now (number + 1) opened.new) }
{
    let content = content_of(alloc, number / 2)?;
    match open_fragment(alloc, catalogue, number, content.bytes(), opened) {
        Ok(()) => Ok(()),
        Err(FileError::Fault(_)) => unreachable!(),
        Err(FileError::OutOfMemory) => Err(OutOfMemory),
    }
}

/// The rows of the fragments of the made case.
pub fn made_opened(
    alloc: Global,
    catalogue: &Catalogue,
    size: usize,
) -> Result<FragmentRows, OutOfMemory>
    requires made { IsMadeCatalogue size catalogue.now }
    requires few { size ≤ MAX_SIZE }
    ensures { IfOk result (AreOpenedBelow catalogue.now (2 * size)) }
{
    let mut opened = no_rows(alloc, &catalogue.fragments)?;
    'fragments: for number in 0..2 * size {
        open_made(alloc, catalogue, size, number, &mut opened)?;
    }
    Ok(opened)
}
