//! Whether in rows the codes after the first tell the first.
ghost use Rattle.std.specs.Prelude.{◌≡◌, ◌↔◌, ◌+◌, ◌<◌, [], ℕ, List, length, take, drop, map, IsTrue, IfOk, Contains};
ghost use Rattle.esto_columns.specs.Indexed.{IsIndexOf};
ghost use Rattle.esto_rows.specs.Told.{IsContrary, AreTold, ShowsApart};

use esto_columns::{Index, Rows};
use esto_term::{OutOfMemory, Values};
use std::alloc::Global;

/// The codes of the row after the first.
fn key_of(row: &[u64]) -> &[u64]
    ensures { result.now ≡ drop 1 row.now }
{
    match row.split_first() {
        Some((_code, key)) => key,
        None => row,
    }
}

/// Whether the rows have the same codes but for the first.
fn is_contrary(row: &[u64], other: &[u64]) -> bool
    ensures { IsTrue result ↔ IsContrary row.now other.now }
{
    let Some((code, key)) = row.split_first() else {
        return false;
    };
    let Some((more, rest)) = other.split_first() else {
        return false;
    };
    *code != *more && key == rest
}

/// Whether the two rows are the same.
fn is_same(row: &[u64], other: &[u64]) -> bool
    ensures { IsTrue result ↔ (row.now ≡ other.now) }
{
    row == other
}

/// Whether one of the rows before the place has the same codes as the row but for the first, by the index of these:
/// only those of its bucket are looked at, and none after the row itself. They are read into the list.
fn has_contrary(
    rows: &Rows,
    at: usize,
    index: &Index,
    row: &[u64],
    other: &mut Values<u64>,
) -> Result<bool, OutOfMemory>
    requires own { IsIndexOf index.now (map (drop 1) (take at rows.now.rows)) }
    requires told { AreTold (take at rows.now.rows) }
    ensures { IfOk result (λ it. IsTrue it
        ↔ ((more : List ℕ) × Contains (take at rows.now.rows) more × IsContrary row.now more)) }
{
    if at == 0 {
        return Ok(false);
    }
    let mut next = index.last_of(key_of(row));
    'places: while next > 0 {
        let place = next - 1;
        rows.read_row(place, other)?;
        if is_same(row, other.items()) {
            return Ok(false);
        }
        if is_contrary(row, other.items()) {
            return Ok(true);
        }
        next = index.before(place);
    }
    Ok(false)
}

/// Whether the row at the place shows that the rows are not told, and puts it into the index of the rows before it.
/// Rows are read into the two lists.
fn is_apart(
    rows: &Rows,
    at: usize,
    index: &mut Index,
    row: &mut Values<u64>,
    other: &mut Values<u64>,
) -> Result<bool, OutOfMemory>
    requires there { at < length rows.now.rows }
    requires own { IsIndexOf index.old (map (drop 1) (take at rows.now.rows)) }
    requires told { AreTold (take at rows.now.rows) }
    ensures own { IfOk result (λ _.
        IsIndexOf index.new (map (drop 1) (take (at + 1) rows.now.rows))) }
    ensures apart { IfOk result (ShowsApart rows.now.rows at) }
{
    rows.read_row(at, row)?;
    let apart = has_contrary(rows, at, index, row.items(), other)?;
    index.add(key_of(row.items()))?;
    Ok(apart)
}

/// Whether in each of the rows the codes after the first tell the first. The index is empty before. Rows are read into
/// the two lists.
fn are_told_by(
    rows: &Rows,
    index: &mut Index,
    row: &mut Values<u64>,
    other: &mut Values<u64>,
) -> Result<bool, OutOfMemory>
    requires { IsIndexOf index.old [] }
    ensures { IfOk result (λ it. IsTrue it ↔ AreTold rows.now.rows) }
{
    'rows: for at in 0..rows.len() {
        if is_apart(rows, at, index, row, other)? {
            return Ok(false);
        }
    }
    Ok(true)
}

/// Whether in each of the rows the codes after the first tell the first.
pub fn are_told(alloc: Global, rows: &Rows) -> Result<bool, OutOfMemory>
    ensures { IfOk result (λ it. IsTrue it ↔ AreTold rows.now.rows) }
{
    let mut index = Index::new(alloc, rows.len())?;
    let mut row = Values::new(alloc);
    let mut other = Values::new(alloc);
    are_told_by(rows, &mut index, &mut row, &mut other)
}
