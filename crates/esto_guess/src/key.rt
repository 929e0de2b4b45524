//! Keys of rows so far: cells such that no two of the rows have the same codes in all of them.
use crate::kept::{Keyed, code_kept_at, is_key_kept};
use crate::marks::all_differ;
use esto_columns::Rows;
use esto_steps::{Source, Sources};
use esto_term::{OutOfMemory, Places, Replicate, Values};
use std::alloc::Global;

/// Puts the place at the end of the list, unless it is there.
fn push_once(into: &mut Places, place: usize) -> Result<(), OutOfMemory> {
    'places: for other in into.items() {
        if *other == place {
            return Ok(());
        }
    }
    into.push(place)
}

/// Puts at the end of the list where among the kept the codes of the join's key stand, as far as they are kept and are not
/// there. Rows so far have so many cells.
fn push_key(into: &mut Places, join: &Keyed, width: usize) -> Result<(), OutOfMemory> {
    'cells: for cell in join.key.items() {
        if let Some(at) = code_kept_at(join, width, *cell) {
            push_once(into, at)?;
        }
    }
    Ok(())
}

/// Puts at the end of the list the places of those kept that are cells of the fragment's row. Rows so far have so many
/// cells.
fn push_new(into: &mut Places, kept: &Sources, width: usize) -> Result<(), OutOfMemory> {
    'sources: for (at, source) in kept.items().iter().enumerate() {
        if let Source::Cell(cell) = source {
            if *cell >= width {
                into.push(at)?;
            }
        }
    }
    Ok(())
}

/// The places below the count, from the last one back.
fn places_back(alloc: Global, count: usize) -> Result<Places, OutOfMemory> {
    let mut places = Values::new(alloc);
    'places: for place in 0..count {
        places.push(count - 1 - place)?;
    }
    Ok(places)
}

/// Whether the rows at the two places are there and have the same code in the cell.
fn is_same_at(rows: &Rows, place: usize, other: usize, cell: usize) -> bool {
    if place >= rows.len() || other >= rows.len() {
        return false;
    }
    rows.code(place, cell) == rows.code(other, cell)
}

/// Whether the row at the place has the same code in each of the cells as the row before it; false for the first.
fn is_as_before(rows: &Rows, at: usize, cells: &Places) -> bool {
    let Some(before) = at.checked_sub(1) else {
        return false;
    };
    'cells: for cell in cells.items() {
        if !is_same_at(rows, before, at, *cell) {
            return false;
        }
    }
    true
}

/// Whether some row has the same code in each of the cells as the row before it.
fn any_as_before(rows: &Rows, cells: &Places) -> bool {
    'rows: for at in 0..rows.len() {
        if is_as_before(rows, at, cells) {
            return true;
        }
    }
    false
}

/// A key of the joined rows, where the join's key is one of the rows so far, which have so many cells. Where the join keeps
/// its codes, joined rows that are the same in them follow one row so far, and stand side by side (`into_rows` of esto_steps
/// sees to it). If no two are the same, these codes are a key of the joined rows too; else the new cells come before them,
/// since neighbours likely differ there. Where the join drops one of the codes, the key is all that is kept, from the last
/// one back for the same reason.
pub fn key_after(
    alloc: Global,
    join: &Keyed,
    width: usize,
    joined: &Rows,
) -> Result<Places, OutOfMemory> {
    if !is_key_kept(join, width) {
        return places_back(alloc, join.kept.len());
    }
    let mut key = Values::new(alloc);
    push_key(&mut key, join, width)?;
    if any_as_before(joined, &key) {
        key.truncate(0);
        push_new(&mut key, join.kept, width)?;
        push_key(&mut key, join, width)?;
    }
    Ok(key)
}

/// Whether no two of the rows have the same code in the cell; false too where the range of the codes is far larger than
/// there are rows.
fn differ_in(alloc: Global, rows: &Rows, cell: usize) -> Result<bool, OutOfMemory> {
    if cell >= rows.arity() {
        return Ok(false);
    }
    all_differ(alloc, rows.column(cell))
}

/// The first cell of which the join keeps the code and in which all rows so far are found to differ; none where none is
/// found.
fn kept_apart(alloc: Global, join: &Keyed, so_far: &Rows) -> Result<Option<usize>, OutOfMemory> {
    let width = so_far.arity();
    'cells: for cell in 0..width {
        if code_kept_at(join, width, cell).is_some() && differ_in(alloc, so_far, cell)? {
            return Ok(Some(cell));
        }
    }
    Ok(None)
}

/// Whether the row at the place is there and has the same code in the two cells.
fn is_twice(rows: &Rows, at: usize, cell: usize, other: usize) -> bool {
    if at >= rows.len() {
        return false;
    }
    rows.code(at, cell) == rows.code(at, other)
}

/// Whether each of the rows has the same code in the two cells. The last one is looked at first, since the first ones may
/// be the same for long.
fn are_twice(rows: &Rows, cell: usize, other: usize) -> bool {
    let count = rows.len();
    if count > 0 && !is_twice(rows, count - 1, cell, other) {
        return false;
    }
    'rows: for at in 0..count {
        if !is_twice(rows, at, cell, other) {
            return false;
        }
    }
    true
}

/// A cell of which the join keeps the code and that stands for the cell in all rows so far: the cell itself or one with the
/// same codes; none where there is none.
fn kept_for(join: &Keyed, so_far: &Rows, cell: usize) -> Option<usize> {
    let width = so_far.arity();
    if code_kept_at(join, width, cell).is_some() {
        return Some(cell);
    }
    'cells: for other in 0..width {
        if code_kept_at(join, width, other).is_some() && are_twice(so_far, cell, other) {
            return Some(other);
        }
    }
    None
}

/// The join's key, with a cell that the join keeps in place of each one that it drops; none where one has no such cell. The
/// same cell may come twice, where it stands in for two; `push_once` drops it later.
fn key_kept(alloc: Global, join: &Keyed, so_far: &Rows) -> Result<Option<Places>, OutOfMemory> {
    let mut key = Values::new(alloc);
    'cells: for cell in join.key.items() {
        let Some(kept) = kept_for(join, so_far, *cell) else {
            return Ok(None);
        };
        key.push(kept)?;
    }
    Ok(Some(key))
}

/// A key of the rows so far, of which the join's key is one. For at most one row so far it is the empty one. For more, where
/// one is found of which the join keeps the codes, it is that: the join's, with other cells in place of those that it drops,
/// or a cell that is a key alone.
pub fn key_before(alloc: Global, join: &Keyed, so_far: &Rows) -> Result<Places, OutOfMemory> {
    if so_far.len() <= 1 {
        return Ok(Values::new(alloc));
    }
    if let Some(key) = key_kept(alloc, join, so_far)? {
        return Ok(key);
    }
    match kept_apart(alloc, join, so_far)? {
        Some(cell) => Places::from_slice(alloc, &[cell]),
        None => join.key.copy(alloc),
    }
}
