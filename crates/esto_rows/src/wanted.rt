//! Codes of those rows that are wanted.
ghost use Rattle.std.specs.Prelude.{◌≡◌, ◌<◌, ◌≤◌, ◌+◌, ℕ, List, [], length, map, take, slice_get, Some, IsTrue, IfOk, OnOk};
ghost use Rattle.esto_rows.specs.Wanted.{AreUnequal, HaveWanted, IsWanted, Know, PutsWanted};

use crate::code_set::CodeSet;
use crate::keys::Keys;
use esto_columns::Rows;
use esto_term::{OutOfMemory, Values};
use std::alloc::Global;

/// Which rows are wanted.
#[derive(Drop)]
pub enum Wanted {
    /// Those whose first two codes are not the same.
    Unequal,
    /// Those with whose key, the codes after the first among so many, several codes came.
    Apart(usize, Keys),
}

/// The first codes of the row, so many of them.
fn front_of(row: &[u64], width: usize) -> &[u64]
    ensures { result.now ≡ take width row.now }
{
    match row.get(..width) {
        Some(front) => front,
        None => row,
    }
}

/// Whether the first two codes of the row are not the same.
fn is_unequal(row: &[u64]) -> bool
    ensures { AreUnequal row.now → IsTrue result }
{
    let Some((code, rest)) = row.split_first() else {
        return false;
    };
    match rest.first() {
        Some(other) => *code != *other,
        None => false,
    }
}

/// Whether the row is wanted.
fn is_wanted(wanted: &Wanted, row: &[u64]) -> bool
    ensures { IsWanted wanted.now row.now → IsTrue result }
{
    match wanted {
        Wanted::Unequal => is_unequal(row),
        Wanted::Apart(width, keys) => keys.is_apart(front_of(row, *width)),
    }
}

/// Adds the codes of the row, if it is wanted.
fn put_row(wanted: &Wanted, row: &[u64], set: &mut CodeSet) -> Result<(), OutOfMemory>
    ensures { OnOk result (PutsWanted wanted.now row.now set.old set.new) }
{
    if !is_wanted(wanted, row) {
        return Ok(());
    }
    set.add_all(row)
}

/// The same of the row at the place, which is read into the list.
fn put_at(
    wanted: &Wanted,
    rows: &Rows,
    at: usize,
    row: &mut Values<u64>,
    set: &mut CodeSet,
) -> Result<(), OutOfMemory>
    requires { at < length rows.now.rows }
    ensures { OnOk result ((own : List ℕ) × (slice_get rows.now.rows at ≡ Some own)
        × PutsWanted wanted.now own set.old set.new) }
{
    rows.read_row(at, row)?;
    put_row(wanted, row.items(), set)
}

/// Adds the codes of those of the rows that are wanted to the set, which is empty.
fn put_wanted(
    alloc: Global,
    wanted: &Wanted,
    rows: &Rows,
    set: &mut CodeSet,
) -> Result<(), OutOfMemory>
    ensures { OnOk result (HaveWanted wanted.now rows.now.rows set.new) }
{
    let mut row = Values::new(alloc);
    'rows: for at in 0..rows.len() {
        put_at(wanted, rows, at, &mut row, set)?;
    }
    Ok(())
}

/// The codes of those of the rows that are wanted.
pub fn wanted_codes(alloc: Global, wanted: &Wanted, rows: &Rows) -> Result<CodeSet, OutOfMemory>
    ensures { IfOk result (HaveWanted wanted.now rows.now.rows) }
{
    let mut set = CodeSet::new(alloc);
    put_wanted(alloc, wanted, rows, &mut set)?;
    Ok(set)
}

/// Notes the front of the row at the place, which is read into the list.
fn note_at(
    rows: &Rows,
    at: usize,
    width: usize,
    row: &mut Values<u64>,
    keys: &mut Keys,
) -> Result<(), OutOfMemory>
    requires there { at < length rows.now.rows }
    requires wide { width ≤ rows.now.arity }
    requires arity { keys.old.keys.arity + 1 ≡ width }
    requires know { Know keys.old (map (take width) (take at rows.now.rows)) }
    ensures arity { keys.new.keys.arity ≡ keys.old.keys.arity }
    ensures know { OnOk result (Know keys.new (map (take width) (take (at + 1) rows.now.rows))) }
{
    let _arity = rows.arity();
    rows.read_row(at, row)?;
    keys.note(front_of(row.items(), width))
}

/// Notes the fronts of the rows, where none is noted before.
fn note_fronts(alloc: Global, rows: &Rows, width: usize, keys: &mut Keys) -> Result<(), OutOfMemory>
    requires wide { width ≤ rows.now.arity }
    requires arity { keys.old.keys.arity + 1 ≡ width }
    requires none { Know keys.old [] }
    ensures { OnOk result (Know keys.new (map (take width) rows.now.rows)) }
{
    let mut row = Values::new(alloc);
    'rows: for at in 0..rows.len() {
        note_at(rows, at, width, &mut row, keys)?;
    }
    Ok(())
}

/// The keys of the rows: the codes among the first so many but for the first.
pub fn keys_of(alloc: Global, rows: &Rows, width: usize) -> Result<Keys, OutOfMemory>
    requires some { 0 < width }
    requires wide { width ≤ rows.now.arity }
    ensures { IfOk result (λ it. Know it (map (take width) rows.now.rows)) }
{
    let mut keys = Keys::new(alloc, width - 1, rows.len())?;
    note_fronts(alloc, rows, width, &mut keys)?;
    Ok(keys)
}
