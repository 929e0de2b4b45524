//! Whether rows of codes are the same set.
ghost use Rattle.std.specs.Prelude.{◌≡◌, ◌↔◌, ◌++◌, ◌∷◌, [], ◌<◌, ℕ, List, Some, false, length, slice_get, slice_index_or, IsTrue, Contains, IfOk};
ghost use Rattle.esto_columns.specs.Indexed.{IsIndexOf};
ghost use Rattle.esto_rows.specs.Same.{IsPart, AreMarked};

use esto_columns::{Index, Rows};
use esto_term::{OutOfMemory, Values};
use std::alloc::Global;

/// Whether each row of the one is a row of the other, whose index this is. Rows are read into the list.
fn are_among(
    one: &Rows,
    other: &Rows,
    index: &Index,
    row: &mut Values<u64>,
) -> Result<bool, OutOfMemory>
    requires { IsIndexOf index.now other.now.rows }
    ensures { IfOk result (λ it. IsTrue it ↔ IsPart one.now.rows other.now.rows) }
{
    'rows: for at in 0..one.len() {
        one.read_row(at, row)?;
        if other.find(index, row.items()).is_none() {
            return Ok(false);
        }
    }
    Ok(true)
}

/// Whether each row of the one is a row of the other, by an index of these.
fn is_part_by_index(alloc: Global, one: &Rows, other: &Rows) -> Result<bool, OutOfMemory>
    ensures { IfOk result (λ it. IsTrue it
        ↔ ((row : List ℕ) → Contains one.now.rows row → Contains other.now.rows row)) }
{
    let index = other.own_index(alloc, other.len())?;
    let mut row = Values::new(alloc);
    are_among(one, other, &index, &mut row)
}

/// So many places, none of which is marked.
fn no_marks(alloc: Global, count: usize) -> Result<Values<bool>, OutOfMemory>
    ensures long { IfOk result (λ it. length it ≡ count) }
    ensures none { IfOk result (λ it. (at : ℕ) → slice_index_or it at false ≡ false) }
{
    let mut marks = Values::new(alloc);
    'places: for _place in 0..count {
        marks.push(false)?;
    }
    Ok(marks)
}

/// Marks the last place where the row stands, by the index of the rows. Tells whether there is one.
fn mark(rows: &Rows, index: &Index, row: &[u64], marks: &mut Values<bool>) -> bool
    requires own { IsIndexOf index.now rows.now.rows }
    requires long { length marks.old ≡ length rows.now.rows }
    ensures long { length marks.new ≡ length marks.old }
    ensures found { IsTrue result ↔ Contains rows.now.rows row.now }
    ensures marked { IsTrue result → (others : List (List ℕ))
        → AreMarked rows.now.rows others marks.old
        → AreMarked rows.now.rows (others ++ row.now ∷ []) marks.new }
{
    let Some(place) = rows.find(index, row) else {
        return false;
    };
    marks.set(place, true);
    true
}

/// Marks the last places where the others stand among the rows, whose index this is. Tells whether each of them is
/// there. They are read into the list.
fn mark_each(
    rows: &Rows,
    index: &Index,
    others: &Rows,
    row: &mut Values<u64>,
    marks: &mut Values<bool>,
) -> Result<bool, OutOfMemory>
    requires own { IsIndexOf index.now rows.now.rows }
    requires long { length marks.old ≡ length rows.now.rows }
    requires none { AreMarked rows.now.rows [] marks.old }
    ensures long { length marks.new ≡ length marks.old }
    ensures part { IfOk result (λ it. IsTrue it ↔ IsPart others.now.rows rows.now.rows) }
    ensures marked { IfOk result (λ it. IsTrue it
        → AreMarked rows.now.rows others.now.rows marks.new) }
{
    'rows: for at in 0..others.len() {
        others.read_row(at, row)?;
        if !mark(rows, index, row.items(), marks) {
            return Ok(false);
        }
    }
    Ok(true)
}

/// Whether the row at the place is marked, or else the last place where it stands. The row is read into the list.
fn is_marked(
    rows: &Rows,
    index: &Index,
    marks: &Values<bool>,
    at: usize,
    row: &mut Values<u64>,
) -> Result<bool, OutOfMemory>
    requires own { IsIndexOf index.now rows.now.rows }
    requires long { length marks.now ≡ length rows.now.rows }
    requires there { at < length rows.now.rows }
    ensures { IfOk result (λ it. (others : List (List ℕ)) (held : List ℕ)
        → AreMarked rows.now.rows others marks.now → slice_get rows.now.rows at ≡ Some held
        → IsTrue it ↔ Contains others held) }
{
    if marks.item(at) {
        return Ok(true);
    }
    rows.read_row(at, row)?;
    match rows.find(index, row.items()) {
        Some(place) => Ok(marks.item(place)),
        None => Ok(false),
    }
}

/// Whether each of the rows is marked, or else the last place where it stands. Rows are read into the list.
fn are_marked(
    rows: &Rows,
    index: &Index,
    marks: &Values<bool>,
    row: &mut Values<u64>,
) -> Result<bool, OutOfMemory>
    requires own { IsIndexOf index.now rows.now.rows }
    requires long { length marks.now ≡ length rows.now.rows }
    ensures { IfOk result (λ it. (others : List (List ℕ))
        → AreMarked rows.now.rows others marks.now → IsTrue it ↔ IsPart rows.now.rows others) }
{
    'rows: for at in 0..rows.len() {
        if !is_marked(rows, index, marks, at, row)? {
            return Ok(false);
        }
    }
    Ok(true)
}

/// Whether each row of one of the two is a row of the other, by an index of the one and marks of its rows, none of
/// which is marked before. Rows are read into the list.
fn are_one_by(
    one: &Rows,
    other: &Rows,
    index: &Index,
    row: &mut Values<u64>,
    marks: &mut Values<bool>,
) -> Result<bool, OutOfMemory>
    requires own { IsIndexOf index.now one.now.rows }
    requires long { length marks.old ≡ length one.now.rows }
    requires none { AreMarked one.now.rows [] marks.old }
    ensures { IfOk result (λ it. IsTrue it
        ↔ ((row : List ℕ) → Contains one.now.rows row ↔ Contains other.now.rows row)) }
{
    if !mark_each(one, index, other, row, marks)? {
        return Ok(false);
    }
    are_marked(one, index, marks, row)
}

/// The same by an index of the one, where marks are made for it.
fn are_one_marked(
    alloc: Global,
    one: &Rows,
    other: &Rows,
    index: &Index,
) -> Result<bool, OutOfMemory>
    requires { IsIndexOf index.now one.now.rows }
    ensures { IfOk result (λ it. IsTrue it
        ↔ ((row : List ℕ) → Contains one.now.rows row ↔ Contains other.now.rows row)) }
{
    let mut marks = no_marks(alloc, one.len())?;
    let mut row = Values::new(alloc);
    are_one_by(one, other, index, &mut row, &mut marks)
}

/// Whether each row of one of the two is a row of the other.
fn are_one_set(alloc: Global, one: &Rows, other: &Rows) -> Result<bool, OutOfMemory>
    ensures { IfOk result (λ it. IsTrue it
        ↔ ((row : List ℕ) → Contains one.now.rows row ↔ Contains other.now.rows row)) }
{
    let index = one.own_index(alloc, one.len())?;
    are_one_marked(alloc, one, other, &index)
}

/// Whether both are the same list, where they are equally long. Rows of the one are read into the list of codes.
fn stand_alike(one: &Rows, other: &Rows, row: &mut Values<u64>) -> Result<bool, OutOfMemory>
    requires { length one.now.rows ≡ length other.now.rows }
    ensures { IfOk result (λ it. IsTrue it → one.now.rows ≡ other.now.rows) }
{
    'rows: for at in 0..one.len() {
        one.read_row(at, row)?;
        if !other.is_at(at, row.items()) {
            return Ok(false);
        }
    }
    Ok(true)
}

/// Whether both are the same list. It needs no index, and ends at the first place where they differ.
fn are_one_list(alloc: Global, one: &Rows, other: &Rows) -> Result<bool, OutOfMemory>
    ensures { IfOk result (λ it. IsTrue it → one.now.rows ≡ other.now.rows) }
{
    if one.len() != other.len() {
        return Ok(false);
    }
    let mut row = Values::new(alloc);
    stand_alike(one, other, &mut row)
}

/// Whether each row of one of the two is a row of the other. Files are often in the order in which rows are found, so
/// this is looked at first.
pub fn hold_same(alloc: Global, one: &Rows, other: &Rows) -> Result<bool, OutOfMemory>
    ensures { IfOk result (λ it. IsTrue it
        ↔ ((row : List ℕ) → Contains one.now.rows row ↔ Contains other.now.rows row)) }
{
    if are_one_list(alloc, one, other)? {
        return Ok(true);
    }
    are_one_set(alloc, one, other)
}

/// Whether each row of the one is a row of the other.
pub fn is_part(alloc: Global, one: &Rows, other: &Rows) -> Result<bool, OutOfMemory>
    ensures { IfOk result (λ it. IsTrue it
        ↔ ((row : List ℕ) → Contains one.now.rows row → Contains other.now.rows row)) }
{
    if are_one_list(alloc, one, other)? {
        return Ok(true);
    }
    is_part_by_index(alloc, one, other)
}
