//! Rows that are found by an index of them, and their codes one by one.
ghost use Rattle.std.specs.Prelude.{◌≡◌, ◌↔◌, ◌+◌, ◌<◌, ℕ, List, [], Some, length, take, slice_get, Contains, IfOk, OnOk, MatchOption, IsTrue};
ghost use Rattle.esto_columns.specs.Indexed.{IsIndexOf};
ghost use Rattle.esto_columns.specs.RowIndexes.{StandsLast};

use crate::index::Index;
use crate::rows::Rows;
use esto_term::{OutOfMemory, Values};
use std::alloc::Global;

/// Puts the row at the place into the index of the rows before it, each of which is its own key. The row is read into
/// the list.
fn index_own(
    rows: &Rows,
    at: usize,
    row: &mut Values<u64>,
    index: &mut Index,
) -> Result<(), OutOfMemory>
    requires there { at < length rows.now.rows }
    requires own { IsIndexOf index.old (take at rows.now.rows) }
    ensures { OnOk result (IsIndexOf index.new (take (at + 1) rows.now.rows)) }
{
    rows.read_row(at, row)?;
    index.add(row.items())
}

/// Puts the rows, each its own key, into an index of no rows. They are read into the list.
fn with_own_keys(rows: &Rows, row: &mut Values<u64>, none: Index) -> Result<Index, OutOfMemory>
    requires { IsIndexOf none [] }
    ensures { IfOk result (λ it. IsIndexOf it rows.now.rows) }
{
    let mut index = none;
    'rows: for at in 0..rows.len() {
        index_own(rows, at, row, &mut index)?;
    }
    Ok(index)
}

impl Rows {
    /// The code in the column of the row at the place; None where there is no such column.
    pub fn code(&self, place: usize, column: usize) -> Option<u64>
        requires { place < length self.now.rows }
        ensures { (row : List ℕ) → slice_get self.now.rows place ≡ Some row
            → result ≡ slice_get row column }
    {
        if column >= self.arity() {
            return None;
        }
        Some(self.column(column).item(place))
    }

    /// Whether the row stands at the place.
    pub fn is_at(&self, place: usize, row: &[u64]) -> bool
        ensures { IsTrue result ↔ (slice_get self.now.rows place ≡ Some row.now) }
    {
        let arity = self.arity();
        if place >= self.len() || row.len() != arity {
            return false;
        }
        'columns: for column in 0..arity {
            if self.column(column).item(place) != row[column] {
                return false;
            }
        }
        true
    }

    /// An index of the rows, each of which is its own key, with room for so many.
    pub fn own_index(&self, alloc: Global, room: usize) -> Result<Index, OutOfMemory>
        ensures { IfOk result (λ it. IsIndexOf it self.now.rows) }
    {
        let index = Index::new(alloc, room)?;
        let mut row = Values::new(alloc);
        with_own_keys(self, &mut row, index)
    }

    /// The last place where the row stands, by an index of the rows: only those of its bucket are looked at. An index of
    /// other rows may give another place where it stands, or none.
    pub fn find(&self, index: &Index, row: &[u64]) -> Option<usize>
        ensures at { MatchOption result Unit
            (λ place. slice_get self.now.rows place ≡ Some row.now) }
        ensures last { IsIndexOf index.now self.now.rows → MatchOption result
            (¬ (Contains self.now.rows row.now)) (StandsLast self.now.rows row.now) }
    {
        let mut next = index.last_of(row);
        'places: while next > 0 {
            let place = next - 1;
            if self.is_at(place, row) {
                return Some(place);
            }
            next = index.before(place);
        }
        None
    }
}
