//! Rows that were seen.
ghost use Rattle.std.specs.Prelude.{◌≡◌, ◌++◌, ◌∷◌, [], length};
ghost use Rattle.std.specs.Prelude.{Contains, IfOk, OnOk, IsTrue};
ghost use Rattle.esto_columns.specs.CodedRows.{CodedRows};

use esto_columns::{Index, Rows};
use esto_term::OutOfMemory;
use std::alloc::Global;
use std::marker::Model;

/// How many buckets an index has for each row that there is room for.
pub(crate) const BUCKETS: usize = 2;

/// Rows of codes that were seen, which contracts see as their arity and their list. They are found by an index, which is
/// made anew when it has as many rows as there is room for.
#[derive(Drop)]
pub(crate) struct Seen {
    rows: Rows,
    index: Index,
    room: usize,
}

impl Model for Seen {
    ghost use Rattle.esto_columns.specs.CodedRows.{CodedRows};

    ghost Value = { CodedRows };

    ghost view = { λ it. it.rows };
}

impl Seen {
    /// No rows of the arity, with memory for so many.
    pub(crate) fn new(alloc: Global, arity: usize, room: usize) -> Result<Seen, OutOfMemory>
        ensures { IfOk result (λ it. it ≡ record { arity = arity; rows = [] }) }
    {
        let rows = Rows::with_room(alloc, arity, room)?;
        let index = Index::new(alloc, room.saturating_mul(BUCKETS))?;
        Ok(Seen { rows, index, room })
    }

    /// Whether the row was seen.
    pub(crate) fn has(&self, row: &[u64]) -> bool
        ensures { IsTrue result → Contains self.now.rows row.now }
    {
        self.rows.find(&self.index, row).is_some()
    }

    /// Sees to it that the last row, which is this one, is found by the index.
    fn note(&mut self, alloc: Global, row: &[u64]) -> Result<(), OutOfMemory>
        ensures { self.new ≡ self.old }
    {
        let count = self.rows.len();
        if count <= self.room {
            return self.index.add(row);
        }
        self.room = count.saturating_mul(2);
        self.index = self
            .rows
            .own_index(alloc, self.room.saturating_mul(BUCKETS))?;
        Ok(())
    }

    /// Puts the row at the end.
    pub(crate) fn put(&mut self, alloc: Global, row: &[u64]) -> Result<(), OutOfMemory>
        requires { length row.now ≡ self.old.arity }
        ensures { OnOk result (self.new
            ≡ record { arity = self.old.arity; rows = self.old.rows ++ row.now ∷ [] }) }
    {
        self.rows.add(row)?;
        self.note(alloc, row)
    }
}
