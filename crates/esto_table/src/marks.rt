//! Marks on the columns of relations.
ghost use Rattle.std.specs.Prelude.{◌≡◌};
ghost use Rattle.esto_table.specs.Marks.{is_among, is_marked};

use esto_term::{OutOfMemory, Values, push};
use std::alloc::Global;

/// The number from which on no relation's columns are marked: no schema has so many.
const LIMIT: usize = 4096;

/// Columns of relations: each of them, or those that are marked.
#[derive(Drop)]
pub struct Marks {
    pub every: bool,
    pub marked: Vec<Values<bool>>,
}

/// Whether the column of the relation is marked.
fn is_marked(marked: &[Values<bool>], relation: usize, column: usize) -> bool
    ensures { result ≡ is_marked marked.now relation column }
{
    match marked.get(relation) {
        Some(row) => match row.items().get(column) {
            Some(mark) => *mark,
            None => false,
        },
        None => false,
    }
}

/// Marks the column in the row of its relation.
fn mark_in(row: &mut Values<bool>, column: usize) -> Result<(), OutOfMemory> {
    'columns: for _column in row.len()..column.saturating_add(1) {
        row.push(false)?;
    }
    if column < row.len() {
        row.set(column, true);
    }
    Ok(())
}

impl Marks {
    /// Each column.
    pub fn every(alloc: Global) -> Marks {
        Marks {
            every: true,
            marked: Vec::new(alloc),
        }
    }

    /// No column.
    pub fn none(alloc: Global) -> Marks {
        Marks {
            every: false,
            marked: Vec::new(alloc),
        }
    }

    /// Whether the column of the relation is one of the columns.
    pub fn has(&self, relation: usize, column: usize) -> bool
        ensures { result ≡ is_among self.now relation column }
    {
        self.every || is_marked(&self.marked, relation, column)
    }

    /// Marks the column of the relation.
    pub fn mark(
        &mut self,
        alloc: Global,
        relation: usize,
        column: usize,
    ) -> Result<(), OutOfMemory> {
        if relation >= LIMIT {
            return Ok(());
        }
        'rows: for _row in self.marked.len()..relation + 1 {
            push(&mut self.marked, Values::new(alloc))?;
        }
        if relation >= self.marked.len() {
            return Ok(());
        }
        mark_in(&mut self.marked[relation], column)
    }
}
