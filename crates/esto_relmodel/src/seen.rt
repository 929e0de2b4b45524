//! Rows that were seen, found by their hash.
ghost use Rattle.std.specs.Prelude.{◌≡◌, [], map, IfOk};
ghost use Rattle.esto_relmodel.specs.Once.{IsAdded};

use esto_term::{OutOfMemory, Text, TextRow};
use indexmap::IndexSet;
use std::alloc::Global;
use std::marker::Model;

/// Rows that were seen, each once, whose cells are lent, not copied; contracts see their list, in order of first
/// occurrence.
#[derive(Drop)]
pub struct Seen<'a> {
    rows: IndexSet<Vec<&'a str>>,
}

impl<'a> Model for Seen<'a> {
    ghost use Rattle.std.specs.Prelude.{List, ℕ, map};

    ghost Value = { List (List (List ℕ)) };

    ghost view = { λ it. map (λ row. map (λ cell. cell.now) row.items) it.rows.keys };
}

/// The cells, lent.
fn lent<'a>(alloc: Global, cells: &'a [Text]) -> Result<Vec<&'a str>, OutOfMemory>
    ensures { IfOk result (λ it. map (λ cell. cell.now) it.items ≡ cells.now) }
{
    let Ok(mut row) = Vec::with_capacity(alloc, cells.len()) else {
        return Err(OutOfMemory);
    };
    'cells: for cell in cells {
        let Ok(()) = row.push(cell.as_str()) else {
            return Err(OutOfMemory);
        };
    }
    Ok(row)
}

impl<'a> Seen<'a> {
    /// No rows, which take no memory.
    pub fn new(alloc: Global) -> Seen<'a>
        ensures { result ≡ [] }
    {
        Seen {
            rows: IndexSet::new(alloc),
        }
    }

    /// Adds a row, unless it is there, and answers whether it was added.
    pub fn add(&mut self, alloc: Global, row: &'a TextRow) -> Result<bool, OutOfMemory>
        ensures { IfOk result (λ is_new. IsAdded self.old self.new row.now is_new) }
    {
        let cells = lent(alloc, row.items())?;
        let Ok((_, is_new)) = self.rows.insert_full(cells) else {
            return Err(OutOfMemory);
        };
        Ok(is_new)
    }
}
