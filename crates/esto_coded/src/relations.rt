//! Relations of rows of codes.
ghost use Rattle.std.specs.Prelude.{◌≡◌, ◌++◌, map, IfOk, OnOk};
ghost use Rattle.esto_coded.specs.Relations.{no_rows};

use esto_columns::{Rows, StoredRows};
use esto_term::{List, OutOfMemory, Places};
use std::alloc::Global;

/// A relation of the arity, with no rows, that is asked as a whole.
fn no_rows(alloc: Global, arity: usize) -> Result<StoredRows, OutOfMemory>
    ensures { IfOk result (λ it. it ≡ no_rows arity) }
{
    let mut ways = List::new(alloc);
    ways.push(Places::new(alloc))?;
    let rows = Rows::new(alloc, arity)?;
    Ok(StoredRows { rows, ways })
}

/// Such a relation for each arity.
pub(crate) fn no_relations(alloc: Global, arities: &[usize]) -> Result<Vec<StoredRows>, OutOfMemory>
    ensures { IfOk result (λ it. it.items ≡ map no_rows arities.now) }
{
    let mut relations = Vec::new(alloc);
    'arities: for arity in arities {
        let relation = no_rows(alloc, *arity)?;
        let Ok(()) = relations.push(relation) else {
            return Err(OutOfMemory);
        };
    }
    Ok(relations)
}

/// Puts the rows after the others; where there are no others they are moved and not copied.
pub fn put_rows(alloc: Global, rows: Rows, into: &mut Rows) -> Result<(), OutOfMemory>
    requires { into.old.arity ≡ rows.arity }
    ensures { OnOk result (into.new
        ≡ record { arity = into.old.arity; rows = into.old.rows ++ rows.rows }) }
{
    if into.len() == 0 {
        *into = rows;
        return Ok(());
    }
    into.add_all(alloc, &rows)
}
