//! Rows of codes as rows of texts.
ghost use Rattle.std.specs.Prelude.{◌↔◌, ◌<◌, ◌≤◌, ℕ, List, length, Contains, IsTrue, IfOk};
ghost use Rattle.esto_columns.specs.Interned.{AreCodesOf};
ghost use Rattle.esto_rows.specs.Lent.{AreRising};
ghost use Rattle.esto_coded.specs.Coded.{rows_in};
ghost use Rattle.esto_coded.specs.Shown.{HasNodeAt, LeastNode};
ghost use Rattle.esto_coded.specs.declared.coded.TheConstants.{FIRST_NODE};

use crate::coded::{CodedFacts, FIRST_NODE};
use esto_columns::{Column, Rows};
use esto_rows::sorted_texts;
use esto_term::{OutOfMemory, TextRows};
use std::alloc::Global;

/// Whether one of the codes of the column is that of a node.
fn any_node(column: &Column) -> bool
    ensures { IsTrue result ↔ ((code : ℕ) × Contains column.now code × (FIRST_NODE ≤ code)) }
{
    'codes: for at in 0..column.len() {
        if column.item(at) >= FIRST_NODE {
            return true;
        }
    }
    false
}

/// Whether one of the rows has the code of a node in the column.
fn node_at(rows: &Rows, column: usize) -> bool
    ensures { IsTrue result
        ↔ ((row : List ℕ) × Contains rows.now.rows row × HasNodeAt column row) }
{
    if column >= rows.arity() {
        return false;
    }
    any_node(rows.column(column))
}

/// The least column, counted from 0, in which one of the rows has the code of a node.
pub fn least_node(rows: &Rows) -> Option<usize>
    ensures { LeastNode rows.now.rows result }
{
    'columns: for column in 0..rows.arity() {
        if node_at(rows, column) {
            return Some(column);
        }
    }
    None
}

impl CodedFacts {
    /// The distinct rows as texts, ordered cell by cell by bytes.
    pub fn sorted_texts(&self, alloc: Global, rows: &Rows) -> Result<TextRows, OutOfMemory>
        requires { (row : List ℕ) → Contains rows.now.rows row
            → (code : ℕ) → Contains row code → code < length self.now.texts }
        ensures rows { IfOk result (λ it. (row : List (List ℕ)) → Contains it row
            ↔ ((own : List ℕ) × Contains rows.now.rows own × AreCodesOf self.now.texts own row)) }
        ensures ascending { IfOk result AreRising }
    {
        sorted_texts(alloc, rows, &self.codes)
    }

    /// Whether one of the rows of the relation has the code of a node in the column.
    pub fn has_node(&self, relation: usize, column: usize) -> bool
        ensures { IsTrue result ↔ ((row : List ℕ)
            × Contains (rows_in self.now.relations relation) row × HasNodeAt column row) }
    {
        if relation >= self.relations.len() {
            return false;
        }
        node_at(&self.relations[relation].rows, column)
    }
}
