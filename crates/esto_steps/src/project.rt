//! The codes that sources name in rows, column by column.
ghost use Rattle.std.specs.Prelude.{◌≡◌, ◌↔◌, List, ℕ, length, map, Contains, IfOk};
ghost use Rattle.esto_steps.specs.declared.steps.Source.{Source};
ghost use Rattle.esto_steps.specs.Meaning.{code_at};
ghost use Rattle.esto_steps.specs.Named.{IsEarly, NamesCodes};
ghost use Rattle.esto_steps.specs.Paired.{code_or_zero};

use crate::gather::{are_within, repeated};
use crate::steps::{Source, Sources};
use esto_columns::{Column, Rows};
use esto_term::{List, OutOfMemory, Replicate};
use std::alloc::Global;

/// The codes that the source names in the rows.
fn codes_of(alloc: Global, rows: &Rows, source: &Source) -> Result<Column, OutOfMemory>
    requires { IsEarly rows.now.arity source.now }
    ensures { IfOk result (λ it. it
        ≡ map (λ row. code_or_zero (code_at row source.now)) rows.now.rows) }
{
    match source {
        Source::Code(code) => repeated(alloc, rows.len(), *code),
        Source::Cell(place) => rows.column(*place).copy(alloc),
    }
}

/// The columns of the head's codes in the rows.
fn head_columns(alloc: Global, head: &Sources, rows: &Rows) -> Result<List<Column>, OutOfMemory>
    requires { (source : Source) → Contains head.now source → IsEarly rows.now.arity source }
    ensures { IfOk result (λ it. it ≡ map (λ source.
        map (λ row. code_or_zero (code_at row source)) rows.now.rows) head.now) }
{
    let mut columns = List::new(alloc);
    'sources: for source in head.items() {
        let column = codes_of(alloc, rows, source)?;
        columns.push(column)?;
    }
    Ok(columns)
}

/// The codes of the head in each of the rows.
pub fn projected(alloc: Global, head: &Sources, rows: &Rows) -> Result<Rows, OutOfMemory>
    ensures arity { IfOk result (λ it. it.arity ≡ length head.now) }
    ensures rows { IfOk result (λ it. (row : List ℕ) → Contains it.rows row
        ↔ ((end : List ℕ) × Contains rows.now.rows end × NamesCodes end head.now row)) }
{
    if !are_within(head, rows.arity(), 0) {
        return Rows::new(alloc, head.len());
    }
    let columns = head_columns(alloc, head, rows)?;
    Ok(Rows::of_columns(alloc, columns.into_vec(), rows.len()))
}
