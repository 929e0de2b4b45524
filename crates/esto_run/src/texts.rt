//! The text of rows of answers of a union.
ghost use Rattle.std.specs.Prelude.{◌≡◌, IfOk};
ghost use Rattle.esto_query.specs.Unions.{FormUnion};
ghost use Rattle.esto_run.specs.Texts.{FitHeads, union_rows_text};

use crate::answers::answers_text;
use esto_query::Queries;
use esto_term::{Bytes, OutOfMemory, TextRows};
use std::alloc::Global;

/// The text of rows of answers of a union: a CSV record of the names of its first query's head, and a record of each row,
/// in order.
pub fn union_rows_text(
    alloc: Global,
    queries: &Queries,
    rows: &TextRows,
) -> Result<Bytes, OutOfMemory>
    requires union { FormUnion queries.now }
    requires fit { FitHeads queries.now rows.now }
    ensures { IfOk result (λ text. text ≡ union_rows_text queries.now rows.now) }
{
    answers_text(alloc, queries.item(0), rows)
}
