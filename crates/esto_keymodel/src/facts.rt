//! The facts of keys.
ghost use Rattle.std.specs.Prelude.{◌≡◌, length, All, IfOk};
ghost use Rattle.esto_relmodel.specs.RowFacts.{AreRowFacts};

use esto_relmodel::table_facts;
use esto_semantics::Facts;
use esto_term::{OutOfMemory, TextRows};
use std::alloc::Global;

/// The facts of rows of a key, a field and a value: each row as a fact of the relation over its three cells as constants,
/// a repeated row once, in order of first occurrence.
pub fn pair_facts(alloc: Global, relation: usize, rows: &TextRows) -> Result<Facts, OutOfMemory>
    requires { All (λ row. length row ≡ 3) rows.now }
    ensures pairs { IfOk result (λ it. AreRowFacts relation rows.now it) }
    ensures columns { IfOk result (λ it. All (λ fact. length fact.terms ≡ 3) it) }
{
    table_facts(alloc, relation, rows)
}
