//! Where datasets' facts differ from the rules, or from the rows of fragments.
ghost use Rattle.std.specs.Prelude.{◌≡◌, IfOk};
ghost use Rattle.esto_ports.specs.declared.difference.Difference.TheVariants as difference;

use esto_term::{OutOfMemory, Replicate, Text, TextRow};
use std::alloc::Global;

/// A difference between the facts of datasets and the rules, or the rows of fragments.
#[derive(Drop)]
pub enum Difference {
    /// The facts do not meet the rule of this number, counted from 1 over all rules of the catalogue. The record has the
    /// values of its named variables in a match that shows it, in order of first occurrence in its body: a node as `#` and
    /// its number; and one empty cell where the rule has no such variable.
    Rule(u64, TextRow),
    /// The fragment of this name lacks this row of its view.
    Missing(Text, TextRow),
    /// The fragment of this name holds this row, which its view has not.
    Extra(Text, TextRow),
}

// The same lack of a row by a fragment.
fn copy_missing(alloc: Global, name: &Text, row: &TextRow) -> Result<Difference, OutOfMemory>
    ensures { IfOk result (λ it. it ≡ difference.Missing name.now row.now) }
{
    let name = name.copy(alloc)?;
    Ok(Difference::Missing(name, row.copy(alloc)?))
}

// The same row too many of a fragment.
fn copy_extra(alloc: Global, name: &Text, row: &TextRow) -> Result<Difference, OutOfMemory>
    ensures { IfOk result (λ it. it ≡ difference.Extra name.now row.now) }
{
    let name = name.copy(alloc)?;
    Ok(Difference::Extra(name, row.copy(alloc)?))
}

impl Replicate for Difference {
    fn copy(&self, alloc: Global) -> Result<Difference, OutOfMemory> {
        match self {
            Difference::Rule(number, cells) => { Ok(Difference::Rule(*number, cells.copy(alloc)?)) }
            Difference::Missing(name, row) => copy_missing(alloc, name, row),
            Difference::Extra(name, row) => copy_extra(alloc, name, row),
        }
    }
}
