//! The ways in which a fragment can be asked.
ghost use Rattle.std.specs.Prelude.{◌≡◌, ◌∷◌, ◌++◌, [], cond, map, IfOk, OnOk};
ghost use Rattle.esto_steps.specs.Planned.{inputs_of};

use esto_columns::Ways;
use esto_term::{List, OutOfMemory, Places, Values};
use esto_views::{Access, AccessList};
use std::alloc::Global;

/// Puts the column at the end, if it is an input.
fn push_input(inputs: &mut Places, column: usize, is_input: bool) -> Result<(), OutOfMemory>
    ensures { OnOk result (inputs.new ≡ inputs.old ++ cond is_input (column ∷ []) []) }
{
    if !is_input {
        return Ok(());
    }
    inputs.push(column)
}

/// The inputs of the pattern.
fn inputs_of(alloc: Global, pattern: &Access) -> Result<Places, OutOfMemory>
    ensures { IfOk result (λ it. it ≡ inputs_of pattern.now) }
{
    let mut inputs = Values::new(alloc);
    'columns: for (column, is_input) in pattern.items().iter().enumerate() {
        push_input(&mut inputs, column, *is_input)?;
    }
    Ok(inputs)
}

/// The ways in which a fragment with these patterns can be asked: for each pattern its inputs, in rising order.
pub fn ways_of(alloc: Global, patterns: &AccessList) -> Result<Ways, OutOfMemory>
    ensures { IfOk result (λ it. it ≡ map inputs_of patterns.now) }
{
    let mut ways = List::new(alloc);
    'patterns: for pattern in patterns.items() {
        let inputs = inputs_of(alloc, pattern)?;
        ways.push(inputs)?;
    }
    Ok(ways)
}
