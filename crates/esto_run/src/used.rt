//! The fragments that sets of plans' atoms use.
ghost use Rattle.std.specs.Prelude.{◌≡◌, ◌≢◌, ◌↔◌, ◌++◌, [], ℕ, List, map, IfOk, OnOk, IsTrue, Contains, AllPairs};
ghost use Rattle.esto_semantics.specs.Listed.{chosen};
ghost use Rattle.esto_views.specs.Plans.{plan_query};
ghost use Rattle.esto_run.specs.Picks.{candidate_of};
ghost use Rattle.esto_run.specs.Used.{AreFirsts, AreUsed, AreUsedByAll, AddsUse, fragments_of};

use crate::picks::Pick;
use esto_bits::RowBits;
use esto_term::{OutOfMemory, Places, Values};
use esto_views::Plan;
use std::alloc::Global;

/// Whether the number is one of the list.
fn has_number(numbers: &[usize], number: usize) -> bool
    ensures { IsTrue result ↔ Contains numbers.now number }
{
    numbers.contains(&number)
}

/// Puts the fragment of the atom of that number at the end, if the atom is in the set and the fragment isn't there yet.
fn add_use(
    set: &RowBits,
    number: usize,
    fragment: usize,
    fragments: &mut Places,
) -> Result<(), OutOfMemory>
    ensures { OnOk result (AddsUse set.now number fragment fragments.old fragments.new) }
{
    if number >= set.count() || !set.has(number) {
        return Ok(());
    }
    if has_number(fragments.items(), fragment) {
        return Ok(());
    }
    fragments.push(fragment)
}

/// Puts the fragments of the set's atoms at the end, in order, each that isn't there yet.
fn add_uses(set: &RowBits, plan: &Plan, fragments: &mut Places) -> Result<(), OutOfMemory>
    ensures used { fragments.old ≡ []
        → OnOk result (AreUsed (plan_query plan.now).body set.now fragments.new) }
    ensures firsts { OnOk result ((numbers : List ℕ) → AreFirsts numbers fragments.old
        → AreFirsts (numbers ++ fragments_of (chosen set.now (plan_query plan.now).body))
        fragments.new) }
{
    'atoms: for (number, atom) in plan.atoms.items().iter().enumerate() {
        add_use(set, number, atom.fragment, fragments)?;
    }
    Ok(())
}

/// The numbers of the fragments that the set of the plan's atoms uses, each once, in rising order of the least number
/// of their atoms in the set.
pub fn fragments_of_set(alloc: Global, set: &RowBits, plan: &Plan) -> Result<Places, OutOfMemory>
    ensures used { IfOk result (AreUsed (plan_query plan.now).body set.now) }
    ensures distinct { IfOk result (AllPairs ◌≢◌) }
{
    let mut fragments = Values::new(alloc);
    add_uses(set, plan, &mut fragments)?;
    Ok(fragments)
}

/// The numbers of the fragments that the sets of the picks use, each once, in the order in which they first come, pick
/// after pick and in each set atom after atom.
pub fn fragments_of_picks(alloc: Global, picks: &[Pick]) -> Result<Places, OutOfMemory>
    ensures used { IfOk result (AreUsedByAll (map candidate_of picks.now)) }
    ensures distinct { IfOk result (AllPairs ◌≢◌) }
{
    let mut fragments = Values::new(alloc);
    'picks: for pick in picks {
        add_uses(pick.set, pick.plan, &mut fragments)?;
    }
    Ok(fragments)
}
