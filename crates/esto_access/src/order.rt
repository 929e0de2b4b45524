//! Orders of sets of a plan's atoms.
ghost use Rattle.std.specs.Prelude.{ℕ, ◌≡◌, ◌↔◌, IsTrue, IfOk, MatchOption, Some, slice_get, take};
ghost use Rattle.esto_semantics.specs.Access.{IsOrder, IsExecutable, IsAccessiblePart, IsStatedOrder};
ghost use Rattle.esto_views.specs.Fragments.{patterns_of};
ghost use Rattle.esto_views.specs.Plans.{plan_query};
ghost use Rattle.esto_access.specs.Runs.{CanFollow};

use crate::atoms::{can_follow, names_all};
use crate::run::greedy_order;
use esto_bits::RowBits;
use esto_term::OutOfMemory;
use esto_views::{FragmentDefs, Order, Plan};
use std::alloc::Global;

/// The stated order of a set of the plan's atoms: the one that takes the accessible atom of least number each time.
/// `None` comes exactly where the set has no order.
pub fn order_of(
    alloc: Global,
    set: &RowBits,
    plan: &Plan,
    fragments: &FragmentDefs,
) -> Result<Option<Order>, OutOfMemory>
    ensures { IfOk result (λ it. MatchOption it
        (¬ (IsExecutable (patterns_of fragments.now) (plan_query plan.now).body set.now))
        (IsStatedOrder (patterns_of fragments.now) (plan_query plan.now).body set.now)) }
{
    if set.count() != plan.atoms.len() {
        return Ok(None);
    }
    let order = greedy_order(alloc, set, plan, fragments)?;
    if names_all(set, order.items()) {
        Ok(Some(order))
    } else {
        Ok(None)
    }
}

/// Whether each number of the list is in the set, is not named before, and has an atom that is accessible after the
/// atoms named before.
fn each_follows(order: &[usize], set: &RowBits, plan: &Plan, fragments: &FragmentDefs) -> bool
    ensures { IsTrue result ↔ ((place number : ℕ) → slice_get order.now place ≡ Some number
        → CanFollow (patterns_of fragments.now) (plan_query plan.now).body set.now
        (take place order.now) number) }
{
    'places: for (place, number) in order.iter().enumerate() {
        if !can_follow(set, plan, fragments, &order[..place], *number) {
            return false;
        }
    }
    true
}

/// Whether the list is an order of the set of the plan's atoms: it names each atom of the set once and no other, and
/// each is accessible after the earlier ones.
pub fn is_order(order: &Order, set: &RowBits, plan: &Plan, fragments: &FragmentDefs) -> bool
    ensures { IsTrue result ↔ IsOrder (patterns_of fragments.now) (plan_query plan.now).body
        set.now order.now }
{
    if set.count() != plan.atoms.len() {
        return false;
    }
    names_all(set, order.items()) && each_follows(order.items(), set, plan, fragments)
}

/// The greatest subset of the set that has an order. It has the count of the plan's atoms.
pub fn reached(
    alloc: Global,
    set: &RowBits,
    plan: &Plan,
    fragments: &FragmentDefs,
) -> Result<RowBits, OutOfMemory>
    ensures { IfOk result
        (IsAccessiblePart (patterns_of fragments.now) (plan_query plan.now).body set.now) }
{
    let order = greedy_order(alloc, set, plan, fragments)?;
    RowBits::of(alloc, plan.atoms.len(), order.items())
}
