//! Access products.
ghost use Rattle.std.specs.Prelude.{ℕ, ◌≡◌, ◌↔◌, [], length, replicate, slice_get, Some, IfOk, OnOk, IsTrue};
ghost use Rattle.esto_term.specs.Sets.{TellHolds};
ghost use Rattle.esto_views.specs.Fragments.{patterns_of};
ghost use Rattle.esto_views.specs.Plans.{plan_query};
ghost use Rattle.esto_bits.specs.Kept.{Kept, kept};
ghost use Rattle.esto_access.specs.Rounds.{AddNothing, AreOneRound, AreSupplies, TellAllReached};
ghost use Rattle.esto_access.specs.Supplies.{AreAccessProducts, EachIs, IsReachedIn};

use crate::laws::rounds_are_enough;
use crate::needs::next_products;
use esto_bits::Products;
use esto_term::{List, OutOfMemory};
use esto_views::{FragmentDefs, Plan};
use std::alloc::Global;

/// Products for each atom of a plan, in the order of the atoms.
pub type Supplies = List<Products>;

/// No sets for each of so many atoms.
fn no_supplies(alloc: Global, count: usize) -> Result<Supplies, OutOfMemory>
    ensures { IfOk result (λ it. it ≡ replicate count (kept count [])) }
{
    let mut supplies = List::new(alloc);
    'numbers: for _number in 0..count {
        supplies.push(Products::new(alloc, count))?;
    }
    Ok(supplies)
}

/// One round more.
fn next_supplies(
    alloc: Global,
    plan: &Plan,
    fragments: &FragmentDefs,
    supplies: &Supplies,
) -> Result<Supplies, OutOfMemory>
    requires { AreSupplies (plan_query plan.now).body supplies.now }
    ensures supplies { IfOk result (AreSupplies (plan_query plan.now).body) }
    ensures round { IfOk result
        (AreOneRound (patterns_of fragments.now) (plan_query plan.now).body supplies.now) }
{
    let mut next = List::new(alloc);
    'numbers: for number in 0..plan.atoms.len() {
        let products = next_products(alloc, plan, fragments, supplies, number)?;
        next.push(products)?;
    }
    Ok(next)
}

/// Whether the round added nothing.
fn adds_nothing(before: &Supplies, after: &Supplies) -> bool
    requires same { length after.now ≡ length before.now }
    requires counts { (number : ℕ) (own other : Kept) → slice_get before.now number ≡ Some own
        → slice_get after.now number ≡ Some other → other.count ≡ own.count }
    ensures { IsTrue result ↔ AddNothing before.now after.now }
{
    'numbers: for number in 0..after.len() {
        if !before.item(number).covers_all(after.item(number)) {
            return false;
        }
    }
    true
}

/// Goes on to the supplies of one round more, and answers whether that round added nothing.
fn advance(
    alloc: Global,
    plan: &Plan,
    fragments: &FragmentDefs,
    supplies: &mut Supplies,
) -> Result<bool, OutOfMemory>
    requires { AreSupplies (plan_query plan.now).body supplies.old }
    ensures supplies { OnOk result (AreSupplies (plan_query plan.now).body supplies.new) }
    ensures round { OnOk result (AreOneRound (patterns_of fragments.now) (plan_query plan.now).body
        supplies.old supplies.new) }
    ensures last { IfOk result (λ last. IsTrue last ↔ AddNothing supplies.old supplies.new) }
{
    let next = next_supplies(alloc, plan, fragments, supplies)?;
    let last = adds_nothing(supplies, &next);
    *supplies = next;
    Ok(last)
}

/// Rounds until one adds nothing, or there were as many as there are atoms.
fn last_supplies(
    alloc: Global,
    plan: &Plan,
    fragments: &FragmentDefs,
) -> Result<Supplies, OutOfMemory>
    ensures supplies { IfOk result (AreSupplies (plan_query plan.now).body) }
    ensures tell { IfOk result
        (TellAllReached (patterns_of fragments.now) (plan_query plan.now).body) }
{
    rounds_are_enough();
    let mut supplies = no_supplies(alloc, plan.atoms.len())?;
    'rounds: for _round in 0..plan.atoms.len() {
        let last = advance(alloc, plan, fragments, &mut supplies)?;
        if last {
            return Ok(supplies);
        }
    }
    Ok(supplies)
}

/// For each atom of the plan its access products: the minimal sets of the plan's atoms in whose accessible part the
/// atom is. So a set of the atoms has one of them as a subset exactly where the atom is in its accessible part.
pub fn access_products(
    alloc: Global,
    plan: &Plan,
    fragments: &FragmentDefs,
) -> Result<Supplies, OutOfMemory>
    ensures count { IfOk result (λ it. length it ≡ length plan.now.atoms) }
    ensures counts { IfOk result (EachIs (λ _ it. it.count ≡ length plan.now.atoms)) }
    ensures least { IfOk result (EachIs (λ number it.
        AreAccessProducts (patterns_of fragments.now) (plan_query plan.now).body number it.sets)) }
    ensures tell { IfOk result (EachIs (λ number it.
        TellHolds (length (plan_query plan.now).body)
        (IsReachedIn (patterns_of fragments.now) (plan_query plan.now).body number) it.sets)) }
{
    let supplies = last_supplies(alloc, plan, fragments)?;
    Ok(supplies)
}
