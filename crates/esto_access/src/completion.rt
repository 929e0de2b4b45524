//! Completion: sets of a plan's atoms in which something holds, made executable.
ghost use Rattle.std.specs.Prelude.{◌≡◌, ◌↔◌, ◌⊎◌, ◌<◌, List, Bool, Some, length, slice_get, IfOk, OnOk, IsTrue, Contains};
ghost use Rattle.esto_semantics.specs.Access.{HoldsExecutably};
ghost use Rattle.esto_term.specs.Sets.{Covers, Has, IsMinimal};
ghost use Rattle.esto_views.specs.Fragments.{patterns_of};
ghost use Rattle.esto_views.specs.Plans.{plan_query};
ghost use Rattle.esto_access.specs.Supplies.{CoversWhere, IsSupplied};
ghost use Rattle.esto_access.specs.Completion.{AreComplete, AreSuppliesOf, HaveOwn, IsCompletedIn, IsOneCompletedIn, completions};

use crate::supply::{Supplies, access_products};
use esto_bits::{Products, RowBits, products_are_antichains};
use esto_semantics::executable_sets_unite;
use esto_term::{OutOfMemory, Replicate};
use esto_views::{FragmentDefs, Plan};
use std::alloc::Global;

/// The minimal completions of a set: for each of its numbers, in every combination, one of the sets
/// that supply it. A number that is supplied in the set itself asks for nothing.
fn completions_of(
    alloc: Global,
    low: &RowBits,
    supplies: &Supplies,
) -> Result<Products, OutOfMemory>
    requires supplies { AreSuppliesOf (length low.now) supplies.now }
    requires own { HaveOwn supplies.now }
    ensures count { IfOk result (λ it. it.count ≡ length low.now) }
    ensures covers { IfOk result
        (λ it. CoversWhere (IsCompletedIn supplies.now low.now) it.sets) }
{
    let mut found = Products::only(alloc, low)?;
    'numbers: for number in 0..low.count() {
        if low.has(number) && !supplies.item(number).covered(low) {
            found = found.joined(alloc, supplies.item(number))?;
        }
    }
    Ok(found)
}

/// Whether the number is seen to be outside the set or supplied in it: true comes only where it is.
fn is_supplied(low: &RowBits, supplies: &Supplies, number: usize) -> bool
    requires supplies { AreSuppliesOf (length low.now) supplies.now }
    requires number { number < length low.now }
    ensures { IsTrue result → Has low.now number → IsSupplied supplies.now low.now number }
{
    if !low.has(number) {
        return true;
    }
    supplies.item(number).covered(low)
}

/// Whether the set is seen to be its own completion: true comes only where each number of the set
/// is supplied in the set itself.
fn is_complete(low: &RowBits, supplies: &Supplies) -> bool
    requires { AreSuppliesOf (length low.now) supplies.now }
    ensures { IsTrue result → IsCompletedIn supplies.now low.now low.now }
{
    'numbers: for number in 0..low.count() {
        if !is_supplied(low, supplies, number) {
            return false;
        }
    }
    true
}

/// Whether each of the products is seen to be its own completion: true comes only where it is so.
fn are_complete(
    alloc: Global,
    products: &Products,
    supplies: &Supplies,
) -> Result<bool, OutOfMemory>
    requires { AreSuppliesOf products.now.count supplies.now }
    ensures { IfOk result (λ answer. IsTrue answer
        → AreComplete supplies.now products.now.sets) }
{
    products_are_antichains(products);
    'sets: for at in 0..products.len() {
        let low = products.copy_of(alloc, at)?;
        if !is_complete(&low, supplies) {
            return Ok(false);
        }
    }
    Ok(true)
}

/// Adds the completions of the set at a place of the products.
fn add_completions(
    alloc: Global,
    products: &Products,
    supplies: &Supplies,
    at: usize,
    found: &mut Products,
) -> Result<(), OutOfMemory>
    requires supplies { AreSuppliesOf products.now.count supplies.now }
    requires own { HaveOwn supplies.now }
    requires at { at < length products.now.sets }
    requires count { found.old.count ≡ products.now.count }
    ensures count { found.new.count ≡ found.old.count }
    ensures covers { OnOk result ((low : List Bool) × (slice_get products.now.sets at ≡ Some low)
        × ((set : List Bool) → Covers found.new.sets set
        ↔ (Covers found.old.sets set ⊎ IsCompletedIn supplies.now low set))) }
{
    products_are_antichains(products);
    let low = products.copy_of(alloc, at)?;
    let completed = completions_of(alloc, &low, supplies)?;
    found.add_all(alloc, &completed)
}

/// The minimal completions of the products, each completed by itself.
fn complete_each(
    alloc: Global,
    products: &Products,
    supplies: &Supplies,
) -> Result<Products, OutOfMemory>
    requires supplies { AreSuppliesOf products.now.count supplies.now }
    requires own { HaveOwn supplies.now }
    ensures count { IfOk result (λ it. it.count ≡ products.now.count) }
    ensures minimal { IfOk result (λ it. (set : List Bool) → Contains it.sets set ↔ IsMinimal
        (Contains (completions products.now.count supplies.now products.now.sets)) set) }
    ensures covers { IfOk result
        (λ it. CoversWhere (IsOneCompletedIn supplies.now products.now.sets) it.sets) }
{
    products_are_antichains(products);
    let mut found = Products::new(alloc, products.count());
    'sets: for at in 0..products.len() {
        add_completions(alloc, products, supplies, at, &mut found)?;
    }
    products_are_antichains(&found);
    Ok(found)
}

/// The minimal completions of the products, where a completion of a set has for each of its numbers one of the sets
/// that supply the number. Each of these has the number itself.
pub fn complete(
    alloc: Global,
    products: &Products,
    supplies: &Supplies,
) -> Result<Products, OutOfMemory>
    requires supplies { AreSuppliesOf products.now.count supplies.now }
    requires own { HaveOwn supplies.now }
    ensures count { IfOk result (λ it. it.count ≡ products.now.count) }
    ensures minimal { IfOk result (λ it. (set : List Bool) → Contains it.sets set ↔ IsMinimal
        (Contains (completions products.now.count supplies.now products.now.sets)) set) }
    ensures covers { IfOk result
        (λ it. CoversWhere (IsOneCompletedIn supplies.now products.now.sets) it.sets) }
{
    products_are_antichains(products);
    let complete = are_complete(alloc, products, supplies)?;
    if complete {
        return products.copy(alloc);
    }
    complete_each(alloc, products, supplies)
}

/// The minimal executable sets of the plan's atoms that have one of the products as a subset: the minimal completions
/// of the products by the atoms' access products.
pub fn executable_products(
    alloc: Global,
    plan: &Plan,
    fragments: &FragmentDefs,
    products: &Products,
) -> Result<Products, OutOfMemory>
    requires { products.now.count ≡ length plan.now.atoms }
    ensures count { IfOk result (λ it. it.count ≡ length plan.now.atoms) }
    ensures minimal { IfOk result (λ it. (set : List Bool) → Contains it.sets set ↔ IsMinimal
        (HoldsExecutably (patterns_of fragments.now) (plan_query plan.now).body
        (Covers products.now.sets)) set) }
{
    executable_sets_unite();
    let supplies = access_products(alloc, plan, fragments)?;
    complete(alloc, products, &supplies)
}
