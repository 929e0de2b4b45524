//! What an atom needs, and the sets that give it.
ghost use Rattle.std.specs.Prelude.{◌≡◌, ◌<◌, ◌↔◌, ◌⊎◌, List, Bool, length, IfOk, OnOk};
ghost use Rattle.esto_semantics.specs.Access.{IsBound, IsInput, MeetsPattern};
ghost use Rattle.esto_term.specs.Sets.{Covers, Has};
ghost use Rattle.esto_views.specs.Fragments.{patterns_of};
ghost use Rattle.esto_views.specs.Plans.{fact_of, plan_query};
ghost use Rattle.esto_bits.specs.Kept.{AreOver, IsAntichain};
ghost use Rattle.esto_access.specs.Rounds.{AreSupplies, IsNextIn, MeetsOneOf, OccursIn};
ghost use Rattle.esto_access.specs.Supplies.{CoversWhere, IsSupplied};

use crate::atoms::is_input;
use crate::supply::Supplies;
use esto_bits::{Products, RowBits, products_are_antichains};
use esto_term::{OutOfMemory, Term, has_term};
use esto_views::{Access, AccessList, FragmentDefs, Plan, PlanAtom};
use std::alloc::Global;

/// The sets of the atoms in which the term occurs.
fn givers(
    alloc: Global,
    plan: &Plan,
    supplies: &Supplies,
    term: &Term,
) -> Result<Products, OutOfMemory>
    requires { AreSupplies (plan_query plan.now).body supplies.now }
    ensures count { IfOk result (λ it. it.count ≡ length plan.now.atoms) }
    ensures covers { IfOk result (λ it. CoversWhere
        (λ set. OccursIn (plan_query plan.now).body (IsSupplied supplies.now set) term.now)
        it.sets) }
{
    let mut found = Products::new(alloc, plan.atoms.len());
    'atoms: for number in 0..plan.atoms.len() {
        if has_term(plan.atoms.item(number).terms.items(), term) {
            found.add_all(alloc, supplies.item(number))?;
        }
    }
    Ok(found)
}

/// All sets: those in which a constant is bound.
fn every_set(alloc: Global, count: usize) -> Result<Products, OutOfMemory>
    ensures count { IfOk result (λ it. it.count ≡ count) }
    ensures covers { IfOk result (λ it. (set : List Bool) → Covers it.sets set) }
{
    let none = RowBits::new(alloc, count)?;
    Products::only(alloc, &none)
}

/// The sets in which the term is bound.
fn binders(
    alloc: Global,
    plan: &Plan,
    supplies: &Supplies,
    term: &Term,
) -> Result<Products, OutOfMemory>
    requires { AreSupplies (plan_query plan.now).body supplies.now }
    ensures count { IfOk result (λ it. it.count ≡ length plan.now.atoms) }
    ensures covers { IfOk result (λ it. CoversWhere
        (λ set. IsBound (plan_query plan.now).body (IsSupplied supplies.now set) term.now)
        it.sets) }
{
    if term.is_constant() {
        return every_set(alloc, plan.atoms.len());
    }
    givers(alloc, plan, supplies, term)
}

/// Keeps of the covered sets those in which the term is bound, if its column is an input of the pattern.
fn bind_input(
    alloc: Global,
    plan: &Plan,
    supplies: &Supplies,
    pattern: &Access,
    column: usize,
    term: &Term,
    found: &mut Products,
) -> Result<(), OutOfMemory>
    requires supplies { AreSupplies (plan_query plan.now).body supplies.now }
    requires count { found.old.count ≡ length plan.now.atoms }
    ensures count { OnOk result (found.new.count ≡ length plan.now.atoms) }
    ensures covers { OnOk result (CoversWhere
        (λ set. Covers found.old.sets set × (IsInput pattern.now column
        → IsBound (plan_query plan.now).body (IsSupplied supplies.now set) term.now))
        found.new.sets) }
{
    if !is_input(pattern, column) {
        return Ok(());
    }
    let bound = binders(alloc, plan, supplies, term)?;
    *found = found.joined(alloc, &bound)?;
    Ok(())
}

/// The sets that have the number.
fn sets_with(alloc: Global, count: usize, number: usize) -> Result<Products, OutOfMemory>
    requires { number < count }
    ensures count { IfOk result (λ it. it.count ≡ count) }
    ensures covers { IfOk result (λ it. CoversWhere (λ set. Has set number) it.sets) }
{
    let mut row = RowBits::new(alloc, count)?;
    row.insert(number);
    Products::only(alloc, &row)
}

/// The sets that have the number and in which its atom meets the pattern.
fn meeting(
    alloc: Global,
    plan: &Plan,
    supplies: &Supplies,
    number: usize,
    atom: &PlanAtom,
    pattern: &Access,
) -> Result<Products, OutOfMemory>
    requires supplies { AreSupplies (plan_query plan.now).body supplies.now }
    requires number { number < length plan.now.atoms }
    ensures count { IfOk result (λ it. it.count ≡ length plan.now.atoms) }
    ensures covers { IfOk result (λ it. CoversWhere
        (λ set. Has set number × MeetsPattern (plan_query plan.now).body
        (IsSupplied supplies.now set) (fact_of atom.now) pattern.now)
        it.sets) }
{
    let mut found = sets_with(alloc, plan.atoms.len(), number)?;
    'columns: for (column, term) in atom.terms.items().iter().enumerate() {
        bind_input(alloc, plan, supplies, pattern, column, term, &mut found)?;
    }
    Ok(found)
}

/// Adds the sets that have the number and in which its atom meets the pattern.
fn add_meeting(
    alloc: Global,
    plan: &Plan,
    supplies: &Supplies,
    number: usize,
    atom: &PlanAtom,
    pattern: &Access,
    found: &mut Products,
) -> Result<(), OutOfMemory>
    requires supplies { AreSupplies (plan_query plan.now).body supplies.now }
    requires number { number < length plan.now.atoms }
    requires count { found.old.count ≡ length plan.now.atoms }
    ensures count { found.new.count ≡ found.old.count }
    ensures covers { OnOk result ((set : List Bool) → Covers found.new.sets set
        ↔ (Covers found.old.sets set ⊎ (Has set number × MeetsPattern (plan_query plan.now).body
        (IsSupplied supplies.now set) (fact_of atom.now) pattern.now))) }
{
    let met = meeting(alloc, plan, supplies, number, atom, pattern)?;
    found.add_all(alloc, &met)
}

/// The sets that have the number and in which its atom meets one of the patterns.
fn meeting_any(
    alloc: Global,
    plan: &Plan,
    supplies: &Supplies,
    number: usize,
    atom: &PlanAtom,
    patterns: &AccessList,
) -> Result<Products, OutOfMemory>
    requires supplies { AreSupplies (plan_query plan.now).body supplies.now }
    requires number { number < length plan.now.atoms }
    ensures count { IfOk result (λ it. it.count ≡ length plan.now.atoms) }
    ensures covers { IfOk result (λ it. CoversWhere
        (λ set. Has set number × MeetsOneOf (plan_query plan.now).body
        (IsSupplied supplies.now set) (fact_of atom.now) patterns.now)
        it.sets) }
{
    let mut found = Products::new(alloc, plan.atoms.len());
    'patterns: for pattern in patterns.items() {
        add_meeting(alloc, plan, supplies, number, atom, pattern, &mut found)?;
    }
    Ok(found)
}

/// The sets that have the number and in which its atom is accessible after what is supplied.
pub(crate) fn next_products(
    alloc: Global,
    plan: &Plan,
    fragments: &FragmentDefs,
    supplies: &Supplies,
    number: usize,
) -> Result<Products, OutOfMemory>
    requires supplies { AreSupplies (plan_query plan.now).body supplies.now }
    requires number { number < length plan.now.atoms }
    ensures count { IfOk result (λ it. it.count ≡ length plan.now.atoms) }
    ensures kept { IfOk result (λ it. AreOver it.count it.sets × IsAntichain it.sets) }
    ensures covers { IfOk result (λ it. CoversWhere
        (λ set. IsNextIn (patterns_of fragments.now) (plan_query plan.now).body set
        (IsSupplied supplies.now set) number)
        it.sets) }
{
    let atom = plan.atoms.item(number);
    if atom.fragment >= fragments.len() {
        let none = Products::new(alloc, plan.atoms.len());
        products_are_antichains(&none);
        return Ok(none);
    }
    let patterns = &fragments.item(atom.fragment).access;
    let found = meeting_any(alloc, plan, supplies, number, atom, patterns)?;
    products_are_antichains(&found);
    Ok(found)
}
