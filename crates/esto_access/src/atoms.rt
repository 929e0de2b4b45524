//! Which atoms of a plan are accessible after some of them.
ghost use Rattle.std.specs.Prelude.{ℕ, ◌≡◌, ◌↔◌, [], slice_get, slice_index_or, Some, IsTrue, Contains};
ghost use Rattle.esto_term.specs.declared.term.Term.{Term};
ghost use Rattle.esto_semantics.specs.declared.fact.Fact.{Fact};
ghost use Rattle.esto_semantics.specs.Access.{IsInput, IsBound, MeetsPattern, IsAccessible};
ghost use Rattle.esto_term.specs.Sets.{Has};
ghost use Rattle.esto_views.specs.Fragments.{patterns_of};
ghost use Rattle.esto_views.specs.Plans.{fact_of, plan_query};
ghost use Rattle.esto_access.specs.Runs.{CanFollow};
ghost use Rattle.esto_access.specs.Ways.{IsWay};

use esto_bits::RowBits;
use esto_term::{Term, has_term};
use esto_views::{Access, AccessList, FragmentDefs, Plan, PlanAtom};

/// Whether the column is an input of the pattern.
pub(crate) fn is_input(pattern: &Access, column: usize) -> bool
    ensures { IsTrue result ↔ IsInput pattern.now column }
{
    column < pattern.len() && pattern.item(column)
}

/// Whether the plan has an atom of this number, and the term occurs in it.
fn occurs_at(plan: &Plan, number: usize, term: &Term) -> bool
    ensures { IsTrue result ↔ ((atom : Fact Term)
        × (slice_get (plan_query plan.now).body number ≡ Some atom)
        × Contains atom.terms term.now) }
{
    if number >= plan.atoms.len() {
        return false;
    }
    has_term(plan.atoms.item(number).terms.items(), term)
}

/// Whether the term is a constant, or occurs in one of the atoms of these numbers.
fn is_bound(plan: &Plan, earlier: &[usize], term: &Term) -> bool
    ensures { IsTrue result ↔ IsBound (plan_query plan.now).body (Contains earlier.now) term.now }
{
    if term.is_constant() {
        return true;
    }
    'numbers: for number in earlier {
        if occurs_at(plan, *number, term) {
            return true;
        }
    }
    false
}

/// Whether the atom meets the pattern after the atoms of these numbers.
fn meets_pattern(plan: &Plan, earlier: &[usize], atom: &PlanAtom, pattern: &Access) -> bool
    ensures { IsTrue result ↔ MeetsPattern (plan_query plan.now).body (Contains earlier.now)
        (fact_of atom.now) pattern.now }
{
    'columns: for (column, term) in atom.terms.items().iter().enumerate() {
        if is_input(pattern, column) && !is_bound(plan, earlier, term) {
            return false;
        }
    }
    true
}

/// The place of the first of these patterns that the atom meets after the atoms of these numbers.
fn first_met(
    plan: &Plan,
    earlier: &[usize],
    atom: &PlanAtom,
    patterns: &AccessList,
) -> Option<usize>
    ensures { IsWay (plan_query plan.now).body (Contains earlier.now) (fact_of atom.now)
        patterns.now result }
{
    'patterns: for (place, pattern) in patterns.items().iter().enumerate() {
        if meets_pattern(plan, earlier, atom, pattern) {
            return Some(place);
        }
    }
    None
}

/// The way in which the atom is read after the atoms of these numbers: the place of the first pattern of its fragment
/// that it meets.
pub fn way_of(
    plan: &Plan,
    fragments: &FragmentDefs,
    earlier: &[usize],
    atom: &PlanAtom,
) -> Option<usize>
    ensures { IsWay (plan_query plan.now).body (Contains earlier.now) (fact_of atom.now)
        (slice_index_or (patterns_of fragments.now) atom.now.fragment []) result }
{
    if atom.fragment >= fragments.len() {
        return None;
    }
    first_met(plan, earlier, atom, &fragments.item(atom.fragment).access)
}

/// Whether the atom is accessible after the atoms of these numbers.
fn is_accessible(plan: &Plan, fragments: &FragmentDefs, earlier: &[usize], atom: &PlanAtom) -> bool
    ensures { IsTrue result ↔ IsAccessible (patterns_of fragments.now)
        (plan_query plan.now).body (Contains earlier.now) (fact_of atom.now) }
{
    way_of(plan, fragments, earlier, atom).is_some()
}

/// Whether the number is one of these.
fn is_named(numbers: &[usize], number: usize) -> bool
    ensures { IsTrue result ↔ Contains numbers.now number }
{
    numbers.contains(&number)
}

/// Whether the atom of the number can come after the atoms of the earlier numbers: it is in the set, it is not one of
/// them, and it is accessible after them.
pub(crate) fn can_follow(
    set: &RowBits,
    plan: &Plan,
    fragments: &FragmentDefs,
    earlier: &[usize],
    number: usize,
) -> bool
    ensures { IsTrue result ↔ CanFollow (patterns_of fragments.now) (plan_query plan.now).body
        set.now earlier.now number }
{
    if number >= plan.atoms.len() || number >= set.count() || !set.has(number) {
        return false;
    }
    if is_named(earlier, number) {
        return false;
    }
    is_accessible(plan, fragments, earlier, plan.atoms.item(number))
}

/// Whether each number of the set is one of these.
pub(crate) fn names_all(set: &RowBits, numbers: &[usize]) -> bool
    ensures { IsTrue result ↔ ((number : ℕ) → Has set.now number → Contains numbers.now number) }
{
    'numbers: for number in 0..set.count() {
        if set.has(number) && !is_named(numbers, number) {
            return false;
        }
    }
    true
}
