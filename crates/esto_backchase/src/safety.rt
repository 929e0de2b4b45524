//! Safe sets of a plan's atoms.
ghost use Rattle.std.specs.Prelude.{◌≡◌, ◌↔◌, IsTrue, length, map};
ghost use Rattle.esto_semantics.specs.Access.{IsBound};
ghost use Rattle.esto_semantics.specs.Listed.{IsSafe};
ghost use Rattle.esto_term.specs.Sets.{Has};
ghost use Rattle.esto_views.specs.Plans.{fact_of, plan_query};

use esto_bits::RowBits;
use esto_semantics::chosen_atoms_are_named;
use esto_term::{Term, has_term};
use esto_views::{Plan, PlanAtom};

/// Whether the term is a constant, or occurs in an atom of the set.
fn is_fixed(atoms: &[PlanAtom], set: &RowBits, term: &Term) -> bool
    requires { length set.now ≡ length atoms.now }
    ensures { IsTrue result ↔ IsBound (map fact_of atoms.now) (Has set.now) term.now }
{
    if term.is_constant() {
        return true;
    }
    'atoms: for (number, atom) in atoms.iter().enumerate() {
        if set.has(number) && has_term(atom.terms.items(), term) {
            return true;
        }
    }
    false
}

/// Whether each term of the plan's head is a constant, or occurs in an atom of the set.
pub fn is_safe(plan: &Plan, set: &RowBits) -> bool
    requires { length set.now ≡ length plan.now.atoms }
    ensures { IsTrue result ↔ IsSafe (plan_query plan.now) set.now }
{
    chosen_atoms_are_named();
    'head: for term in plan.head.items() {
        if !is_fixed(plan.atoms.items(), set, term) {
            return false;
        }
    }
    true
}
