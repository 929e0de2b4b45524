//! The rules that are tried: those that don't hold by law.
ghost use Rattle.std.specs.Prelude.{◌≡◌, ◌↔◌, IsTrue, Contains};
ghost use Rattle.esto_constraint.specs.Constraints.{rule_of, rules_of};

use esto_constraint::{Constraint, Egd, Tgd};
use esto_semantics::Atom;
use esto_term::equal_terms;

// Whether both are the same atom.
fn is_same_atom(atom: &Atom, other: &Atom) -> bool
    ensures { IsTrue result ↔ (atom.now ≡ other.now) }
{
    if atom.relation != other.relation {
        return false;
    }
    equal_terms(atom.terms.items(), other.terms.items())
}

// Whether both are the same atoms in the same order.
fn are_same(atoms: &[Atom], others: &[Atom]) -> bool
    ensures { IsTrue result ↔ (atoms.now ≡ others.now) }
{
    if atoms.len() != others.len() {
        return false;
    }
    'atoms: for (place, atom) in atoms.iter().enumerate() {
        if !is_same_atom(atom, &others[place]) {
            return false;
        }
    }
    true
}

// Whether both are the same tuple rule, whatever their variables are named.
fn is_same_tuple(rule: &Tgd, other: &Tgd) -> bool
    ensures { IsTrue result
        ↔ ((rule.now.body ≡ other.now.body) × (rule.now.head ≡ other.now.head)) }
{
    if !are_same(rule.body.items(), other.body.items()) {
        return false;
    }
    are_same(rule.head.items(), other.head.items())
}

// Whether both are the same equality rule, whatever their variables are named.
fn is_same_equality(rule: &Egd, other: &Egd) -> bool
    ensures { IsTrue result ↔ ((rule.now.body ≡ other.now.body)
        × ((rule.now.left ≡ other.now.left) × (rule.now.right ≡ other.now.right))) }
{
    if !rule.left.equal(&other.left) {
        return false;
    }
    if !rule.right.equal(&other.right) {
        return false;
    }
    are_same(rule.body.items(), other.body.items())
}

// Whether both are the same rule, whatever their variables are named.
fn is_same_rule(rule: &Constraint, other: &Constraint) -> bool
    ensures { IsTrue result ↔ (rule_of rule.now ≡ rule_of other.now) }
{
    match rule {
        Constraint::Tuple(rule) => match other {
            Constraint::Tuple(other) => is_same_tuple(rule, other),
            Constraint::Equal(_) => false,
            Constraint::Never(_) => false,
        },
        Constraint::Equal(rule) => match other {
            Constraint::Tuple(_) => false,
            Constraint::Equal(other) => is_same_equality(rule, other),
            Constraint::Never(_) => false,
        },
        Constraint::Never(rule) => match other {
            Constraint::Tuple(_) => false,
            Constraint::Equal(_) => false,
            Constraint::Never(other) => are_same(rule.body.items(), other.body.items()),
        },
    }
}

/// Whether the rule is one of the laws.
pub fn is_law(rule: &Constraint, laws: &[Constraint]) -> bool
    ensures { IsTrue result ↔ Contains (rules_of laws.now) (rule_of rule.now) }
{
    'laws: for law in laws {
        if is_same_rule(rule, law) {
            return true;
        }
    }
    false
}
