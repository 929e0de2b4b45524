//! When a rule is made.
ghost use Rattle.std.specs.Prelude.{◌≢◌, [], ◌++◌, ◌<◌, ◌≤◌, All, length, Err, MatchOption};
ghost use Rattle.esto_semantics.specs.Maps.{IsFlat, AreFlat, IsFixedBy};
ghost use Rattle.esto_semantics.specs.Rules.{IsRule};
ghost use Rattle.esto_semantics.specs.WellFormed.{AreOver};
ghost use Rattle.esto_query.specs.Soundness.{AreNamed};
ghost use Rattle.esto_query.specs.Schemas.{arities_of};
ghost use Rattle.esto_constraint.specs.Soundness.{IsSoundTuple, IsSoundEquality, IsSoundDenial};
ghost use Rattle.esto_constraint.specs.Constraints.{rule_of};
ghost use Rattle.esto_constraint.specs.Making.{MakesTuple, MakesEquality, MakesDenial, IsBodyFault, IsFirstUnsafe};

use crate::rule::{Constraint, Denial, Egd, Tgd};
use esto_query::{MAX_ATOMS, Names, QueryFault, Schema, first_misfit, missing_variable};
use esto_semantics::{Atom, Atoms};
use esto_term::Term;
use std::alloc::Global;

/// The first variable of the sides, left and then right, that is not in the body.
fn first_unsafe(left: &Term, right: &Term, body: &[Atom]) -> Option<u64>
    requires flat_left { IsFlat left.now }
    requires flat_right { IsFlat right.now }
    ensures { MatchOption result (IsFixedBy body.now left.now × IsFixedBy body.now right.now)
        (IsFirstUnsafe left.now right.now body.now) }
{
    match missing_variable(left, body) {
        Some(variable) => Some(variable),
        None => missing_variable(right, body),
    }
}

/// What is wrong with a body: its first atom with a wrong number of terms, or else its number of
/// atoms, which are too many. None comes exactly where nothing is wrong.
fn body_fault(schema: &Schema, body: &[Atom]) -> Option<QueryFault>
    requires { All (λ atom. atom.relation < length schema.now) body.now }
    ensures { MatchOption result
        (AreOver (arities_of schema.now) body.now × (length body.now ≤ MAX_ATOMS))
        (IsBodyFault (arities_of schema.now) body.now) }
{
    if let Some(place) = first_misfit(schema, body) {
        return Some(QueryFault::Arity(place));
    }
    if body.len() > MAX_ATOMS {
        return Some(QueryFault::TooLarge(body.len()));
    }
    None
}

/// What is wrong with a body and the sides of an equality rule: what is wrong with the body, or
/// else the first unsafe side. None comes exactly where nothing is wrong.
fn equality_fault(schema: &Schema, body: &[Atom], left: &Term, right: &Term) -> Option<QueryFault>
    requires relations { All (λ atom. atom.relation < length schema.now) body.now }
    requires flat_left { IsFlat left.now }
    requires flat_right { IsFlat right.now }
    ensures { MatchOption result
        (AreOver (arities_of schema.now) body.now × (length body.now ≤ MAX_ATOMS)
        × IsFixedBy body.now left.now × IsFixedBy body.now right.now)
        (λ fault. MakesEquality
        (arities_of schema.now) body.now left.now right.now [] (Err fault)) }
{
    if let Some(fault) = body_fault(schema, body) {
        return Some(fault);
    }
    let variable = first_unsafe(left, right, body)?;
    Some(QueryFault::Unsafe(variable))
}

/// What is wrong with the body and the head of a tuple rule: the first atom with a wrong number of
/// terms, where the body's atoms are counted before the head's; or else the number of the body's
/// atoms, or else of the head's, where they are too many. OutOfMemory comes only where body and
/// head together have 2^64 atoms or more. None comes exactly where nothing is wrong.
fn tuple_fault(schema: &Schema, body: &[Atom], head: &[Atom]) -> Option<QueryFault>
    requires body_relations { All (λ atom. atom.relation < length schema.now) body.now }
    requires head_relations { All (λ atom. atom.relation < length schema.now) head.now }
    ensures { MatchOption result
        (AreOver (arities_of schema.now) (body.now ++ head.now)
        × (length body.now ≤ MAX_ATOMS) × (length head.now ≤ MAX_ATOMS))
        (λ fault. MakesTuple (arities_of schema.now) body.now head.now [] (Err fault)) }
{
    if let Some(place) = first_misfit(schema, body) {
        return Some(QueryFault::Arity(place));
    }
    if let Some(place) = first_misfit(schema, head) {
        let Some(after_body) = body.len().checked_add(place) else {
            return Some(QueryFault::OutOfMemory);
        };
        return Some(QueryFault::Arity(after_body));
    }
    if body.len() > MAX_ATOMS {
        return Some(QueryFault::TooLarge(body.len()));
    }
    if head.len() > MAX_ATOMS {
        return Some(QueryFault::TooLarge(head.len()));
    }
    None
}

/// The tuple rule of this body, head and names. Arity comes exactly where an atom has a wrong number of terms,
/// with the place of the first such atom, where the body's atoms are counted before the head's; else TooLarge
/// exactly where the body has more than `MAX_ATOMS` atoms, or else the head, with their number. OutOfMemory comes alone
/// where body and head together have 2^64 atoms or more, since nothing is allocated.
pub fn make_tuple_rule(
    _alloc: Global,
    schema: &Schema,
    body: Atoms,
    head: Atoms,
    names: Names,
) -> Result<Constraint, QueryFault>
    requires has_body { body ≢ [] }
    requires has_head { head ≢ [] }
    requires body_relations { All (λ atom. atom.relation < length schema.now) body }
    requires head_relations { All (λ atom. atom.relation < length schema.now) head }
    requires flat_body { AreFlat body }
    requires flat_head { AreFlat head }
    requires body_named { AreNamed names body }
    requires head_named { AreNamed names head }
    ensures { MakesTuple (arities_of schema.now) body head names result }
{
    match tuple_fault(schema, body.items(), head.items()) {
        Some(fault) => Err(fault),
        None => Ok(Constraint::Tuple(Tgd { body, head, names })),
    }
}

/// The equality rule of this body, these sides and names. Arity comes exactly where an atom has a wrong number
/// of terms, with the place of the first such atom; else TooLarge exactly where the body has more than `MAX_ATOMS` atoms,
/// with their number; else Unsafe exactly where a side is a variable that is not in the body, with the first
/// such variable, left before right. OutOfMemory never comes, since nothing is allocated.
pub fn make_equal_rule(
    _alloc: Global,
    schema: &Schema,
    body: Atoms,
    left: Term,
    right: Term,
    names: Names,
) -> Result<Constraint, QueryFault>
    requires has_body { body ≢ [] }
    requires relations { All (λ atom. atom.relation < length schema.now) body }
    requires flat_body { AreFlat body }
    requires flat_left { IsFlat left }
    requires flat_right { IsFlat right }
    requires named { AreNamed names body }
    ensures { MakesEquality (arities_of schema.now) body left right names result }
{
    match equality_fault(schema, body.items(), &left, &right) {
        Some(fault) => Err(fault),
        None => Ok(Constraint::Equal(Egd {
            body,
            left,
            right,
            names,
        })),
    }
}

/// The denial of this body and names. Arity comes exactly where an atom has a wrong number of terms, with the place of
/// the first such atom; else TooLarge exactly where the body has more than `MAX_ATOMS` atoms, with their number. Unsafe
/// never comes, and OutOfMemory neither, since nothing is allocated.
pub fn make_denial(
    _alloc: Global,
    schema: &Schema,
    body: Atoms,
    names: Names,
) -> Result<Constraint, QueryFault>
    requires has_body { body ≢ [] }
    requires relations { All (λ atom. atom.relation < length schema.now) body }
    requires flat_body { AreFlat body }
    requires named { AreNamed names body }
    ensures { MakesDenial (arities_of schema.now) body names result }
{
    match body_fault(schema, body.items()) {
        Some(fault) => Err(fault),
        None => Ok(Constraint::Never(Denial { body, names })),
    }
}

/// A law: each rule keeps what its description says, so its meaning is that of a rule.
pub fn rules_are_sound()
    ensures tuples { (rule : Tgd) → IsSoundTuple rule.body rule.head rule.names }
    ensures equalities { (rule : Egd) → IsSoundEquality rule.body rule.left rule.right rule.names }
    ensures denials { (rule : Denial) → IsSoundDenial rule.body rule.names }
    ensures rules { (constraint : Constraint) → IsRule (rule_of constraint) }
{}
