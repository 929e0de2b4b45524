//! When a query is made.
ghost use Rattle.std.specs.Prelude.{◌≢◌, [], ◌<◌, ◌≤◌, List, Contains, All, length, MatchOption, Err};
ghost use Rattle.esto_term.specs.declared.term.Term.{Term};
ghost use Rattle.esto_semantics.specs.Maps.{IsFlat, AreFlat};
ghost use Rattle.esto_query.specs.Soundness.{AreNamed, IsSafe};
ghost use Rattle.esto_query.specs.Schemas.{arities_of};
ghost use Rattle.esto_semantics.specs.WellFormed.{AreOver};
ghost use Rattle.esto_query.specs.declared.query.Name.{Name};
ghost use Rattle.esto_query.specs.Making.{MakesQuery, IsFirstUnsafe};

use crate::body::{first_misfit, missing_variable};
use crate::query::{Names, Query};
use crate::schema::Schema;
use esto_semantics::{Atom, Atoms};
use esto_term::{OutOfMemory, Term, Terms};
use std::alloc::Global;

/// The greatest number of atoms of a body, and of a rule's head.
pub const MAX_ATOMS: usize = 64;

/// Why no query is made.
#[derive(Drop)]
pub enum QueryFault {
    /// This variable of the head is not in the body.
    Unsafe(u64),
    /// The atom at this place has a wrong number of terms.
    Arity(usize),
    /// The body has this many atoms, more than `MAX_ATOMS`.
    TooLarge(usize),
    OutOfMemory,
}

impl From<OutOfMemory> for QueryFault {
    ghost use Rattle.std.specs.Prelude.{◌≡◌};
    ghost use Rattle.esto_query.specs.declared.make.QueryFault.{QueryFault};

    ghost from_gives = { λ _ e. e ≡ QueryFault.OutOfMemory };

    fn from(_: OutOfMemory) -> QueryFault {
        QueryFault::OutOfMemory
    }
}

/// The first variable of the head that is not in the body.
fn first_unsafe(head: &[Term], body: &[Atom]) -> Option<u64>
    requires { (term : Term) → Contains head.now term → IsFlat term }
    ensures { MatchOption result (IsSafe head.now body.now) (IsFirstUnsafe head.now body.now) }
{
    for term in head {
        if let Some(variable) = missing_variable(term, body) {
            return Some(variable);
        }
    }
    None
}

/// Why no query is made of this head and body. None comes exactly where one is made.
fn fault_of(schema: &Schema, head: &[Term], body: &[Atom]) -> Option<QueryFault>
    requires relations { All (λ atom. atom.relation < length schema.now) body.now }
    requires flat { (term : Term) → Contains head.now term → IsFlat term }
    ensures { MatchOption result
        (AreOver (arities_of schema.now) body.now × (length body.now ≤ MAX_ATOMS)
        × IsSafe head.now body.now)
        (λ fault. (names : List Name)
        → MakesQuery (arities_of schema.now) head.now body.now names (Err fault)) }
{
    if let Some(place) = first_misfit(schema, body) {
        return Some(QueryFault::Arity(place));
    }
    if body.len() > MAX_ATOMS {
        return Some(QueryFault::TooLarge(body.len()));
    }
    match first_unsafe(head, body) {
        Some(variable) => Some(QueryFault::Unsafe(variable)),
        None => None,
    }
}

/// The query of this head, body and names. Arity comes exactly where an atom has a wrong number of terms, with
/// the place of the first such atom; else TooLarge exactly where the body has more than 64 atoms, with their
/// number; else Unsafe exactly where a variable of the head is not in the body, with the first such variable.
/// OutOfMemory never comes, since nothing is allocated.
pub fn make_query(
    _alloc: Global,
    schema: &Schema,
    head: Terms,
    body: Atoms,
    names: Names,
) -> Result<Query, QueryFault>
    requires has_head { head ≢ [] }
    requires has_body { body ≢ [] }
    requires relations { All (λ atom. atom.relation < length schema.now) body }
    requires flat_head { (term : Term) → Contains head term → IsFlat term }
    requires flat_body { AreFlat body }
    requires named { AreNamed names body }
    ensures { MakesQuery (arities_of schema.now) head body names result }
{
    if let Some(fault) = fault_of(schema, head.items(), body.items()) {
        return Err(fault);
    }
    Ok(Query { head, body, names })
}
