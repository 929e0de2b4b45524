//! Facts that may make something new of what is old: new ones, and those with a term that a new equality has.
ghost use Rattle.std.specs.Prelude.{◌≡◌, ◌<◌, ◌⊎◌, ℕ, Some, false, Contains, slice_get, IfOk, OnOk, MatchOption};
ghost use Rattle.esto_known.specs.declared.group.Group.{Group};
ghost use Rattle.esto_semantics.specs.declared.fact.Fact.{Fact};
ghost use Rattle.esto_term.specs.declared.term.Term.{Term};
ghost use Rattle.esto_chase_laws.specs.declared.entry.Claim.TheVariants.{Fact as Stated};
ghost use Rattle.esto_chase_laws.specs.declared.entry.Entry.{Entry};
ghost use Rattle.esto_known.specs.Live.{IsUnlinked, IsStale, AreFresh};

use crate::group::Group;
use crate::known::Known;
use crate::live::{group_at, has_later};
use esto_chase_laws::Claim;
use esto_semantics::Atom;
use esto_term::{OutOfMemory, Places, Term, Values};
use std::alloc::Global;

/// Whether the group at a place has an entry from a place on.
fn is_since(groups: &[Group], at: usize, since: usize) -> bool
    ensures { result ≡ false → (group : Group) → slice_get groups.now at ≡ Some group
        → (place : ℕ) → Contains group.places place → place < since }
{
    match group_at(groups, at) {
        None => false,
        Some(group) => has_later(group.places.items(), since),
    }
}

/// Whether one of the groups has.
fn has_since(groups: &[Group], found: &[usize], since: usize) -> bool
    ensures { result ≡ false → (at : ℕ) → Contains found.now at
        → (group : Group) → slice_get groups.now at ≡ Some group
        → (place : ℕ) → Contains group.places place → place < since }
{
    'found: for at in found {
        if is_since(groups, *at, since) {
            return true;
        }
    }
    false
}

/// Whether an equality with the term stands from a place on: false comes only where none does.
fn is_linked(alloc: Global, known: &Known, own: &Term, since: usize) -> Result<bool, OutOfMemory>
    ensures { IfOk result (λ it. it ≡ false → IsUnlinked known.now since own.now) }
{
    let groups = known.groups();
    let found = groups.with_side(alloc, own)?;
    let linked = has_since(groups.items(), found.items(), since);
    Ok(linked)
}

/// Whether one does so with one of the terms.
fn has_linked(
    alloc: Global,
    known: &Known,
    terms: &[Term],
    since: usize,
) -> Result<bool, OutOfMemory>
    ensures { IfOk result (λ it. it ≡ false → (own : Term) → Contains terms.now own
        → IsUnlinked known.now since own) }
{
    'terms: for own in terms {
        if is_linked(alloc, known, own, since)? {
            return Ok(true);
        }
    }
    Ok(false)
}

/// The fact of the entry at the place, if it has one.
fn fact_of(known: &Known, place: usize) -> Option<&Atom>
    ensures { MatchOption result
        ((entry : Entry) (fact : Fact Term) → slice_get known.now place ≡ Some entry
        → ¬ (entry.claim ≡ Stated fact))
        (λ fact. (entry : Entry) × (slice_get known.now place ≡ Some entry)
        × (entry.claim ≡ Stated fact.now)) }
{
    match known.items().get(place) {
        None => None,
        Some(entry) => match &entry.claim {
            Claim::Fact(fact) => Some(fact),
            Claim::Same(_, _) => None,
        },
    }
}

/// Whether the fact of the entry at the place may make something new of what is old: false comes only where it does
/// not.
fn is_fresh(alloc: Global, known: &Known, place: usize, since: usize) -> Result<bool, OutOfMemory>
    ensures { IfOk result (λ it. it ≡ false → IsStale known.now since place) }
{
    if place >= since {
        return Ok(true);
    }
    match fact_of(known, place) {
        None => Ok(false),
        Some(fact) => has_linked(alloc, known, fact.terms.items(), since),
    }
}

/// Puts in the place, if its fact may do so.
fn put_fresh(
    alloc: Global,
    known: &Known,
    place: usize,
    since: usize,
    places: &mut Places,
) -> Result<(), OutOfMemory>
    ensures kept { OnOk result ((at : ℕ) → Contains places.old at → Contains places.new at) }
    ensures there { OnOk result (Contains places.new place ⊎ IsStale known.now since place) }
{
    if !is_fresh(alloc, known, place, since)? {
        return Ok(());
    }
    places.push(place)
}

/// Those of the facts that may make something new of what is old.
pub fn fresh_of(
    alloc: Global,
    known: &Known,
    facts: &[usize],
    since: usize,
) -> Result<Places, OutOfMemory>
    ensures { IfOk result (λ it. AreFresh known.now since facts.now it) }
{
    let mut places = Values::new(alloc);
    'facts: for place in facts {
        put_fresh(alloc, known, *place, since, &mut places)?;
    }
    Ok(places)
}
