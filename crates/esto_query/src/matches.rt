//! Matches of a body in a list of facts.
ghost use Rattle.std.specs.Prelude.{◌≡◌, ◌<◌, ◌↔◌, [], ℕ, List, IfOk, IfSome, IfNone, ⊤};
ghost use Rattle.esto_term.specs.declared.term.Term.{Term};
ghost use Rattle.esto_semantics.specs.Maps.{AreFlat, Sends};
ghost use Rattle.esto_semantics.specs.declared.fact.Fact.{Fact};
ghost use Rattle.esto_query.specs.Matches.{IsLeastMatch, HasNoMatch};
ghost use Rattle.esto_semantics.specs.Matches.{IsMatch, IsBefore, IsAtMost};
ghost use Rattle.esto_query.specs.Trails.{with_trail};
ghost use Rattle.esto_query.specs.Searches.{Follows};

use crate::indexed::IndexedFacts;
use crate::search::search;
use crate::trail::Binding;
use esto_semantics::{Atom, Atoms, Facts, Valuation};
use esto_term::{OutOfMemory, Places, Replicate, Values};
use std::alloc::Global;

/// A match of a body: the valuation, and for each atom the place of its fact.
#[derive(Drop)]
pub struct Found {
    pub valuation: Valuation,
    pub places: Places,
}

impl Replicate for Found {
    fn copy(&self, alloc: Global) -> Result<Found, OutOfMemory> {
        Ok(Found {
            valuation: self.valuation.copy(alloc)?,
            places: self.places.copy(alloc)?,
        })
    }
}

/// The start with the bindings of the trail.
pub(crate) fn extended(
    alloc: Global,
    start: &Valuation,
    trail: &[Binding],
) -> Result<Valuation, OutOfMemory>
    ensures { IfOk result (λ valuation. valuation ≡ with_trail start.now trail.now) }
{
    let mut valuation = start.copy(alloc)?;
    for binding in trail {
        let term = binding.term.copy(alloc)?;
        valuation.bind(binding.variable, term)?;
    }
    Ok(valuation)
}

/// The least match from the given places on, whose bindings come into the trail, which is empty.
fn least_by<'a>(
    alloc: Global,
    body: &[Atom],
    facts: &IndexedFacts<'a>,
    start: &Valuation,
    from: &[usize],
    trail: &mut Vec<Binding<'a>>,
) -> Result<Option<Found>, OutOfMemory>
    requires flat { AreFlat body.now }
    requires empty { trail.old.items ≡ [] }
    ensures found { IfOk result (λ outcome. IfSome outcome (λ found. IsLeastMatch
        body.now facts.now start.now (IsAtMost from.now) found.valuation found.places)) }
    ensures none { IfOk result (λ outcome. IfNone outcome
        (HasNoMatch body.now facts.now start.now (IsAtMost from.now))) }
{
    let mut places = Values::new(alloc);
    if !search(start, body, facts, from, trail, &mut places)? {
        return Ok(None);
    }
    let valuation = extended(alloc, start, trail)?;
    Ok(Some(Found { valuation, places }))
}

/// The least match from the given places on.
fn least_match(
    alloc: Global,
    body: &[Atom],
    facts: &IndexedFacts,
    start: &Valuation,
    from: &[usize],
) -> Result<Option<Found>, OutOfMemory>
    requires { AreFlat body.now }
    ensures found { IfOk result (λ outcome. IfSome outcome (λ found. IsLeastMatch
        body.now facts.now start.now (IsAtMost from.now) found.valuation found.places)) }
    ensures none { IfOk result (λ outcome. IfNone outcome
        (HasNoMatch body.now facts.now start.now (IsAtMost from.now))) }
{
    let mut trail = Vec::new(alloc);
    least_by(alloc, body, facts, start, from, &mut trail)
}

/// Places such that, of the lists of this many places below the bound, exactly those from them on
/// come after the given list. It may be of any length: what it has beyond that many places counts
/// for nothing.
fn places_after(
    alloc: Global,
    after: &[usize],
    count: usize,
    bound: usize,
) -> Result<Places, OutOfMemory>
    requires { 0 < count }
    ensures { IfOk result (λ from. Follows after.now count bound from) }
{
    if after.len() < count {
        return Values::from_slice(alloc, after);
    }
    let mut from = Values::from_slice(alloc, &after[..count])?;
    from.set(count - 1, after[count - 1].saturating_add(1));
    Ok(from)
}

/// The least match after the given places.
fn least_after(
    alloc: Global,
    body: &[Atom],
    facts: &IndexedFacts,
    start: &Valuation,
    after: &[usize],
) -> Result<Option<Found>, OutOfMemory>
    requires { AreFlat body.now }
    ensures found { IfOk result (λ outcome. IfSome outcome (λ found. IsLeastMatch
        body.now facts.now start.now (IsBefore after.now) found.valuation found.places)) }
    ensures none { IfOk result (λ outcome. IfNone outcome
        (HasNoMatch body.now facts.now start.now (IsBefore after.now))) }
{
    if body.is_empty() {
        return Ok(None);
    }
    let from = places_after(alloc, after, body.len(), facts.items().len())?;
    least_match(alloc, body, facts, start, from.items())
}

impl<'a> IndexedFacts<'a> {
    /// The least match of the body in the facts, by the list of places, that extends the start. None comes exactly
    /// where there is none.
    pub fn first_match(
        &self,
        alloc: Global,
        body: &Atoms,
        start: &Valuation,
    ) -> Result<Option<Found>, OutOfMemory>
        requires { AreFlat body.now }
        ensures found { IfOk result (λ outcome. IfSome outcome (λ found. IsLeastMatch
            body.now self.now start.now (λ _. ⊤) found.valuation found.places)) }
        ensures none { IfOk result (λ outcome. IfNone outcome
            (HasNoMatch body.now self.now start.now (λ _. ⊤))) }
    {
        least_match(alloc, body.items(), self, start, &[])
    }

    /// The least match after the given one, by the list of places, that extends the start. None comes exactly where
    /// there is none.
    pub fn next_match(
        &self,
        alloc: Global,
        body: &Atoms,
        start: &Valuation,
        after: &Found,
    ) -> Result<Option<Found>, OutOfMemory>
        requires { AreFlat body.now }
        ensures found { IfOk result (λ outcome. IfSome outcome (λ found. IsLeastMatch
            body.now self.now start.now (IsBefore after.now.places) found.valuation found.places)) }
        ensures none { IfOk result (λ outcome. IfNone outcome
            (HasNoMatch body.now self.now start.now (IsBefore after.now.places))) }
    {
        least_after(alloc, body.items(), self, start, after.places.items())
    }
}

/// The least match of the body in the facts, by the list of places, that extends the start. None comes exactly
/// where there is none. Facts that serve several calls are indexed once, as `IndexedFacts`.
pub fn first_match(
    alloc: Global,
    body: &Atoms,
    facts: &Facts,
    start: &Valuation,
) -> Result<Option<Found>, OutOfMemory>
    requires { AreFlat body.now }
    ensures found { IfOk result (λ outcome. IfSome outcome (λ found. IsLeastMatch
        body.now facts.now start.now (λ _. ⊤) found.valuation found.places)) }
    ensures none { IfOk result (λ outcome. IfNone outcome
        (HasNoMatch body.now facts.now start.now (λ _. ⊤))) }
{
    let indexed = IndexedFacts::of(alloc, facts)?;
    indexed.first_match(alloc, body, start)
}

/// The least match after the given one, by the list of places, that extends the start. None comes exactly where
/// there is none. Facts that serve several calls are indexed once, as `IndexedFacts`.
pub fn next_match(
    alloc: Global,
    body: &Atoms,
    facts: &Facts,
    start: &Valuation,
    after: &Found,
) -> Result<Option<Found>, OutOfMemory>
    requires { AreFlat body.now }
    ensures found { IfOk result (λ outcome. IfSome outcome (λ found. IsLeastMatch
        body.now facts.now start.now (IsBefore after.now.places) found.valuation found.places)) }
    ensures none { IfOk result (λ outcome. IfNone outcome
        (HasNoMatch body.now facts.now start.now (IsBefore after.now.places))) }
{
    let indexed = IndexedFacts::of(alloc, facts)?;
    indexed.next_match(alloc, body, start, after)
}

/// A law: a map of terms sends each atom of a body to one of the facts exactly where it has a match in their list.
/// So a body has a match that extends a start exactly where a map that keeps constants and extends the start
/// sends each atom to a fact.
pub fn matches_send()
    ensures { (m : Term → Term) (body facts : List (Fact Term)) → Sends m body facts
        ↔ ((places : List ℕ) × IsMatch m body facts places) }
{}
