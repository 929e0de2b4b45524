//! What is new since a round, and the matches that use something of it.
ghost use Rattle.std.specs.Prelude.{◌≡◌, ◌↔◌, ◌<◌, ◌++◌, ◌∷◌, [], false, Contains, IsTrue, IfOk};
ghost use Rattle.esto_semantics.specs.declared.fact.Fact.{Fact};
ghost use Rattle.esto_term.specs.declared.term.Term.{Term};
ghost use Rattle.esto_chase_laws.specs.Worlds.{AreOfCount};
ghost use Rattle.esto_constraint.specs.Relations.{HasRelation};
ghost use Rattle.esto_condchase.specs.News.{IsApart, IsSettled, AreFoundAnew};
ghost use Rattle.esto_condchase.specs.Ways.{AreFound};
ghost use Rattle.esto_known.specs.KeptWays.{AreCounted};

use crate::ways::{match_next, matches_of};
use esto_chase_laws::{Claim, Entry};
use esto_known::{Known, Way};
use esto_prov::{both, terms_of};
use esto_semantics::Atom;
use esto_term::{List, OutOfMemory, Term};
use std::alloc::Global;

/// Whether some atom has the relation.
fn has_relation(body: &[Atom], relation: usize) -> bool
    ensures { IsTrue result ↔ HasRelation body.now relation }
{
    'atoms: for atom in body {
        if atom.relation == relation {
            return true;
        }
    }
    false
}

/// Whether a match of the body may use the claim: false comes only where it is a fact of a relation
/// that no atom of the body has.
fn concerns(claim: &Claim, body: &[Atom]) -> bool
    ensures { result ≡ false → IsApart claim.now body.now }
{
    match claim {
        Claim::Fact(fact) => has_relation(body, fact.relation),
        Claim::Same(_, _) => true,
    }
}

/// Whether a match of the body may use an entry from a place on. Where false comes, each match is
/// one among the entries before that place.
fn has_news(entries: &[Entry], since: usize, body: &[Atom]) -> bool
    ensures { result ≡ false → IsSettled entries.now since body.now }
{
    'entries: for place in since..entries.len() {
        if concerns(&entries[place].claim, body) {
            return true;
        }
    }
    false
}

/// The ways that match the body, as far as they tell what the last atom's terms and those asked for meet.
fn given_for(
    alloc: Global,
    known: &Known,
    body: &[Atom],
    last: &Atom,
    asked: &[Term],
    sides: &[Term],
    count: usize,
) -> Result<List<Way>, OutOfMemory>
    requires among { (term : Term) → Contains sides.now term → Contains asked.now term }
    requires counts { AreOfCount count known.now }
    ensures found { IfOk result
        (AreFound known.now body.now (last.now.terms ++ asked.now) sides.now) }
    ensures counted { IfOk result (λ ways. AreCounted count ways) }
{
    let live = both(alloc, last.terms.items(), asked)?;
    matches_of(alloc, known, body, live.items(), sides, count)
}

/// The ways that go on by the last atom from ways for the others, and use an entry from a place on.
fn anew(
    alloc: Global,
    known: &Known,
    since: usize,
    body: &[Atom],
    last: &Atom,
    asked: &[Term],
    sides: &[Term],
    count: usize,
) -> Result<List<Way>, OutOfMemory>
    requires among { (term : Term) → Contains sides.now term → Contains asked.now term }
    requires counts { AreOfCount count known.now }
    ensures found { IfOk result
        (AreFoundAnew known.now since (body.now ++ last.now ∷ []) asked.now sides.now) }
    ensures counted { IfOk result (λ ways. AreCounted count ways) }
{
    let from = terms_of(alloc, body)?;
    let given = given_for(alloc, known, body, last, asked, sides, count)?;
    match_next(
        alloc,
        known,
        since,
        &from,
        last,
        asked,
        sides,
        given.items(),
        count,
    )
}

/// The direct matches of a body among the entries, as far as they tell what the terms asked for meet, each with what
/// it uses, but for those that use the entries before a place alone, and for those by which the two sides, if there
/// are two, are one already.
pub fn matches_since(
    alloc: Global,
    entries: &Known,
    since: usize,
    body: &[Atom],
    asked: &[Term],
    sides: &[Term],
    count: usize,
) -> Result<List<Way>, OutOfMemory>
    requires among { (term : Term) → Contains sides.now term → Contains asked.now term }
    requires counts { AreOfCount count entries.now }
    ensures found { IfOk result (AreFoundAnew entries.now since body.now asked.now sides.now) }
    ensures counted { IfOk result (λ ways. AreCounted count ways) }
{
    if !has_news(entries.items(), since, body) {
        return Ok(List::new(alloc));
    }
    match body.split_last() {
        None => Ok(List::new(alloc)),
        Some((last, others)) => anew(alloc, entries, since, others, last, asked, sides, count),
    }
}
