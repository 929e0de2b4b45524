//! Matches of a body in what lines claim.
ghost use Rattle.std.specs.Prelude.{◌≡◌, ◌↔◌, List, IsTrue, IfOk, MatchOption};
ghost use Rattle.std.specs.List.{AllZip};
ghost use Rattle.esto_chase_laws.specs.WorldMatches.{IsLike};
ghost use Rattle.esto_term.specs.declared.term.Term.{Term};
ghost use Rattle.esto_semantics.specs.Facts.{terms_of};
ghost use Rattle.esto_semantics.specs.declared.fact.Fact.{Fact};
ghost use Rattle.esto_cert.specs.Linking.{StandsAsOne, Tells, IsAmong};
ghost use Rattle.esto_cert.specs.Matching.{IsFound, FactsFit};

use crate::linking::{Equalities, Equality, renamings_of, stand_as_one};
use crate::naming::{equalities_at, facts_at};
use esto_chase_laws::Claim;
use esto_prov::{taken_terms, terms_of};
use esto_semantics::{Atom, Atoms};
use esto_term::{OutOfMemory, Terms};
use std::alloc::Global;

/// A match: the chosen facts, the terms of the body and of the facts, and renamings that tell which terms are linked.
#[derive(Drop)]
pub struct Found {
    pub chosen: Atoms,
    pub from: Terms,
    pub to: Terms,
    pub renamings: Equalities,
}

/// Whether the fact has the atom's relation and length.
fn is_like(atom: &Atom, fact: &Atom) -> bool
    ensures { IsTrue result ↔ IsLike atom.now fact.now }
{
    fact.relation == atom.relation && fact.terms.len() == atom.terms.len()
}

/// Whether there is for each atom a fact of its relation and length.
fn are_like(body: &[Atom], chosen: &[Atom]) -> bool
    ensures { IsTrue result ↔ AllZip IsLike body.now chosen.now }
{
    if body.len() != chosen.len() {
        return false;
    }
    'atoms: for place in 0..body.len() {
        if !is_like(&body[place], &chosen[place]) {
            return false;
        }
    }
    true
}

/// Whether the facts match the body, where linked terms count as one.
fn fits(alloc: Global, body: &[Atom], it: &Found) -> Result<bool, OutOfMemory>
    ensures { IfOk result (λ answer. IsTrue answer
        ↔ FactsFit (StandsAsOne it.now.renamings) body.now it.now.chosen it.now.from it.now.to) }
{
    if !are_like(body, it.chosen.items()) {
        return Ok(false);
    }
    let met = taken_terms(alloc, it.from.items(), it.to.items(), it.from.items())?;
    Ok(stand_as_one(it.renamings.items(), it.to.items(), met.items()))
}

/// What is known of the facts as a match of the body, with renamings by the equalities.
fn found_by(
    alloc: Global,
    body: &[Atom],
    chosen: Atoms,
    equalities: &[Equality],
) -> Result<Found, OutOfMemory>
    ensures chosen { IfOk result (λ it. it.chosen ≡ chosen) }
    ensures from { IfOk result (λ it. it.from ≡ terms_of body.now) }
    ensures to { IfOk result (λ it. it.to ≡ terms_of chosen) }
    ensures renamings { IfOk result (λ it. (facts : List (Fact Term))
        → Tells it.renamings (IsAmong facts equalities.now)) }
{
    let from = terms_of(alloc, body)?;
    let to = terms_of(alloc, chosen.items())?;
    let renamings = renamings_of(alloc, equalities)?;
    Ok(Found {
        chosen,
        from,
        to,
        renamings,
    })
}

/// The facts as they are, where they match the body.
fn if_fits(alloc: Global, body: &[Atom], it: Found) -> Result<Option<Found>, OutOfMemory>
    ensures { IfOk result (λ found. MatchOption found
        (¬ (FactsFit (StandsAsOne it.renamings) body.now it.chosen it.from it.to))
        (λ same. (same ≡ it)
        × FactsFit (StandsAsOne it.renamings) body.now it.chosen it.from it.to)) }
{
    Ok(fits(alloc, body, &it)?.then_some(it))
}

/// The match of the body by the facts and the equalities that the claims of these numbers state, if it is one.
pub fn find_match(
    alloc: Global,
    claims: &[Claim],
    body: &[Atom],
    facts: &[u64],
    links: &[u64],
) -> Result<Option<Found>, OutOfMemory>
    ensures { IfOk result (IsFound claims.now body.now facts.now links.now) }
{
    let Some(chosen) = facts_at(alloc, claims, facts)? else {
        return Ok(None);
    };
    let Some(equalities) = equalities_at(alloc, claims, links)? else {
        return Ok(None);
    };
    let it = found_by(alloc, body, chosen, equalities.items())?;
    if_fits(alloc, body, it)
}
