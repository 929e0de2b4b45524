//! Chains of equalities in the world of a set, found breadth first.
ghost use Rattle.std.specs.Prelude.{◌≡◌, ◌↔◌, ◌<◌, [], ℕ, Bool, List, Contains, MatchOption, length, IsTrue, IfOk, OnOk};
ghost use Rattle.esto_term.specs.declared.term.Term.{Term};
ghost use Rattle.esto_chase_laws.specs.Worlds.{InWorld, Linked, SaysOne};
ghost use Rattle.esto_chase_laws.specs.declared.entry.Entry.{Entry};
ghost use Rattle.esto_derive.specs.Chains.{AreReached, Grows, IsAt, IsOther, IsPassed, LeadsTo, reached_terms};
ghost use Rattle.esto_derive.specs.Searching.{AreAllLinks, IsChainIn};

use crate::world::World;
use esto_prov::Claim;
use esto_term::{List, OutOfMemory, Term};
use std::alloc::Global;

/// A term that is reached, and by what: the place of a term that was reached earlier, and that of an entry whose
/// equality leads from there to it. The first term is reached by none.
#[derive(Clone, Copy)]
pub struct Reached<'a> {
    pub term: &'a Term,
    pub by: Option<(usize, usize)>,
}

/// The term that the claim says is one with this term.
fn across<'a>(claim: &'a Claim, term: &Term) -> Option<&'a Term>
    ensures { MatchOption result ((next : Term) → ¬ (SaysOne claim.now term.now next))
        (λ next. IsOther claim.now term.now next.now) }
{
    match claim {
        Claim::Fact(_) => None,
        Claim::Same(left, right) => {
            if left.equal(term) {
                return Some(right);
            }
            right.equal(term).then_some(left)
        }
    }
}

/// The place of the term in what is reached.
fn place_of(reached: &[Reached], term: &Term) -> Option<usize>
    ensures { MatchOption result (¬ (Contains (reached_terms reached.now) term.now))
        (IsAt reached.now term.now) }
{
    'places: for (place, it) in reached.iter().enumerate() {
        if it.term.equal(term) {
            return Some(place);
        }
    }
    None
}

/// The chain over which the term at the place is reached.
fn chain_to(alloc: Global, reached: &[Reached], place: usize) -> Result<List<usize>, OutOfMemory>
    requires are { (entries : List Entry) × (set : List Bool) × (first : Term)
        × AreReached entries set first reached.now }
    requires there { place < length reached.now }
    ensures { IfOk result (LeadsTo reached.now place) }
{
    let mut chain = List::new(alloc);
    let mut at = place;
    'steps: loop {
        let it = &reached[at];
        let Some((from, link)) = it.by else {
            return Ok(chain);
        };
        chain.insert(0, link)?;
        at = from;
    }
}

impl<'a> World<'a> {
    /// Goes over the equality from the term at a place of what is reached, so that the term on its other side is
    /// reached.
    fn go_over(
        &self,
        link: usize,
        at: usize,
        reached: &mut List<Reached<'a>>,
    ) -> Result<(), OutOfMemory>
        requires links { AreAllLinks self.now.entries.now self.now.set.now self.now.links.now }
        requires link { Contains self.now.links.now link }
        requires at { at < length reached.old }
        ensures grows { OnOk result
            (Grows self.now.entries.now self.now.set.now reached.old reached.new) }
        ensures passed { OnOk result
            (IsPassed self.now.entries.now self.now.set.now reached.new at link) }
    {
        let Some(next) = across(&self.entries[link].claim, reached.item(at).term) else {
            return Ok(());
        };
        if place_of(reached.items(), next).is_some() {
            return Ok(());
        }
        let by = Some((at, link));
        reached.push(Reached { term: next, by })
    }

    /// Goes on from the term at a place of what is reached, over each equality in turn.
    fn go_on(&self, at: usize, reached: &mut List<Reached<'a>>) -> Result<(), OutOfMemory>
        requires links { AreAllLinks self.now.entries.now self.now.set.now self.now.links.now }
        requires at { at < length reached.old }
        ensures grows { OnOk result
            (Grows self.now.entries.now self.now.set.now reached.old reached.new) }
        ensures passed { OnOk result ((link : ℕ) → Contains self.now.links.now link
            → IsPassed self.now.entries.now self.now.set.now reached.new at link) }
    {
        'links: for link in self.links {
            self.go_over(*link, at, reached)?;
        }
        Ok(())
    }

    /// Goes on from the term, breadth first, until the other one is reached, and answers its place in what is reached.
    /// None comes where no chain leads to it.
    fn reach(
        &self,
        term: &'a Term,
        other: &Term,
        reached: &mut List<Reached<'a>>,
    ) -> Result<Option<usize>, OutOfMemory>
        requires links { AreAllLinks self.now.entries.now self.now.set.now self.now.links.now }
        requires none { reached.old ≡ [] }
        ensures are { OnOk result
            (AreReached self.now.entries.now self.now.set.now term.now reached.new) }
        ensures found { IfOk result (λ found. MatchOption found
            (¬ (Linked (InWorld self.now.entries.now self.now.set.now) term.now other.now))
            (IsAt reached.new other.now)) }
    {
        reached.push(Reached { term, by: None })?;
        let mut at = 0;
        'turns: while at < reached.len() {
            if let Some(place) = place_of(reached.items(), other) {
                return Ok(Some(place));
            }
            self.go_on(at, reached)?;
            at += 1;
        }
        Ok(None)
    }

    /// Whether the terms are one in the world.
    pub fn is_one(&self, alloc: Global, term: &'a Term, other: &Term) -> Result<bool, OutOfMemory>
        requires { AreAllLinks self.now.entries.now self.now.set.now self.now.links.now }
        ensures { IfOk result (λ answer. IsTrue answer
            ↔ Linked (InWorld self.now.entries.now self.now.set.now) term.now other.now) }
    {
        if term.equal(other) {
            return Ok(true);
        }
        let mut reached = List::new(alloc);
        let found = self.reach(term, other, &mut reached)?;
        Ok(found.is_some())
    }

    /// A shortest chain of equalities of the world from the term to the other one, as the places of their entries: the
    /// first that is found breadth first. None comes where the terms are not one.
    pub fn chain(
        &self,
        alloc: Global,
        term: &'a Term,
        other: &Term,
    ) -> Result<Option<List<usize>>, OutOfMemory>
        requires { AreAllLinks self.now.entries.now self.now.set.now self.now.links.now }
        ensures { IfOk result
            (IsChainIn self.now.entries.now self.now.set.now term.now other.now) }
    {
        let mut reached = List::new(alloc);
        let Some(place) = self.reach(term, other, &mut reached)? else {
            return Ok(None);
        };
        let chain = chain_to(alloc, reached.items(), place)?;
        Ok(Some(chain))
    }
}
