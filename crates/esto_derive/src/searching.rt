//! A match of a body in the world of a set, with the entries that it uses.
ghost use Rattle.std.specs.Prelude.{◌≡◌, ◌↔◌, ◌∷◌, List, Some, map, option_map, length, slice_get, IsTrue, IfOk, OnOk};
ghost use Rattle.std.specs.List.{AllZip};
ghost use Rattle.esto_semantics.specs.declared.fact.Fact.{Fact};
ghost use Rattle.esto_term.specs.declared.term.Term.{Term};
ghost use Rattle.esto_chase_laws.specs.Derived.{IsNamed};
ghost use Rattle.esto_chase_laws.specs.WorldMatches.{Fits, taken};
ghost use Rattle.esto_chase_laws.specs.Worlds.{AreOfCount, InWorld, Linked};
ghost use Rattle.esto_derive.specs.Searching.{AddsChain, AreAllLinks, AreLinks, IsFound, IsFoundAfter, IsFoundBy, IsFoundIfOne};

use crate::world::World;
use esto_prov::{Claim, Entry, both, taken_terms};
use esto_semantics::Atom;
use esto_term::{List, OutOfMemory, Term, Terms};
use std::alloc::Global;

/// The places with one more before them, where there are places.
fn with_first(place: usize, places: Option<List<usize>>) -> Result<Option<List<usize>>, OutOfMemory>
    ensures { IfOk result (λ it. it ≡ option_map (λ rest. place ∷ rest) places) }
{
    match places {
        Some(rest) => {
            let mut all = rest;
            all.insert(0, place)?;
            Ok(Some(all))
        }
        None => Ok(None),
    }
}

impl World<'_> {
    /// Whether the terms are one in the world, place by place.
    fn are_one(&self, alloc: Global, terms: &[Term], others: &[Term]) -> Result<bool, OutOfMemory>
        requires { AreAllLinks self.now.entries.now self.now.set.now self.now.links.now }
        ensures { IfOk result (λ answer. IsTrue answer ↔ AllZip
            (Linked (InWorld self.now.entries.now self.now.set.now)) terms.now others.now) }
    {
        if terms.len() != others.len() {
            return Ok(false);
        }
        'places: for place in 0..terms.len() {
            if !self.is_one(alloc, &terms[place], &others[place])? {
                return Ok(false);
            }
        }
        Ok(true)
    }

    /// Entries of facts in the world that match the body, if there are any, where terms that have been met go on to
    /// meet what they met first.
    #[cycle(find)]
    pub fn find(
        &self,
        alloc: Global,
        from: &Terms,
        to: &Terms,
        body: &[Atom],
    ) -> Result<Option<List<usize>>, OutOfMemory>
        requires counts { AreOfCount (length self.now.set.now) self.now.entries.now }
        requires links { AreAllLinks self.now.entries.now self.now.set.now self.now.links.now }
        requires lengths { length from.now ≡ length to.now }
        requires fits { Fits (Linked (InWorld self.now.entries.now self.now.set.now))
            from.now to.now }
        ensures { IfOk result
            (IsFound self.now.entries.now self.now.set.now from.now to.now body.now) }
    {
        let Some((atom, rest)) = body.split_first() else {
            return Ok(Some(List::new(alloc)));
        };
        'entries: for (place, entry) in self.entries.iter().enumerate() {
            let found = self.find_by(alloc, from, to, atom, rest, place, entry)?;
            if found.is_some() {
                return Ok(found);
            }
        }
        Ok(None)
    }

    /// Entries of facts in the world that match the body, if there are any of which the first is
    /// this entry's.
    #[cycle(find)]
    fn find_by(
        &self,
        alloc: Global,
        from: &Terms,
        to: &Terms,
        atom: &Atom,
        rest: &[Atom],
        place: usize,
        entry: &Entry,
    ) -> Result<Option<List<usize>>, OutOfMemory>
        requires counts { AreOfCount (length self.now.set.now) self.now.entries.now }
        requires links { AreAllLinks self.now.entries.now self.now.set.now self.now.links.now }
        requires lengths { length from.now ≡ length to.now }
        requires fits { Fits (Linked (InWorld self.now.entries.now self.now.set.now))
            from.now to.now }
        requires at { slice_get self.now.entries.now place ≡ Some entry.now }
        ensures { IfOk result (IsFoundBy self.now.entries.now self.now.set.now from.now to.now
            atom.now rest.now entry.now) }
    {
        if !entry.product.within(self.set) {
            return Ok(None);
        }
        match &entry.claim {
            Claim::Same(_, _) => Ok(None),
            Claim::Fact(fact) => {
                let found = self.find_after(alloc, from, to, atom, rest, fact)?;
                with_first(place, found)
            }
        }
    }

    /// The entries for the rest of a body whose first atom matches the fact.
    #[cycle(find)]
    fn find_after(
        &self,
        alloc: Global,
        from: &Terms,
        to: &Terms,
        atom: &Atom,
        rest: &[Atom],
        fact: &Atom,
    ) -> Result<Option<List<usize>>, OutOfMemory>
        requires counts { AreOfCount (length self.now.set.now) self.now.entries.now }
        requires links { AreAllLinks self.now.entries.now self.now.set.now self.now.links.now }
        requires lengths { length from.now ≡ length to.now }
        requires fits { Fits (Linked (InWorld self.now.entries.now self.now.set.now))
            from.now to.now }
        ensures { IfOk result (IsFoundAfter self.now.entries.now self.now.set.now from.now to.now
            atom.now rest.now fact.now) }
    {
        if fact.relation != atom.relation || fact.terms.len() != atom.terms.len() {
            return Ok(None);
        }
        let longer = both(alloc, from.items(), atom.terms.items())?;
        let met = both(alloc, to.items(), fact.terms.items())?;
        self.find_if_one(alloc, &longer, &met, &atom.terms, &fact.terms, rest)
    }

    /// Entries of facts in the world that match the body, if there are any, and if what the terms meet first is one in
    /// the world, place by place, with the others.
    #[cycle(find)]
    fn find_if_one(
        &self,
        alloc: Global,
        from: &Terms,
        to: &Terms,
        terms: &Terms,
        others: &Terms,
        body: &[Atom],
    ) -> Result<Option<List<usize>>, OutOfMemory>
        requires counts { AreOfCount (length self.now.set.now) self.now.entries.now }
        requires links { AreAllLinks self.now.entries.now self.now.set.now self.now.links.now }
        requires lengths { length from.now ≡ length to.now }
        requires fits { AllZip (Linked (InWorld self.now.entries.now self.now.set.now)) others.now
            (map (taken from.now to.now) terms.now)
            → Fits (Linked (InWorld self.now.entries.now self.now.set.now)) from.now to.now }
        ensures { IfOk result (IsFoundIfOne self.now.entries.now self.now.set.now from.now to.now
            terms.now others.now body.now) }
    {
        let met = taken_terms(alloc, from.items(), to.items(), terms.items())?;
        let fits = self.are_one(alloc, others.items(), met.items())?;
        if fits {
            return self.find(alloc, from, to, body);
        }
        Ok(None)
    }

    /// Adds the entries of a chain of equalities from the one term to the other.
    fn put_chain(
        &self,
        alloc: Global,
        term: &Term,
        other: &Term,
        links: &mut List<usize>,
    ) -> Result<(), OutOfMemory>
        requires links { AreAllLinks self.now.entries.now self.now.set.now self.now.links.now }
        requires one { Linked (InWorld self.now.entries.now self.now.set.now) term.now other.now }
        ensures { OnOk result (AddsChain self.now.entries.now self.now.set.now term.now other.now
            links.old links.new) }
    {
        if term.equal(other) {
            return Ok(());
        }
        let Some(chain) = self.chain(alloc, term, other)? else {
            unreachable!()
        };
        links.append(chain)
    }

    /// Entries of equalities in the world by which each of the terms is one with what the term at its place meets
    /// first.
    pub fn links_of(
        &self,
        alloc: Global,
        from: &[Term],
        to: &[Term],
    ) -> Result<List<usize>, OutOfMemory>
        requires links { AreAllLinks self.now.entries.now self.now.set.now self.now.links.now }
        requires fits { Fits (Linked (InWorld self.now.entries.now self.now.set.now))
            from.now to.now }
        ensures are { IfOk result (AreLinks self.now.entries.now self.now.set.now) }
        ensures fits { IfOk result (λ links.
            Fits (Linked (IsNamed self.now.entries.now links)) from.now to.now) }
    {
        let met = taken_terms(alloc, from, to, from)?;
        self.links_between(alloc, to, met.items())
    }

    /// Entries of equalities in the world by which the terms are one, place by place.
    fn links_between(
        &self,
        alloc: Global,
        terms: &[Term],
        others: &[Term],
    ) -> Result<List<usize>, OutOfMemory>
        requires links { AreAllLinks self.now.entries.now self.now.set.now self.now.links.now }
        requires one { AllZip (Linked (InWorld self.now.entries.now self.now.set.now))
            terms.now others.now }
        ensures are { IfOk result (AreLinks self.now.entries.now self.now.set.now) }
        ensures one { IfOk result (λ links.
            AllZip (Linked (IsNamed self.now.entries.now links)) terms.now others.now) }
    {
        let mut links = List::new(alloc);
        'places: for (place, term) in terms.iter().enumerate() {
            self.put_chain(alloc, term, &others[place], &mut links)?;
        }
        Ok(links)
    }
}
