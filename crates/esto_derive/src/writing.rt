//! The lines of a certificate, one for each entry that is used and is no chain of equalities.
ghost use Rattle.std.specs.Prelude.{◌≡◌, ◌+◌, ◌++◌, ◌<◌, ◌≤◌, [], ◌∷◌, List, ℕ, Contains, Some, length, slice_get, IfOk, OnOk};
ghost use Rattle.esto_constraint.specs.Constraints.{rule_of, rules_of};
ghost use Rattle.esto_semantics.specs.Facts.{terms_of};
ghost use Rattle.esto_semantics.specs.Rules.{body_of};
ghost use Rattle.esto_semantics.specs.declared.expanded.ExpandedFact.{ExpandedFact};
ghost use Rattle.esto_chase_laws.specs.Derived.{AreDerived};
ghost use Rattle.esto_chase_laws.specs.WorldMatches.{taken};
ghost use Rattle.esto_chase_laws.specs.WorldSteps.{IsAsked};
ghost use Rattle.esto_chase_laws.specs.declared.entry.Reason.TheVariants.{Expanded, Step, Equal};
ghost use Rattle.esto_cert.specs.Certificates.{made_at};
ghost use Rattle.esto_derive.specs.Writing.{claimed_terms, terms_at, Writes, WritesIfUsed, WritesAll, WritesMatch};

use crate::lines::links_at;
use crate::placing::place_of;
use crate::printing::{put_expanded, put_match, put_step};
use esto_bits::RowBits;
use esto_cert::body_of;
use esto_constraint::{Constraint, rules_are_sound};
use esto_prov::{Claim, Entry, Reason, terms_of};
use esto_term::{Bytes, List, OutOfMemory, Places, Replicate, Terms, Values};
use std::alloc::Global;

/// What has been written, and how many lines it is.
#[derive(Drop)]
pub struct Written {
    pub text: Bytes,
    pub count: usize,
}

/// What is written of: the entries, the places of those that are used, and the rules.
#[derive(Clone, Copy)]
pub struct Writer<'a> {
    pub entries: &'a [Entry],
    pub used: &'a RowBits,
    pub rules: &'a [Constraint],
}

/// The number, counted from 1. A number that its type doesn't hold is answered as want of memory.
fn counted(number: usize) -> Result<usize, OutOfMemory>
    ensures { IfOk result (λ it. it ≡ number + 1) }
{
    if number == usize::MAX {
        return Err(OutOfMemory);
    }
    Ok(number + 1)
}

/// The terms of the facts that the entries at the places state.
pub fn terms_at(alloc: Global, entries: &[Entry], places: &[usize]) -> Result<Terms, OutOfMemory>
    requires { (place : ℕ) → Contains places.now place → place < length entries.now }
    ensures { IfOk result (λ it. it ≡ terms_at entries.now places.now) }
{
    let mut terms = List::new(alloc);
    'places: for place in places {
        put_terms(alloc, &entries[*place].claim, &mut terms)?;
    }
    Ok(terms)
}

/// Puts the terms of the fact that is claimed at the end.
fn put_terms(alloc: Global, claim: &Claim, terms: &mut Terms) -> Result<(), OutOfMemory>
    ensures { OnOk result (terms.new ≡ terms.old ++ claimed_terms claim.now) }
{
    match claim {
        Claim::Fact(fact) => terms.append(fact.terms.copy(alloc)?),
        Claim::Same(_, _) => Ok(()),
    }
}

/// The place of a rule's head, counted from 1, at which the rule makes the claim where its body meets the facts of the
/// entries at the places, or 0 for the equality of its sides.
fn place_at(
    alloc: Global,
    entries: &[Entry],
    number: usize,
    rule: &Constraint,
    facts: &[usize],
    claim: &Claim,
) -> Result<usize, OutOfMemory>
    requires there { (place : ℕ) → Contains facts.now place → place < length entries.now }
    requires asked { IsAsked number (rule_of rule.now)
        (taken (terms_of (body_of (rule_of rule.now))) (terms_at entries.now facts.now)) claim.now }
    ensures { IfOk result (λ place. made_at place number (rule_of rule.now)
        (taken (terms_of (body_of (rule_of rule.now))) (terms_at entries.now facts.now))
        ≡ Some claim.now) }
{
    let from = terms_of(alloc, body_of(rule))?;
    let to = terms_at(alloc, entries, facts)?;
    place_of(alloc, number, rule, from.items(), to.items(), claim)
}

impl Written {
    /// Counts the line that was put last, and answers its number alone.
    fn end_line(&mut self, alloc: Global) -> Result<Places, OutOfMemory>
        requires { self.old.count < 18446744073709551615 }
        ensures text { OnOk result (self.new.text ≡ self.old.text) }
        ensures count { OnOk result (self.new.count ≡ self.old.count + 1) }
        ensures own { IfOk result (λ own. own ≡ self.old.count ∷ []) }
        ensures fits { self.old.count < 18446744073709551615 }
    {
        let mut own = Values::new(alloc);
        own.push(self.count)?;
        self.count += 1;
        Ok(own)
    }
}

impl Writer<'_> {
    /// Writes the line of an expanded fact.
    fn write_expanded(
        &self,
        alloc: Global,
        lines: &[Places],
        atom: usize,
        place: usize,
        entry: &Entry,
        written: &mut Written,
    ) -> Result<Places, OutOfMemory>
        requires at { slice_get self.now.entries.now (length lines.now) ≡ Some entry.now }
        requires reason { entry.now.reason ≡ Expanded atom place }
        requires count { written.old.count < length self.now.entries.now }
        ensures count { OnOk result (written.new.count ≡ written.old.count + 1) }
        ensures writes { IfOk result (Writes self.now.rules.now self.now.entries.now
            self.now.used.now lines.now written.old written.new) }
    {
        let number = counted(atom)?;
        let at = counted(place)?;
        put_expanded(alloc, &mut written.text, number, at)?;
        written.end_line(alloc)
    }

    /// Writes the line of a rule's step.
    fn write_step(
        &self,
        alloc: Global,
        lines: &[Places],
        number: usize,
        places: &[usize],
        entry: &Entry,
        written: &mut Written,
    ) -> Result<Places, OutOfMemory>
        requires derived { (expanded : List ExpandedFact)
            × AreDerived expanded (rules_of self.now.rules.now) self.now.entries.now }
        requires at { slice_get self.now.entries.now (length lines.now) ≡ Some entry.now }
        requires reason { entry.now.reason ≡ Step number places.now }
        requires count { written.old.count < length self.now.entries.now }
        ensures count { OnOk result (written.new.count ≡ written.old.count + 1) }
        ensures writes { IfOk result (Writes self.now.rules.now self.now.entries.now
            self.now.used.now lines.now written.old written.new) }
    {
        rules_are_sound();
        let rule = &self.rules[number];
        let body = body_of(rule);
        let (facts, links) = places.split_at(body.len());
        let place = place_at(alloc, self.entries, number, rule, facts, &entry.claim)?;
        let numbered = counted(number)?;
        put_step(
            alloc,
            &mut written.text,
            numbered,
            place,
            lines,
            facts,
            links,
        )?;
        written.end_line(alloc)
    }

    /// Writes the line of an entry, if it has one of its own, and answers the lines that stand for the entry.
    fn write_entry(
        &self,
        alloc: Global,
        lines: &[Places],
        entry: &Entry,
        written: &mut Written,
    ) -> Result<Places, OutOfMemory>
        requires derived { (expanded : List ExpandedFact)
            × AreDerived expanded (rules_of self.now.rules.now) self.now.entries.now }
        requires at { slice_get self.now.entries.now (length lines.now) ≡ Some entry.now }
        requires count { written.old.count < length self.now.entries.now }
        ensures count { OnOk result (written.new.count ≤ written.old.count + 1) }
        ensures writes { IfOk result (Writes self.now.rules.now self.now.entries.now
            self.now.used.now lines.now written.old written.new) }
    {
        match &entry.reason {
            Reason::Expanded(atom, place) => {
                self.write_expanded(alloc, lines, *atom, *place, entry, written)
            }
            Reason::Step(number, places) => {
                self.write_step(alloc, lines, *number, places.items(), entry, written)
            }
            Reason::Equal(places) => links_at(alloc, lines, places.items()),
        }
    }

    /// Writes the line of an entry that is used, and answers the lines that stand for it; for any
    /// other entry nothing is written, and no line stands.
    fn write_if_used(
        &self,
        alloc: Global,
        lines: &[Places],
        entry: &Entry,
        written: &mut Written,
    ) -> Result<Places, OutOfMemory>
        requires derived { (expanded : List ExpandedFact)
            × AreDerived expanded (rules_of self.now.rules.now) self.now.entries.now }
        requires at { slice_get self.now.entries.now (length lines.now) ≡ Some entry.now }
        requires used { length self.now.used.now ≡ length self.now.entries.now }
        requires count { written.old.count < length self.now.entries.now }
        ensures count { OnOk result (written.new.count ≤ written.old.count + 1) }
        ensures writes { IfOk result (WritesIfUsed self.now.rules.now self.now.entries.now
            self.now.used.now lines.now written.old written.new) }
    {
        if self.used.has(lines.len()) {
            return self.write_entry(alloc, lines, entry, written);
        }
        Ok(Values::new(alloc))
    }

    /// Writes the lines of the entries that are used, and answers the lines that stand for each entry.
    fn write_used(&self, alloc: Global, written: &mut Written) -> Result<List<Places>, OutOfMemory>
        requires derived { (expanded : List ExpandedFact)
            × AreDerived expanded (rules_of self.now.rules.now) self.now.entries.now }
        requires used { length self.now.used.now ≡ length self.now.entries.now }
        requires text { written.old.text ≡ [] }
        requires count { written.old.count ≡ 0 }
        ensures length { IfOk result (λ lines. length lines ≡ length self.now.entries.now) }
        ensures count { OnOk result (written.new.count ≤ length self.now.entries.now) }
        ensures writes { IfOk result (WritesAll self.now.rules.now self.now.entries.now
            self.now.used.now written.new) }
    {
        let mut lines = List::new(alloc);
        'entries: for entry in self.entries {
            let own = self.write_if_used(alloc, lines.items(), entry, written)?;
            lines.push(own)?;
        }
        Ok(lines)
    }

    /// Writes the lines of the entries that are used, and that of a match by the entries at the places.
    pub fn write(
        &self,
        alloc: Global,
        facts: &[usize],
        links: &[usize],
    ) -> Result<Bytes, OutOfMemory>
        requires derived { (expanded : List ExpandedFact)
            × AreDerived expanded (rules_of self.now.rules.now) self.now.entries.now }
        requires used { length self.now.used.now ≡ length self.now.entries.now }
        requires facts { (place : ℕ) → Contains facts.now place
            → place < length self.now.entries.now }
        requires links { (place : ℕ) → Contains links.now place
            → place < length self.now.entries.now }
        ensures { IfOk result (WritesMatch self.now.rules.now self.now.entries.now
            self.now.used.now facts.now links.now) }
    {
        let mut written = Written {
            text: Bytes::new(alloc),
            count: 0,
        };
        let lines = self.write_used(alloc, &mut written)?;
        put_match(alloc, &mut written.text, lines.items(), facts, links)?;
        Ok(written.text)
    }
}
