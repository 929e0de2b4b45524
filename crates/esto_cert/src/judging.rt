//! What a line may claim after others, and which line may be the last.
ghost use Rattle.std.specs.Prelude.{◌≡◌, ◌↔◌, ◌<◌, ℕ, List, Some, length, map, IsTrue, IfOk};
ghost use Rattle.esto_constraint.specs.Constraints.{rule_of};
ghost use Rattle.esto_semantics.specs.Facts.{terms_of};
ghost use Rattle.esto_semantics.specs.Rules.{tuple, equality, body_of};
ghost use Rattle.esto_chase_laws.specs.Making.{frontier};
ghost use Rattle.esto_chase_laws.specs.WorldMatches.{taken};
ghost use Rattle.esto_chase_laws.specs.declared.entry.Claim.{Claim};
ghost use Rattle.esto_cert.specs.Certificates.{made_at, IsNamed};
ghost use Rattle.esto_cert.specs.Judging.{case_of, AreFew, AreNumbersOf, IsJudged, IsJudgedText, judged_of};
ghost use Rattle.esto_cert.specs.Lines.{line_of};
ghost use Rattle.esto_cert.specs.Matching.{IsFound};
ghost use Rattle.esto_cert.specs.Reading.{head_atoms, nearest, StandsFor};
ghost use Rattle.esto_cert.specs.declared.line.Line.{Line};
ghost use Rattle.esto_cert.specs.declared.line.Line.TheVariants.{Expanded, Step, Match};

use crate::line::Line;
use crate::linking::stand_as_one;
use crate::matching::{Found, find_match};
use crate::naming::{count, numbered};
use crate::reading::read_line;
use esto_bits::RowBits;
use esto_chase_laws::Claim;
use esto_constraint::{Constraint, Egd, Tgd, frontier_of};
use esto_prov::{made_fact, taken_term, taken_terms};
use esto_query::Query;
use esto_semantics::{Atom, ExpandedFact};
use esto_term::{OutOfMemory, Replicate, Term, Terms};
use std::alloc::Global;

/// What is judged of a line.
#[derive(Drop)]
pub enum Judged {
    /// It may make the claim.
    Claims(Claim),
    /// It may be the last.
    Ends,
    /// It may do neither.
    Refused,
}

/// The body of a rule.
pub fn body_of(rule: &Constraint) -> &[Atom]
    ensures { result.now ≡ body_of (rule_of rule.now) }
{
    match rule {
        Constraint::Tuple(tuple) => tuple.body.items(),
        Constraint::Equal(equality) => equality.body.items(),
        Constraint::Never(denial) => denial.body.items(),
    }
}

/// What the terms that a tuple rule's head shares with its body meet, where the terms of the body meet these.
fn frontier_values(
    alloc: Global,
    rule: &Tgd,
    from: &[Term],
    to: &[Term],
) -> Result<Terms, OutOfMemory>
    ensures { IfOk result
        (λ it. it ≡ map (taken from.now to.now) (frontier rule.now.body rule.now.head)) }
{
    let shared = frontier_of(alloc, rule.body.items(), rule.head.items())?;
    taken_terms(alloc, from, to, shared.items())
}

/// The fact that a tuple rule makes at a place of its head.
fn made_of_tuple(
    alloc: Global,
    place: u64,
    number: usize,
    rule: &Tgd,
    from: &[Term],
    to: &[Term],
) -> Result<Option<Claim>, OutOfMemory>
    requires { from.now ≡ terms_of rule.now.body }
    ensures { IfOk result (λ it. it ≡ made_at place number (tuple rule.now.body rule.now.head)
        (taken from.now to.now)) }
{
    let Some(atom) = numbered(rule.head.items(), place) else {
        return Ok(None);
    };
    let values = frontier_values(alloc, rule, from, to)?;
    let fact = made_fact(alloc, number, from, to, &values, atom)?;
    Ok(Some(Claim::Fact(fact)))
}

/// The equality that an equality rule makes.
fn made_of_equality(
    alloc: Global,
    place: u64,
    number: usize,
    rule: &Egd,
    from: &[Term],
    to: &[Term],
) -> Result<Option<Claim>, OutOfMemory>
    ensures { IfOk result (λ it. it ≡ made_at place number
        (equality rule.now.body rule.now.left rule.now.right) (taken from.now to.now)) }
{
    if place != 0 {
        return Ok(None);
    }
    let left = taken_term(from, to, &rule.left).copy(alloc)?;
    let right = taken_term(from, to, &rule.right).copy(alloc)?;
    Ok(Some(Claim::Same(left, right)))
}

/// What the rule of the number makes at a place of its head, counted from 1, or at 0 for the equality of its sides, where
/// the terms of its body meet these terms.
pub fn made_at(
    alloc: Global,
    place: u64,
    number: usize,
    rule: &Constraint,
    from: &[Term],
    to: &[Term],
) -> Result<Option<Claim>, OutOfMemory>
    requires { from.now ≡ terms_of (body_of (rule_of rule.now)) }
    ensures { IfOk result
        (λ it. it ≡ made_at place number (rule_of rule.now) (taken from.now to.now)) }
{
    match rule {
        Constraint::Tuple(tuple) => made_of_tuple(alloc, place, number, tuple, from, to),
        Constraint::Equal(equality) => made_of_equality(alloc, place, number, equality, from, to),
        Constraint::Never(_) => Ok(None),
    }
}

/// How many atoms the head of a rule has.
fn head_count(rule: &Constraint) -> usize
    ensures { result ≡ length (head_atoms (rule_of rule.now)) }
{
    match rule {
        Constraint::Tuple(tuple) => tuple.head.len(),
        Constraint::Equal(_) => 0,
        Constraint::Never(_) => 0,
    }
}

/// What the rule makes at the place that was said, where this is the nearest that 64 bits hold. A rule whose head has as
/// many atoms as 64 bits count is answered as want of memory.
fn made_near(
    alloc: Global,
    place: u64,
    number: usize,
    rule: &Constraint,
    from: &[Term],
    to: &[Term],
) -> Result<Option<Claim>, OutOfMemory>
    requires { from.now ≡ terms_of (body_of (rule_of rule.now)) }
    ensures { IfOk result (λ it. (said : ℕ) → nearest said ≡ place
        → it ≡ made_at said number (rule_of rule.now) (taken from.now to.now)) }
{
    if place == u64::MAX {
        if head_count(rule) == usize::MAX {
            return Err(OutOfMemory);
        }
        return Ok(None);
    }
    made_at(alloc, place, number, rule, from, to)
}

/// Judges the line of a step whose match is found, at the place that was said, where this is the nearest that 64 bits hold.
fn judge_made(
    alloc: Global,
    place: u64,
    number: usize,
    rule: &Constraint,
    it: &Found,
) -> Result<Judged, OutOfMemory>
    requires { it.now.from ≡ terms_of (body_of (rule_of rule.now)) }
    ensures { IfOk result (λ judged. (said : ℕ) → nearest said ≡ place → judged
        ≡ judged_of (made_at said number (rule_of rule.now) (taken it.now.from it.now.to))) }
{
    let from = it.from.items();
    let to = it.to.items();
    match made_near(alloc, place, number, rule, from, to)? {
        Some(claim) => Ok(Judged::Claims(claim)),
        None => Ok(Judged::Refused),
    }
}

/// What a certificate is for: the expanded facts of a plan, a set of its atoms, the rules, the query, and the plan's head.
#[derive(Clone, Copy)]
pub struct Case<'a> {
    pub expanded: &'a [ExpandedFact],
    pub set: &'a RowBits,
    pub rules: &'a [Constraint],
    pub query: &'a Query,
    pub targets: &'a [Term],
}

impl Case<'_> {
    /// Whether the fact is that of the atom at the place, both counted from 1, and the set has the atom.
    fn is_named(&self, atom: u64, place: u64, fact: &ExpandedFact) -> bool
        requires { fact.now.atom < length self.now.set.now }
        ensures { IsTrue result ↔ IsNamed self.now.set.now atom place fact.now }
    {
        if atom == 0 || place == 0 {
            return false;
        }
        if fact.atom as u64 != atom - 1 || fact.place as u64 != place - 1 {
            return false;
        }
        self.set.has(fact.atom)
    }

    /// Judges the line of an expanded fact.
    fn judge_expanded(&self, alloc: Global, atom: u64, place: u64) -> Result<Judged, OutOfMemory>
        requires { AreNumbersOf self.now.set.now self.now.expanded.now }
        ensures { IfOk result (λ judged. (claims : List Claim)
            → IsJudged (case_of self.now) claims (Expanded atom place) judged) }
    {
        'facts: for fact in self.expanded {
            if self.is_named(atom, place, fact) {
                let claimed = fact.fact.copy(alloc)?;
                return Ok(Judged::Claims(Claim::Fact(claimed)));
            }
        }
        Ok(Judged::Refused)
    }

    /// Judges the line of a step at the place that was said, where this is the nearest that 64 bits hold.
    fn judge_step(
        &self,
        alloc: Global,
        claims: &[Claim],
        number: u64,
        place: u64,
        facts: &[u64],
        links: &[u64],
    ) -> Result<Judged, OutOfMemory>
        ensures { IfOk result (λ judged. (said : ℕ) → nearest said ≡ place
            → IsJudged (case_of self.now) claims.now
            (Step number said facts.now links.now) judged) }
    {
        let Some(rule) = numbered(self.rules, number) else {
            return Ok(Judged::Refused);
        };
        match find_match(alloc, claims, body_of(rule), facts, links)? {
            Some(it) => {
                let judged = judge_made(alloc, place, (number - 1) as usize, rule, &it);
                drop(it);
                judged
            }
            None => Ok(Judged::Refused),
        }
    }

    /// Judges the line of a match that is found.
    fn judge_found(&self, alloc: Global, it: &Found) -> Result<Judged, OutOfMemory>
        ensures { IfOk result (λ judged. (claims : List Claim) (facts links : List ℕ)
            → IsFound claims self.now.query.now.body facts links (Some it.now)
            → IsJudged (case_of self.now) claims (Match facts links) judged) }
    {
        let head = self.query.head.items();
        let met = taken_terms(alloc, it.from.items(), it.to.items(), head)?;
        if stand_as_one(it.renamings.items(), self.targets, met.items()) {
            return Ok(Judged::Ends);
        }
        Ok(Judged::Refused)
    }

    /// Judges the line of a match.
    fn judge_match(
        &self,
        alloc: Global,
        claims: &[Claim],
        facts: &[u64],
        links: &[u64],
    ) -> Result<Judged, OutOfMemory>
        ensures { IfOk result (IsJudged (case_of self.now) claims.now (Match facts.now links.now)) }
    {
        let body = self.query.body.items();
        match find_match(alloc, claims, body, facts, links)? {
            Some(it) => {
                let judged = self.judge_found(alloc, &it);
                drop(it);
                judged
            }
            None => Ok(Judged::Refused),
        }
    }

    /// Judges the line that was said, where this line was read.
    fn judge(&self, alloc: Global, claims: &[Claim], line: &Line) -> Result<Judged, OutOfMemory>
        requires { AreNumbersOf self.now.set.now self.now.expanded.now }
        ensures { IfOk result (λ judged. (said : Line) → StandsFor line.now said
            → IsJudged (case_of self.now) claims.now said judged) }
    {
        match line {
            Line::Expanded(atom, place) => self.judge_expanded(alloc, *atom, *place),
            Line::Step(number, place, facts, links) => {
                self.judge_step(alloc, claims, *number, *place, facts.items(), links.items())
            }
            Line::Match(facts, links) => {
                self.judge_match(alloc, claims, facts.items(), links.items())
            }
        }
    }

    /// Counts all that lines name by numbers: 64 bits hold how many there are of each.
    fn count_all(&self, claims: &[Claim])
        requires { AreNumbersOf self.now.set.now self.now.expanded.now }
        ensures { AreFew (case_of self.now) claims.now }
    {
        count(claims);
        count(self.rules);
        count(self.expanded);
        self.set.count();
    }

    /// Judges what the bytes of a line say, and refuses bytes that say nothing, or that name what is not there.
    pub fn judge_text(
        &self,
        alloc: Global,
        claims: &[Claim],
        bytes: &[u8],
    ) -> Result<Judged, OutOfMemory>
        requires { AreNumbersOf self.now.set.now self.now.expanded.now }
        ensures { IfOk result (IsJudgedText (case_of self.now) claims.now (line_of bytes.now)) }
    {
        match read_line(alloc, bytes)? {
            Some(line) => {
                let judged = self.judge(alloc, claims, &line);
                drop(line);
                judged
            }
            None => {
                self.count_all(claims);
                Ok(Judged::Refused)
            }
        }
    }
}
