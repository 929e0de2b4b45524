//! The atoms of a body that a search has left, and which of them it takes next.
ghost use Rattle.std.specs.Prelude.{◌≡◌, ◌⊎◌, ◌≤◌, ◌<◌, [], Some, length, slice_get, remove, insert, IfOk, OnOk, MatchOption};
ghost use Rattle.esto_query.specs.Trails.{with_trail};
ghost use Rattle.esto_semantics.specs.Valuations.{Assignment};
ghost use Rattle.esto_query.specs.Orders.{IsChoice};

use crate::indexed::{IndexedFacts, all_places, candidates, ways_after};
use crate::trail::{Binding, value};
use esto_semantics::{Atom, Valuation};
use esto_term::{OutOfMemory, Term, has_term};
use std::alloc::Global;
use std::marker::Model;

/// An atom that is left, and how many places it can go to by what was known when the search began, if that was counted.
#[derive(Clone, Copy)]
pub struct Waiting<'b> {
    pub atom: &'b Atom,
    pub ways: usize,
}

/// The atoms that a search has left. Contracts see their list.
#[derive(Drop)]
pub struct AtomsLeft<'b> {
    atoms: Vec<Waiting<'b>>,
}

impl<'b> Model for AtomsLeft<'b> {
    ghost use Rattle.std.specs.Prelude.{List, map};
    ghost use Rattle.esto_term.specs.declared.term.Term.{Term};
    ghost use Rattle.esto_semantics.specs.declared.fact.Fact.{Fact};
    ghost use Rattle.esto_term.specs.contracts.term.Term as term;
    ghost use Rattle.std.specs.Coded.{codes};

    ghost Value = { List (Fact Term) };

    ghost coded = { Prim.hlevel (codes, term.the_row.coded) };

    ghost view = { λ it. map (λ waiting. waiting.atom.now) it.atoms.items };
}

/// How many places the atom can go to. An atom that is alone isn't counted, since nothing is chosen there.
fn count_ways(
    start: &Valuation,
    facts: &IndexedFacts,
    trail: &[Binding],
    atom: &Atom,
    atoms: usize,
) -> usize {
    if atoms < 2 {
        return usize::MAX;
    }
    candidates(start, facts, trail, atom).len()
}

impl<'b> AtomsLeft<'b> {
    /// All atoms of the body.
    pub fn of(
        alloc: Global,
        start: &Valuation,
        facts: &IndexedFacts,
        trail: &[Binding],
        body: &'b [Atom],
    ) -> Result<AtomsLeft<'b>, OutOfMemory>
        ensures { IfOk result (λ it. it ≡ body.now) }
    {
        let Ok(mut atoms) = Vec::with_capacity(alloc, body.len()) else {
            return Err(OutOfMemory);
        };
        'atoms: for atom in body {
            let ways = count_ways(start, facts, trail, atom, body.len());
            let Ok(()) = atoms.push(Waiting { atom, ways }) else {
                return Err(OutOfMemory);
            };
        }
        Ok(AtomsLeft { atoms })
    }

    /// How many atoms are left.
    pub fn len(&self) -> usize
        ensures { result ≡ length self.now }
    {
        self.atoms.len()
    }

    /// The atom at that place.
    pub fn item(&self, place: usize) -> Waiting<'b>
        requires { place < length self.now }
        ensures { slice_get self.now place ≡ Some result.atom.now }
    {
        self.atoms[place]
    }

    /// Takes the atom at that place away.
    pub fn take(&mut self, place: usize) -> Waiting<'b>
        requires { place < length self.old }
        ensures atom { slice_get self.old place ≡ Some result.atom.now }
        ensures left { self.new ≡ remove self.old place }
    {
        self.atoms.remove(place)
    }

    /// Puts an atom at that place.
    pub fn put(&mut self, place: usize, waiting: Waiting<'b>) -> Result<(), OutOfMemory>
        requires { place ≤ length self.old }
        ensures { OnOk result (self.new ≡ insert self.old place waiting.entry.atom.now) }
    {
        let Ok(()) = self.atoms.insert(place, waiting) else {
            return Err(OutOfMemory);
        };
        Ok(())
    }
}

/// An atom that is taken next, by its place, and the places of facts to which it can go.
#[derive(Clone, Copy)]
pub struct Choice<'f> {
    pub place: usize,
    pub found: &'f [usize],
}

/// The choice of the atom at that place.
fn choice_of<'f>(
    start: &Valuation,
    facts: &'f IndexedFacts,
    trail: &[Binding],
    left: &AtomsLeft,
    place: usize,
) -> Choice<'f>
    requires { place < length left.now }
    ensures { IsChoice facts.now left.now (with_trail start.now trail.now) result }
{
    let found = candidates(start, facts, trail, left.item(place).atom);
    Choice { place, found }
}

/// The choice of the atom at that place, with all places of its relation.
fn wide_choice_of<'f>(facts: &'f IndexedFacts, left: &AtomsLeft, place: usize) -> Choice<'f>
    requires { place < length left.now }
    ensures { (known : Assignment) → IsChoice facts.now left.now known result }
{
    let found = all_places(facts, left.item(place).atom);
    Choice { place, found }
}

/// A choice, and how its atom stands to what is known.
#[derive(Clone, Copy)]
struct Ranked<'f> {
    choice: Choice<'f>,
    /// How many ways it leaves to go on.
    ways: usize,
    /// Whether a variable of the atom has a value.
    joins: bool,
    /// Whether a variable of the atom that has no value is wanted.
    wants: bool,
}

/// Whether the variable has a value.
fn has_value(start: &Valuation, trail: &[Binding], variable: u64) -> bool {
    value(start, trail, variable).is_some()
}

/// Whether one of the terms is a variable that has a value.
fn joins(start: &Valuation, trail: &[Binding], terms: &[Term]) -> bool {
    'terms: for term in terms {
        if let Term::Plain(variable) = term {
            if has_value(start, trail, *variable) {
                return true;
            }
        }
    }
    false
}

/// Whether one of the terms is a wanted variable that has no value.
fn wants(start: &Valuation, trail: &[Binding], wanted: &[Term], terms: &[Term]) -> bool {
    'terms: for term in terms {
        if let Term::Plain(variable) = term {
            if has_term(wanted, term) && !has_value(start, trail, *variable) {
                return true;
            }
        }
    }
    false
}

/// The choice of the atom at that place, with how it stands. The places of an atom that joins are looked up; those of
/// another one were counted when the search began.
fn ranked_of<'f>(
    start: &Valuation,
    facts: &'f IndexedFacts,
    trail: &[Binding],
    wanted: &[Term],
    left: &AtomsLeft,
    place: usize,
) -> Ranked<'f>
    requires { place < length left.now }
    ensures { IsChoice facts.now left.now (with_trail start.now trail.now) result.choice }
{
    let waiting = left.item(place);
    let terms = waiting.atom.terms.items();
    if joins(start, trail, terms) {
        let choice = choice_of(start, facts, trail, left, place);
        let ways = choice.found.len();
        return Ranked {
            choice,
            ways,
            joins: true,
            wants: ways > 1 && wants(start, trail, wanted, terms),
        };
    }
    Ranked {
        choice: wide_choice_of(facts, left, place),
        ways: waiting.ways,
        joins: false,
        wants: wants(start, trail, wanted, terms),
    }
}

/// Whether the one is taken before the other: one that joins; else one that wants; else the one that leaves fewer ways.
fn is_before(one: &Ranked, other: &Ranked) -> bool {
    if one.joins != other.joins {
        return one.joins;
    }
    if one.wants != other.wants {
        return one.wants;
    }
    one.ways < other.ways
}

/// The one that is taken first of two.
fn better<'f>(one: Ranked<'f>, other: Ranked<'f>) -> Ranked<'f>
    ensures { (result ≡ one.entry) ⊎ (result ≡ other.entry) }
{
    if is_before(&other, &one) { other } else { one }
}

/// The one that leaves fewer ways to go on.
fn fewer<'f>(one: Ranked<'f>, other: Ranked<'f>) -> Ranked<'f>
    ensures { (result ≡ one.entry) ⊎ (result ≡ other.entry) }
{
    if other.ways < one.ways { other } else { one }
}

/// The two between which a search chooses.
#[derive(Clone, Copy)]
struct Foremost<'f> {
    /// One that leaves the fewest ways.
    least: Ranked<'f>,
    /// One that joins, if one does, and of those one that wants, if one does; else one that leaves the fewest ways.
    best: Ranked<'f>,
}

/// The foremost of the atoms. Where one leaves one way at most, no later atom is looked at.
fn foremost_of<'f>(
    start: &Valuation,
    facts: &'f IndexedFacts,
    trail: &[Binding],
    wanted: &[Term],
    left: &AtomsLeft,
) -> Foremost<'f>
    requires { 0 < length left.now }
    ensures least { IsChoice facts.now left.now (with_trail start.now trail.now)
        result.least.choice }
    ensures best { IsChoice facts.now left.now (with_trail start.now trail.now)
        result.best.choice }
{
    let mut least = ranked_of(start, facts, trail, wanted, left, 0);
    let mut best = least;
    'places: for place in 1..left.len() {
        if least.ways < 2 {
            return Foremost { least, best };
        }
        let next = ranked_of(start, facts, trail, wanted, left, place);
        least = fewer(least, next);
        best = better(best, next);
    }
    Foremost { least, best }
}

/// The choice with the places that were looked up for it, or that are looked up now.
fn settled<'f>(
    start: &Valuation,
    facts: &'f IndexedFacts,
    trail: &[Binding],
    left: &AtomsLeft,
    ranked: Ranked<'f>,
) -> Choice<'f>
    requires { IsChoice facts.now left.now (with_trail start.now trail.now) ranked.choice }
    ensures { IsChoice facts.now left.now (with_trail start.now trail.now) result }
{
    if ranked.joins {
        return ranked.choice;
    }
    choice_of(start, facts, trail, left, ranked.choice.place)
}

/// Whether it pays to take the first atom, which has fewer ways, before the other: by its first place, it leaves the other
/// so few that fewer pairs are looked at than the other alone has ways.
fn pays(facts: &IndexedFacts, first: &Atom, found: &[usize], other: &Atom, ways: usize) -> bool {
    let Some(place) = found.first() else {
        return true;
    };
    let Some(fact) = facts.items().get(*place) else {
        return true;
    };
    let after = ways_after(facts, first, fact, other, ways);
    found.len().saturating_mul(after) <= ways
}

/// Which of the foremost is taken: the one with fewer ways, where it leaves one at most or where it pays.
fn taken<'f>(
    start: &Valuation,
    facts: &'f IndexedFacts,
    trail: &[Binding],
    left: &AtomsLeft,
    least: Ranked<'f>,
    best: Ranked<'f>,
) -> Choice<'f>
    requires least { IsChoice facts.now left.now (with_trail start.now trail.now) least.choice }
    requires best { IsChoice facts.now left.now (with_trail start.now trail.now) best.choice }
    ensures { IsChoice facts.now left.now (with_trail start.now trail.now) result }
{
    if least.ways >= 2 && best.ways <= least.ways {
        return settled(start, facts, trail, left, best);
    }
    let first = settled(start, facts, trail, left, least);
    if least.ways < 2 || best.choice.place == least.choice.place {
        return first;
    }
    let other = left.item(best.choice.place).atom;
    if pays(
        facts,
        left.item(first.place).atom,
        first.found,
        other,
        best.ways,
    ) {
        return first;
    }
    settled(start, facts, trail, left, best)
}

/// Which atom is taken next. Where one can go to one place at most, it is taken; else one that shares a variable with
/// what is known, and of those one with a wanted variable, so that the wanted ones are known early; but where another
/// leaves so many fewer ways that it pays, that one. None comes exactly where no atom is left.
pub fn next_atom<'f>(
    start: &Valuation,
    facts: &'f IndexedFacts,
    trail: &[Binding],
    wanted: &[Term],
    left: &AtomsLeft,
) -> Option<Choice<'f>>
    ensures { MatchOption result (left.now ≡ [])
        (IsChoice facts.now left.now (with_trail start.now trail.now)) }
{
    if left.len() == 0 {
        return None;
    }
    if left.len() == 1 {
        return Some(choice_of(start, facts, trail, left, 0));
    }
    let foremost = foremost_of(start, facts, trail, wanted, left);
    Some(taken(start, facts, trail, left, foremost.least, foremost.best))
}
