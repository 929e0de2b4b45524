//! Whether some match of a body is active under a rule.
ghost use Rattle.std.specs.Prelude.{◌≡◌, ◌∷◌, [], IfOk, OnOk};
ghost use Rattle.esto_semantics.specs.Maps.{AreFlat};
ghost use Rattle.esto_query.specs.Active.{rule_of, Holds, Tells, IsAimed, DecidesActive};
ghost use Rattle.esto_query.specs.Indexes.{AreCandidates};
ghost use Rattle.esto_semantics.specs.Valuations.{map_of};
ghost use Rattle.esto_query.specs.Trails.{with_trail};
ghost use Rattle.esto_query.specs.Rows.{Decides};

use crate::indexed::{IndexedFacts, bind_place};
use crate::left::{AtomsLeft, next_atom};
use crate::trail::{Binding, value};
use esto_semantics::{Atom, Valuation};
use esto_term::{OutOfMemory, Term};
use std::alloc::Global;

/// What a rule concludes from a match of its body.
#[derive(Clone, Copy)]
pub enum Conclusion<'b> {
    /// That it extends to this head.
    Extends(&'b [Atom]),
    /// That the two terms are one.
    Equals(&'b Term, &'b Term),
    /// What never is.
    Never,
}

/// A rule that is lent: its body, and what it concludes. A match of the body is active where the conclusion isn't so.
#[derive(Clone, Copy)]
pub struct LentRule<'b> {
    pub body: &'b [Atom],
    pub conclusion: Conclusion<'b>,
}

/// The term's value: the term itself where it has none.
fn value_of<'b, 'a: 'b>(start: &'b Valuation, trail: &'b [Binding<'a>], term: &'b Term) -> &'b Term
    ensures { result.now ≡ map_of (with_trail start.now trail.now) term.now }
{
    match term {
        Term::Plain(variable) => match value(start, trail, *variable) {
            Some(bound) => bound,
            None => term,
        },
        Term::Const(_) => term,
        Term::Made(_, _, _) => term,
    }
}

/// Whether a match of the rule's body, which the trail has, is active.
#[cycle(seek)]
pub fn is_active<'a>(
    alloc: Global,
    start: &Valuation,
    rule: &LentRule,
    facts: &IndexedFacts<'a>,
    trail: &mut Vec<Binding<'a>>,
) -> Result<bool, OutOfMemory>
    requires aimed { IsAimed rule.now [] (with_trail start.now trail.old.items) }
    ensures trail { OnOk result (trail.new.items ≡ trail.old.items) }
    ensures tells { IfOk result (λ it. Tells (with_trail start.now trail.old.items)
        (Holds facts.now (rule_of rule.now)) it) }
{
    match rule.conclusion {
        Conclusion::Extends(head) => {
            let any = LentRule {
                body: &[],
                conclusion: Conclusion::Never,
            };
            let extends = has_active(alloc, start, &any, head, facts, trail)?;
            Ok(!extends)
        }
        Conclusion::Equals(one, other) => {
            let is_same = value_of(start, trail, one).equal(value_of(start, trail, other));
            Ok(!is_same)
        }
        Conclusion::Never => Ok(true),
    }
}

/// Whether some match that extends the trail is active, where the atom goes to each of these places in turn.
#[cycle(seek)]
fn seek_each<'a, 'b>(
    alloc: Global,
    start: &Valuation,
    rule: &LentRule,
    atom: &Atom,
    found: &[usize],
    left: &mut AtomsLeft<'b>,
    facts: &IndexedFacts<'a>,
    trail: &mut Vec<Binding<'a>>,
) -> Result<bool, OutOfMemory>
    requires flat { AreFlat (atom.now ∷ left.old) }
    requires aimed { IsAimed rule.now (atom.now ∷ left.old) (with_trail start.now trail.old.items) }
    requires serves { AreCandidates facts.now atom.now (with_trail start.now trail.old.items)
        found.now }
    ensures left { OnOk result (left.new ≡ left.old) }
    ensures trail { OnOk result (trail.new.items ≡ trail.old.items) }
    ensures decides { IfOk result (DecidesActive facts.now (rule_of rule.now)
        (with_trail start.now trail.old.items) (atom.now ∷ left.old)) }
{
    let mark = trail.len();
    'places: for place in found {
        match bind_place(start, facts, trail, atom, *place) {
            Ok(true) => {}
            Ok(false) => continue,
            Err(error) => return Err(error),
        }
        let is_found = match seek(alloc, start, rule, left, facts, trail) {
            Ok(is_found) => is_found,
            Err(error) => return Err(error),
        };
        trail.truncate(mark);
        if is_found {
            return Ok(true);
        }
    }
    Ok(false)
}

/// Whether some match of the atoms that are left extends the trail and is active.
#[cycle(seek)]
fn seek<'a, 'b>(
    alloc: Global,
    start: &Valuation,
    rule: &LentRule,
    left: &mut AtomsLeft<'b>,
    facts: &IndexedFacts<'a>,
    trail: &mut Vec<Binding<'a>>,
) -> Result<bool, OutOfMemory>
    requires flat { AreFlat left.old }
    requires aimed { IsAimed rule.now left.old (with_trail start.now trail.old.items) }
    ensures left { OnOk result (left.new ≡ left.old) }
    ensures trail { OnOk result (trail.new.items ≡ trail.old.items) }
    ensures decides { IfOk result (DecidesActive facts.now (rule_of rule.now)
        (with_trail start.now trail.old.items) left.old) }
{
    let Some(choice) = next_atom(start, facts, trail, &[], left) else {
        return is_active(alloc, start, rule, facts, trail);
    };
    let waiting = left.take(choice.place);
    let atom = waiting.atom;
    let is_found = seek_each(alloc, start, rule, atom, choice.found, left, facts, trail)?;
    left.put(choice.place, waiting)?;
    Ok(is_found)
}

/// Whether some match of the atoms that are left extends the trail.
pub fn has_match<'a, 'b>(
    alloc: Global,
    start: &Valuation,
    left: &mut AtomsLeft<'b>,
    facts: &IndexedFacts<'a>,
    trail: &mut Vec<Binding<'a>>,
) -> Result<bool, OutOfMemory>
    requires { AreFlat left.old }
    ensures left { OnOk result (left.new ≡ left.old) }
    ensures trail { OnOk result (trail.new.items ≡ trail.old.items) }
    ensures decides { IfOk result (Decides left.old facts.now
        (with_trail start.now trail.old.items)) }
{
    let any = LentRule {
        body: &[],
        conclusion: Conclusion::Never,
    };
    seek(alloc, start, &any, left, facts, trail)
}

/// Whether some match of the atoms extends the trail and is active.
#[cycle(seek)]
pub fn has_active<'a>(
    alloc: Global,
    start: &Valuation,
    rule: &LentRule,
    atoms: &[Atom],
    facts: &IndexedFacts<'a>,
    trail: &mut Vec<Binding<'a>>,
) -> Result<bool, OutOfMemory>
    requires flat { AreFlat atoms.now }
    requires aimed { IsAimed rule.now atoms.now (with_trail start.now trail.old.items) }
    ensures trail { OnOk result (trail.new.items ≡ trail.old.items) }
    ensures decides { IfOk result (DecidesActive facts.now (rule_of rule.now)
        (with_trail start.now trail.old.items) atoms.now) }
{
    let mut left = AtomsLeft::of(alloc, start, facts, trail, atoms)?;
    seek(alloc, start, rule, &mut left, facts, trail)
}
