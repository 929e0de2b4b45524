//! The least active match of a rule, atom by atom.
ghost use Rattle.std.specs.Prelude.{◌∷◌, IfOk, MatchOption};
ghost use Rattle.std.specs.FinMap as map;
ghost use Rattle.esto_semantics.specs.Maps.{AreFlat};
ghost use Rattle.esto_query.specs.Active.{rule_of, IsAimed, NoneIsActive, IsLeastActiveFrom, FindsLeast};
ghost use Rattle.esto_query.specs.Trails.{with_trail};

use crate::active::{LentRule, has_active, is_active};
use crate::indexed::{IndexedFacts, bind_place, candidates};
use crate::matches::{Found, extended};
use crate::trail::Binding;
use esto_semantics::{Atom, Valuation};
use esto_term::{OutOfMemory, Places, Values};
use std::alloc::Global;

/// The least active match of an atom and the rest, by a look at each place to which the atom can go, in order.
#[cycle(least)]
fn least_through<'a>(
    alloc: Global,
    start: &Valuation,
    rule: &LentRule,
    atom: &Atom,
    rest: &[Atom],
    facts: &IndexedFacts<'a>,
    trail: &mut Vec<Binding<'a>>,
    places: &mut Places,
) -> Result<bool, OutOfMemory>
    requires flat { AreFlat (atom.now ∷ rest.now) }
    requires aimed { IsAimed rule.now (atom.now ∷ rest.now)
        (with_trail start.now trail.old.items) }
    ensures { IfOk result (λ is_found. FindsLeast facts.now (rule_of rule.now) start.now
        (atom.now ∷ rest.now) trail.old.items trail.new.items places.old places.new is_found) }
{
    let mark = trail.len();
    let depth = places.len();
    let found = candidates(start, facts, trail, atom);
    'places: for place in found {
        match bind_place(start, facts, trail, atom, *place) {
            Ok(true) => {}
            Ok(false) => continue,
            Err(error) => return Err(error),
        }
        places.push(*place)?;
        match least_from(alloc, start, rule, rest, facts, trail, places) {
            Ok(true) => return Ok(true),
            Ok(false) => {}
            Err(error) => return Err(error),
        }
        places.truncate(depth);
        trail.truncate(mark);
    }
    Ok(false)
}

/// Finds the least active match of the atoms, in the order of their list, that extends the trail, and appends its places.
/// Whether there is one is asked first, in an order of the search's choice. Where there is none, trail and places stay.
#[cycle(least)]
fn least_from<'a>(
    alloc: Global,
    start: &Valuation,
    rule: &LentRule,
    atoms: &[Atom],
    facts: &IndexedFacts<'a>,
    trail: &mut Vec<Binding<'a>>,
    places: &mut Places,
) -> Result<bool, OutOfMemory>
    requires flat { AreFlat atoms.now }
    requires aimed { IsAimed rule.now atoms.now (with_trail start.now trail.old.items) }
    ensures { IfOk result (λ is_found. FindsLeast facts.now (rule_of rule.now) start.now
        atoms.now trail.old.items trail.new.items places.old places.new is_found) }
{
    let Some((atom, rest)) = atoms.split_first() else {
        return is_active(alloc, start, rule, facts, trail);
    };
    if !has_active(alloc, start, rule, atoms, facts, trail)? {
        return Ok(false);
    }
    least_through(alloc, start, rule, atom, rest, facts, trail, places)
}

/// The least active match of the rule that extends the trail, by the list of places.
fn least_found<'a>(
    alloc: Global,
    start: &Valuation,
    rule: &LentRule,
    facts: &IndexedFacts<'a>,
    trail: &mut Vec<Binding<'a>>,
) -> Result<Option<Found>, OutOfMemory>
    requires flat { AreFlat rule.now.body.now }
    requires aimed { IsAimed rule.now rule.now.body.now (with_trail start.now trail.old.items) }
    ensures { IfOk result (λ outcome. MatchOption outcome
        (NoneIsActive facts.now (rule_of rule.now) (with_trail start.now trail.old.items)
        rule.now.body.now)
        (λ found. IsLeastActiveFrom facts.now (rule_of rule.now)
        (with_trail start.now trail.old.items) rule.now.body.now
        found.valuation found.places)) }
{
    let mut places = Values::new(alloc);
    if !least_from(alloc, start, rule, rule.body, facts, trail, &mut places)? {
        return Ok(None);
    }
    let valuation = extended(alloc, start, trail)?;
    Ok(Some(Found { valuation, places }))
}

impl<'a> IndexedFacts<'a> {
    /// The least active match of the rule, by the list of places. None comes exactly where none is active.
    pub fn least_active(&self, alloc: Global, rule: &LentRule) -> Result<Option<Found>, OutOfMemory>
        requires flat { AreFlat rule.now.body.now }
        requires aimed { IsAimed rule.now rule.now.body.now map.empty }
        ensures { IfOk result (λ outcome. MatchOption outcome
            (NoneIsActive self.now (rule_of rule.now) map.empty rule.now.body.now)
            (λ found. IsLeastActiveFrom self.now (rule_of rule.now) map.empty rule.now.body.now
            found.valuation found.places)) }
    {
        let start = Valuation::new(alloc);
        let mut trail = Vec::new(alloc);
        least_found(alloc, &start, rule, self, &mut trail)
    }
}
