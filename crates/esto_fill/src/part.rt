//! The difference of a rule that facts do not meet, and how it is found in a part of the facts.
ghost use Rattle.std.specs.Prelude.{◌≡◌, ◌<◌, Some, length, slice_get, MatchOption, IfOk};
ghost use Rattle.esto_constraint.specs.Constraints.{rules_of};
ghost use Rattle.esto_semantics.specs.Rules.{Rule, IsMet};
ghost use Rattle.esto_fill.specs.Parts.{IsFirstByMatch, IsFirstByPart};

use crate::record::record_of;
use crate::rows::counted;
use esto_constraint::{active, least_active_matches_are_least, rules_are_sound};
use esto_mapping::Catalogue;
use esto_ports::Difference;
use esto_semantics::{Facts, Valuation, databases_stand_for_facts};
use esto_term::OutOfMemory;
use std::alloc::Global;

/// The difference of the rule of the number, which is counted from 0, with the record of its least active match.
pub fn difference_of(
    alloc: Global,
    catalogue: &Catalogue,
    number: usize,
    valuation: &Valuation,
) -> Result<Option<Difference>, OutOfMemory>
    requires { number < length catalogue.now.rules }
    ensures { IfOk result (λ outcome. MatchOption outcome ⊥
        (IsFirstByMatch catalogue.now number valuation.now)) }
{
    databases_stand_for_facts();
    rules_are_sound();
    least_active_matches_are_least();
    let own = counted(number)?;
    let cells = record_of(alloc, catalogue.rules.item(number), valuation)?;
    Ok(Some(Difference::Rule(own, cells)))
}

/// The difference of the rule of the number, counted from 0, with the record of its least active match in a part of the
/// loaded facts. It is the first difference of an audit where the rule is tried, the loaded facts meet each rule before
/// it that is tried, and the part is theirs for the rule. None comes only where the part meets the rule.
pub fn difference_in(
    alloc: Global,
    catalogue: &Catalogue,
    number: usize,
    part: &Facts,
) -> Result<Option<Difference>, OutOfMemory>
    requires { number < length catalogue.now.rules }
    ensures { IfOk result (λ outcome. (rule : Rule)
        → slice_get (rules_of catalogue.now.rules) number ≡ Some rule
        → MatchOption outcome (IsMet part.now rule)
        (IsFirstByPart catalogue.now number rule part.now)) }
{
    match active(alloc, catalogue.rules.item(number), part)? {
        None => Ok(None),
        Some(found) => difference_of(alloc, catalogue, number, &found.valuation),
    }
}
