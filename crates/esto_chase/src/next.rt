//! The match that is next.
ghost use Rattle.std.specs.Prelude.{◌≡◌, ◌↔◌, length, IsTrue, IfOk, MatchOption};
ghost use Rattle.esto_constraint.specs.Constraints.{rule_of, rules_of};
ghost use Rattle.esto_semantics.specs.Rules.{AreMet};
ghost use Rattle.esto_chase_laws.specs.Runs.{kind_of};
ghost use Rattle.esto_chase.specs.Next.{number_of, AreMetBelow, IsFirstOf, IsNextFound};

use esto_constraint::{Broken, Constraint, Rules, active_in, least_active_matches_are_least};
use esto_query::{Facts, IndexedFacts};
use esto_term::OutOfMemory;
use std::alloc::Global;

/// The kinds of rules, in the order in which they are tried.
#[derive(Clone, Copy)]
pub enum Kind {
    Equality,
    Denial,
    Tuple,
}

/// Whether the rule is of that kind.
fn is_of(rule: &Constraint, kind: Kind) -> bool
    ensures { IsTrue result ↔ (kind_of (rule_of rule.now) ≡ number_of kind) }
{
    match rule {
        Constraint::Equal(_) => matches!(kind, Kind::Equality),
        Constraint::Never(_) => matches!(kind, Kind::Denial),
        Constraint::Tuple(_) => matches!(kind, Kind::Tuple),
    }
}

/// The first rule of the kind, by its number, that the facts do not meet, with its least active match. None comes exactly
/// where they meet each rule of the kind.
fn first_of(
    alloc: Global,
    rules: &Rules,
    facts: &IndexedFacts,
    kind: Kind,
) -> Result<Option<Broken>, OutOfMemory>
    ensures { IfOk result (λ outcome.
        MatchOption outcome
        (AreMetBelow (rules_of rules.now) facts.now (number_of kind) (length rules.now))
        (λ broken. IsFirstOf (rules_of rules.now) facts.now (number_of kind) broken.rule
        broken.found.valuation broken.found.places)) }
{
    'rules: for number in 0..rules.len() {
        let rule = rules.item(number);
        if is_of(rule, kind) {
            let outcome = active_in(alloc, rule, facts)?;
            if let Some(found) = outcome {
                return Ok(Some(Broken {
                    rule: number,
                    found,
                }));
            }
        }
    }
    Ok(None)
}

/// The match that is next, over facts with their index.
fn next_in(
    alloc: Global,
    rules: &Rules,
    facts: &IndexedFacts,
) -> Result<Option<Broken>, OutOfMemory>
    ensures { IfOk result (λ outcome. MatchOption outcome (AreMet facts.now (rules_of rules.now))
        (λ broken. IsNextFound (rules_of rules.now) facts.now broken.rule
        broken.found.valuation broken.found.places)) }
{
    least_active_matches_are_least();
    let equality = first_of(alloc, rules, facts, Kind::Equality)?;
    if let Some(broken) = equality {
        return Ok(Some(broken));
    }
    let denial = first_of(alloc, rules, facts, Kind::Denial)?;
    if let Some(broken) = denial {
        return Ok(Some(broken));
    }
    first_of(alloc, rules, facts, Kind::Tuple)
}

/// The match that is next: the least active match of the first rule that has one, where equality rules come first, then
/// denials, then tuple rules, each by number. None comes exactly where the facts meet the rules.
pub fn next(alloc: Global, rules: &Rules, facts: &Facts) -> Result<Option<Broken>, OutOfMemory>
    ensures { IfOk result (λ outcome. MatchOption outcome (AreMet facts.now (rules_of rules.now))
        (λ broken. IsNextFound (rules_of rules.now) facts.now broken.rule
        broken.found.valuation broken.found.places)) }
{
    let indexed = IndexedFacts::of(alloc, facts)?;
    let found = next_in(alloc, rules, &indexed);
    drop(indexed);
    found
}
