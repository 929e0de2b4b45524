//! Active matches of rules, and whether facts meet rules.
ghost use Rattle.std.specs.Prelude.{◌≡◌, IfOk, MatchOption};
ghost use Rattle.std.specs.FinMap as map;
ghost use Rattle.esto_query.specs.Active.{IsAimed, rule_of as rule_of_lent};
ghost use Rattle.esto_semantics.specs.Valuations.{map_of};
ghost use Rattle.esto_semantics.specs.Maps.{AreFlat};
ghost use Rattle.esto_semantics.specs.Rules.{body_of, IsMet, AreMet};
ghost use Rattle.esto_constraint.specs.Constraints.{rule_of, rules_of};
ghost use Rattle.esto_constraint.specs.Matches.{IsLeastActive, IsFirstBroken, LeastActiveIsLeast};

use crate::rule::{Constraint, Rules};
use esto_query::{Columns, Conclusion, Found, IndexedFacts, LentRule};
use esto_semantics::{Atoms, Facts, Valuation};
use esto_term::{OutOfMemory, Term};
use std::alloc::Global;

/// A rule that some facts do not meet, by its number, and its least active match.
#[derive(Drop)]
pub struct Broken {
    pub rule: usize,
    pub found: Found,
}

/// The rule's body.
pub fn body_of(rule: &Constraint) -> &Atoms
    ensures { result.now ≡ body_of (rule_of rule.now) }
{
    match rule {
        Constraint::Tuple(rule) => &rule.body,
        Constraint::Equal(rule) => &rule.body,
        Constraint::Never(rule) => &rule.body,
    }
}

/// The term's value: that of the valuation for a variable that has one, and else the term itself.
pub fn value_of<'a>(valuation: &'a Valuation, term: &'a Term) -> &'a Term
    ensures { result.now ≡ map_of valuation.now term.now }
{
    match term {
        Term::Plain(variable) => match valuation.value(*variable) {
            Some(value) => value,
            None => term,
        },
        Term::Const(_) => term,
        Term::Made(_, _, _) => term,
    }
}

/// The rule, lent to a search for active matches.
fn lent(rule: &Constraint) -> LentRule<'_>
    ensures same { rule_of_lent result ≡ rule_of rule.now }
    ensures body { result.body.now ≡ body_of (rule_of rule.now) }
    ensures flat { AreFlat result.body.now }
    ensures aimed { IsAimed result result.body.now map.empty }
{
    match rule {
        Constraint::Tuple(rule) => LentRule {
            body: rule.body.items(),
            conclusion: Conclusion::Extends(rule.head.items()),
        },
        Constraint::Equal(rule) => LentRule {
            body: rule.body.items(),
            conclusion: Conclusion::Equals(&rule.left, &rule.right),
        },
        Constraint::Never(rule) => LentRule {
            body: rule.body.items(),
            conclusion: Conclusion::Never,
        },
    }
}

/// The least active match of the rule in the facts, by the list of places: the least match of its body that has no
/// extension to the head, or that makes the two sides different, or of a denial the least match. None comes exactly
/// where the facts meet the rule.
pub fn active_in(
    alloc: Global,
    rule: &Constraint,
    facts: &IndexedFacts,
) -> Result<Option<Found>, OutOfMemory>
    ensures { IfOk result (λ outcome. MatchOption outcome (IsMet facts.now (rule_of rule.now))
        (λ found. IsLeastActive (rule_of rule.now) facts.now found.valuation found.places)) }
{
    let lent = lent(rule);
    facts.least_active(alloc, &lent)
}

/// Adds the columns by which the rule's matches and their extensions are found.
fn add_columns(alloc: Global, columns: &mut Columns, rule: &Constraint) -> Result<(), OutOfMemory> {
    columns.add_asked(alloc, &[], body_of(rule).items())?;
    match rule {
        Constraint::Tuple(rule) => {
            columns.add_asked(alloc, rule.body.items(), rule.head.items())
        }
        Constraint::Equal(_) => Ok(()),
        Constraint::Never(_) => Ok(()),
    }
}

/// The columns by which the rules' matches and their extensions are found.
fn columns_of(alloc: Global, rules: &Rules) -> Result<Columns, OutOfMemory> {
    let mut columns = Columns::none(alloc);
    'rules: for rule in rules.items() {
        add_columns(alloc, &mut columns, rule)?;
    }
    Ok(columns)
}

/// The least active match of the rule in the facts, by the list of places: the least match of its body that has no
/// extension to the head, or that makes the two sides different, or of a denial the least match. None comes exactly
/// where the facts meet the rule. Facts that serve several calls are indexed once, for `active_in`.
pub fn active(alloc: Global, rule: &Constraint, facts: &Facts) -> Result<Option<Found>, OutOfMemory>
    ensures { IfOk result (λ outcome. MatchOption outcome (IsMet facts.now (rule_of rule.now))
        (λ found. IsLeastActive (rule_of rule.now) facts.now found.valuation found.places)) }
{
    let mut columns = Columns::none(alloc);
    add_columns(alloc, &mut columns, rule)?;
    let indexed = IndexedFacts::by(alloc, columns, facts)?;
    active_in(alloc, rule, &indexed)
}

/// The first rule, by its number, that the facts do not meet, with its least active match. None comes exactly
/// where they meet each rule.
fn first_broken(
    alloc: Global,
    rules: &Rules,
    facts: &IndexedFacts,
) -> Result<Option<Broken>, OutOfMemory>
    ensures { IfOk result (λ outcome. MatchOption outcome (AreMet facts.now (rules_of rules.now))
        (λ broken. IsFirstBroken (rules_of rules.now) facts.now broken.rule
        broken.found.valuation broken.found.places)) }
{
    'rules: for number in 0..rules.len() {
        let outcome = active_in(alloc, rules.item(number), facts)?;
        if let Some(found) = outcome {
            return Ok(Some(Broken {
                rule: number,
                found,
            }));
        }
    }
    Ok(None)
}

/// The first rule, by its number, that the facts do not meet, with its least active match. None comes exactly
/// where they meet each rule.
pub fn meets(alloc: Global, rules: &Rules, facts: &Facts) -> Result<Option<Broken>, OutOfMemory>
    ensures { IfOk result (λ outcome. MatchOption outcome (AreMet facts.now (rules_of rules.now))
        (λ broken. IsFirstBroken (rules_of rules.now) facts.now broken.rule
        broken.found.valuation broken.found.places)) }
{
    let columns = columns_of(alloc, rules)?;
    let indexed = IndexedFacts::by(alloc, columns, facts)?;
    first_broken(alloc, rules, &indexed)
}

/// A law: the map of a least active match's valuation is an active match at its places, and no active match, of any map,
/// comes before it.
pub fn least_active_matches_are_least()
    ensures { LeastActiveIsLeast }
{}
