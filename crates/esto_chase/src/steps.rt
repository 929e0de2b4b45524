//! What is done at the match that is next.
ghost use Rattle.std.specs.Prelude.{◌≡◌, ◌≢◌, [], ◌∷◌, ◌++◌, IfOk, OnOk, MatchOption};
ghost use Rattle.std.specs.declared.cmp.Ordering.TheVariants.{Less};
ghost use Rattle.esto_term.specs.Kinds.{IsConstant};
ghost use Rattle.esto_term.specs.Order.{term_cmp};
ghost use Rattle.esto_semantics.specs.Valuations.{map_of};
ghost use Rattle.esto_constraint.specs.Constraints.{rules_of};
ghost use Rattle.esto_constraint.specs.Tests.{IsOver};
ghost use Rattle.esto_chase_laws.specs.Joined.{joined};
ghost use Rattle.esto_chase_laws.specs.Making.{made_facts};
ghost use Rattle.esto_chase_laws.specs.Runs.{AreSides, HasClashed};
ghost use Rattle.esto_instance.specs.Instances.{state_of, trace_of};
ghost use Rattle.esto_instance.specs.declared.instance.ChaseStep.TheVariants.{Added};
ghost use Rattle.esto_chase.specs.Next.{IsNextFound};
ghost use Rattle.esto_chase.specs.Steps.{AreTexts, Merges, Clashes, IsTaken};

use crate::making::made_facts;
use esto_chase_laws::Clash;
use esto_constraint::{Broken, Constraint, Egd, Rules, Tgd, copy_both, value_of};
use esto_instance::Instance;
use esto_query::Found;
use esto_semantics::Valuation;
use esto_term::{OutOfMemory, Term};
use std::alloc::Global;
use std::cmp::Ordering;

/// Adds the facts that the tuple rule makes of the match.
fn add_made(
    alloc: Global,
    instance: &mut Instance,
    number: usize,
    rule: &Tgd,
    found: Found,
) -> Result<(), OutOfMemory>
    requires { IsOver rule.now.body found.valuation }
    ensures facts { OnOk result ((state_of instance.new).body ≡ joined (state_of instance.old).body
        (made_facts number rule.now.body rule.now.head (map_of found.valuation))) }
    ensures head { OnOk result ((state_of instance.new).head ≡ (state_of instance.old).head) }
    ensures trace { OnOk result
        (trace_of instance.new ≡ trace_of instance.old ++ Added number found ∷ []) }
{
    let facts = made_facts(alloc, number, rule, &found.valuation)?;
    instance.add(alloc, number, found, &facts)
}

/// The values of the two sides, the lesser first.
fn ordered_sides(
    alloc: Global,
    rule: &Egd,
    valuation: &Valuation,
) -> Result<(Term, Term), OutOfMemory>
    requires { map_of valuation.now rule.now.left ≢ map_of valuation.now rule.now.right }
    ensures sides { IfOk result (λ it.
        AreSides (map_of valuation.now) rule.now.left rule.now.right it.0 it.1) }
    ensures lesser { IfOk result (λ it. term_cmp it.0 it.1 ≡ Less) }
{
    let left = value_of(valuation, &rule.left);
    let right = value_of(valuation, &rule.right);
    match left.compare(right) {
        Ordering::Less => copy_both(alloc, left, right),
        Ordering::Equal => unreachable!(),
        Ordering::Greater => copy_both(alloc, right, left),
    }
}

/// The clash of two constants.
fn clash_of(one: Term, other: Term) -> Clash
    requires one { IsConstant one }
    requires other { IsConstant other }
    ensures { AreTexts one other result }
{
    let Term::Const(one) = one else {
        unreachable!()
    };
    let Term::Const(other) = other else {
        unreachable!()
    };
    Clash::Equal(one, other)
}

/// Merges the values of the equality rule's two sides, the greater into the lesser; or the clash, where both are
/// constants.
fn merge_sides(
    alloc: Global,
    instance: &mut Instance,
    number: usize,
    rule: &Egd,
    found: Found,
) -> Result<Option<Clash>, OutOfMemory>
    requires { map_of found.valuation rule.now.left ≢ map_of found.valuation rule.now.right }
    ensures { IfOk result (λ outcome.
        MatchOption outcome
        (Merges rule.now.left rule.now.right number found instance.old instance.new)
        (Clashes rule.now.left rule.now.right found)) }
{
    let (to, from) = ordered_sides(alloc, rule, &found.valuation)?;
    if from.is_constant() {
        return Ok(Some(clash_of(to, from)));
    }
    instance.merge(alloc, number, found, from, to)?;
    Ok(None)
}

/// Does what the rule wants at the match that is next: None comes where the instance made that step, and else the clash.
pub fn take_step(
    alloc: Global,
    instance: &mut Instance,
    rules: &Rules,
    next: Broken,
) -> Result<Option<Clash>, OutOfMemory>
    requires { IsNextFound (rules_of rules.now) (state_of instance.old).body next.rule
        next.found.valuation next.found.places }
    ensures { IfOk result (λ outcome. MatchOption outcome
        (IsTaken (rules_of rules.now) instance.old instance.new)
        (HasClashed (rules_of rules.now) (state_of instance.old))) }
{
    let number = next.rule;
    match rules.item(number) {
        Constraint::Equal(rule) => merge_sides(alloc, instance, number, rule, next.found),
        Constraint::Never(_) => Ok(Some(Clash::Denied(number))),
        Constraint::Tuple(rule) => {
            add_made(alloc, instance, number, rule, next.found)?;
            Ok(None)
        }
    }
}
