//! Whether one query is contained in another.
ghost use Rattle.std.specs.Prelude.{IfOk, List};
ghost use Rattle.esto_constraint.specs.Constraints.{rules_of};
ghost use Rattle.esto_contain.specs.Contained.{IfNo, IsCounterexample, TellsContained};
ghost use Rattle.esto_contain.specs.Ends.{FinishesAt};
ghost use Rattle.esto_chase_laws.specs.Runs.{start_of};
ghost use Rattle.esto_instance.specs.Instances.{state_of};
ghost use Rattle.esto_query.specs.Making.{query_of};
ghost use Rattle.esto_semantics.specs.Queries.{ConjunctiveQuery, IsQuery};
ghost use Rattle.esto_semantics.specs.Rules.{Rule, AreRules};

use crate::ends::end_of;
use crate::laws::what_is_told_is_determined;
use either::{Left, Right};
use esto_chase::clashed_queries_are_unsatisfiable;
use esto_chase_laws::finished_runs_decide;
use esto_constraint::rules_are_sound;
use esto_instance::Instance;
use esto_mapping::Catalogue;
use esto_query::{Facts, Query, queries_are_sound};
use esto_term::{OutOfMemory, Replicate, Terms};
use std::alloc::Global;

/// Whether a query is contained in another.
#[derive(Drop)]
pub enum Contain {
    /// It is.
    Yes,
    /// It is not, as these facts show: with an unnamed value of its own for each term that is no constant, they are a
    /// database that meets the rules, over which the row is an answer of the query and no answer of the other one.
    No(Facts, Terms),
}

/// What is told at the end of a query's run: that the query is contained in the right one, where that maps to the end,
/// head to head; else the end's facts and its head.
fn told_at(alloc: Global, end: &Instance, right: &Query) -> Result<Contain, OutOfMemory>
    ensures { IfOk result (λ told. (rules : List Rule) (left : ConjunctiveQuery)
        → AreRules rules → IsQuery left → FinishesAt rules (start_of left) (state_of end.now)
        → TellsContained rules left (query_of right.now) told) }
{
    finished_runs_decide();
    let maps = end.receives(alloc, right)?;
    if maps {
        return Ok(Contain::Yes);
    }
    let facts = end.facts().copy(alloc)?;
    let row = end.head().copy(alloc)?;
    Ok(Contain::No(facts, row))
}

/// Whether the left query is contained in the right one, at the end of its run or its clash.
fn told(
    alloc: Global,
    left: &Query,
    right: &Query,
    catalogue: &Catalogue,
) -> Result<Contain, OutOfMemory>
    ensures { IfOk result (TellsContained (rules_of catalogue.now.rules)
        (query_of left.now) (query_of right.now)) }
{
    rules_are_sound();
    queries_are_sound();
    clashed_queries_are_unsatisfiable();
    let outcome = end_of(alloc, left, catalogue)?;
    match outcome {
        Left(end) => {
            let answer = told_at(alloc, &end, right)?;
            Ok(answer)
        }
        Right(_) => Ok(Contain::Yes),
    }
}

/// Whether the left query is contained in the right one under the catalogue's rules: over every database that meets them,
/// each answer of the left query is one of the right query. Yes comes exactly where it is, so for each left query that is
/// not satisfiable. No comes with a database that meets the rules and a row of the left query over it that is no row of
/// the right one: the last facts of the left query's run, where each term that is no constant is an unnamed value of its
/// own, and the run's head. Where the heads are of different lengths, a left query that is satisfiable is contained in no
/// right one. Source: containment under dependencies (Johnson and Klug 1984), decided by the chase.
pub fn contained(
    alloc: Global,
    left: &Query,
    right: &Query,
    catalogue: &Catalogue,
) -> Result<Contain, OutOfMemory>
    ensures tells { IfOk result (TellsContained (rules_of catalogue.now.rules)
        (query_of left.now) (query_of right.now)) }
    ensures shown { IfOk result (IfNo (IsCounterexample (rules_of catalogue.now.rules)
        (query_of left.now) (query_of right.now))) }
{
    rules_are_sound();
    queries_are_sound();
    what_is_told_is_determined();
    let answer = told(alloc, left, right, catalogue)?;
    Ok(answer)
}
