//! The plan that is printed.
ghost use Rattle.std.specs.Prelude.{IsTrue, IfOk, ⊤};
ghost use Rattle.either.specs.Either.{MatchEither};
ghost use Rattle.esto_semantics.specs.Containment.{IsSatisfiable};
ghost use Rattle.esto_semantics.specs.Plans.{IsUniversalPlan};
ghost use Rattle.esto_semantics.specs.Unions.{ReceivesUnions};
ghost use Rattle.esto_semantics.specs.Cores.{HasNoRetract};
ghost use Rattle.esto_query.specs.Making.{query_of};
ghost use Rattle.esto_constraint.specs.Constraints.{rules_of};
ghost use Rattle.esto_views.specs.Fragments.{views_of};
ghost use Rattle.esto_views.specs.Plans.{plan_query, IsPlanOver};
ghost use Rattle.esto_chase_laws.specs.Runs.{start_of};
ghost use Rattle.esto_chase.specs.Chased.{RunClashes};
ghost use Rattle.esto_rewriting.specs.Printed.{IsPrintedOf, IsPrintedPlan};
ghost use Rattle.esto_rewriting.specs.PrintedLaws.{PrintedPlanIsOne, PrintedPlanExcludesClash, PrintedCoreIsOneForAQuery};
ghost use Rattle.esto_rewriting.specs.PrintedLaws.{PrintedIsSatisfiable, PrintedPlanReceivesUnions};
ghost use Rattle.esto_rewriting.specs.PrintedLaws.{PrintedPlanIsUniversal, PrintedCoreHasNoRetract};
ghost use Rattle.esto_rewriting.specs.PrintedLaws.{PrintedPlanIsOver, PrintedPlanHasDistinctAtoms};

use either::{Either, Left, Right};
use esto_chase_laws::Clash;
use esto_constraint::rules_are_sound;
use esto_core::{
    core_of, cored_plans_are_cores, cored_plans_are_determined, cored_plans_are_universal,
};
use esto_mapping::{Catalogue, catalogues_are_sound};
use esto_query::{Query, queries_are_sound};
use esto_semantics::{cores_are_one, cores_have_no_retract, queries_are_their_own_instances};
use esto_term::OutOfMemory;
use esto_universal::{
    plans_of_runs_are_over_fragments, plans_of_runs_are_universal, plans_tell_satisfiable_queries,
    runs_have_one_outcome, universal,
};
use esto_views::{Plan, plans_are_sound};
use std::alloc::Global;

/// What is printed of the plan: its cored plan where the core is asked for, and else the plan itself.
fn printed_of(alloc: Global, core: bool, plan: Plan) -> Result<Plan, OutOfMemory>
    ensures { IfOk result (IsPrintedOf core plan) }
{
    if !core {
        return Ok(plan);
    }
    core_of(alloc, &plan)
}

/// The printed plan of the query, or the clash at which its run ends.
fn plan_or_clash(
    alloc: Global,
    query: &Query,
    catalogue: &Catalogue,
) -> Result<Either<Plan, Clash>, OutOfMemory>
    ensures { IfOk result (λ it. MatchEither it
        (IsPrintedPlan catalogue.now.core (rules_of catalogue.now.rules)
        (views_of catalogue.now.fragments) query.now.names (query_of query.now))
        (RunClashes (rules_of catalogue.now.rules) (start_of (query_of query.now)))) }
{
    match universal(alloc, query, catalogue)? {
        Left(stated) => {
            let plan = printed_of(alloc, catalogue.core, stated)?;
            Ok(Left(plan))
        }
        Right(clash) => Ok(Right(clash)),
    }
}

/// The plan that is printed for the query over the catalogue. Left comes exactly where the query is satisfiable, with the
/// plan of its run, or with that plan's cored plan where the catalogue asks for the core. Either is universal for the query,
/// and the cored plan retracts into no proper sublist of itself. Right comes exactly where no database that meets the
/// catalogue's rules gives the query an answer, with the clash at which its run ends.
pub fn printed_plan(
    alloc: Global,
    query: &Query,
    catalogue: &Catalogue,
) -> Result<Either<Plan, Clash>, OutOfMemory>
    // The plan is the printed one, or the clash is that of the query's run.
    ensures run { IfOk result (λ it. MatchEither it
        (IsPrintedPlan catalogue.now.core (rules_of catalogue.now.rules)
        (views_of catalogue.now.fragments) query.now.names (query_of query.now))
        (RunClashes (rules_of catalogue.now.rules) (start_of (query_of query.now)))) }
    ensures over { IfOk result (λ it. MatchEither it
        (λ plan. IsPlanOver plan catalogue.now.fragments) (λ _. ⊤)) }
    ensures universal { IfOk result (λ it. MatchEither it
        (λ plan. IsUniversalPlan (rules_of catalogue.now.rules)
        (views_of catalogue.now.fragments) (query_of query.now) (plan_query plan))
        (λ _. ⊤)) }
    ensures unions { IfOk result (λ it. MatchEither it
        (λ plan. ReceivesUnions (rules_of catalogue.now.rules)
        (views_of catalogue.now.fragments) (query_of query.now) (plan_query plan))
        (λ _. ⊤)) }
    ensures core { IfOk result (λ it. MatchEither it
        (λ plan. IsTrue catalogue.now.core → HasNoRetract (plan_query plan)) (λ _. ⊤)) }
    ensures satisfiable { IfOk result (λ it. MatchEither it
        (λ _. IsSatisfiable (rules_of catalogue.now.rules) (query_of query.now))
        (λ _. ¬ (IsSatisfiable (rules_of catalogue.now.rules) (query_of query.now)))) }
{
    catalogues_are_sound();
    queries_are_sound();
    rules_are_sound();
    printed_plans_are_over_fragments();
    printed_plans_are_universal();
    printed_plans_tell_satisfiable_queries();
    plans_tell_satisfiable_queries();
    plan_or_clash(alloc, query, catalogue)
}

/// A law: a query has one printed plan, or its runs have a clash, and never both.
pub fn printed_plans_are_one()
    ensures plan { PrintedPlanIsOne }
    ensures apart { PrintedPlanExcludesClash }
{
    runs_have_one_outcome();
    cored_plans_are_determined();
}

/// A law: a query that has a printed plan is satisfiable.
pub fn printed_plans_tell_satisfiable_queries()
    ensures { PrintedIsSatisfiable }
{
    plans_tell_satisfiable_queries();
}

/// A law: the printed plan receives unions for the query, and so is universal for it. Where the core is asked for, it
/// retracts into no proper sublist of itself.
pub fn printed_plans_are_universal()
    ensures unions { PrintedPlanReceivesUnions }
    ensures universal { PrintedPlanIsUniversal }
    ensures core { PrintedCoreHasNoRetract }
{
    plans_of_runs_are_universal();
    cored_plans_are_universal();
    cored_plans_are_cores();
}

/// A law: where the core is asked for, and the printed plan is safe and has an atom, each universal plan of the query that
/// retracts into no proper sublist of itself is the printed plan under a renaming, but for the order of its atoms.
pub fn printed_cores_are_one_for_a_query()
    ensures { PrintedCoreIsOneForAQuery }
{
    plans_are_sound();
    queries_are_their_own_instances();
    printed_plans_tell_satisfiable_queries();
    printed_plans_are_universal();
    cores_have_no_retract();
    cores_are_one();
}

/// A law: the atoms of the printed plan are distinct, and over the fragments whose views it is made of.
pub fn printed_plans_are_over_fragments()
    ensures over { PrintedPlanIsOver }
    ensures distinct { PrintedPlanHasDistinctAtoms }
{
    plans_of_runs_are_over_fragments();
    cored_plans_are_universal();
    cored_plans_are_cores();
    cores_have_no_retract();
}
