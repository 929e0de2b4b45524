//! The universal plan.
ghost use Rattle.std.specs.Prelude.{◌≢◌, [], IfOk, ⊤};
ghost use Rattle.either.specs.Either.{MatchEither};
ghost use Rattle.esto_semantics.specs.Containment.{IsSatisfiable};
ghost use Rattle.esto_semantics.specs.Plans.{IsUniversalPlan};
ghost use Rattle.esto_semantics.specs.Unions.{ReceivesUnions};
ghost use Rattle.esto_query.specs.Making.{query_of};
ghost use Rattle.esto_constraint.specs.Constraints.{rules_of};
ghost use Rattle.esto_views.specs.Fragments.{views_of};
ghost use Rattle.esto_views.specs.Plans.{plan_query, IsPlanOver};
ghost use Rattle.esto_chase_laws.specs.Runs.{start_of};
ghost use Rattle.esto_chase.specs.Chased.{RunClashes};
ghost use Rattle.esto_instance.specs.Instances.{state_of};
ghost use Rattle.esto_universal.specs.Planned.{IsPlanOfRun};
ghost use Rattle.esto_universal.specs.Stated.{IsStatedPlan};

use crate::planned::{
    plans_of_runs_are_over_fragments, plans_of_runs_are_universal, plans_tell_satisfiable_queries,
};
use crate::rows::view_rows;
use either::{Either, Left, Right};
use esto_chase::chase;
use esto_chase_laws::{Clash, heads_go_along, queries_have_starts};
use esto_constraint::rules_are_sound;
use esto_instance::Instance;
use esto_mapping::{Catalogue, catalogues_are_sound};
use esto_query::{Facts, Names, Query, queries_are_sound};
use esto_term::{OutOfMemory, Terms};
use esto_views::{FragmentDefs, Plan, renamed_plan};
use std::alloc::Global;

/// The plan whose atoms are the rows of all views over the facts, and whose head is the given one, renamed.
fn stated_plan(
    alloc: Global,
    facts: &Facts,
    head: &Terms,
    fragments: &FragmentDefs,
    names: &Names,
) -> Result<Plan, OutOfMemory>
    requires { head.now ≢ [] }
    ensures { IfOk result (IsStatedPlan names.now (views_of fragments.now)
        (record { head = head.now; body = facts.now })) }
{
    let rows = view_rows(alloc, facts, fragments)?;
    renamed_plan(alloc, &rows, head, names)
}

/// The plan that is stated for an end, with the query's names; never a clash.
fn plan_of_end(
    alloc: Global,
    query: &Query,
    end: &Instance,
    fragments: &FragmentDefs,
) -> Result<Either<Plan, Clash>, OutOfMemory>
    requires { (state_of end.now).head ≢ [] }
    ensures { IfOk result (λ it. MatchEither it
        (IsStatedPlan query.now.names (views_of fragments.now) (state_of end.now)) (λ _. ⊥)) }
{
    let facts = end.facts();
    let head = end.head();
    let plan = stated_plan(alloc, facts, head, fragments, &query.names)?;
    Ok(Left(plan))
}

/// The plan of the query's run, or the clash at which the run ends.
fn plan_or_clash(
    alloc: Global,
    query: &Query,
    catalogue: &Catalogue,
) -> Result<Either<Plan, Clash>, OutOfMemory>
    ensures { IfOk result (λ it. MatchEither it
        (IsPlanOfRun (rules_of catalogue.now.rules) (views_of catalogue.now.fragments)
        query.now.names (query_of query.now))
        (RunClashes (rules_of catalogue.now.rules) (start_of (query_of query.now)))) }
{
    catalogues_are_sound();
    queries_are_sound();
    rules_are_sound();
    queries_have_starts();
    heads_go_along();
    let start = Instance::of_query(alloc, query)?;
    let outcome = chase(alloc, start, &catalogue.rules, &catalogue.ranks)?;
    match outcome {
        Left(chased) => plan_of_end(alloc, query, &chased.instance, &catalogue.fragments),
        Right(clash) => Ok(Right(clash)),
    }
}

/// The universal plan of the query under the catalogue's rules. Left comes exactly where the query is satisfiable, with
/// the plan of its run: its atoms are, for each fragment in order, the rows of the fragment's view over the run's last
/// facts, in the order of terms, and its head is the run's. Each term that is no constant is renamed to a variable,
/// whose number is the place of the term's first occurrence among those of the others, reading the atoms in order and
/// then the head. The variable has the name that the query gives the term, and else it is hidden. Right comes exactly
/// where no database that meets the rules gives the query an answer, with the clash at which its run ends. Source:
/// universal plans (Deutsch, Popa and Tannen 1999).
pub fn universal(
    alloc: Global,
    query: &Query,
    catalogue: &Catalogue,
) -> Result<Either<Plan, Clash>, OutOfMemory>
    // The plan is that of the query's run, or the clash is its run's.
    ensures run { IfOk result (λ it. MatchEither it
        (IsPlanOfRun (rules_of catalogue.now.rules) (views_of catalogue.now.fragments)
        query.now.names (query_of query.now))
        (RunClashes (rules_of catalogue.now.rules) (start_of (query_of query.now)))) }
    ensures over { IfOk result (λ it. MatchEither it
        (λ plan. IsPlanOver plan catalogue.now.fragments) (λ _. ⊤)) }
    ensures universal { IfOk result (λ it. MatchEither it
        (λ plan. IsUniversalPlan (rules_of catalogue.now.rules)
        (views_of catalogue.now.fragments) (query_of query.now) (plan_query plan))
        (λ _. ⊤)) }
    ensures unions { IfOk result (λ it. MatchEither it
        (λ plan. ReceivesUnions (rules_of catalogue.now.rules)
        (views_of catalogue.now.fragments) (query_of query.now) (plan_query plan))
        (λ _. ⊤)) }
    ensures satisfiable { IfOk result (λ it. MatchEither it
        (λ _. IsSatisfiable (rules_of catalogue.now.rules) (query_of query.now))
        (λ _. ¬ (IsSatisfiable (rules_of catalogue.now.rules) (query_of query.now)))) }
{
    catalogues_are_sound();
    queries_are_sound();
    rules_are_sound();
    plans_of_runs_are_over_fragments();
    plans_of_runs_are_universal();
    plans_tell_satisfiable_queries();
    plan_or_clash(alloc, query, catalogue)
}
