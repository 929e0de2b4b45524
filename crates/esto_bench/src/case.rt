//! The summary of the made case.
ghost use Rattle.std.specs.Prelude.{◌<◌, ◌≤◌, IfOk};
ghost use Rattle.esto_list.specs.Items.{totals_of};
ghost use Rattle.esto_semantics.specs.Listed.{IsPick};
ghost use Rattle.esto_bench.specs.Case.{IsMadeCatalogue, IsMadeQuery};
ghost use Rattle.esto_bench.specs.Made.{CountsAnswers, IsItemOfCase, IsListOfCase, IsPlanOfCase};
ghost use Rattle.esto_bench.specs.Summary.{IsSummaryOfCase};

use crate::catalogue::made_catalogue;
use crate::query::made_query;
use crate::rows::made_opened;
use crate::summary::Summary;
use either::{Left, Right};
use esto_backchase::minimal_sets;
use esto_constraint::rules_are_sound;
use esto_list::{Listed, Listing};
use esto_mapping::{Catalogue, catalogues_are_sound};
use esto_query::{Query, queries_are_sound};
use esto_run::{answers_are_over_files, rewritings_answer_queries, rows_of_set};
use esto_semantics::{
    chosen_atoms_are_named, listed_sets_are_minimal, queries_are_their_own_instances,
    rewritings_without_inputs,
};
use esto_term::OutOfMemory;
use esto_universal::{
    plans_of_runs_are_over_fragments, plans_of_runs_are_universal, plans_tell_satisfiable_queries,
    universal,
};
use esto_views::{Plan, plans_are_sound};
use std::alloc::Global;

/// The greatest size of the made case.
pub const MAX_SIZE: usize = 14;

// How many answers the query has over the made rows, which the item's set gives.
fn count_rows(
    alloc: Global,
    size: usize,
    catalogue: &Catalogue,
    query: &Query,
    plan: &Plan,
    item: &Listed,
) -> Result<usize, OutOfMemory>
    requires few { size ≤ MAX_SIZE }
    requires catalogue { IsMadeCatalogue size catalogue.now }
    requires query { IsMadeQuery size query.now }
    requires planned { IsPlanOfCase size plan.now }
    requires item { IsItemOfCase size plan.now item.now }
    ensures { IfOk result (CountsAnswers size) }
{
    catalogues_are_sound();
    queries_are_sound();
    plans_are_sound();
    plans_of_runs_are_over_fragments();
    answers_are_over_files();
    rewritings_answer_queries();
    chosen_atoms_are_named();
    let opened = made_opened(alloc, catalogue, size)?;
    let rows = rows_of_set(alloc, &item.order, plan, &catalogue.fragments, opened)?;
    Ok(rows.len())
}

// The list of the plan.
fn listing_of(
    alloc: Global,
    size: usize,
    catalogue: &Catalogue,
    query: &Query,
    plan: &Plan,
) -> Result<Listing, OutOfMemory>
    requires catalogue { IsMadeCatalogue size catalogue.now }
    requires query { IsMadeQuery size query.now }
    requires planned { IsPlanOfCase size plan.now }
    ensures { IfOk result (IsListOfCase size plan.now) }
{
    catalogues_are_sound();
    queries_are_sound();
    rules_are_sound();
    plans_of_runs_are_over_fragments();
    plans_of_runs_are_universal();
    plans_tell_satisfiable_queries();
    plans_are_sound();
    queries_are_their_own_instances();
    let found = minimal_sets(alloc, plan, query, catalogue)?;
    Listing::of(alloc, &found.sets, plan, &catalogue.fragments)
}

// The pick of the list, which is not empty.
fn pick_of(size: usize, plan: &Plan, listing: &Listing) -> usize
    requires some { 0 < size }
    requires planned { IsPlanOfCase size plan.now }
    requires list { IsListOfCase size plan.now listing.now }
    ensures { IsPick (totals_of listing.now) result }
{
    listed_sets_are_minimal();
    rewritings_without_inputs();
    plans_of_runs_are_universal();
    plans_are_sound();
    queries_are_their_own_instances();
    match listing.pick() {
        Some(pick) => pick,
        None => unreachable!(),
    }
}

// The summary of the plan.
fn summary_of_plan(
    alloc: Global,
    size: usize,
    catalogue: &Catalogue,
    query: &Query,
    plan: &Plan,
) -> Result<Summary, OutOfMemory>
    requires some { 0 < size }
    requires few { size ≤ MAX_SIZE }
    requires catalogue { IsMadeCatalogue size catalogue.now }
    requires query { IsMadeQuery size query.now }
    requires planned { IsPlanOfCase size plan.now }
    ensures { IfOk result (IsSummaryOfCase size) }
{
    let listing = listing_of(alloc, size, catalogue, query, plan)?;
    let place = pick_of(size, plan, &listing);
    let pick = listing.item(place);
    let rows = count_rows(alloc, size, catalogue, query, plan, pick)?;
    Ok(Summary {
        plan: plan.atoms.len(),
        rewritings: listing.len(),
        weight: pick.weight,
        rows,
    })
}

// The summary of the plan of the made query.
fn summary_of_query(
    alloc: Global,
    size: usize,
    catalogue: &Catalogue,
    query: &Query,
) -> Result<Summary, OutOfMemory>
    requires some { 0 < size }
    requires few { size ≤ MAX_SIZE }
    requires catalogue { IsMadeCatalogue size catalogue.now }
    requires query { IsMadeQuery size query.now }
    ensures { IfOk result (IsSummaryOfCase size) }
{
    match universal(alloc, query, catalogue)? {
        Left(plan) => summary_of_plan(alloc, size, catalogue, query, &plan),
        Right(_) => unreachable!(),
    }
}

// The summary of the made case over the made catalogue.
fn summary_over(alloc: Global, size: usize, catalogue: &Catalogue) -> Result<Summary, OutOfMemory>
    requires some { 0 < size }
    requires few { size ≤ MAX_SIZE }
    requires catalogue { IsMadeCatalogue size catalogue.now }
    ensures { IfOk result (IsSummaryOfCase size) }
{
    let query = made_query(alloc, size)?;
    summary_of_query(alloc, size, catalogue, &query)
}

/// The summary of the made case of this size, 1 to `MAX_SIZE`: the query is planned and listed, and the pick is run over
/// the made rows.
pub fn bench(alloc: Global, size: usize) -> Result<Summary, OutOfMemory>
    requires some { 0 < size }
    requires few { size ≤ MAX_SIZE }
    ensures { IfOk result (IsSummaryOfCase size) }
{
    let catalogue = made_catalogue(alloc, size)?;
    summary_over(alloc, size, &catalogue)
}
