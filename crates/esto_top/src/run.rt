//! The command `run`.
ghost use Rattle.std.specs.Prelude.{◌≡◌, ◌≤◌};
ghost use Rattle.esto_ports.specs.Faults.{Rises};
ghost use Rattle.esto_status.specs.Answers.{Answers};
ghost use Rattle.esto_status.specs.Asked.{AsksIn};
ghost use Rattle.esto_query.specs.Unions.{FormUnion};
ghost use Rattle.esto_top.specs.Run.{has_no_answers, runs_item, runs_plan, runs_query, runs_queries};
ghost use Rattle.esto_rewriting.specs.Choice.{IsItemOf};
ghost use Rattle.esto_rewriting.specs.Listing.{IsPlanned};

use either::{Left, Right};
use esto_chase_laws::Clash;
use esto_list::Listed;
use esto_mapping::Catalogue;
use esto_ports::Shelf;
use esto_query::Query;
use esto_rewriting::{
    choose, chosen_items_are_listed, listing_of, planned_plans_have_their_form, printed_plan,
    run_union,
};
use esto_run::{answers_are_over_files, answers_text, fragments_of_set, open_fragments, run_text};
use esto_semantics::chosen_atoms_are_named;
use esto_status::{Reply, Status};
use esto_term::List;
use esto_views::Plan;
use std::alloc::Global;

// Opens the files of the fragments that the item's set uses, and gives the text of the rows.
fn run_item<S: Shelf>(
    alloc: Global,
    shelf: &mut S,
    query: &Query,
    catalogue: &Catalogue,
    plan: &Plan,
    item: &Listed,
) -> Result<Reply, Status>
    requires planned { IsPlanned catalogue.now query.now plan.now }
    requires item { IsItemOf catalogue.now query.now plan.now item.now }
    ensures answer { Answers
        (runs_item (S.files shelf.old) catalogue.now query.now plan.now item.now)
        (Rises S.faults shelf.old shelf.new) result }
    ensures asked { AsksIn (S.asked shelf.old) (S.asked shelf.new)
        (runs_item (S.files shelf.old) catalogue.now query.now plan.now item.now) result }
    ensures files { S.files shelf.new ≡ S.files shelf.old }
    ensures later { S.faults shelf.old ≤ S.faults shelf.new }
{
    planned_plans_have_their_form();
    answers_are_over_files();
    chosen_atoms_are_named();
    let numbers = fragments_of_set(alloc, &item.set, plan)?;
    let opened = open_fragments(alloc, shelf, catalogue, &numbers)?;
    let fragments = &catalogue.fragments;
    let text = run_text(alloc, query, plan, &item.order, fragments, opened)?;
    Ok(Reply::Done(text))
}

// Makes the list of the plan, and runs the chosen item of it.
fn run_plan<S: Shelf>(
    alloc: Global,
    shelf: &mut S,
    query: &Query,
    catalogue: &Catalogue,
    plan: &Plan,
    number: Option<u64>,
) -> Result<Reply, Status>
    requires { IsPlanned catalogue.now query.now plan.now }
    ensures answer { Answers (runs_plan (S.files shelf.old) catalogue.now query.now number plan.now)
        (Rises S.faults shelf.old shelf.new) result }
    ensures asked { AsksIn (S.asked shelf.old) (S.asked shelf.new)
        (runs_plan (S.files shelf.old) catalogue.now query.now number plan.now) result }
    ensures files { S.files shelf.new ≡ S.files shelf.old }
    ensures later { S.faults shelf.old ≤ S.faults shelf.new }
{
    chosen_items_are_listed();
    let listing = listing_of(alloc, plan, query, catalogue)?;
    let place = choose(&listing, number)?;
    run_item(alloc, shelf, query, catalogue, plan, listing.item(place))
}

// The reply to a query whose run ends with the clash: the names of its head alone.
#[tactic(auto, using(crate::proofs::Steps::steps))]
fn no_answers(alloc: Global, query: &Query, clash: Clash) -> Result<Reply, Status>
    ensures { Answers (has_no_answers query.now clash) ⊥ result }
{
    let rows = List::new(alloc);
    let text = answers_text(alloc, query, &rows)?;
    Ok(Reply::Unsatisfiable(clash, text))
}

// Chases the query and runs its plan, or gives the names of its head alone where the run ends with a clash.
fn run_query<S: Shelf>(
    alloc: Global,
    shelf: &mut S,
    query: &Query,
    catalogue: &Catalogue,
    number: Option<u64>,
) -> Result<Reply, Status>
    ensures answer { Answers (runs_query (S.files shelf.old) catalogue.now query.now number)
        (Rises S.faults shelf.old shelf.new) result }
    ensures asked { AsksIn (S.asked shelf.old) (S.asked shelf.new)
        (runs_query (S.files shelf.old) catalogue.now query.now number) result }
    ensures files { S.files shelf.new ≡ S.files shelf.old }
    ensures later { S.faults shelf.old ≤ S.faults shelf.new }
{
    match printed_plan(alloc, query, catalogue)? {
        Left(plan) => run_plan(alloc, shelf, query, catalogue, &plan, number),
        Right(clash) => no_answers(alloc, query, clash),
    }
}

/// Runs one query, or the union of more. Of one query it makes the plan and its list, opens the files of the fragments that
/// the chosen set uses, and gives the text of the rows. The set is the pick, or that of the number, counted from 1. For a
/// query that no database gives an answer the text has the names of its head alone.
pub fn run<S: Shelf>(
    alloc: Global,
    shelf: &mut S,
    queries: &[Query],
    catalogue: &Catalogue,
    number: Option<u64>,
) -> Result<Reply, Status>
    requires { FormUnion queries.now }
    ensures answer { Answers
        (runs_queries (S.files shelf.old) catalogue.now queries.now number)
        (Rises S.faults shelf.old shelf.new) result }
    ensures asked { AsksIn (S.asked shelf.old) (S.asked shelf.new)
        (runs_queries (S.files shelf.old) catalogue.now queries.now number) result }
    ensures files { S.files shelf.new ≡ S.files shelf.old }
    ensures later { S.faults shelf.old ≤ S.faults shelf.new }
{
    match queries {
        [query] => run_query(alloc, shelf, query, catalogue, number),
        _ => run_union(alloc, shelf, queries, catalogue, number),
    }
}
