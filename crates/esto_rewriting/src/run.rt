//! The command `run` over a union.
ghost use Rattle.std.specs.Prelude.{◌≡◌, ◌≤◌, ◌<◌, length, map, Contains, IfOk};
ghost use Rattle.esto_status.specs.Answers.{Answers};
ghost use Rattle.esto_status.specs.Asked.{AsksIn};
ghost use Rattle.esto_ports.specs.Faults.{Rises};
ghost use Rattle.esto_query.specs.declared.query.Query.{Query};
ghost use Rattle.esto_run.specs.Picks.{IsRunnable, candidate_of};
ghost use Rattle.esto_run.specs.declared.picks.Pick.{Pick};
ghost use Rattle.esto_rewriting.specs.Members.{AreMembersOf};
ghost use Rattle.esto_rewriting.specs.Run.{IsNoRows, runs_chosen, runs_members, runs_union};
ghost use Rattle.esto_query.specs.Unions.{FormUnion};

use crate::members::{Members, clash_of, members_of};
use crate::picking::pick_each;
use crate::planned_laws::planned_plans_have_their_form;
use esto_chase_laws::Clash;
use esto_mapping::Catalogue;
use esto_ports::Shelf;
use esto_query::Query;
use esto_run::{
    Pick, answers_are_over_files, answers_text, fragments_of_picks, open_fragments, text_of_picks,
};
use esto_semantics::chosen_atoms_are_named;
use esto_status::{Reply, Status};
use esto_term::{List, OutOfMemory};
use std::alloc::Global;

// Opens the files of the fragments that the picks' sets use, and gives the text of the rows.
fn run_picks<S: Shelf>(
    alloc: Global,
    shelf: &mut S,
    queries: &[Query],
    catalogue: &Catalogue,
    picks: &[Pick],
) -> Result<Reply, Status>
    requires some { 0 < length queries.now }
    requires runnable { (pick : Pick) → Contains picks.now pick
        → IsRunnable catalogue.now.fragments pick }
    requires same_length { (pick : Pick) (query : Query) → Contains picks.now pick
        → Contains queries.now query → length pick.plan.now.head ≡ length query.head }
    ensures answer { Answers (runs_chosen (S.files shelf.old) catalogue.now queries.now
        (map candidate_of picks.now)) (Rises S.faults shelf.old shelf.new) result }
    ensures asked { AsksIn (S.asked shelf.old) (S.asked shelf.new) (runs_chosen
        (S.files shelf.old) catalogue.now queries.now (map candidate_of picks.now)) result }
    ensures files { S.files shelf.new ≡ S.files shelf.old }
    ensures later { S.faults shelf.old ≤ S.faults shelf.new }
{
    answers_are_over_files();
    chosen_atoms_are_named();
    let numbers = fragments_of_picks(alloc, picks)?;
    let opened = open_fragments(alloc, shelf, catalogue, &numbers)?;
    let text = text_of_picks(alloc, &queries[0], picks, &catalogue.fragments, opened)?;
    Ok(Reply::Done(text))
}

// The reply to a union of which no query is satisfiable: the names of the first one's head alone.
fn no_rows(alloc: Global, queries: &[Query], clash: Clash) -> Result<Reply, OutOfMemory>
    requires { 0 < length queries.now }
    ensures { IfOk result (IsNoRows queries.now clash) }
{
    let rows = List::new(alloc);
    let text = answers_text(alloc, &queries[0], &rows)?;
    Ok(Reply::Unsatisfiable(clash, text))
}

// Chooses a set of each member that has a plan, and runs them together.
fn run_members<S: Shelf>(
    alloc: Global,
    shelf: &mut S,
    queries: &[Query],
    catalogue: &Catalogue,
    members: &Members,
    number: Option<u64>,
) -> Result<Reply, Status>
    requires union { FormUnion queries.now }
    requires members { AreMembersOf catalogue.now queries.now members.now }
    ensures answer { Answers (runs_members (S.files shelf.old) catalogue.now queries.now number
        members.now) (Rises S.faults shelf.old shelf.new) result }
    ensures asked { AsksIn (S.asked shelf.old) (S.asked shelf.new)
        (runs_members (S.files shelf.old) catalogue.now queries.now number members.now) result }
    ensures files { S.files shelf.new ≡ S.files shelf.old }
    ensures later { S.faults shelf.old ≤ S.faults shelf.new }
{
    planned_plans_have_their_form();
    if let Some(clash) = clash_of(alloc, members)? {
        let reply = no_rows(alloc, queries, clash)?;
        return Ok(reply);
    }
    let picks = pick_each(alloc, members.items(), number)?;
    run_picks(alloc, shelf, queries, catalogue, picks.items())
}

/// What `run` answers to a union: it takes of each satisfiable query the pick of its plan's list in the union, or the set of
/// the number, counted from 1; opens the files of the fragments that these sets use, each once, where it first comes; and
/// gives the text of the rows together, each once, under the first query's header. For a union of which no query is
/// satisfiable the text has the names of the first one's head alone.
pub fn run_union<S: Shelf>(
    alloc: Global,
    shelf: &mut S,
    queries: &[Query],
    catalogue: &Catalogue,
    number: Option<u64>,
) -> Result<Reply, Status>
    requires { FormUnion queries.now }
    ensures answer { Answers (runs_union (S.files shelf.old) catalogue.now queries.now number)
        (Rises S.faults shelf.old shelf.new) result }
    ensures asked { AsksIn (S.asked shelf.old) (S.asked shelf.new)
        (runs_union (S.files shelf.old) catalogue.now queries.now number) result }
    ensures files { S.files shelf.new ≡ S.files shelf.old }
    ensures later { S.faults shelf.old ≤ S.faults shelf.new }
{
    let members = members_of(alloc, queries, catalogue)?;
    run_members(alloc, shelf, queries, catalogue, &members, number)
}
