//! What a command does with a union of queries over its catalogue. Start from `over_union`.
ghost use Rattle.std.specs.Prelude.{◌≡◌, ◌≤◌};
ghost use Rattle.esto_ports.specs.Faults.{Rises};
ghost use Rattle.esto_query.specs.Unions.{FormUnion};
ghost use Rattle.esto_status.specs.Answers.{Answers};
ghost use Rattle.esto_status.specs.Asked.{AsksIn};
ghost use Rattle.esto_top.specs.Over.{over_union};
ghost use Rattle.esto_top.specs.Tasks.{serves_union};

use crate::list::list;
use crate::run::run;
use esto_data::answer_queries;
use esto_mapping::Catalogue;
use esto_opening::open_union;
use esto_ports::Shelf;
use esto_query::Queries;
use esto_status::{Reply, Status};
use esto_term::Text;
use std::alloc::Global;

/// What a command does with a union of queries.
#[derive(Clone, Copy)]
pub enum UnionTask {
    /// `list`: the plan and the list of one, or the plans and lists of more.
    List,
    /// `run`: the rows by the picks, or by the sets of this number of the lists, counted from 1.
    Run(Option<u64>),
    /// `answer`: the rows over the datasets' files that one of them names.
    Answer,
}

// Does the task with the queries.
fn serve_union<S: Shelf>(
    alloc: Global,
    shelf: &mut S,
    catalogue: &Catalogue,
    queries: &Queries,
    task: UnionTask,
) -> Result<Reply, Status>
    requires { FormUnion queries.now }
    ensures answer { Answers (serves_union (S.files shelf.old) catalogue.now task queries.now)
        (Rises S.faults shelf.old shelf.new) result }
    ensures asked { AsksIn (S.asked shelf.old) (S.asked shelf.new)
        (serves_union (S.files shelf.old) catalogue.now task queries.now) result }
    ensures files { S.files shelf.new ≡ S.files shelf.old }
    ensures later { S.faults shelf.old ≤ S.faults shelf.new }
{
    match task {
        UnionTask::List => list(alloc, queries.items(), catalogue),
        UnionTask::Run(number) => run(alloc, shelf, queries.items(), catalogue, number),
        UnionTask::Answer => answer_queries(alloc, shelf, catalogue, queries),
    }
}

/// Fetches and reads the union of queries, and does the task with them.
pub fn over_union<S: Shelf>(
    alloc: Global,
    shelf: &mut S,
    catalogue: &Catalogue,
    query: &Text,
    task: UnionTask,
) -> Result<Reply, Status>
    ensures answer { Answers (over_union (S.files shelf.old) query.now catalogue.now
        (serves_union (S.files shelf.old) catalogue.now task))
        (Rises S.faults shelf.old shelf.new) result }
    ensures asked { AsksIn (S.asked shelf.old) (S.asked shelf.new)
        (over_union (S.files shelf.old) query.now catalogue.now
        (serves_union (S.files shelf.old) catalogue.now task)) result }
    ensures files { S.files shelf.new ≡ S.files shelf.old }
    ensures later { S.faults shelf.old ≤ S.faults shelf.new }
{
    let queries = open_union(alloc, shelf, query, catalogue)?;
    serve_union(alloc, shelf, catalogue, &queries, task)
}
