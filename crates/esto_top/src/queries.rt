//! What a command tells of a query over its catalogue. Start from `over_query` and `compare`.
ghost use Rattle.std.specs.Prelude.{◌≡◌, ◌≤◌};
ghost use Rattle.esto_ports.specs.Faults.{Rises};
ghost use Rattle.esto_status.specs.Answers.{Answers};
ghost use Rattle.esto_status.specs.Asked.{AsksIn};
ghost use Rattle.esto_top.specs.Contains.{compares_both};
ghost use Rattle.esto_top.specs.Over.{over_query};
ghost use Rattle.esto_top.specs.Tasks.{tells};

use esto_mapping::Catalogue;
use esto_opening::open_query;
use esto_ports::Shelf;
use esto_query::Query;
use esto_reasoning::{compared, minimised};
use esto_rewriting::{explain_query, verify_query};
use esto_status::{Reply, Status};
use esto_term::{Bytes, Text};
use std::alloc::Global;

/// What a command tells of a query.
#[derive(Clone, Copy)]
pub enum QueryTask<'a> {
    /// `contains`: whether this query is contained in it; of a no, with a database that meets the rules and a row that
    /// shows it.
    Compare(&'a Query),
    /// `minimise`: the last facts of its run, its head, and the minimal sets of these facts that are equivalent to it.
    Minimise,
    /// `explain`: a certificate that the candidate of the set of this number of its list, counted from 1, is contained in
    /// it.
    Explain(u64),
    /// `verify`: whether the certificate of a file is accepted for the set of its printed plan's atoms of these numbers,
    /// counted from 1, which need not be listed.
    Verify(&'a [u64], &'a Text),
}

// The text of what is told of the query.
fn tell<S: Shelf>(
    alloc: Global,
    shelf: &mut S,
    catalogue: &Catalogue,
    query: &Query,
    task: QueryTask<'_>,
) -> Result<Bytes, Status>
    ensures answer { Answers (tells (S.files shelf.old) catalogue.now task.entry query.now)
        (Rises S.faults shelf.old shelf.new) result }
    ensures asked { AsksIn (S.asked shelf.old) (S.asked shelf.new)
        (tells (S.files shelf.old) catalogue.now task.entry query.now) result }
    ensures files { S.files shelf.new ≡ S.files shelf.old }
    ensures later { S.faults shelf.old ≤ S.faults shelf.new }
{
    match task {
        QueryTask::Compare(left) => compared(alloc, left, query, catalogue),
        QueryTask::Minimise => minimised(alloc, query, catalogue),
        QueryTask::Explain(number) => explain_query(alloc, query, catalogue, number),
        QueryTask::Verify(numbers, file) => {
            verify_query(alloc, shelf, query, catalogue, numbers, file)
        }
    }
}

/// Fetches and reads the query, and replies with the text of what is told of it.
pub fn over_query<S: Shelf>(
    alloc: Global,
    shelf: &mut S,
    catalogue: &Catalogue,
    query: &Text,
    task: QueryTask<'_>,
) -> Result<Reply, Status>
    ensures answer { Answers (over_query (S.files shelf.old) query.now catalogue.now
        (tells (S.files shelf.old) catalogue.now task.entry))
        (Rises S.faults shelf.old shelf.new) result }
    ensures asked { AsksIn (S.asked shelf.old) (S.asked shelf.new)
        (over_query (S.files shelf.old) query.now catalogue.now
        (tells (S.files shelf.old) catalogue.now task.entry)) result }
    ensures files { S.files shelf.new ≡ S.files shelf.old }
    ensures later { S.faults shelf.old ≤ S.faults shelf.new }
{
    let query = open_query(alloc, shelf, query, catalogue)?;
    let text = tell(alloc, shelf, catalogue, &query, task)?;
    Ok(Reply::Done(text))
}

/// Fetches and reads the left query, then the right one, and tells whether the left one is contained in it.
pub fn compare<S: Shelf>(
    alloc: Global,
    shelf: &mut S,
    catalogue: &Catalogue,
    left: &Text,
    right: &Text,
) -> Result<Reply, Status>
    ensures answer { Answers (compares_both (S.files shelf.old) left.now right.now catalogue.now)
        (Rises S.faults shelf.old shelf.new) result }
    ensures asked { AsksIn (S.asked shelf.old) (S.asked shelf.new)
        (compares_both (S.files shelf.old) left.now right.now catalogue.now) result }
    ensures files { S.files shelf.new ≡ S.files shelf.old }
    ensures later { S.faults shelf.old ≤ S.faults shelf.new }
{
    let left = open_query(alloc, shelf, left, catalogue)?;
    over_query(alloc, shelf, catalogue, right, QueryTask::Compare(&left))
}
