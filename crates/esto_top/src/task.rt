//! What a command does over its catalogue, which is opened here for every command that has one. Start from `over_catalogue`.
ghost use Rattle.std.specs.Prelude.{◌≡◌, ◌≤◌};
ghost use Rattle.esto_ports.specs.Faults.{Rises};
ghost use Rattle.esto_status.specs.Answers.{Answers};
ghost use Rattle.esto_status.specs.Asked.{AsksIn};
ghost use Rattle.esto_top.specs.Over.{over_catalogue};
ghost use Rattle.esto_top.specs.Tasks.{serves};

use crate::check::check;
use crate::queries::{QueryTask, compare, over_query};
use crate::unions::{UnionTask, over_union};
use esto_data::{audit_catalogue, fill_named};
use esto_mapping::Catalogue;
use esto_opening::open_catalogue;
use esto_ports::Shelf;
use esto_status::{Reply, Status};
use esto_term::Text;
use std::alloc::Global;

/// What a command does over its catalogue.
#[derive(Clone, Copy)]
pub enum Task<'a> {
    /// `check`: the counts and the ranks.
    Check,
    /// `audit`: whether the datasets' files meet the constraints and the fragments' files are right.
    Audit,
    /// `fill`: the text of the file of the fragment of a name.
    Fill(&'a Text),
    /// `contains`: whether the query of one file is contained in the query of another.
    Contains(&'a Text, &'a Text),
    /// What is told of the query of a file.
    Query(&'a Text, QueryTask<'a>),
    /// What is done with the queries of a file.
    Union(&'a Text, UnionTask),
}

// Does the task over the catalogue.
fn serve<S: Shelf>(
    alloc: Global,
    shelf: &mut S,
    catalogue: &Catalogue,
    task: Task<'_>,
) -> Result<Reply, Status>
    ensures answer { Answers (serves (S.files shelf.old) task.entry catalogue.now)
        (Rises S.faults shelf.old shelf.new) result }
    ensures asked { AsksIn (S.asked shelf.old) (S.asked shelf.new)
        (serves (S.files shelf.old) task.entry catalogue.now) result }
    ensures files { S.files shelf.new ≡ S.files shelf.old }
    ensures later { S.faults shelf.old ≤ S.faults shelf.new }
{
    match task {
        Task::Check => check(alloc, catalogue),
        Task::Audit => audit_catalogue(alloc, shelf, catalogue),
        Task::Fill(fragment) => fill_named(alloc, shelf, catalogue, fragment),
        Task::Contains(left, right) => compare(alloc, shelf, catalogue, left, right),
        Task::Query(query, task) => over_query(alloc, shelf, catalogue, query, task),
        Task::Union(query, task) => over_union(alloc, shelf, catalogue, query, task),
    }
}

/// Fetches and reads the catalogue, and does the task over it.
pub fn over_catalogue<S: Shelf>(
    alloc: Global,
    shelf: &mut S,
    catalogue: &Text,
    task: Task<'_>,
) -> Result<Reply, Status>
    ensures answer { Answers
        (over_catalogue (S.files shelf.old) catalogue.now (serves (S.files shelf.old) task.entry))
        (Rises S.faults shelf.old shelf.new) result }
    ensures asked { AsksIn (S.asked shelf.old) (S.asked shelf.new)
        (over_catalogue (S.files shelf.old) catalogue.now (serves (S.files shelf.old) task.entry))
        result }
    ensures files { S.files shelf.new ≡ S.files shelf.old }
    ensures later { S.faults shelf.old ≤ S.faults shelf.new }
{
    let catalogue = open_catalogue(alloc, shelf, catalogue)?;
    serve(alloc, shelf, &catalogue, task)
}
