//! The union of queries of a command: its file is fetched, and then read.
ghost use Rattle.std.specs.Prelude.{◌≡◌, ◌≤◌, IfOk};
ghost use Rattle.esto_ports.specs.Faults.{Rises};
ghost use Rattle.esto_status.specs.Answers.{Answers};
ghost use Rattle.esto_status.specs.Asked.{AsksIn};
ghost use Rattle.esto_opening.specs.Opening.{reads_union, opens_union, unnamed};
ghost use Rattle.esto_query.specs.Unions.{FormUnion};

use esto_mapping::{Catalogue, catalogues_are_sound};
use esto_ports::Shelf;
use esto_query::Queries;
use esto_read::{NamedQuery, read_union};
use esto_status::{QUERY_LIMIT, Status, fetch};
use esto_term::{Bytes, List, OutOfMemory, Replicate, Text};
use esto_text::ReadError;
use std::alloc::Global;

// The queries without the names of their heads.
fn unnamed(alloc: Global, named: &[NamedQuery]) -> Result<Queries, OutOfMemory>
    ensures { IfOk result (λ queries. queries ≡ unnamed named.now) }
{
    let mut queries = List::new(alloc);
    'named: for query in named {
        queries.push(query.query.copy(alloc)?)?;
    }
    Ok(queries)
}

// The queries of the union over the catalogue's words, or the status of the first fault of its text.
fn union_of(alloc: Global, bytes: &Bytes, catalogue: &Catalogue) -> Result<Queries, Status>
    ensures answer { Answers (reads_union catalogue.now bytes.now) ⊥ result }
    ensures union { IfOk result FormUnion }
{
    catalogues_are_sound();
    match read_union(alloc, bytes.bytes(), &catalogue.words, &catalogue.schema) {
        Ok(named) => {
            let queries = unnamed(alloc, named.items())?;
            Ok(queries)
        }
        Err(ReadError::Fault(fault)) => Err(Status::BadQuery(fault)),
        Err(ReadError::OutOfMemory) => Err(Status::OutOfMemory),
    }
}

/// Fetches and reads a union of queries over a catalogue. It has at least one query, and the heads of its queries are of
/// one length.
#[tactic(auto, using(crate::proofs::Steps::steps, crate::proofs::Steps::asked_steps))]
pub fn open_union<S: Shelf>(
    alloc: Global,
    shelf: &mut S,
    name: &Text,
    catalogue: &Catalogue,
) -> Result<Queries, Status>
    ensures answer { Answers (opens_union (S.files shelf.old) name.now catalogue.now)
        (Rises S.faults shelf.old shelf.new) result }
    ensures union { IfOk result FormUnion }
    ensures asked { AsksIn (S.asked shelf.old) (S.asked shelf.new)
        (opens_union (S.files shelf.old) name.now catalogue.now) result }
    ensures files { S.files shelf.new ≡ S.files shelf.old }
    ensures later { S.faults shelf.old ≤ S.faults shelf.new }
{
    let bytes = fetch(alloc, shelf, name, QUERY_LIMIT)?;
    union_of(alloc, &bytes, catalogue)
}
