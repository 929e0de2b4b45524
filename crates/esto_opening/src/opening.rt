//! The catalogue and the query of a command: each file is fetched, and then read.
ghost use Rattle.std.specs.Prelude.{◌≡◌, ◌≤◌};
ghost use Rattle.esto_ports.specs.Faults.{Rises};
ghost use Rattle.esto_status.specs.Answers.{Answers};
ghost use Rattle.esto_status.specs.Asked.{AsksIn};
ghost use Rattle.esto_opening.specs.Opening.{status_of, reads_catalogue, opens_catalogue, reads_query, opens_query};

use esto_catalog::{CatalogueError, read_catalogue};
use esto_mapping::{Catalogue, catalogues_are_sound};
use esto_ports::Shelf;
use esto_query::Query;
use esto_read::{NamedQuery, read_query};
use esto_status::{CATALOGUE_LIMIT, QUERY_LIMIT, Status, fetch};
use esto_term::{Bytes, Text};
use esto_text::ReadError;
use std::alloc::Global;

// The status of why a catalogue is not read.
fn status_of(error: CatalogueError) -> Status
    ensures { result ≡ status_of error }
{
    match error {
        CatalogueError::Fault(fault) => Status::BadCatalogue(fault),
        CatalogueError::NotAcyclic(cycle) => Status::NotAcyclic(cycle),
        CatalogueError::OutOfMemory => Status::OutOfMemory,
    }
}

// The catalogue that the bytes say, or the status of why they say none.
fn catalogue_of(alloc: Global, bytes: &Bytes) -> Result<Catalogue, Status>
    ensures { Answers (reads_catalogue bytes.now) ⊥ result }
{
    match read_catalogue(alloc, bytes.bytes()) {
        Ok(catalogue) => Ok(catalogue),
        Err(error) => Err(status_of(error)),
    }
}

/// Fetches and reads a catalogue.
#[tactic(auto, using(crate::proofs::Steps::steps, crate::proofs::Steps::asked_steps))]
pub fn open_catalogue<S: Shelf>(
    alloc: Global,
    shelf: &mut S,
    name: &Text,
) -> Result<Catalogue, Status>
    ensures answer { Answers (opens_catalogue (S.files shelf.old) name.now)
        (Rises S.faults shelf.old shelf.new) result }
    ensures asked { AsksIn (S.asked shelf.old) (S.asked shelf.new)
        (opens_catalogue (S.files shelf.old) name.now) result }
    ensures files { S.files shelf.new ≡ S.files shelf.old }
    ensures later { S.faults shelf.old ≤ S.faults shelf.new }
{
    let bytes = fetch(alloc, shelf, name, CATALOGUE_LIMIT)?;
    catalogue_of(alloc, &bytes)
}

// The query over the catalogue's words, or the status of the first fault of its text.
fn query_of(alloc: Global, bytes: &Bytes, catalogue: &Catalogue) -> Result<Query, Status>
    ensures { Answers (reads_query catalogue.now bytes.now) ⊥ result }
{
    catalogues_are_sound();
    match read_query(alloc, bytes.bytes(), &catalogue.words, &catalogue.schema) {
        Ok(NamedQuery { name: _, query }) => Ok(query),
        Err(ReadError::Fault(fault)) => Err(Status::BadQuery(fault)),
        Err(ReadError::OutOfMemory) => Err(Status::OutOfMemory),
    }
}

/// Fetches and reads a query over a catalogue.
#[tactic(auto, using(crate::proofs::Steps::steps, crate::proofs::Steps::asked_steps))]
pub fn open_query<S: Shelf>(
    alloc: Global,
    shelf: &mut S,
    name: &Text,
    catalogue: &Catalogue,
) -> Result<Query, Status>
    ensures answer { Answers (opens_query (S.files shelf.old) name.now catalogue.now)
        (Rises S.faults shelf.old shelf.new) result }
    ensures asked { AsksIn (S.asked shelf.old) (S.asked shelf.new)
        (opens_query (S.files shelf.old) name.now catalogue.now) result }
    ensures files { S.files shelf.new ≡ S.files shelf.old }
    ensures later { S.faults shelf.old ≤ S.faults shelf.new }
{
    let bytes = fetch(alloc, shelf, name, QUERY_LIMIT)?;
    query_of(alloc, &bytes, catalogue)
}
