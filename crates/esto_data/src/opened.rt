//! The rows of the files of all fragments, as rows of codes.
ghost use Rattle.std.specs.Prelude.{◌≡◌, ◌<◌, ◌≤◌, length, OnOk};
ghost use Rattle.esto_docmodel.specs.Stores.{IsShapeFor};
ghost use Rattle.esto_data.specs.CodedParts.{Stays};
ghost use Rattle.esto_data.specs.Coding.{IsCoded};
ghost use Rattle.esto_run.specs.Fragments.{reads_content};
ghost use Rattle.esto_ports.specs.Faults.{Rises};
ghost use Rattle.esto_status.specs.Answers.{Answers};
ghost use Rattle.esto_data.specs.Audit.{AddsRows, OpensNextRows, OpensRows};

use crate::coded_audit::CodedRowsList;
use crate::coded_data::CodedData;
use crate::coded_store::code_store;
use esto_mapping::{Catalogue, Store, catalogues_are_sound};
use esto_ports::{FileError, Shelf};
use esto_status::{DATA_LIMIT, Status, fetch};
use esto_term::{Bytes, List, Replicate};
use esto_views::FragmentDef;
use std::alloc::Global;

// Puts the rows of the content of the fragment's file, as rows of codes, at the end; or answers the status of the
// content's first fault.
fn code_content(
    alloc: Global,
    store: &Store,
    fragment: &FragmentDef,
    bytes: &Bytes,
    coded: &mut CodedData,
    rows: &mut CodedRowsList,
) -> Result<(), Status>
    requires shape { IsShapeFor store.now.shape fragment.now.view }
    requires coded { IsCoded coded.old }
    ensures answer { Answers (reads_content
        (record { definition = fragment.now; store = store.now }) bytes.now) ⊥ result }
    ensures rows { OnOk result (AddsRows store.now.shape bytes.now
        coded.old.facts.texts coded.new.facts.texts rows.old rows.new) }
    ensures stays { OnOk result (Stays coded.old coded.new) }
{
    match code_store(alloc, store, fragment, bytes.bytes(), coded, rows) {
        Ok(()) => Ok(()),
        Err(FileError::Fault(fault)) => {
            let name = fragment.name.copy(alloc)?;
            Err(Status::BadFragment(name, fault))
        }
        Err(FileError::OutOfMemory) => Err(Status::OutOfMemory),
    }
}

// Fetches the file of the fragment of the number, and puts its rows, as rows of codes, at the end.
fn open_rows<S: Shelf>(
    alloc: Global,
    shelf: &mut S,
    catalogue: &Catalogue,
    number: usize,
    coded: &mut CodedData,
    rows: &mut CodedRowsList,
) -> Result<(), Status>
    requires number { number < length catalogue.now.fragments }
    requires coded { IsCoded coded.old }
    ensures answer { OpensNextRows (S.files shelf.old) catalogue.now number
        coded.old.facts.texts coded.new.facts.texts rows.old rows.new
        (Rises S.faults shelf.old shelf.new) (S.asked shelf.old) (S.asked shelf.new) result }
    ensures stays { OnOk result (Stays coded.old coded.new) }
    ensures files { S.files shelf.new ≡ S.files shelf.old }
    ensures later { S.faults shelf.old ≤ S.faults shelf.new }
{
    catalogues_are_sound();
    let fragment = catalogue.fragments.item(number);
    let store = catalogue.stores.item(number);
    let bytes = fetch(alloc, shelf, &store.file, DATA_LIMIT)?;
    code_content(alloc, store, fragment, &bytes, coded, rows)
}

/// The rows of the files of all fragments, as rows of codes: each is fetched, and its content read and coded, before
/// the next is fetched.
pub fn open_all_rows<S: Shelf>(
    alloc: Global,
    shelf: &mut S,
    catalogue: &Catalogue,
    coded: &mut CodedData,
) -> Result<CodedRowsList, Status>
    requires { IsCoded coded.old }
    ensures answer { OpensRows (S.files shelf.old) catalogue.now coded.new.facts.texts
        (Rises S.faults shelf.old shelf.new) (S.asked shelf.old) (S.asked shelf.new) result }
    ensures stays { OnOk result (Stays coded.old coded.new) }
    ensures files { S.files shelf.new ≡ S.files shelf.old }
    ensures later { S.faults shelf.old ≤ S.faults shelf.new }
{
    catalogues_are_sound();
    let mut rows = List::new(alloc);
    'fragments: for number in 0..catalogue.fragments.len() {
        open_rows(alloc, shelf, catalogue, number, coded, &mut rows)?;
    }
    Ok(rows)
}
