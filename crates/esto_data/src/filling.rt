//! The command `fill`.
ghost use Rattle.std.specs.Prelude.{◌≡◌, ◌<◌, ◌≤◌, length, IsTrue, ◌↔◌};
ghost use Rattle.esto_run.specs.Fragments.{Stored, IsStoredAt};
ghost use Rattle.esto_ports.specs.Faults.{Rises};
ghost use Rattle.esto_status.specs.Answers.{Answers};
ghost use Rattle.esto_status.specs.Asked.{AsksIn};
ghost use Rattle.esto_data.specs.Coding.{IsCoded, IsCodedOf};
ghost use Rattle.esto_fill.specs.declared.loaded.Loaded.{Loaded};
ghost use Rattle.esto_data.specs.Fill.{fill_status, fills_file, fills_fragment, fills_named, finds_fragment};

use crate::coded_data::CodedData;
use crate::coded_filled::fill_coded;
use crate::datasets::load_named;
use esto_fill::{FillError, answers_rest_on_wanted_facts};
use esto_mapping::{Catalogue, catalogues_are_sound};
use esto_ports::Shelf;
use esto_status::{Reply, Status};
use esto_term::{Bytes, Replicate, Text};
use esto_views::FragmentDef;
use std::alloc::Global;

// Whether the fragment has the name.
fn has_name(fragment: &FragmentDef, name: &Text) -> bool
    ensures { IsTrue result ↔ (fragment.now.name ≡ name.now) }
{
    fragment.name.bytes() == name.bytes()
}

// The number of the fragment of the name, or NoSuchFragment.
fn find_fragment(alloc: Global, catalogue: &Catalogue, name: &Text) -> Result<usize, Status>
    ensures { Answers (finds_fragment catalogue.now name.now) ⊥ result }
{
    'fragments: for (number, fragment) in catalogue.fragments.items().iter().enumerate() {
        if has_name(fragment, name) {
            return Ok(number);
        }
    }
    let name = name.copy(alloc)?;
    Err(Status::NoSuchFragment(name))
}

// The status of why a file is not filled.
fn fill_status(error: FillError) -> Status
    ensures { result ≡ fill_status error }
{
    match error {
        FillError::NodeInRow(column) => Status::NodeInRow(column),
        FillError::KeyText(cell) => Status::KeyText(cell),
        FillError::OutOfMemory => Status::OutOfMemory,
    }
}

// The text of the fragment's file over the facts, or the status of why there is none.
fn text_of(
    alloc: Global,
    catalogue: &Catalogue,
    number: usize,
    coded: CodedData,
) -> Result<Bytes, Status>
    requires number { number < length catalogue.now.fragments }
    requires coded { IsCoded coded }
    ensures { (loaded : Loaded) → IsCodedOf loaded coded → (stored : Stored)
        → IsStoredAt catalogue.now number stored
        → Answers (fills_file stored loaded.facts) ⊥ result }
{
    let mut coded = coded;
    match fill_coded(alloc, catalogue, number, &mut coded) {
        Ok(text) => Ok(text),
        Err(error) => Err(fill_status(error)),
    }
}

// Loads the datasets that the fragment's view names, and gives the text of its file.
fn fill_fragment<S: Shelf>(
    alloc: Global,
    shelf: &mut S,
    catalogue: &Catalogue,
    number: usize,
) -> Result<Reply, Status>
    requires { number < length catalogue.now.fragments }
    ensures answer { Answers (fills_fragment (S.files shelf.old) catalogue.now number)
        (Rises S.faults shelf.old shelf.new) result }
    ensures asked { AsksIn (S.asked shelf.old) (S.asked shelf.new)
        (fills_fragment (S.files shelf.old) catalogue.now number) result }
    ensures files { S.files shelf.new ≡ S.files shelf.old }
    ensures later { S.faults shelf.old ≤ S.faults shelf.new }
{
    catalogues_are_sound();
    answers_rest_on_wanted_facts();
    let fragment = catalogue.fragments.item(number);
    let coded = load_named(alloc, shelf, catalogue, &fragment.view.body)?;
    let text = text_of(alloc, catalogue, number, coded)?;
    Ok(Reply::Done(text))
}

/// The text of the file of the fragment of the name, made from the facts of the datasets that its view names.
/// NoSuchFragment comes where no fragment has the name.
pub fn fill_named<S: Shelf>(
    alloc: Global,
    shelf: &mut S,
    catalogue: &Catalogue,
    name: &Text,
) -> Result<Reply, Status>
    ensures answer { Answers (fills_named (S.files shelf.old) name.now catalogue.now)
        (Rises S.faults shelf.old shelf.new) result }
    ensures asked { AsksIn (S.asked shelf.old) (S.asked shelf.new)
        (fills_named (S.files shelf.old) name.now catalogue.now) result }
    ensures files { S.files shelf.new ≡ S.files shelf.old }
    ensures later { S.faults shelf.old ≤ S.faults shelf.new }
{
    let number = find_fragment(alloc, catalogue, name)?;
    fill_fragment(alloc, shelf, catalogue, number)
}
