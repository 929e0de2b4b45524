//! The files of the datasets that a command needs: each has to have a file; then each is fetched, and its content read,
//! before the next is fetched.
ghost use Rattle.std.specs.Prelude.{◌≡◌, ◌↔◌, ◌<◌, ◌≤◌, [], ◌∷◌, ℕ, IsTrue, length, slice_get, Some, Contains, IfOk, OnOk};
ghost use Rattle.esto_mapping.specs.declared.dataset.Dataset.{Dataset};
ghost use Rattle.esto_ports.specs.Faults.{Rises};
ghost use Rattle.esto_status.specs.Answers.{Answers};
ghost use Rattle.esto_status.specs.Asked.{AsksIn};
ghost use Rattle.esto_data.specs.Coding.{IsOver};
ghost use Rattle.esto_fill.specs.declared.wanted.Wanted.TheVariants.{Asked};
ghost use Rattle.esto_data.specs.Datasets.{AddsNeeded, AreNeeded, HasRelation, HoldsLeft, IsSourceAt, Loads, LoadsAsking, LoadsFiles, LoadsMore, Names};
ghost use Rattle.esto_data.specs.Datasets.{Source, demands_file, demands_files, loads, opens_dataset, reads_data};

use crate::coded_data::{CodedData, no_data};
use crate::coded_load::load_coded;
use esto_fill::{Wanted, wanted_by_body};
use esto_mapping::{Catalogue, Dataset, Datasets, relation_count};
use esto_ports::{FileError, Shelf};
use esto_semantics::{Atom, Atoms};
use esto_status::{DATA_LIMIT, Status, fetch};
use esto_term::{Bytes, OutOfMemory, Places, Replicate, Values};
use std::alloc::Global;

// Whether the relation is one of the dataset's.
fn has_relation(dataset: &Dataset, relation: usize) -> bool
    ensures { IsTrue result ↔ HasRelation dataset.now relation }
{
    relation >= dataset.base && relation - dataset.base < relation_count(dataset.model)
}

/// Whether the body names the dataset.
pub fn names(body: &[Atom], dataset: &Dataset) -> bool
    ensures { IsTrue result ↔ Names body.now dataset.now }
{
    'atoms: for atom in body {
        if has_relation(dataset, atom.relation) {
            return true;
        }
    }
    false
}

// Puts the number of the dataset at the end, if the body names the dataset.
fn add_named(
    numbers: &mut Places,
    number: usize,
    dataset: &Dataset,
    body: &Atoms,
) -> Result<(), OutOfMemory>
    ensures { OnOk result (AddsNeeded (Names body.now dataset.now) number numbers.old numbers.new) }
{
    if !names(body.items(), dataset) {
        return Ok(());
    }
    numbers.push(number)
}

// The numbers of the datasets that the body names, in order.
fn named_datasets(alloc: Global, datasets: &Datasets, body: &Atoms) -> Result<Places, OutOfMemory>
    ensures { IfOk result (AreNeeded datasets.now (Names body.now)) }
{
    let mut numbers = Values::new(alloc);
    'datasets: for (number, dataset) in datasets.items().iter().enumerate() {
        add_named(&mut numbers, number, dataset, body)?;
    }
    Ok(numbers)
}

// The dataset of the number has a file; else NoData.
fn demand_file(alloc: Global, datasets: &Datasets, number: usize) -> Result<(), Status>
    requires { number < length datasets.now }
    ensures { (place : ℕ) → Answers (demands_file datasets.now place tt number) ⊥ result }
{
    let dataset = datasets.item(number);
    match &dataset.file {
        Some(_) => Ok(()),
        None => {
            let name = dataset.name.copy(alloc)?;
            Err(Status::NoData(name))
        }
    }
}

/// Each of the datasets of the numbers has a file; else NoData with the name of the first that has none.
pub fn demand_files(alloc: Global, datasets: &Datasets, numbers: &Places) -> Result<(), Status>
    requires { (number : ℕ) → Contains numbers.now number → number < length datasets.now }
    ensures { Answers (demands_files datasets.now numbers.now) ⊥ result }
{
    'numbers: for number in numbers.items() {
        demand_file(alloc, datasets, *number)?;
    }
    Ok(())
}

// Puts the facts of the content of the dataset's file into the data, or answers the status of the content's first
// fault.
fn load_content(
    alloc: Global,
    catalogue: &Catalogue,
    wanted: &Wanted,
    number: usize,
    bytes: &Bytes,
    coded: &mut CodedData,
) -> Result<(), Status>
    requires number { number < length catalogue.now.datasets }
    requires over { IsOver catalogue.now.schema coded.old }
    ensures answer { (dataset : Dataset) → slice_get catalogue.now.datasets number ≡ Some dataset
        → Answers (reads_data dataset bytes.now) ⊥ result }
    ensures over { OnOk result (IsOver catalogue.now.schema coded.new) }
    ensures loaded { OnOk result (LoadsMore catalogue.now.datasets wanted.now number bytes.now
        coded.old coded.new) }
{
    match load_coded(alloc, catalogue, wanted, number, bytes, coded) {
        Ok(()) => Ok(()),
        Err(FileError::Fault(fault)) => {
            let name = catalogue.datasets.item(number).name.copy(alloc)?;
            Err(Status::BadDataset(name, fault))
        }
        Err(FileError::OutOfMemory) => Err(Status::OutOfMemory),
    }
}

/// Fetches the file of the dataset of the number, puts its facts into the data, and gives its bytes.
pub fn load_next<S: Shelf>(
    alloc: Global,
    shelf: &mut S,
    catalogue: &Catalogue,
    wanted: &Wanted,
    number: usize,
    coded: &mut CodedData,
) -> Result<Bytes, Status>
    requires source { (source : Source) × IsSourceAt catalogue.now.datasets number source }
    requires over { IsOver catalogue.now.schema coded.old }
    ensures answer { Answers (opens_dataset (S.files shelf.old) catalogue.now.datasets number)
        (Rises S.faults shelf.old shelf.new) result }
    ensures asked { AsksIn (S.asked shelf.old) (S.asked shelf.new)
        (opens_dataset (S.files shelf.old) catalogue.now.datasets number) result }
    ensures over { OnOk result (IsOver catalogue.now.schema coded.new) }
    ensures loaded { IfOk result (λ bytes. LoadsMore catalogue.now.datasets wanted.now number bytes
        coded.old coded.new) }
    ensures files { S.files shelf.new ≡ S.files shelf.old }
    ensures later { S.faults shelf.old ≤ S.faults shelf.new }
{
    let Some(file) = &catalogue.datasets.item(number).file else {
        unreachable!()
    };
    let bytes = fetch(alloc, shelf, file, DATA_LIMIT)?;
    load_content(alloc, catalogue, wanted, number, &bytes, coded)?;
    Ok(bytes)
}

/// Loads the facts of the files of the datasets of the numbers, in order, as far as they are wanted.
pub fn load_files<S: Shelf>(
    alloc: Global,
    shelf: &mut S,
    catalogue: &Catalogue,
    wanted: &Wanted,
    numbers: &Places,
) -> Result<CodedData, Status>
    requires { (number : ℕ) → Contains numbers.now number
        → (source : Source) × IsSourceAt catalogue.now.datasets number source }
    ensures answer { LoadsFiles (S.files shelf.old) catalogue.now.datasets wanted.now numbers.now
        (Rises S.faults shelf.old shelf.new) (S.asked shelf.old) (S.asked shelf.new) result }
    ensures files { S.files shelf.new ≡ S.files shelf.old }
    ensures later { S.faults shelf.old ≤ S.faults shelf.new }
{
    let mut coded = no_data(alloc, catalogue)?;
    'numbers: for number in numbers.items() {
        load_next(alloc, shelf, catalogue, wanted, *number, &mut coded)?;
    }
    Ok(coded)
}

/// Loads, of the facts of the files of the datasets that the body names, in order, those to which one of its atoms can
/// go. Each of the datasets has to have a file; then each is fetched, and its content read, before the next is fetched.
pub fn load_named<S: Shelf>(
    alloc: Global,
    shelf: &mut S,
    catalogue: &Catalogue,
    body: &Atoms,
) -> Result<CodedData, Status>
    ensures answer { Loads (HoldsLeft catalogue.now.datasets (Asked (body.now ∷ [])))
        (loads (S.files shelf.old) catalogue.now.datasets (Names body.now))
        (Rises S.faults shelf.old shelf.new) result }
    ensures asked { LoadsAsking (S.asked shelf.old) (S.asked shelf.new)
        (HoldsLeft catalogue.now.datasets (Asked (body.now ∷ [])))
        (loads (S.files shelf.old) catalogue.now.datasets (Names body.now)) result }
    ensures files { S.files shelf.new ≡ S.files shelf.old }
    ensures later { S.faults shelf.old ≤ S.faults shelf.new }
{
    let wanted = wanted_by_body(alloc, body)?;
    let numbers = named_datasets(alloc, &catalogue.datasets, body)?;
    demand_files(alloc, &catalogue.datasets, &numbers)?;
    load_files(alloc, shelf, catalogue, &wanted, &numbers)
}
