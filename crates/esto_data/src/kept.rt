//! The files of all datasets, which an audit keeps once they are loaded: where it finds that a rule is not met, and no
//! part of the facts tells its difference, it loads them again.
ghost use Rattle.std.specs.Prelude.{◌≡◌, ◌≤◌, ◌<◌, ◌∷◌, [], ◌++◌, ℕ, List, None, Some, length, slice_get, Contains, IfOk};
ghost use Rattle.esto_mapping.specs.declared.dataset.Dataset.{Dataset};
ghost use Rattle.esto_ports.specs.Faults.{Rises};
ghost use Rattle.esto_status.specs.Answers.{Answers};
ghost use Rattle.esto_status.specs.Asked.{AsksIn};
ghost use Rattle.esto_data.specs.Coding.{IsCodedFrom, IsOver};
ghost use Rattle.esto_fill.specs.Files.{AreReadable, IsLoadedFrom, dataset_fault};
ghost use Rattle.esto_fill.specs.declared.datasets.DatasetBytes.{DatasetBytes};
ghost use Rattle.esto_data.specs.Datasets.{AreNeeded, AreNumbered, HoldsFiles, IsAny, IsSourceAt, Loads, LoadsAsking, Source, loads, loads_files};

use crate::coded_data::CodedData;
use crate::datasets::{demand_files, load_next};
use esto_fill::{DatasetBytes, LoadList, Loaded, Wanted, load_dataset, nothing_loaded};
use esto_mapping::{Catalogue, Datasets};
use esto_ports::{FileError, Shelf};
use esto_status::Status;
use esto_term::{List, OutOfMemory, Places, Values};
use std::alloc::Global;

// The numbers of all datasets, in order.
fn all_datasets(alloc: Global, datasets: &Datasets) -> Result<Places, OutOfMemory>
    ensures { IfOk result (AreNeeded datasets.now IsAny) }
{
    let mut numbers = Values::new(alloc);
    'datasets: for number in 0..datasets.len() {
        numbers.push(number)?;
    }
    Ok(numbers)
}

// Loads the facts of the files of the datasets of the numbers, in order, as far as they are wanted, and gives the
// files.
fn keep_files<S: Shelf>(
    alloc: Global,
    shelf: &mut S,
    catalogue: &Catalogue,
    wanted: &Wanted,
    numbers: &Places,
    coded: &mut CodedData,
) -> Result<LoadList, Status>
    requires sources { (number : ℕ) → Contains numbers.now number
        → (source : Source) × IsSourceAt catalogue.now.datasets number source }
    requires over { IsOver catalogue.now.schema coded.old }
    requires nothing { IsCodedFrom catalogue.now.datasets wanted.now [] coded.old }
    ensures answer { Answers (loads_files (S.files shelf.old) catalogue.now.datasets numbers.now)
        (Rises S.faults shelf.old shelf.new) result }
    ensures asked { AsksIn (S.asked shelf.old) (S.asked shelf.new)
        (loads_files (S.files shelf.old) catalogue.now.datasets numbers.now) result }
    ensures loaded { IfOk result (λ it.
        IsCodedFrom catalogue.now.datasets wanted.now it coded.new) }
    ensures files { S.files shelf.new ≡ S.files shelf.old }
    ensures later { S.faults shelf.old ≤ S.faults shelf.new }
{
    let mut files = List::new(alloc);
    'numbers: for number in numbers.items() {
        let bytes = load_next(alloc, shelf, catalogue, wanted, *number, coded)?;
        files.push(DatasetBytes {
            dataset: *number,
            bytes,
        })?;
    }
    Ok(files)
}

/// Loads, of the facts of the files of all datasets, in order, those that are wanted, and gives the files. Each of the
/// datasets has to have a file; then each is fetched, and its content read, before the next is fetched.
pub fn load_all<S: Shelf>(
    alloc: Global,
    shelf: &mut S,
    catalogue: &Catalogue,
    wanted: &Wanted,
    coded: &mut CodedData,
) -> Result<LoadList, Status>
    requires over { IsOver catalogue.now.schema coded.old }
    requires nothing { IsCodedFrom catalogue.now.datasets wanted.now [] coded.old }
    ensures answer { Loads
        (λ facts it. HoldsFiles catalogue.now.datasets wanted.now facts it coded.new)
        (loads (S.files shelf.old) catalogue.now.datasets IsAny)
        (Rises S.faults shelf.old shelf.new) result }
    ensures asked { LoadsAsking (S.asked shelf.old) (S.asked shelf.new)
        (λ facts it. HoldsFiles catalogue.now.datasets wanted.now facts it coded.new)
        (loads (S.files shelf.old) catalogue.now.datasets IsAny) result }
    ensures files { S.files shelf.new ≡ S.files shelf.old }
    ensures later { S.faults shelf.old ≤ S.faults shelf.new }
{
    let numbers = all_datasets(alloc, &catalogue.datasets)?;
    demand_files(alloc, &catalogue.datasets, &numbers)?;
    keep_files(alloc, shelf, catalogue, wanted, &numbers, coded)
}

// What was loaded, and after it, of the facts of the file, which has no fault, those that are wanted.
fn load_file(
    alloc: Global,
    catalogue: &Catalogue,
    wanted: &Wanted,
    file: &DatasetBytes,
    loaded: Loaded,
) -> Result<Loaded, OutOfMemory>
    requires number { file.now.dataset < length catalogue.now.datasets }
    requires readable { (dataset : Dataset)
        → slice_get catalogue.now.datasets file.now.dataset ≡ Some dataset
        → dataset_fault dataset file.now.bytes ≡ None }
    ensures { IfOk result (λ it. (files : List DatasetBytes)
        → IsLoadedFrom catalogue.now.datasets wanted.now files loaded
        → IsLoadedFrom catalogue.now.datasets wanted.now (files ++ file.now ∷ []) it) }
{
    match load_dataset(alloc, catalogue, wanted, file.dataset, &file.bytes, loaded) {
        Ok(more) => Ok(more),
        Err(FileError::Fault(_)) => unreachable!(),
        Err(FileError::OutOfMemory) => Err(OutOfMemory),
    }
}

/// Loads, of the facts of the files, which have no fault, those that are wanted.
pub fn load_again(
    alloc: Global,
    catalogue: &Catalogue,
    wanted: &Wanted,
    files: &LoadList,
) -> Result<Loaded, OutOfMemory>
    requires numbers { AreNumbered catalogue.now.datasets files.now }
    requires readable { AreReadable catalogue.now.datasets files.now }
    ensures { IfOk result (IsLoadedFrom catalogue.now.datasets wanted.now files.now) }
{
    let mut loaded = nothing_loaded(alloc);
    'files: for file in files.items() {
        loaded = load_file(alloc, catalogue, wanted, file, loaded)?;
    }
    Ok(loaded)
}
