//! The facts of datasets' files.
ghost use Rattle.std.specs.Prelude.{◌≡◌, [], ◌∷◌, ◌++◌, ◌<◌, List, All, length, slice_get, IfOk, IfSome};
ghost use Rattle.esto_docmodel.specs.declared.words.DataModel.{DataModel};
ghost use Rattle.esto_fill.specs.Files.{AddsFile, GivesFacts, dataset_fault, FindsFault, IsLoadedFrom, LoadsFacts};
ghost use Rattle.esto_fill.specs.declared.datasets.DatasetBytes.{DatasetBytes};
ghost use Rattle.esto_fill.specs.declared.datasets.LoadError.TheVariants as load;

use crate::loaded::{Loaded, nothing_loaded};
use crate::wanted::{Wanted, if_wanted, kept_for};
use esto_docmodel::{DataModel, Encoded};
use esto_docs::encode_file;
use esto_mapping::{Catalogue, Dataset};
use esto_ports::{FileError, FileFault};
use esto_relmodel::facts_of_rows;
use esto_semantics::Facts;
use esto_stores::{open_keys, open_table};
use esto_term::{Bytes, List, OutOfMemory, Replicate};
use std::alloc::Global;

/// How many cells a line of a dataset of keys has: a key, a field and a value.
pub const KEY_CELLS: usize = 3;

/// The bytes of a dataset's file, by the number of the dataset in the catalogue.
#[derive(Drop)]
pub struct DatasetBytes {
    pub dataset: usize,
    pub bytes: Bytes,
}

/// The files of some of a catalogue's datasets.
pub type LoadList = List<DatasetBytes>;

impl Replicate for DatasetBytes {
    fn copy(&self, alloc: Global) -> Result<DatasetBytes, OutOfMemory> {
        let bytes = self.bytes.copy(alloc)?;
        Ok(DatasetBytes {
            dataset: self.dataset,
            bytes,
        })
    }
}

/// Why the facts of datasets' files are not loaded.
#[derive(Drop)]
pub enum LoadError {
    /// The file of the dataset of that number has a fault, and this is its first; no file before has one.
    Fault(usize, FileFault),
    OutOfMemory,
}

impl From<OutOfMemory> for LoadError {
    ghost from_gives = { λ _ e. e ≡ load.OutOfMemory };

    fn from(_: OutOfMemory) -> LoadError {
        LoadError::OutOfMemory
    }
}

// The facts of the rows of a table's file.
fn facts_of_table(
    alloc: Global,
    dataset: &Dataset,
    wanted: &Wanted,
    bytes: &[u8],
    first: u64,
) -> Result<Encoded, FileError>
    ensures { GivesFacts DataModel.Table dataset.now wanted.now bytes.now first result }
{
    let rows = open_table(alloc, bytes, &dataset.columns)?;
    let facts = facts_of_rows(alloc, dataset.base, rows)?;
    Ok(Encoded {
        facts: if_wanted(alloc, wanted, dataset.base, facts),
        next: first,
    })
}

// The facts of the documents of a file, whose nodes are numbered from `first` on.
fn facts_of_documents(
    alloc: Global,
    dataset: &Dataset,
    wanted: &Wanted,
    bytes: &[u8],
    first: u64,
) -> Result<Encoded, FileError>
    ensures { GivesFacts DataModel.Documents dataset.now wanted.now bytes.now first result }
{
    let relations = kept_for(alloc, wanted, dataset.base)?;
    encode_file(alloc, bytes, &dataset.layout, &relations, first)
}

// The facts of the lines of a key file.
fn facts_of_keys(
    alloc: Global,
    dataset: &Dataset,
    wanted: &Wanted,
    bytes: &[u8],
    first: u64,
) -> Result<Encoded, FileError>
    ensures { GivesFacts DataModel.Keys dataset.now wanted.now bytes.now first result }
{
    let rows = open_keys(alloc, bytes, KEY_CELLS)?;
    let facts = facts_of_rows(alloc, dataset.base, rows)?;
    Ok(Encoded {
        facts: if_wanted(alloc, wanted, dataset.base, facts),
        next: first,
    })
}

// The facts of the file of a dataset, whose nodes are numbered from `first` on, and the first number that is no node's.
fn facts_of(
    alloc: Global,
    dataset: &Dataset,
    wanted: &Wanted,
    bytes: &[u8],
    first: u64,
) -> Result<Encoded, FileError>
    ensures { GivesFacts dataset.now.model dataset.now wanted.now bytes.now first result }
{
    match dataset.model {
        DataModel::Table => facts_of_table(alloc, dataset, wanted, bytes, first),
        DataModel::Documents => facts_of_documents(alloc, dataset, wanted, bytes, first),
        DataModel::Keys => facts_of_keys(alloc, dataset, wanted, bytes, first),
    }
}

// The facts, and the others after them; nothing is moved where there is none before.
fn joined(facts: Facts, others: Facts) -> Result<Facts, OutOfMemory>
    ensures { IfOk result (λ it. it ≡ facts ++ others) }
{
    if facts.is_empty() {
        return Ok(others);
    }
    let mut all = facts;
    all.append(others)?;
    Ok(all)
}

// What was loaded, and after it the facts of the file.
fn add_file(
    alloc: Global,
    catalogue: &Catalogue,
    file: &DatasetBytes,
    loaded: Loaded,
) -> Result<Loaded, LoadError>
    requires { file.now.dataset < length catalogue.now.datasets }
    ensures { AddsFile catalogue.now.datasets file.now loaded result }
{
    match load_dataset(
        alloc,
        catalogue,
        &Wanted::Every,
        file.dataset,
        &file.bytes,
        loaded,
    ) {
        Ok(more) => Ok(more),
        Err(FileError::Fault(fault)) => Err(LoadError::Fault(file.dataset, fault)),
        Err(FileError::OutOfMemory) => Err(LoadError::OutOfMemory),
    }
}

/// What was loaded, and after it, of the facts of the file of the dataset of that number, whose nodes are numbered from
/// `next` on, those that are wanted, all of them in order; or the file has a fault, and this is the first, whatever is
/// wanted. Where not all facts are wanted, others of wanted relations may be among them. OutOfMemory comes too where a
/// node has no number of 64 bits.
pub fn load_dataset(
    alloc: Global,
    catalogue: &Catalogue,
    wanted: &Wanted,
    number: usize,
    bytes: &Bytes,
    loaded: Loaded,
) -> Result<Loaded, FileError>
    requires { number < length catalogue.now.datasets }
    ensures loaded { IfOk result (λ it. (files : List DatasetBytes)
        → IsLoadedFrom catalogue.now.datasets wanted.now files loaded
        → IsLoadedFrom catalogue.now.datasets wanted.now
        (files ++ record { dataset = number; bytes = bytes.now } ∷ []) it) }
    ensures fault { IfSome (slice_get catalogue.now.datasets number) (λ dataset.
        FindsFault (dataset_fault dataset bytes.now) result) }
{
    let dataset = catalogue.datasets.item(number);
    let own = facts_of(alloc, dataset, wanted, bytes.bytes(), loaded.next)?;
    let facts = joined(loaded.facts, own.facts)?;
    Ok(Loaded {
        facts,
        next: own.next,
    })
}

/// The facts of the files of datasets, in the order in which they are given: of a table and of keys the rows in order of
/// first occurrence, each row once; of documents those of their nodes, which are numbered over all files, the first 0.
/// Fault comes exactly where a file has a fault, with that of the first such file. OutOfMemory comes too where a node has
/// no number of 64 bits.
pub fn dataset_facts(
    alloc: Global,
    catalogue: &Catalogue,
    files: &LoadList,
) -> Result<Loaded, LoadError>
    requires { All (λ file. file.dataset < length catalogue.now.datasets) files.now }
    ensures { LoadsFacts catalogue.now.datasets files.now result }
{
    let mut loaded = nothing_loaded(alloc);
    'files: for file in files.items() {
        loaded = add_file(alloc, catalogue, file, loaded)?;
    }
    Ok(loaded)
}
