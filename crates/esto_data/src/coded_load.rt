//! Files of datasets that are put into rows of codes.
ghost use Rattle.std.specs.Prelude.{◌≡◌, ◌<◌, [], ◌∷◌, ◌++◌, List, length, slice_get, IfSome, OnOk};
ghost use Rattle.esto_docmodel.specs.declared.words.DataModel.{DataModel};
ghost use Rattle.esto_stores.specs.Keys.{key_fault, key_rows};
ghost use Rattle.esto_stores.specs.Table.{table_fault, table_rows};
ghost use Rattle.esto_data.specs.CodedParts.{HasRelations, PutsFile, PutsRead};
ghost use Rattle.esto_data.specs.Coding.{IsCodedFrom, IsOver};
ghost use Rattle.esto_fill.specs.Files.{FindsFault, dataset_fault};
ghost use Rattle.esto_fill.specs.declared.datasets.DatasetBytes.{DatasetBytes};

use crate::coded_data::CodedData;
use crate::coded_documents::put_documents;
use esto_coded::rows_in_order_stand_for_facts;
use esto_docmodel::DataModel;
use esto_fill::{KEY_CELLS, Wanted};
use esto_mapping::{Catalogue, Dataset, catalogues_are_sound};
use esto_ports::FileError;
use esto_stores::{open_keys, open_table};
use esto_term::Bytes;
use std::alloc::Global;

// Puts the facts of the rows of a table's file.
fn put_table_rows(
    alloc: Global,
    dataset: &Dataset,
    bytes: &[u8],
    coded: &mut CodedData,
) -> Result<(), FileError>
    requires model { dataset.now.model ≡ DataModel.Table }
    requires relations { HasRelations dataset.now coded.old }
    ensures { PutsRead dataset.now.base (table_rows dataset.now.columns bytes.now)
        (table_fault dataset.now.columns bytes.now) coded.old coded.new result }
{
    let rows = coded.facts.code_table(alloc, bytes, &dataset.columns)?;
    coded.facts.put_coded(alloc, dataset.base, rows)?;
    Ok(())
}

// Puts the facts of the rows of a table's file, where its relation is wanted; else the file is only tried.
fn put_table(
    alloc: Global,
    dataset: &Dataset,
    wanted: &Wanted,
    bytes: &[u8],
    coded: &mut CodedData,
) -> Result<(), FileError>
    requires model { dataset.now.model ≡ DataModel.Table }
    requires relations { HasRelations dataset.now coded.old }
    ensures { PutsFile DataModel.Table dataset.now wanted.now bytes.now coded.old coded.new result }
{
    if wanted.has(dataset.base) {
        return put_table_rows(alloc, dataset, bytes, coded);
    }
    open_table(alloc, bytes, &dataset.columns)?;
    Ok(())
}

// Puts the facts of the lines of a key file.
fn put_key_rows(
    alloc: Global,
    dataset: &Dataset,
    bytes: &[u8],
    coded: &mut CodedData,
) -> Result<(), FileError>
    requires model { dataset.now.model ≡ DataModel.Keys }
    requires relations { HasRelations dataset.now coded.old }
    ensures { PutsRead dataset.now.base (key_rows bytes.now) (key_fault 3 bytes.now)
        coded.old coded.new result }
{
    let rows = coded.facts.code_keys(alloc, bytes, KEY_CELLS)?;
    coded.facts.put_coded(alloc, dataset.base, rows)?;
    Ok(())
}

// Puts the facts of the lines of a key file, where its relation is wanted; else the file is only tried.
fn put_keys(
    alloc: Global,
    dataset: &Dataset,
    wanted: &Wanted,
    bytes: &[u8],
    coded: &mut CodedData,
) -> Result<(), FileError>
    requires model { dataset.now.model ≡ DataModel.Keys }
    requires relations { HasRelations dataset.now coded.old }
    ensures { PutsFile DataModel.Keys dataset.now wanted.now bytes.now coded.old coded.new result }
{
    if wanted.has(dataset.base) {
        return put_key_rows(alloc, dataset, bytes, coded);
    }
    open_keys(alloc, bytes, KEY_CELLS)?;
    Ok(())
}

// Puts what is wanted of the facts of the file of a dataset, or finds the file's first fault.
fn put_file(
    alloc: Global,
    dataset: &Dataset,
    wanted: &Wanted,
    bytes: &[u8],
    coded: &mut CodedData,
) -> Result<(), FileError>
    requires { HasRelations dataset.now coded.old }
    ensures { PutsFile dataset.now.model dataset.now wanted.now bytes.now
        coded.old coded.new result }
{
    match dataset.model {
        DataModel::Table => put_table(alloc, dataset, wanted, bytes, coded),
        DataModel::Documents => put_documents(alloc, dataset, wanted, bytes, coded),
        DataModel::Keys => put_keys(alloc, dataset, wanted, bytes, coded),
    }
}

/// Puts, of the facts of the file of the dataset of that number, whose nodes are numbered from `coded.next` on, those
/// that are wanted; or the file has a fault, and this is the first, whatever is wanted. Where not all facts are wanted,
/// others of wanted relations may be put too. OutOfMemory comes too where a node has no number of 64 bits, or no code.
pub fn load_coded(
    alloc: Global,
    catalogue: &Catalogue,
    wanted: &Wanted,
    number: usize,
    bytes: &Bytes,
    coded: &mut CodedData,
) -> Result<(), FileError>
    requires number { number < length catalogue.now.datasets }
    requires over { IsOver catalogue.now.schema coded.old }
    ensures over { OnOk result (IsOver catalogue.now.schema coded.new) }
    ensures loaded { OnOk result ((files : List DatasetBytes)
        → IsCodedFrom catalogue.now.datasets wanted.now files coded.old
        → IsCodedFrom catalogue.now.datasets wanted.now
        (files ++ record { dataset = number; bytes = bytes.now } ∷ []) coded.new) }
    ensures fault { IfSome (slice_get catalogue.now.datasets number) (λ dataset.
        FindsFault (dataset_fault dataset bytes.now) result) }
{
    catalogues_are_sound();
    rows_in_order_stand_for_facts();
    let dataset = catalogue.datasets.item(number);
    put_file(alloc, dataset, wanted, bytes.bytes(), coded)
}
