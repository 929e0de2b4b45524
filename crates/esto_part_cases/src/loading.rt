//! What is loaded of datasets' files, and whether rows of views over it hold a node.
ghost use Rattle.std.specs.Prelude.{◌<◌, All, IsTrue};

use crate::printing::put_facts;
use esto_fill::{
    AnswerError, DatasetBytes, LoadError, LoadList, Loaded, audit_views, dataset_facts,
};
use esto_mapping::Catalogue;
use esto_script::{Refused, put, put_counted, put_digits};
use std::alloc::Global;

// Whether each file is of one of so many datasets.
fn are_within(files: &[DatasetBytes], datasets: usize) -> bool
    ensures { IsTrue result → All (λ file. file.dataset < datasets) files.now }
{
    'files: for file in files {
        if file.dataset >= datasets {
            return false;
        }
    }
    true
}

// The facts, a line each, and the first column of a view's rows that has a node, or that none has.
fn put_loaded(
    rt: &HostRuntime,
    alloc: Global,
    catalogue: &Catalogue,
    loaded: &Loaded,
) -> Result<(), Refused> {
    put_facts(rt, loaded.facts.items());
    match audit_views(alloc, catalogue, loaded) {
        Ok(()) => put(rt, "no node\n"),
        Err(AnswerError::NodeInRow(column)) => put_counted(rt, "node in column ", column),
        Err(AnswerError::OutOfMemory) => return Err(Refused),
    }
    Ok(())
}

// The dataset whose file has a fault, and the fault's place.
fn put_fault(rt: &HostRuntime, dataset: usize, place: u64) {
    put(rt, "dataset ");
    put_digits(rt, dataset as u64);
    put_counted(rt, ": fault at ", place);
}

/// The facts of the files, and whether rows of the catalogue's views over them hold a node, or the first fault.
pub fn load_files(
    rt: &HostRuntime,
    alloc: Global,
    catalogue: &Catalogue,
    files: &LoadList,
) -> Result<(), Refused> {
    if !are_within(files.items(), catalogue.datasets.len()) {
        return Err(Refused);
    }
    match dataset_facts(alloc, catalogue, files) {
        Ok(loaded) => put_loaded(rt, alloc, catalogue, &loaded),
        Err(LoadError::Fault(dataset, fault)) => {
            put_fault(rt, dataset, fault.place);
            Ok(())
        }
        Err(LoadError::OutOfMemory) => Err(Refused),
    }
}
