//! The files of the datasets that one query of a union names.
ghost use Rattle.std.specs.Prelude.{◌≡◌, ◌↔◌, ◌≤◌, IsTrue, map, IfOk, OnOk};
ghost use Rattle.esto_ports.specs.Faults.{Rises};
ghost use Rattle.esto_query.specs.Making.{query_of};
ghost use Rattle.esto_data.specs.Datasets.{AddsNeeded, AreNeeded, HoldsLeft, Loads, LoadsAsking, OneNames, loads, named_by};

use crate::coded_data::CodedData;
use crate::datasets::{demand_files, load_files, names};
use esto_fill::wanted_by_queries;
use esto_mapping::{Catalogue, Dataset, Datasets};
use esto_ports::Shelf;
use esto_query::{Queries, Query};
use esto_status::Status;
use esto_term::{OutOfMemory, Places, Values};
use std::alloc::Global;

// Whether one of the queries names the dataset.
fn one_names(queries: &[Query], dataset: &Dataset) -> bool
    ensures { IsTrue result ↔ OneNames (map query_of queries.now) dataset.now }
{
    'queries: for query in queries {
        if names(query.body.items(), dataset) {
            return true;
        }
    }
    false
}

// Puts the number of the dataset at the end, if one of the queries names the dataset.
fn add_named(
    numbers: &mut Places,
    number: usize,
    dataset: &Dataset,
    queries: &Queries,
) -> Result<(), OutOfMemory>
    ensures { OnOk result (AddsNeeded (OneNames (map query_of queries.now) dataset.now) number
        numbers.old numbers.new) }
{
    if !one_names(queries.items(), dataset) {
        return Ok(());
    }
    numbers.push(number)
}

// The numbers of the datasets that one of the queries names, in order.
fn named_datasets(
    alloc: Global,
    datasets: &Datasets,
    queries: &Queries,
) -> Result<Places, OutOfMemory>
    ensures { IfOk result (AreNeeded datasets.now (OneNames (map query_of queries.now))) }
{
    let mut numbers = Values::new(alloc);
    'datasets: for (number, dataset) in datasets.items().iter().enumerate() {
        add_named(&mut numbers, number, dataset, queries)?;
    }
    Ok(numbers)
}

/// Loads, of the facts of the files of the datasets that one of the queries names, in order, those to which an atom of
/// one of them can go. Each of the datasets has to have a file; then each is fetched, and its content read, before the
/// next is fetched.
pub fn load_union<S: Shelf>(
    alloc: Global,
    shelf: &mut S,
    catalogue: &Catalogue,
    queries: &Queries,
) -> Result<CodedData, Status>
    ensures answer { Loads (HoldsLeft catalogue.now.datasets (named_by queries.now))
        (loads (S.files shelf.old) catalogue.now.datasets (OneNames (map query_of queries.now)))
        (Rises S.faults shelf.old shelf.new) result }
    ensures asked { LoadsAsking (S.asked shelf.old) (S.asked shelf.new)
        (HoldsLeft catalogue.now.datasets (named_by queries.now))
        (loads (S.files shelf.old) catalogue.now.datasets (OneNames (map query_of queries.now)))
        result }
    ensures files { S.files shelf.new ≡ S.files shelf.old }
    ensures later { S.faults shelf.old ≤ S.faults shelf.new }
{
    let wanted = wanted_by_queries(alloc, queries.items())?;
    let numbers = named_datasets(alloc, &catalogue.datasets, queries)?;
    demand_files(alloc, &catalogue.datasets, &numbers)?;
    load_files(alloc, shelf, catalogue, &wanted, &numbers)
}
