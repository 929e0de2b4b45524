//! The catalogue of the made case.
ghost use Rattle.std.specs.Prelude.{◌≡◌, ◌<◌, ◌≤◌, ◌++◌, ◌∷◌, [], length, Contains, IfOk, OnOk};
ghost use Rattle.esto_constraint.specs.Graphs.{AreRanks};
ghost use Rattle.esto_constraint.specs.Relations.{IsEdge};
ghost use Rattle.esto_mapping.specs.Datasets.{words_of};
ghost use Rattle.esto_query.specs.Schemas.{names_of};
ghost use Rattle.esto_bench.specs.Case.{IsMadeCatalogue, made_dataset, made_datasets, made_schema, made_stores};
ghost use Rattle.esto_bench.specs.Made.{AreMadeFragments};

use crate::case::MAX_SIZE;
use crate::fragments::{made_columns, made_fragments, made_stores, numbered};
use either::{Left, Right};
use esto_acyclic::judge;
use esto_constraint::Ranks;
use esto_docmodel::{DataModel, Layout, Vocabulary, Word};
use esto_mapping::{Catalogue, Dataset, Datasets, Stores};
use esto_query::{MAX_RELATIONS, Schema, SchemaError};
use esto_term::{List, OutOfMemory, Replicate, Text};
use esto_views::FragmentDefs;
use std::alloc::Global;

// Adds a relation of two columns, whose name is new.
fn add_relation(schema: &mut Schema, name: Text) -> Result<(), OutOfMemory>
    requires new { ¬ (Contains (names_of schema.old) name) }
    requires room { length schema.old < MAX_RELATIONS }
    ensures { OnOk result (schema.new ≡ schema.old ++ record { name = name; arity = 2 } ∷ []) }
{
    match schema.add(name, 2) {
        Ok(_) => Ok(()),
        Err(SchemaError::OutOfMemory) => Err(OutOfMemory),
        Err(_) => unreachable!(),
    }
}

// The relations.
fn made_schema(alloc: Global, size: usize) -> Result<Schema, OutOfMemory>
    requires { size ≤ MAX_SIZE }
    ensures { IfOk result (λ it. it ≡ made_schema size) }
{
    let mut schema = Schema::new(alloc);
    'relations: for relation in 0..size {
        let name = numbered(alloc, "R", relation)?;
        add_relation(&mut schema, name)?;
    }
    Ok(schema)
}

// The dataset of the relation.
fn dataset_of(alloc: Global, relation: usize) -> Result<Dataset, OutOfMemory>
    ensures { IfOk result (λ it. it ≡ made_dataset relation) }
{
    let name = numbered(alloc, "R", relation)?;
    let columns = made_columns(alloc)?;
    Ok(Dataset {
        name,
        model: DataModel::Table,
        base: relation,
        columns,
        layout: Layout::Lines,
        file: None,
    })
}

// The datasets.
#[tactic(auto, using(crate::proofs::BothLemmas::mapped_more))]
fn made_datasets(alloc: Global, size: usize) -> Result<Datasets, OutOfMemory>
    ensures { IfOk result (λ it. it ≡ made_datasets size) }
{
    let mut datasets = List::new(alloc);
    'relations: for relation in 0..size {
        let dataset = dataset_of(alloc, relation)?;
        datasets.push(dataset)?;
    }
    Ok(datasets)
}

// Puts the word that names the dataset at the end.
fn push_word(alloc: Global, words: &mut Vocabulary, dataset: &Dataset) -> Result<(), OutOfMemory>
    ensures { OnOk result (words.new ≡ words.old ++ record {
      name = dataset.now.name;
      model = dataset.now.model;
      base = dataset.now.base;
    } ∷ []) }
{
    let name = dataset.name.copy(alloc)?;
    words.push(Word {
        name,
        model: dataset.model,
        base: dataset.base,
    })
}

// The words that name the datasets.
fn words_of(alloc: Global, datasets: &[Dataset]) -> Result<Vocabulary, OutOfMemory>
    ensures { IfOk result (λ it. it ≡ words_of datasets.now) }
{
    let mut words = List::new(alloc);
    'datasets: for dataset in datasets {
        push_word(alloc, &mut words, dataset)?;
    }
    Ok(words)
}

// The ranks of the schema's relations under no rules, which make no cycle.
fn ranks_of(alloc: Global, schema: &Schema) -> Result<Ranks, OutOfMemory>
    ensures { IfOk result (AreRanks (IsEdge []) (length schema.now)) }
{
    let rules = List::new(alloc);
    match judge(alloc, schema, &rules)? {
        Left(ranks) => Ok(ranks),
        Right(_) => unreachable!(),
    }
}

// The relations, with their ranks under no rules.
fn ranked_schema(alloc: Global, size: usize) -> Result<(Schema, Ranks), OutOfMemory>
    requires { size ≤ MAX_SIZE }
    ensures schema { IfOk result (λ it. it.0 ≡ made_schema size) }
    ensures ranks { IfOk result (λ it. AreRanks (IsEdge []) (length it.0) it.1) }
{
    let schema = made_schema(alloc, size)?;
    let ranks = ranks_of(alloc, &schema)?;
    Ok((schema, ranks))
}

// The datasets, with the words that name them.
fn named_datasets(alloc: Global, size: usize) -> Result<(Datasets, Vocabulary), OutOfMemory>
    ensures datasets { IfOk result (λ it. it.0 ≡ made_datasets size) }
    ensures words { IfOk result (λ it. it.1 ≡ words_of (made_datasets size)) }
{
    let datasets = made_datasets(alloc, size)?;
    let words = words_of(alloc, datasets.items())?;
    Ok((datasets, words))
}

// The fragments, with their stores.
fn stored_fragments(alloc: Global, size: usize) -> Result<(FragmentDefs, Stores), OutOfMemory>
    ensures fragments { IfOk result (λ it. AreMadeFragments size it.0) }
    ensures stores { IfOk result (λ it. it.1 ≡ made_stores size) }
{
    let fragments = made_fragments(alloc, size)?;
    let stores = made_stores(alloc, size)?;
    Ok((fragments, stores))
}

/// The catalogue of the made case of this size, at most `MAX_SIZE`.
pub fn made_catalogue(alloc: Global, size: usize) -> Result<Catalogue, OutOfMemory>
    requires { size ≤ MAX_SIZE }
    ensures { IfOk result (IsMadeCatalogue size) }
{
    let (schema, ranks) = ranked_schema(alloc, size)?;
    // the count is read so that the relations are known to be those of a schema
    let _count = schema.len();
    let (datasets, words) = named_datasets(alloc, size)?;
    let (fragments, stores) = stored_fragments(alloc, size)?;
    let rules = List::new(alloc);
    Ok(Catalogue {
        schema,
        words,
        datasets,
        fragments,
        stores,
        rules,
        given: 0,
        ranks,
        core: false,
    })
}
