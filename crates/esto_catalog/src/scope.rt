//! The relations and the words of datasets.
ghost use Rattle.std.specs.Prelude.{◌≡◌, ◌++◌, ◌∷◌, [], IfOk, OnOk};
ghost use Rattle.esto_query.specs.Schemas.{IsSchema};
ghost use Rattle.esto_catalog.specs.Datasets.{AreDatasets};
ghost use Rattle.esto_mapping.specs.Datasets.{model_relations, part, part_name, relations_of, schema_of, words_of};
ghost use Rattle.esto_docmodel.specs.declared.words.DataModel.{DataModel};
ghost use Rattle.esto_catalog.specs.Scope.{IsScope};

use esto_docmodel::{DataModel, Vocabulary, Word};
use esto_mapping::{Dataset, Datasets};
use esto_query::{Schema, SchemaError};
use esto_term::{List, OutOfMemory, Replicate, Text};
use std::alloc::Global;

/// Datasets, with their relations and the words that name them: what texts are read over.
#[derive(Drop)]
pub struct Scope {
    pub datasets: Datasets,
    pub schema: Schema,
    pub words: Vocabulary,
}

// The name of a part of a dataset: the dataset's, a dot and the part's own.
fn part_name(alloc: Global, name: &Text, own: &str) -> Result<Text, OutOfMemory>
    ensures { IfOk result (λ it. it ≡ part_name name.now own.now) }
{
    let mut text = String::from_str(alloc, name.as_str())?;
    text.push_str(".")?;
    text.push_str(own)?;
    Text::from_str(alloc, text.as_str())
}

// Adds a relation.
fn add(schema: &mut Schema, name: Text, arity: usize) -> Result<(), OutOfMemory>
    requires { IsSchema (schema.old ++ record { name = name; arity = arity } ∷ []) }
    ensures { OnOk result (schema.new ≡ schema.old ++ record { name = name; arity = arity } ∷ []) }
{
    match schema.add(name, arity) {
        Ok(_) => Ok(()),
        Err(SchemaError::OutOfMemory) => Err(OutOfMemory),
        Err(SchemaError::SameName) => unreachable!(),
        Err(SchemaError::BadArity) => unreachable!(),
        Err(SchemaError::TooMany) => unreachable!(),
    }
}

// Adds the relation of a table of so many columns.
fn add_table(
    alloc: Global,
    schema: &mut Schema,
    name: &Text,
    columns: usize,
) -> Result<(), OutOfMemory>
    requires { IsSchema (schema.old ++ model_relations name.now columns DataModel.Table) }
    ensures { OnOk result
        (schema.new ≡ schema.old ++ model_relations name.now columns DataModel.Table) }
{
    let name = name.copy(alloc)?;
    add(schema, name, columns)
}

// Adds the relation of a part of a dataset.
fn add_part(
    alloc: Global,
    schema: &mut Schema,
    name: &Text,
    own: &str,
    arity: usize,
) -> Result<(), OutOfMemory>
    requires { IsSchema (schema.old ++ part name.now own.now arity ∷ []) }
    ensures { OnOk result (schema.new ≡ schema.old ++ part name.now own.now arity ∷ []) }
{
    let name = part_name(alloc, name, own)?;
    add(schema, name, arity)
}

// Adds the relations of a collection of documents.
fn add_documents(alloc: Global, schema: &mut Schema, name: &Text) -> Result<(), OutOfMemory>
    requires { IsSchema (schema.old ++ model_relations name.now 0 DataModel.Documents) }
    ensures { OnOk result
        (schema.new ≡ schema.old ++ model_relations name.now 0 DataModel.Documents) }
{
    add_part(alloc, schema, name, "root", 1)?;
    add_part(alloc, schema, name, "field", 3)?;
    add_part(alloc, schema, name, "item", 2)?;
    add_part(alloc, schema, name, "value", 2)?;
    add_part(alloc, schema, name, "below", 2)
}

// Adds the relations of a dataset, in order.
fn add_relations(alloc: Global, schema: &mut Schema, dataset: &Dataset) -> Result<(), OutOfMemory>
    requires { IsSchema (schema.old ++ relations_of dataset.now) }
    ensures { OnOk result (schema.new ≡ schema.old ++ relations_of dataset.now) }
{
    match dataset.model {
        DataModel::Table => add_table(alloc, schema, &dataset.name, dataset.columns.len()),
        DataModel::Documents => add_documents(alloc, schema, &dataset.name),
        DataModel::Keys => add_part(alloc, schema, &dataset.name, "pair", 3),
    }
}

// The relations of the datasets.
fn schema_of(alloc: Global, datasets: &[Dataset]) -> Result<Schema, OutOfMemory>
    requires { AreDatasets datasets.now }
    ensures { IfOk result (λ schema. schema ≡ schema_of datasets.now) }
{
    let mut schema = Schema::new(alloc);
    'datasets: for dataset in datasets {
        add_relations(alloc, &mut schema, dataset)?;
    }
    Ok(schema)
}

// The words that name the datasets.
fn words_of(alloc: Global, datasets: &[Dataset]) -> Result<Vocabulary, OutOfMemory>
    ensures { IfOk result (λ words. words ≡ words_of datasets.now) }
{
    let mut words = List::new(alloc);
    'datasets: for dataset in datasets {
        let name = dataset.name.copy(alloc)?;
        words.push(Word {
            name,
            model: dataset.model,
            base: dataset.base,
        })?;
    }
    Ok(words)
}

/// The datasets with their relations and words.
pub fn scope_of(alloc: Global, datasets: Datasets) -> Result<Scope, OutOfMemory>
    requires { AreDatasets datasets }
    ensures same { IfOk result (λ scope. scope.datasets ≡ datasets) }
    ensures scope { IfOk result IsScope }
{
    let all = datasets.items();
    let schema = schema_of(alloc, all)?;
    let words = words_of(alloc, all)?;
    Ok(Scope {
        datasets,
        schema,
        words,
    })
}
