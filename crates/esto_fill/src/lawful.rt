//! The rules that the facts of documents meet by law.
ghost use Rattle.std.specs.Prelude.{◌≡◌, IsTrue, Some, slice_get, IfOk, OnOk};
ghost use Rattle.esto_constraint.specs.Constraints.{rules_of};
ghost use Rattle.esto_docmodel.specs.declared.words.DataModel.TheVariants as models;
ghost use Rattle.esto_fill.specs.Lawful.{AreLaws, HaveNoneInCommon, IsAlone, KeepLaws};

use esto_constraint::{Rules, document_rules_2};
use esto_docmodel::DataModel;
use esto_mapping::{Dataset, relation_count};
use esto_term::{List, OutOfMemory};
use std::alloc::Global;

// Whether the two datasets have no relation in common.
fn are_apart(dataset: &Dataset, other: &Dataset) -> bool
    ensures { IsTrue result → HaveNoneInCommon dataset.now other.now }
{
    if dataset.base <= other.base {
        return other.base - dataset.base >= relation_count(dataset.model);
    }
    dataset.base - other.base >= relation_count(other.model)
}

// Whether it is the dataset of the number, or has no relation of that one.
fn is_it_or_apart(number: usize, dataset: &Dataset, other: usize, its: &Dataset) -> bool
    ensures { IsTrue result → (other ≡ number → ⊥) → HaveNoneInCommon dataset.now its.now }
{
    if other == number {
        return true;
    }
    are_apart(dataset, its)
}

// Whether no dataset but that of the number has a relation of it.
fn is_alone(datasets: &[Dataset], number: usize, dataset: &Dataset) -> bool
    ensures { IsTrue result → IsAlone datasets.now number dataset.now }
{
    'datasets: for (other, its) in datasets.iter().enumerate() {
        if !is_it_or_apart(number, dataset, other, its) {
            return false;
        }
    }
    true
}

// Puts the rules of the documents at the end, where no other dataset has a relation of theirs.
fn add_documents(
    alloc: Global,
    datasets: &[Dataset],
    number: usize,
    dataset: &Dataset,
    rules: &mut Rules,
) -> Result<(), OutOfMemory>
    requires there { slice_get datasets.now number ≡ Some dataset.now }
    requires model { dataset.now.model ≡ models.Documents }
    ensures { OnOk result (KeepLaws datasets.now (rules_of rules.old) (rules_of rules.new)) }
{
    if !is_alone(datasets, number, dataset) {
        return Ok(());
    }
    let laws = document_rules_2(alloc, dataset.base)?;
    rules.append(laws)
}

// Puts the rules that the facts of the dataset meet by law at the end.
fn add_laws(
    alloc: Global,
    datasets: &[Dataset],
    number: usize,
    dataset: &Dataset,
    rules: &mut Rules,
) -> Result<(), OutOfMemory>
    requires { slice_get datasets.now number ≡ Some dataset.now }
    ensures { OnOk result (KeepLaws datasets.now (rules_of rules.old) (rules_of rules.new)) }
{
    match dataset.model {
        DataModel::Table => Ok(()),
        DataModel::Documents => add_documents(alloc, datasets, number, dataset, rules),
        DataModel::Keys => Ok(()),
    }
}

/// Rules that the facts of the datasets' files meet by law, where no dataset has two files: those of the documents whose
/// relations no other dataset has.
pub fn laws_of(alloc: Global, datasets: &[Dataset]) -> Result<Rules, OutOfMemory>
    ensures { IfOk result (λ it. AreLaws datasets.now (rules_of it)) }
{
    let mut rules = List::new(alloc);
    'datasets: for (number, dataset) in datasets.iter().enumerate() {
        add_laws(alloc, datasets, number, dataset, &mut rules)?;
    }
    Ok(rules)
}
