//! Datasets.
ghost use Rattle.std.specs.Prelude.{◌≡◌, IfOk};
ghost use Rattle.esto_mapping.specs.Datasets.{relation_count};

use esto_docmodel::{DataModel, Layout};
use esto_term::{List, OutOfMemory, Replicate, Text, TextRow};
use std::alloc::Global;

/// A dataset: its name, what it is, the number of its first relation, the names of its columns,
/// which a table alone has, how its documents stand in their file, which is in lines where nothing
/// else is written, and its file where it has one.
#[derive(Drop)]
pub struct Dataset {
    pub name: Text,
    pub model: DataModel,
    pub base: usize,
    pub columns: TextRow,
    pub layout: Layout,
    pub file: Option<Text>,
}

/// The datasets of a catalogue, in order.
pub type Datasets = List<Dataset>;

// A copy of the name of a file, where there is one.
fn copy_file(alloc: Global, file: &Option<Text>) -> Result<Option<Text>, OutOfMemory>
    ensures { IfOk result (λ it. it ≡ file.now) }
{
    match file {
        Some(name) => {
            let name = name.copy(alloc)?;
            Ok(Some(name))
        }
        None => Ok(None),
    }
}

impl Replicate for Dataset {
    fn copy(&self, alloc: Global) -> Result<Dataset, OutOfMemory> {
        let name = self.name.copy(alloc)?;
        let columns = self.columns.copy(alloc)?;
        let file = copy_file(alloc, &self.file)?;
        Ok(Dataset {
            name,
            model: self.model,
            base: self.base,
            columns,
            layout: self.layout,
            file,
        })
    }
}

/// The number of relations of a dataset of this model.
pub fn relation_count(model: DataModel) -> usize
    ensures { result ≡ relation_count model }
{
    match model {
        DataModel::Table => 1,
        DataModel::Documents => 5,
        DataModel::Keys => 1,
    }
}
