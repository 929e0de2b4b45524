//! What datasets are, and the names that a text may use of them.

use esto_term::{List, OutOfMemory, Replicate, Text};
use std::alloc::Global;

/// What a dataset is.
#[derive(Clone, Copy, PartialEq, Eq)]
pub enum DataModel {
    /// A table: one relation.
    Table,
    /// A collection of documents: five relations, in the order root, field, item, value, below.
    Documents,
    /// A key-value set: one relation of key, field and value.
    Keys,
}

/// A dataset's name, what it is, and the number of its first relation.
#[derive(Drop)]
pub struct Word {
    pub name: Text,
    pub model: DataModel,
    pub base: usize,
}

/// The names that a text may use. Where a `Schema` has each relation by its own name, with its number
/// of columns, a vocabulary has each dataset by its name, with its model and its first relation.
pub type Vocabulary = List<Word>;

impl Replicate for Word {
    fn copy(&self, alloc: Global) -> Result<Word, OutOfMemory> {
        let name = self.name.copy(alloc)?;
        Ok(Word {
            name,
            model: self.model,
            base: self.base,
        })
    }
}
