//! How documents stand in a file, and how the rows of fragments are stored.
use crate::pattern::Pattern;
use esto_term::{List, OutOfMemory, Replicate, Text, TextRow};
use std::alloc::Global;

/// How documents stand in a file.
#[derive(Clone, Copy, PartialEq, Eq)]
pub enum Layout {
    /// The file is one JSON array, and its items are the documents.
    Array,
    /// Each line that is not blank is a document.
    Lines,
}

/// How the rows of a fragment are stored.
#[derive(Drop)]
pub enum Shape {
    /// As a CSV file with these columns.
    Table(TextRow),
    /// As a JSON file of documents that stand in it so, each with the cells of rows where the
    /// pattern has the columns' variables.
    Documents(Layout, Pattern),
    /// As a file of lines whose cells are parted by tabs.
    Keys,
}

/// Where a fragment is stored.
#[derive(Drop)]
pub struct Store {
    pub shape: Shape,
    pub file: Text,
}

/// The stores of a catalogue's fragments, in order.
pub type Stores = List<Store>;

impl Replicate for Shape {
    fn copy(&self, alloc: Global) -> Result<Shape, OutOfMemory> {
        match self {
            Shape::Table(columns) => {
                let columns = columns.copy(alloc)?;
                Ok(Shape::Table(columns))
            }
            Shape::Documents(layout, pattern) => {
                let pattern = pattern.copy(alloc)?;
                Ok(Shape::Documents(*layout, pattern))
            }
            Shape::Keys => Ok(Shape::Keys),
        }
    }
}

impl Replicate for Store {
    fn copy(&self, alloc: Global) -> Result<Store, OutOfMemory> {
        let shape = self.shape.copy(alloc)?;
        let file = self.file.copy(alloc)?;
        Ok(Store { shape, file })
    }
}
