//! Fields.
use esto_term::{OutOfMemory, Replicate, Text};
use std::alloc::Global;

/// A field: its name, and what stands there.
#[derive(Drop)]
pub struct FieldOf<T> {
    pub name: Text,
    pub tree: T,
}

impl<T: Replicate + Drop> Replicate for FieldOf<T> {
    fn copy(&self, alloc: Global) -> Result<FieldOf<T>, OutOfMemory> {
        let name = self.name.copy(alloc)?;
        let tree = self.tree.copy(alloc)?;
        Ok(FieldOf { name, tree })
    }
}
