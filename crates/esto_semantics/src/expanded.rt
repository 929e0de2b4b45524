//! Facts of an expansion.

use crate::fact::Atom;
use esto_term::{List, OutOfMemory, Replicate};
use std::alloc::Global;

/// A fact of an expansion, with the number of the plan's atom that it comes from, and its place in the body of
/// that atom's view.
#[derive(Drop)]
pub struct ExpandedFact {
    pub atom: usize,
    pub place: usize,
    pub fact: Atom,
}

/// The facts of an expansion.
pub type ExpandedFacts = List<ExpandedFact>;

impl Replicate for ExpandedFact {
    fn copy(&self, alloc: Global) -> Result<ExpandedFact, OutOfMemory> {
        Ok(ExpandedFact {
            atom: self.atom,
            place: self.place,
            fact: self.fact.copy(alloc)?,
        })
    }
}
