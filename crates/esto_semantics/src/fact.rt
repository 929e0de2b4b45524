//! Facts over terms and over values.

use esto_term::{List, OutOfMemory, Replicate, Term, Text};
use std::alloc::Global;

/// A relation, by its number, over a row of things of one kind: over terms it is an atom of a query or a fact
/// of a chased instance, over values a fact of a database.
#[derive(Drop)]
pub struct Fact<V> {
    pub relation: usize,
    pub terms: List<V>,
}

/// A fact over terms.
pub type Atom = Fact<Term>;

/// The atoms of a body, in order.
pub type Atoms = List<Atom>;

/// A list of facts over terms, read as a set.
pub type Facts = List<Atom>;

/// A value of a database.
#[derive(Drop)]
pub enum Value {
    /// A text.
    Text(Text),
    /// An unnamed value.
    Node(u64),
}

/// A finite list of facts over values, read as a set.
pub type Database = List<Fact<Value>>;

impl<V: Replicate + Drop> Replicate for Fact<V> {
    fn copy(&self, alloc: Global) -> Result<Fact<V>, OutOfMemory> {
        Ok(Fact {
            relation: self.relation,
            terms: self.terms.copy(alloc)?,
        })
    }
}

impl Replicate for Value {
    fn copy(&self, alloc: Global) -> Result<Value, OutOfMemory> {
        match self {
            Value::Text(text) => Ok(Value::Text(text.copy(alloc)?)),
            Value::Node(number) => Ok(Value::Node(*number)),
        }
    }
}
