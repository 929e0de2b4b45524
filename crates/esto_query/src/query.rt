//! Queries.
ghost use Rattle.esto_query.specs.Soundness.{IsSound};

use esto_semantics::Atoms;
use esto_term::{List, OutOfMemory, Replicate, Terms, Text};
use std::alloc::Global;

/// How a variable is written.
#[derive(Drop)]
pub enum Name {
    /// By this name.
    Given(Text),
    /// Not at all: it is a wildcard, or the node of a pattern.
    Hidden,
}

/// The names of variables, one for each number.
pub type Names = List<Name>;

impl Replicate for Name {
    fn copy(&self, alloc: Global) -> Result<Name, OutOfMemory> {
        match self {
            Name::Given(text) => Ok(Name::Given(text.copy(alloc)?)),
            Name::Hidden => Ok(Name::Hidden),
        }
    }
}

/// A query: a head of terms over a body of atoms, where the variable of a number is the plain term of that
/// number, and its name stands at that place of the names. Head and body are not empty, the terms are constants
/// or plain, each variable of the head is in the body, and each variable's number is below the length of the
/// names.
#[derive(Drop)]
pub struct Query {
    pub head: Terms,
    pub body: Atoms,
    pub names: Names,
    pub ghost sound: { ∥ IsSound head body names ∥₁ },
}

impl Replicate for Query {
    fn copy(&self, alloc: Global) -> Result<Query, OutOfMemory> {
        Ok(Query {
            head: self.head.copy(alloc)?,
            body: self.body.copy(alloc)?,
            names: self.names.copy(alloc)?,
        })
    }
}

/// A law: each query keeps what its description says.
pub fn queries_are_sound()
    ensures { (query : Query) → IsSound query.head query.body query.names }
{}

/// Queries, in order.
pub type Queries = List<Query>;
