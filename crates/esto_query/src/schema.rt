//! Schemas.
ghost use Rattle.std.specs.Prelude.{◌≡◌, ◌≢◌, [], ◌∷◌, ◌++◌, ◌<◌, Contains, length, slice_get, Some, Err, MatchOption, OnOk, OnErr, IsTrue, ◌↔◌};
ghost use Rattle.esto_query.specs.Schemas.{names_of, arities_of, IsArity, IsSchema, AddsRelation};

use esto_term::{List, OutOfMemory, Text};
use std::alloc::Global;
use std::marker::Model;
use thiserror::Error;

/// The greatest number of columns of a relation.
pub const MAX_COLUMNS: usize = 32;

/// The greatest number of relations: room for 256 datasets of five relations.
pub const MAX_RELATIONS: usize = 1280;

/// A relation of a schema: its name, and how many columns it has.
#[derive(Drop)]
pub struct Relation {
    pub name: Text,
    pub arity: usize,
}

/// Why a relation is not added.
#[derive(Debug, Drop, Error)]
pub enum SchemaError {
    /// A relation of that name is there.
    #[error("a relation of that name is there")]
    SameName,
    /// The number of columns is 0 or above 32.
    #[error("the number of columns is 0 or above 32")]
    BadArity,
    /// There are 1,280 relations.
    #[error("there are 1280 relations")]
    TooMany,
    #[error("out of memory")]
    OutOfMemory,
}

impl From<OutOfMemory> for SchemaError {
    ghost use Rattle.std.specs.Prelude.{◌≡◌};
    ghost use Rattle.esto_query.specs.declared.schema.SchemaError.{SchemaError};

    ghost from_gives = { λ _ e. e ≡ SchemaError.OutOfMemory };

    fn from(_: OutOfMemory) -> SchemaError {
        SchemaError::OutOfMemory
    }
}

/// The relations that a program knows, numbered from 0 in the order in which they were added. Contracts see
/// their list. No two have one name, each has 1 to 32 columns, and there are at most 1,280.
#[derive(Drop)]
pub struct Schema {
    relations: List<Relation>,
}

impl Model for Schema {
    ghost use Rattle.std.specs.Prelude.{List};
    ghost use Rattle.esto_query.specs.declared.schema.Relation.{Relation};

    ghost Value = { List Relation };

    ghost use Rattle.esto_query.specs.Schemas.{IsSchema};

    ghost view = { λ it. it.relations };

    ghost invariant = { λ it. IsSchema it.relations };
}

/// Whether the relation has that name.
fn has_name(relation: &Relation, name: &[u8]) -> bool
    ensures { IsTrue result ↔ (relation.now.name ≡ name.now) }
{
    relation.name.bytes() == name
}

impl Schema {
    /// No relation.
    pub fn new(alloc: Global) -> Schema
        ensures { result ≡ [] }
    {
        Schema {
            relations: List::new(alloc),
        }
    }

    /// Why no relation of that name and number of columns can be added, whatever memory there is.
    /// None comes exactly where one can.
    fn refusal(&self, name: &[u8], arity: usize) -> Option<SchemaError>
        ensures { MatchOption result (¬ (Contains (names_of self.now) name.now)
            × IsArity arity × (length self.now < MAX_RELATIONS))
            (λ error. (error ≢ SchemaError.OutOfMemory)
            × AddsRelation self.now name.now arity (Err error)) }
    {
        if self.find(name).is_some() {
            return Some(SchemaError::SameName);
        }
        if arity == 0 || arity > MAX_COLUMNS {
            return Some(SchemaError::BadArity);
        }
        if self.relations.len() >= MAX_RELATIONS {
            return Some(SchemaError::TooMany);
        }
        None
    }

    /// Adds a relation, and answers its number. SameName comes exactly where a relation of that name is there;
    /// else BadArity exactly where the number of columns is 0 or above 32; else TooMany exactly where 1,280
    /// relations are there. After an error the schema is as it was.
    pub fn add(&mut self, name: Text, arity: usize) -> Result<usize, SchemaError>
        ensures outcome { AddsRelation self.old name arity result }
        ensures ok { OnOk result
            (self.new ≡ self.old ++ record { name = name; arity = arity } ∷ []) }
        ensures err { OnErr result (self.new ≡ self.old) }
    {
        if let Some(error) = self.refusal(name.bytes(), arity) {
            return Err(error);
        }
        let relation = self.relations.len();
        self.relations.push(Relation { name, arity })?;
        Ok(relation)
    }

    /// The relation of that name. None comes exactly where there is none.
    pub fn find(&self, name: &[u8]) -> Option<usize>
        ensures { MatchOption result (¬ (Contains (names_of self.now) name.now))
            (λ relation. slice_get (names_of self.now) relation ≡ Some name.now) }
    {
        for (number, relation) in self.relations.items().iter().enumerate() {
            if has_name(relation, name) {
                return Some(number);
            }
        }
        None
    }

    /// How many relations there are.
    pub fn len(&self) -> usize
        ensures value { result ≡ length self.now }
        ensures schema { IsSchema self.now }
    {
        self.relations.len()
    }

    /// How many columns the relation has.
    pub fn arity(&self, relation: usize) -> usize
        requires { relation < length self.now }
        ensures value { slice_get (arities_of self.now) relation ≡ Some result }
        ensures range { IsArity result }
    {
        self.relations.item(relation).arity
    }

    /// The relation's name.
    pub fn name(&self, relation: usize) -> &Text
        requires { relation < length self.now }
        ensures { slice_get (names_of self.now) relation ≡ Some result.now }
    {
        &self.relations.item(relation).name
    }
}
