//! Keys of rows, and which of them come with several codes: they are found by an index, without a look at pairs of rows.
ghost use Rattle.std.specs.Prelude.{◌≡◌, ◌+◌, ◌∷◌, [], ◌++◌, ℕ, List, length, slice_get, Some, Contains, IsTrue, IfOk, OnOk};
ghost use Rattle.esto_columns.specs.Indexed.{IsIndexOf};
ghost use Rattle.esto_columns.specs.RowIndexes.{StandsLast};
ghost use Rattle.esto_rows.specs.Wanted.{Know, IsApart};

use crate::code_set::CodeSet;
use esto_columns::{Index, Rows};
use esto_term::{OutOfMemory, Values};
use std::alloc::Global;

/// Keys, each once: the codes of rows after the first. With each the first code that came with it, and the places of
/// those with which another came.
#[derive(Drop)]
pub struct Keys {
    pub keys: Rows,
    pub index: Index,
    pub codes: Values<u64>,
    pub apart: CodeSet,
}

/// Whether the code stands at the place.
fn is_code_at(codes: &Values<u64>, place: usize, code: u64) -> bool
    ensures { IsTrue result → slice_get codes.now place ≡ Some code }
{
    match codes.items().get(place) {
        Some(own) => *own == code,
        None => false,
    }
}

impl Keys {
    /// No keys of so many codes each. They are found fast as long as there are not many more rows than the count.
    pub fn new(alloc: Global, arity: usize, count: usize) -> Result<Keys, OutOfMemory>
        ensures arity { IfOk result (λ it. it.keys.arity ≡ arity) }
        ensures none { IfOk result (λ it. Know it []) }
    {
        let keys = Rows::new(alloc, arity)?;
        let index = Index::new(alloc, count)?;
        Ok(Keys {
            keys,
            index,
            codes: Values::new(alloc),
            apart: CodeSet::new(alloc),
        })
    }

    /// Notes that the code came with the key at the place.
    fn note_again(&mut self, place: usize, code: u64, key: &[u64]) -> Result<(), OutOfMemory>
        requires { StandsLast self.old.keys.rows key.now place }
        ensures arity { self.new.keys.arity ≡ self.old.keys.arity }
        ensures know { OnOk result ((rows : List (List ℕ)) → Know self.old rows
            → Know self.new (rows ++ (code ∷ key.now) ∷ [])) }
    {
        if is_code_at(&self.codes, place, code) {
            return Ok(());
        }
        self.apart.add(place as u64)
    }

    /// Puts the key, which is new, with the code.
    fn put(&mut self, code: u64, key: &[u64]) -> Result<(), OutOfMemory>
        requires long { length key.now ≡ self.old.keys.arity }
        requires new { ¬ (Contains self.old.keys.rows key.now) }
        ensures arity { self.new.keys.arity ≡ self.old.keys.arity }
        ensures know { OnOk result ((rows : List (List ℕ)) → Know self.old rows
            → Know self.new (rows ++ (code ∷ key.now) ∷ [])) }
    {
        self.keys.add(key)?;
        self.index.add(key)?;
        self.codes.push(code)
    }

    /// Notes that the code came with the key.
    fn note_key(&mut self, code: u64, key: &[u64]) -> Result<(), OutOfMemory>
        requires long { length key.now ≡ self.old.keys.arity }
        requires index { IsIndexOf self.old.index self.old.keys.rows }
        ensures arity { self.new.keys.arity ≡ self.old.keys.arity }
        ensures know { OnOk result ((rows : List (List ℕ)) → Know self.old rows
            → Know self.new (rows ++ (code ∷ key.now) ∷ [])) }
    {
        match self.keys.find(&self.index, key) {
            Some(place) => self.note_again(place, code, key),
            None => self.put(code, key),
        }
    }

    /// Notes the row.
    pub fn note(&mut self, row: &[u64]) -> Result<(), OutOfMemory>
        requires long { length row.now ≡ self.old.keys.arity + 1 }
        requires index { IsIndexOf self.old.index self.old.keys.rows }
        ensures arity { self.new.keys.arity ≡ self.old.keys.arity }
        ensures know { OnOk result ((rows : List (List ℕ)) → Know self.old rows
            → Know self.new (rows ++ row.now ∷ [])) }
    {
        match row.split_first() {
            Some((code, key)) => self.note_key(*code, key),
            None => Ok(()),
        }
    }

    /// Whether several codes came with the key of the row.
    pub fn is_apart(&self, row: &[u64]) -> bool
        ensures { IsApart self.now row.now → IsTrue result }
    {
        let Some((_, key)) = row.split_first() else {
            return false;
        };
        match self.keys.find(&self.index, key) {
            Some(place) => self.apart.has(place as u64),
            None => false,
        }
    }
}
