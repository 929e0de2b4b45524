//! Keys of a sample of rows.
use esto_columns::{Index, Rows};
use esto_term::{OutOfMemory, Values};
use std::alloc::Global;

/// The different keys of a sample of rows, with an index of them, and how many rows of the sample have each.
#[derive(Drop)]
pub(crate) struct Keys {
    rows: Rows,
    index: Index,
    counts: Values<usize>,
    sampled: usize,
}

impl Keys {
    /// No keys, of so many codes each, with memory for so many.
    pub(crate) fn new(alloc: Global, arity: usize, room: usize) -> Result<Keys, OutOfMemory> {
        let rows = Rows::with_room(alloc, arity, room)?;
        let index = Index::new(alloc, room)?;
        Ok(Keys {
            rows,
            index,
            counts: Values::new(alloc),
            sampled: 0,
        })
    }

    /// The number of the key, if a row of the sample has it.
    fn number_of(&self, key: &[u64]) -> Option<usize> {
        self.rows.find(&self.index, key)
    }

    /// Counts one more row with the key of the number.
    fn count_again(&mut self, number: usize) {
        if number < self.counts.len() {
            let count = self.counts.item(number).saturating_add(1);
            self.counts.set(number, count);
        }
    }

    /// Counts the first row with the key, unless the key has another number of codes.
    fn count_first(&mut self, key: &[u64]) -> Result<(), OutOfMemory> {
        if key.len() != self.rows.arity() {
            return Ok(());
        }
        self.rows.add(key)?;
        self.index.add(key)?;
        self.counts.push(1)
    }

    /// Takes a row with the key into the sample.
    pub(crate) fn take(&mut self, key: &[u64]) -> Result<(), OutOfMemory> {
        self.sampled = self.sampled.saturating_add(1);
        match self.number_of(key) {
            Some(number) => {
                self.count_again(number);
                Ok(())
            }
            None => self.count_first(key),
        }
    }

    /// How many rows of the sample have the key of the number.
    pub(crate) fn count_at(&self, number: usize) -> usize {
        match self.counts.items().get(number) {
            Some(count) => *count,
            None => 0,
        }
    }

    /// How many rows of the sample have the key.
    pub(crate) fn count_of(&self, key: &[u64]) -> usize {
        match self.number_of(key) {
            Some(number) => self.count_at(number),
            None => 0,
        }
    }

    /// How many rows the sample has.
    pub(crate) fn sampled(&self) -> usize {
        self.sampled
    }

    /// The different keys, lent.
    pub(crate) fn rows(&self) -> &Rows {
        &self.rows
    }
}
