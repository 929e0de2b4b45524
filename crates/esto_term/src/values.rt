//! Lists of numbers and truth values, whose items are answered as values.
ghost use Rattle.std.specs.Prelude.{◌≡◌, [], ◌∷◌, ◌++◌, ◌<◌, ◌↔◌, length, IsTrue, take, slice_get, slice_set, IfOk, OnOk, OnErr};

use crate::list::{OutOfMemory, Replicate};
use std::alloc::Global;
use std::marker::Model;

/// A list of numbers or truth values, which contracts see as the list of its values.
#[derive(Drop)]
pub struct Values<T> {
    values: Vec<T>,
}

/// A list of places, each counted from 0.
pub type Places = Values<usize>;

impl<T> Model for Values<T> {
    ghost use Rattle.std.specs.Prelude.{List};
    ghost use Rattle.std.specs.Coded.{coded_list};

    ghost Value = { List T };

    ghost coded = { coded_list T.code };

    ghost view = { λ it. it.values.items };
}

impl<T: Copy> Values<T> {
    /// The empty list, which takes no memory.
    pub fn new(alloc: Global) -> Values<T>
        ensures { result ≡ [] }
    {
        Values {
            values: Vec::new(alloc),
        }
    }

    /// The empty list, with memory for so many values.
    pub fn with_room(alloc: Global, room: usize) -> Result<Values<T>, OutOfMemory>
        ensures { IfOk result (λ it. it ≡ []) }
    {
        match Vec::with_capacity(alloc, room) {
            Ok(values) => Ok(Values { values }),
            Err(_) => Err(OutOfMemory),
        }
    }

    /// How many values the list has.
    pub fn len(&self) -> usize
        ensures { result ≡ length self.now }
    {
        self.values.len()
    }

    /// Whether the list has no value.
    pub fn is_empty(&self) -> bool
        ensures { IsTrue result ↔ (length self.now ≡ 0) }
    {
        self.values.is_empty()
    }

    /// The value at a place, counted from 0.
    pub fn item(&self, at: usize) -> T
        requires { at < length self.now }
        ensures { slice_get self.now at ≡ Some result }
    {
        self.values[at]
    }

    /// All values, in order.
    pub fn items(&self) -> &[T]
        ensures { result.now ≡ self.now }
    {
        self.values.as_slice()
    }

    /// Puts a value at the end.
    pub fn push(&mut self, value: T) -> Result<(), OutOfMemory>
        ensures ok { OnOk result (self.new ≡ self.old ++ value ∷ []) }
        ensures err { OnErr result (self.new ≡ self.old) }
    {
        match self.values.push(value) {
            Ok(()) => Ok(()),
            Err(_) => Err(OutOfMemory),
        }
    }

    /// Puts a value in place of the one at a place.
    pub fn set(&mut self, at: usize, value: T)
        requires { at < length self.old }
        ensures { self.new ≡ slice_set self.old at value }
    {
        self.values[at] = value;
    }

    /// Keeps the first `count` values, or all where there are fewer.
    pub fn truncate(&mut self, count: usize)
        ensures { self.new ≡ take count self.old }
    {
        self.values.truncate(count);
    }

    /// The list of these values.
    pub fn from_slice(alloc: Global, values: &[T]) -> Result<Values<T>, OutOfMemory>
        ensures { IfOk result (λ it. it ≡ values.now) }
    {
        match Vec::from_slice(alloc, values) {
            Ok(values) => Ok(Values { values }),
            Err(_) => Err(OutOfMemory),
        }
    }
}

impl<T: Copy> Replicate for Values<T> {
    fn copy(&self, alloc: Global) -> Result<Values<T>, OutOfMemory> {
        Values::from_slice(alloc, self.values.as_slice())
    }
}
