//! What a fragment gives to an executor.
ghost use Rattle.std.specs.Prelude.{◌≡◌, ℕ, List, map, IfOk};
ghost use Rattle.std.specs.List.{filter};
ghost use Rattle.esto_columns.specs.Asked.{Shape, IsAllowed, holds_all};
ghost use Rattle.esto_columns.specs.Columns.{HaveLength};

use crate::rows::Rows;
use esto_term::{List, OutOfMemory, Places, Replicate};
use std::alloc::Global;

/// A column of a fragment, and the code that it has to hold.
#[derive(Clone, Copy)]
pub struct Input {
    pub column: usize,
    pub code: u64,
}

/// A list of inputs.
pub type Inputs = List<Input>;

impl Replicate for Input {
    fn copy(&self, _alloc: Global) -> Result<Input, OutOfMemory> {
        Ok(*self)
    }
}

/// The ways in which a fragment can be asked: for each, the columns that have to be given.
pub type Ways = List<Places>;

/// A fragment, which means a list of rows of its arity. It can be asked in certain ways alone.
pub trait Fragment {
    ghost shape: { Self → Shape };

    ghost rows: { Self → List (List ℕ) };

    /// How many columns each row has.
    fn arity(&self) -> usize
        ensures value { result ≡ (shape self.now).arity }
        ensures fits { HaveLength (shape self.now).arity (rows self.now) };

    /// The ways in which the fragment can be asked.
    fn allowed(&self) -> &Ways
        ensures { result.now ≡ (shape self.now).ways };

    /// The rows whose named columns hold the named codes, in order, and no others.
    fn get(&self, alloc: Global, inputs: &Inputs) -> Result<Rows, OutOfMemory>
        requires { IsAllowed (shape self.now) (map (λ input. input.column) inputs.now) }
        ensures { IfOk result (λ it. it ≡ record {
          arity = (shape self.now).arity;
          rows = filter (holds_all inputs.now) (rows self.now);
        }) };
}
