//! What gets read: their fragments, or rows of these that were asked for beforehand.
ghost use Rattle.std.specs.Prelude.{◌≡◌, ◌++◌, ◌∷◌, [], length, IfOk};
ghost use Rattle.esto_exec.specs.Instead.{given_shape, given_rows};

use esto_columns::{Fragment, Inputs, Rows, StoredRows, Ways};
use esto_steps::{Get, Gets, Whole};
use esto_term::{List, OutOfMemory, Replicate, Values};
use std::alloc::Global;

/// What a get reads: its fragment, or rows of it that were asked for beforehand.
#[derive(Drop)]
pub(crate) enum Given<'a, F> {
    Own(&'a F),
    Asked(StoredRows),
}

impl<'a, F: Whole> Fragment for Given<'a, F> {
    ghost shape = { given_shape F.shape };

    ghost rows = { given_rows F.rows };

    fn arity(&self) -> usize {
        match self {
            Given::Own(fragment) => fragment.arity(),
            Given::Asked(stored) => stored.arity(),
        }
    }

    fn allowed(&self) -> &Ways {
        match self {
            Given::Own(fragment) => fragment.allowed(),
            Given::Asked(stored) => stored.allowed(),
        }
    }

    fn get(&self, alloc: Global, inputs: &Inputs) -> Result<Rows, OutOfMemory> {
        match self {
            Given::Own(fragment) => fragment.get(alloc, inputs),
            Given::Asked(stored) => stored.get(alloc, inputs),
        }
    }
}

impl<'a, F: Whole> Whole for Given<'a, F> {
    fn whole(&self) -> &Rows {
        match self {
            Given::Own(fragment) => fragment.whole(),
            Given::Asked(stored) => stored.whole(),
        }
    }
}

/// The get over the fragment of the number, with the same links.
pub(crate) fn renamed(alloc: Global, get: &Get, number: usize) -> Result<Get, OutOfMemory>
    ensures { IfOk result (λ it. (it.fragment ≡ number) × (it.inputs ≡ get.now.inputs)
        × (it.filters ≡ get.now.filters)) }
{
    let inputs = get.inputs.copy(alloc)?;
    let filters = get.filters.copy(alloc)?;
    Ok(Get {
        fragment: number,
        inputs,
        filters,
    })
}

/// The get over the fragment of the number, whose inputs are filters.
pub(crate) fn freed(alloc: Global, get: &Get, number: usize) -> Result<Get, OutOfMemory>
    ensures { IfOk result (λ it. (it.fragment ≡ number) × (it.inputs ≡ [])
        × (it.filters ≡ get.now.inputs ++ get.now.filters)) }
{
    let mut filters = get.inputs.copy(alloc)?;
    filters.append(get.filters.copy(alloc)?)?;
    Ok(Get {
        fragment: number,
        inputs: List::new(alloc),
        filters,
    })
}

/// The rows, which may be asked without inputs alone.
pub(crate) fn without_inputs(alloc: Global, rows: Rows) -> Result<StoredRows, OutOfMemory>
    ensures { IfOk result (λ it. (it.rows ≡ rows) × (it.ways ≡ [] ∷ [])) }
{
    let mut ways = List::new(alloc);
    ways.push(Values::new(alloc))?;
    StoredRows::new(alloc, rows, ways)
}
