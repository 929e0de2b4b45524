//! Fragments whose rows are stored.
ghost use Rattle.std.specs.Prelude.{◌≡◌, ◌==◌, ◌<◌, ◌++◌, ◌∷◌, [], ℕ, length, map, slice_index_or, Contains, IfOk, OnOk, MatchOption};
ghost use Rattle.std.specs.List.{filter};
ghost use Rattle.esto_columns.specs.declared.fragment.Input.{Input};
ghost use Rattle.esto_columns.specs.Asked.{holds_all};
ghost use Rattle.esto_columns.specs.Indexed.{AreAmongPlaces, key_at};
ghost use Rattle.esto_columns.specs.Picked.{rows_at};

use crate::fragment::{Fragment, Input, Inputs, Ways};
use crate::picks::{Picks, select};
use crate::rows::Rows;
use esto_term::{OutOfMemory, Places, Values};
use std::alloc::Global;

/// Rows that are stored, with the ways in which they may be asked.
#[derive(Drop)]
pub struct StoredRows {
    pub rows: Rows,
    pub ways: Ways,
}

/// Whether the row holds at the column of the input its code.
fn holds(row: &[u64], input: &Input) -> bool
    requires { input.now.column < length row.now }
    ensures { result ≡ (slice_index_or row.now input.now.column 0 == input.now.code) }
{
    input.column < row.len() && row[input.column] == input.code
}

/// Whether the row holds at the column of each input its code.
fn holds_all(row: &[u64], inputs: &[Input]) -> bool
    requires { (input : Input) → Contains inputs.now input → input.column < length row.now }
    ensures { result ≡ holds_all inputs.now row.now }
{
    'inputs: for input in inputs {
        if !holds(row, input) {
            return false;
        }
    }
    true
}

/// Puts the row at the place at the end of the others, if it holds the inputs. It is read into the list.
fn push_held(
    rows: &Rows,
    at: usize,
    inputs: &[Input],
    row: &mut Values<u64>,
    into: &mut Rows,
) -> Result<(), OutOfMemory>
    requires there { at < length rows.now.rows }
    requires columns { (input : Input) → Contains inputs.now input → input.column < rows.now.arity }
    requires arity { into.old.arity ≡ rows.now.arity }
    ensures { OnOk result (into.new ≡ record {
      arity = into.old.arity;
      rows = into.old.rows
          ++ filter (holds_all inputs.now) (slice_index_or rows.now.rows at [] ∷ []);
    }) }
{
    let _arity = rows.arity();
    rows.read_row(at, row)?;
    if !holds_all(row.items(), inputs) {
        return Ok(());
    }
    into.add(row.items())
}

/// Puts the rows at the places that hold the inputs at the end of no rows. They are read into the list.
fn with_held(
    rows: &Rows,
    places: &[usize],
    inputs: &[Input],
    row: &mut Values<u64>,
    none: Rows,
) -> Result<Rows, OutOfMemory>
    requires columns { (input : Input) → Contains inputs.now input → input.column < rows.now.arity }
    requires places { (place : ℕ) → Contains places.now place → place < length rows.now.rows }
    requires none { none ≡ record { arity = rows.now.arity; rows = [] } }
    ensures { IfOk result (λ it. it ≡ record {
      arity = rows.now.arity;
      rows = filter (holds_all inputs.now) (rows_at rows.now.rows places.now);
    }) }
{
    let mut held = none;
    'places: for place in places {
        push_held(rows, *place, inputs, row, &mut held)?;
    }
    Ok(held)
}

/// The rows at the places that hold the inputs.
fn held_among(
    alloc: Global,
    rows: &Rows,
    places: &[usize],
    inputs: &[Input],
) -> Result<Rows, OutOfMemory>
    requires columns { (input : Input) → Contains inputs.now input → input.column < rows.now.arity }
    requires places { (place : ℕ) → Contains places.now place → place < length rows.now.rows }
    ensures { IfOk result (λ it. it ≡ record {
      arity = rows.now.arity;
      rows = filter (holds_all inputs.now) (rows_at rows.now.rows places.now);
    }) }
{
    let held = Rows::new(alloc, rows.arity())?;
    let mut row = Values::new(alloc);
    with_held(rows, places, inputs, &mut row, held)
}

/// The rows that hold the inputs, by a look at those that hold the first.
fn picked(alloc: Global, rows: &Rows, first: &Input, inputs: &[Input]) -> Result<Rows, OutOfMemory>
    requires columns { (input : Input) → Contains inputs.now input → input.column < rows.now.arity }
    requires first { Contains inputs.now first.now }
    ensures { IfOk result (λ it. it ≡ record {
      arity = rows.now.arity;
      rows = filter (holds_all inputs.now) rows.now.rows;
    }) }
{
    let mut picks = Picks::new(alloc);
    picks.reserve(rows.len())?;
    select(rows.column(first.column), first.code, &mut picks);
    held_among(alloc, rows, picks.items(), inputs)
}

/// The columns of the inputs.
fn columns_of(alloc: Global, inputs: &[Input]) -> Result<Places, OutOfMemory>
    ensures { IfOk result (λ it. it ≡ map (λ input. input.column) inputs.now) }
{
    let mut columns = Places::new(alloc);
    'inputs: for input in inputs {
        columns.push(input.column)?;
    }
    Ok(columns)
}

/// The codes of the inputs.
fn codes_of(alloc: Global, inputs: &[Input]) -> Result<Values<u64>, OutOfMemory>
    ensures { IfOk result (λ it. it ≡ map (λ input. input.code) inputs.now) }
{
    let mut codes = Values::new(alloc);
    'inputs: for input in inputs {
        codes.push(input.code)?;
    }
    Ok(codes)
}

/// The places that an index of the rows by the columns of the inputs gives for their codes, if there is one.
fn places_by(
    alloc: Global,
    rows: &Rows,
    inputs: &[Input],
) -> Result<Option<Vec<usize>>, OutOfMemory>
    ensures { IfOk result (λ found. MatchOption found Unit (λ places.
        AreAmongPlaces (map (λ input. input.code) inputs.now)
        (map (key_at (map (λ input. input.column) inputs.now)) rows.now.rows) places.items)) }
{
    let columns = columns_of(alloc, inputs)?;
    let codes = codes_of(alloc, inputs)?;
    rows.places(alloc, columns.items(), codes.items())
}

/// The rows that hold the inputs: all where there are none, by an index where there is one by their columns, else by a
/// look at the column of the first.
fn found(alloc: Global, rows: &Rows, inputs: &[Input]) -> Result<Rows, OutOfMemory>
    requires { (input : Input) → Contains inputs.now input → input.column < rows.now.arity }
    ensures { IfOk result (λ it. it ≡ record {
      arity = rows.now.arity;
      rows = filter (holds_all inputs.now) rows.now.rows;
    }) }
{
    if inputs.is_empty() {
        return rows.copy(alloc);
    }
    if let Some(places) = places_by(alloc, rows, inputs)? {
        return held_among(alloc, rows, places.as_slice(), inputs);
    }
    picked(alloc, rows, &inputs[0], inputs)
}

/// Makes an index of the rows by the columns of each way that has some.
fn index_ways(alloc: Global, rows: &mut Rows, ways: &Ways) -> Result<(), OutOfMemory>
    ensures { rows.new ≡ rows.old }
{
    'ways: for way in ways.items() {
        if !way.is_empty() {
            rows.index(alloc, way.items())?;
        }
    }
    Ok(())
}

impl StoredRows {
    /// The rows with these ways, and an index of the rows for each way that has inputs: `get` then finds rows by the
    /// codes of these inputs, in the way's order, without a look at the others.
    pub fn new(alloc: Global, rows: Rows, ways: Ways) -> Result<StoredRows, OutOfMemory>
        ensures { IfOk result (λ it. (it.rows ≡ rows) × (it.ways ≡ ways)) }
    {
        let mut rows = rows;
        index_ways(alloc, &mut rows, &ways)?;
        Ok(StoredRows { rows, ways })
    }
}

impl Fragment for StoredRows {
    ghost shape = { λ it. record { arity = it.rows.arity; ways = it.ways } };

    ghost rows = { λ it. it.rows.rows };

    fn arity(&self) -> usize {
        self.rows.arity()
    }

    fn allowed(&self) -> &Ways {
        &self.ways
    }

    fn get(&self, alloc: Global, inputs: &Inputs) -> Result<Rows, OutOfMemory> {
        found(alloc, &self.rows, inputs.items())
    }
}
