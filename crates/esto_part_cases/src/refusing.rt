//! Steps that are run over fragments of which one finds memory wanting.
ghost use Rattle.std.specs.Prelude.{◌≡◌, [], ◌∷◌, map, IfOk};
ghost use Rattle.esto_part_cases.specs.Refusing.{IsOpen, AreOpen, AskEach};

use crate::reading::place;
use esto_columns::{Fragment, Inputs, Rows, StoredRows, Ways};
use esto_exec::run_plan;
use esto_script::{Refused, put, put_digits};
use esto_steps::{Get, Gets, Link, Links, Source, Steps, Whole};
use esto_term::{List, OutOfMemory, Places};
use std::alloc::Global;

/// Stored rows, of which a get finds memory wanting where that is asked for.
#[derive(Drop)]
struct Flagged {
    stored: StoredRows,
    is_refused: bool,
}

impl Fragment for Flagged {
    ghost shape = { λ it. record { arity = it.stored.rows.arity; ways = it.stored.ways } };

    ghost rows = { λ it. it.stored.rows.rows };

    fn arity(&self) -> usize {
        self.stored.arity()
    }

    fn allowed(&self) -> &Ways {
        self.stored.allowed()
    }

    fn get(&self, alloc: Global, inputs: &Inputs) -> Result<Rows, OutOfMemory> {
        if self.is_refused {
            return Err(OutOfMemory);
        }
        self.stored.get(alloc, inputs)
    }
}

impl Whole for Flagged {
    fn whole(&self) -> &Rows {
        &self.stored.rows
    }
}

// Two rows of one column.
fn two_rows(alloc: Global) -> Result<Rows, OutOfMemory>
    ensures { IfOk result (λ it. it.arity ≡ 1) }
{
    let mut rows = Rows::new(alloc, 1)?;
    rows.add(&[0])?;
    rows.add(&[1])?;
    Ok(rows)
}

// The one way to ask, by the first column.
fn by_first(alloc: Global) -> Result<Ways, OutOfMemory>
    ensures { IfOk result (λ it. it ≡ (0 ∷ []) ∷ []) }
{
    let mut ways = List::new(alloc);
    ways.push(Places::from_slice(alloc, &[0])?)?;
    Ok(ways)
}

// Two rows of one column, which may be asked by it.
fn stored(alloc: Global) -> Result<StoredRows, OutOfMemory>
    ensures { IfOk result IsOpen }
{
    let rows = two_rows(alloc)?;
    let ways = by_first(alloc)?;
    StoredRows::new(alloc, rows, ways)
}

// So many fragments, of which that of the number, counted from 1, is to find memory wanting.
fn fragments(alloc: Global, count: usize, refused: usize) -> Result<List<Flagged>, OutOfMemory>
    ensures { IfOk result (AreOpen count) }
{
    let mut fragments = List::new(alloc);
    'fragments: for number in 0..count {
        let stored = stored(alloc)?;
        let is_refused = number + 1 == refused;
        fragments.push(Flagged { stored, is_refused })?;
    }
    Ok(fragments)
}

// The code 0 as what the first column is asked by.
fn first_is_zero(alloc: Global) -> Result<Links, OutOfMemory>
    ensures { IfOk result (λ it. map (λ link. link.column) it ≡ 0 ∷ []) }
{
    let mut inputs = List::new(alloc);
    inputs.push(Link {
        column: 0,
        source: Source::Code(0),
    })?;
    Ok(inputs)
}

// Gets of the rows of so many fragments that have the code 0, one after the other.
fn gets(alloc: Global, count: usize) -> Result<Gets, OutOfMemory>
    ensures { IfOk result (AskEach count) }
{
    let mut gets = List::new(alloc);
    'fragments: for fragment in 0..count {
        let inputs = first_is_zero(alloc)?;
        gets.push(Get {
            fragment,
            inputs,
            filters: List::new(alloc),
        })?;
    }
    Ok(gets)
}

// The rows that the gets of so many fragments give together, where a fragment finds memory wanting.
fn joined(alloc: Global, count: usize, refused: usize) -> Result<Rows, OutOfMemory> {
    let gets = gets(alloc, count)?;
    let head = List::new(alloc);
    let fragments = fragments(alloc, count, refused)?;
    run_plan(alloc, &Steps { gets, head }, fragments.items())
}

// How many rows there are, or that memory is wanting.
fn put_joined(rt: &HostRuntime, alloc: Global, count: usize, refused: usize) {
    put_digits(rt, refused as u64);
    match joined(alloc, count, refused) {
        Ok(rows) => {
            put(rt, ": ");
            put_digits(rt, rows.len() as u64);
            put(rt, " rows\n");
        }
        Err(OutOfMemory) => put(rt, ": memory is wanting\n"),
    }
}

/// Runs steps over so many fragments, with no get refused, and then with that of each fragment in turn.
pub fn put_refused_gets(rt: &HostRuntime, alloc: Global, word: &str) -> Result<(), Refused> {
    let count = place(word)?;
    'numbers: for refused in 0..=count {
        put_joined(rt, alloc, count, refused);
    }
    Ok(())
}
