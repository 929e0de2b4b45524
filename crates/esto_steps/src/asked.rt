//! The rows of a fragment that rows so far ask for.
ghost use Rattle.std.specs.Prelude.{◌≡◌, ◌++◌, ◌⊎◌, ◌<◌, [], List, ℕ, length, map, slice_index_or, Contains, IfOk, OnOk};
ghost use Rattle.std.specs.List.{filter};
ghost use Rattle.esto_columns.specs.Asked.{IsAllowed, holds_all};
ghost use Rattle.esto_steps.specs.Meaning.{Follows};
ghost use Rattle.esto_steps.specs.Inputs.{inputs_with, AreAnswered};

use crate::codes::name_codes;
use crate::links::sources_of;
use crate::seen::Seen;
use crate::steps::{Get, Links, Sources};
use esto_columns::{Fragment, Input, Inputs, Rows};
use esto_term::{List, OutOfMemory, Values};
use std::alloc::Global;

/// The inputs at the columns of the links with these codes.
fn inputs_of(alloc: Global, links: &Links, codes: &[u64]) -> Result<Inputs, OutOfMemory>
    requires { length codes.now ≡ length links.now }
    ensures { IfOk result (λ it. it ≡ inputs_with links.now codes.now) }
{
    let mut inputs = List::new(alloc);
    'links: for (at, link) in links.items().iter().enumerate() {
        inputs.push(Input {
            column: link.column,
            code: codes[at],
        })?;
    }
    Ok(inputs)
}

/// Puts the rows of the fragment that have the key's codes as inputs at the end.
fn push_asked<F: Fragment>(
    alloc: Global,
    get: &Get,
    fragment: &F,
    key: &[u64],
    asked: &mut Rows,
) -> Result<(), OutOfMemory>
    requires allowed { IsAllowed (F.shape fragment.now) (map (λ link. link.column) get.now.inputs) }
    requires key { length key.now ≡ length get.now.inputs }
    requires arity { asked.old.arity ≡ (F.shape fragment.now).arity }
    ensures { OnOk result (asked.new ≡ record {
      arity = asked.old.arity;
      rows = asked.old.rows
          ++ filter (holds_all (inputs_with get.now.inputs key.now)) (F.rows fragment.now);
    }) }
{
    let inputs = inputs_of(alloc, &get.inputs, key)?;
    let rows = fragment.get(alloc, &inputs)?;
    asked.add_all(alloc, &rows)
}

/// Asks the fragment for the rows that have the inputs of the row so far at the place, if they are not asked for yet.
/// The inputs are read into the list.
fn ask<F: Fragment>(
    alloc: Global,
    get: &Get,
    fragment: &F,
    so_far: &Rows,
    at: usize,
    sources: &Sources,
    key: &mut Values<u64>,
    seen: &mut Seen,
    asked: &mut Rows,
) -> Result<(), OutOfMemory>
    requires there { at < length so_far.now.rows }
    requires allowed { IsAllowed (F.shape fragment.now) (map (λ link. link.column) get.now.inputs) }
    requires sources { sources.now ≡ map (λ link. link.source) get.now.inputs }
    requires arity { asked.old.arity ≡ (F.shape fragment.now).arity }
    requires width { seen.old.arity ≡ length get.now.inputs }
    ensures width { OnOk result (seen.new.arity ≡ seen.old.arity) }
    ensures arity { OnOk result (asked.new.arity ≡ asked.old.arity) }
    ensures kept { OnOk result ((row : List ℕ)
        → Contains asked.old.rows row → Contains asked.new.rows row) }
    ensures sound { OnOk result ((row : List ℕ) → Contains asked.new.rows row
        → Contains asked.old.rows row ⊎ Contains (F.rows fragment.now) row) }
    ensures answered { OnOk result
        (AreAnswered get.now.inputs (F.rows fragment.now) seen.old.rows asked.old.rows
        → AreAnswered get.now.inputs (F.rows fragment.now) seen.new.rows asked.new.rows) }
    ensures complete { OnOk result
        (AreAnswered get.now.inputs (F.rows fragment.now) seen.old.rows asked.old.rows
        → (row : List ℕ) → Contains (F.rows fragment.now) row
        → Follows get.now (slice_index_or so_far.now.rows at []) row
        → Contains asked.new.rows row) }
{
    if !name_codes(so_far, at, sources, key)? {
        return Ok(());
    }
    if seen.has(key.items()) {
        return Ok(());
    }
    seen.put(alloc, key.items())?;
    push_asked(alloc, get, fragment, key.items(), asked)
}

/// Asks the fragment for the rows that have the inputs of some row so far. Each list of inputs is asked once. They are
/// read into the list.
fn ask_each<F: Fragment>(
    alloc: Global,
    get: &Get,
    fragment: &F,
    so_far: &Rows,
    sources: &Sources,
    key: &mut Values<u64>,
    seen: &mut Seen,
    asked: &mut Rows,
) -> Result<(), OutOfMemory>
    requires allowed { IsAllowed (F.shape fragment.now) (map (λ link. link.column) get.now.inputs) }
    requires sources { sources.now ≡ map (λ link. link.source) get.now.inputs }
    requires none { asked.old ≡ record { arity = (F.shape fragment.now).arity; rows = [] } }
    requires unseen { seen.old ≡ record { arity = length get.now.inputs; rows = [] } }
    ensures sound { OnOk result ((row : List ℕ)
        → Contains asked.new.rows row → Contains (F.rows fragment.now) row) }
    ensures complete { OnOk result ((cells row : List ℕ)
        → Contains so_far.now.rows cells → Contains (F.rows fragment.now) row
        → Follows get.now cells row → Contains asked.new.rows row) }
{
    'rows: for at in 0..so_far.len() {
        ask(alloc, get, fragment, so_far, at, sources, key, seen, asked)?;
    }
    Ok(())
}

/// Asks the fragment for the rows that have the inputs of some row so far, where nothing was asked before.
fn ask_all<F: Fragment>(
    alloc: Global,
    get: &Get,
    fragment: &F,
    so_far: &Rows,
    asked: &mut Rows,
) -> Result<(), OutOfMemory>
    requires allowed { IsAllowed (F.shape fragment.now) (map (λ link. link.column) get.now.inputs) }
    requires none { asked.old ≡ record { arity = (F.shape fragment.now).arity; rows = [] } }
    ensures sound { OnOk result ((row : List ℕ)
        → Contains asked.new.rows row → Contains (F.rows fragment.now) row) }
    ensures complete { OnOk result ((cells row : List ℕ)
        → Contains so_far.now.rows cells → Contains (F.rows fragment.now) row
        → Follows get.now cells row → Contains asked.new.rows row) }
{
    let sources = sources_of(alloc, &get.inputs)?;
    let mut seen = Seen::new(alloc, get.inputs.len(), so_far.len())?;
    let mut key = Values::new(alloc);
    ask_each(
        alloc, get, fragment, so_far, &sources, &mut key, &mut seen, asked,
    )
}

/// The rows of the fragment that have the inputs of some row so far. Each list of inputs is asked once.
pub fn asked_rows<F: Fragment>(
    alloc: Global,
    get: &Get,
    fragment: &F,
    so_far: &Rows,
) -> Result<Rows, OutOfMemory>
    requires { IsAllowed (F.shape fragment.now) (map (λ link. link.column) get.now.inputs) }
    ensures sound { IfOk result (λ it. (row : List ℕ)
        → Contains it.rows row → Contains (F.rows fragment.now) row) }
    ensures complete { IfOk result (λ it. (cells row : List ℕ)
        → Contains so_far.now.rows cells → Contains (F.rows fragment.now) row
        → Follows get.now cells row → Contains it.rows row) }
{
    let mut asked = Rows::new(alloc, fragment.arity())?;
    ask_all(alloc, get, fragment, so_far, &mut asked)?;
    Ok(asked)
}
