//! Guesses of how many rows there are once a get is joined.
use crate::found::count_found;
use crate::keys::Keys;
use esto_columns::Rows;
use esto_steps::{Links, Sources, place_in, read_key, scaled, sources_of};
use esto_term::{OutOfMemory, Values};
use std::alloc::Global;

/// How many of the rows so far a guess looks at, at most.
const SAMPLE: usize = 1_024;

/// Takes the codes that the sources name in the row at the place, if there is one, as a key. They are read into the
/// list.
fn put_key(
    rows: &Rows,
    at: usize,
    sources: &Sources,
    key: &mut Values<u64>,
    keys: &mut Keys,
) -> Result<(), OutOfMemory> {
    if !read_key(rows, at, sources, key)? {
        return Ok(());
    }
    keys.take(key.items())
}

/// Takes the codes that the sources name in some of the rows, one of each stretch of them, as keys. They are read into
/// the list.
fn put_each_key(
    rows: &Rows,
    sources: &Sources,
    key: &mut Values<u64>,
    keys: &mut Keys,
) -> Result<(), OutOfMemory> {
    let step = rows.len() / SAMPLE + 1;
    'sample: for turn in 0..rows.len() / step {
        put_key(rows, place_in(turn, step), sources, key, keys)?;
    }
    Ok(())
}

/// Takes the codes that the links name in some of the rows, one of each stretch of them, as keys.
fn put_some_keys(
    alloc: Global,
    rows: &Rows,
    links: &Links,
    keys: &mut Keys,
) -> Result<(), OutOfMemory> {
    let sources = sources_of(alloc, links)?;
    let mut key = Values::new(alloc);
    put_each_key(rows, &sources, &mut key, keys)
}

/// How many rows there are about once the table's rows are joined by the links with the rows so far. The keys of some
/// of these are taken, after none.
fn count_joined(
    alloc: Global,
    links: &Links,
    table: &Rows,
    so_far: &Rows,
    keys: &mut Keys,
) -> Result<usize, OutOfMemory> {
    put_some_keys(alloc, so_far, links, keys)?;
    let found = count_found(alloc, links, table, keys)?;
    Ok(scaled(found, keys.sampled(), so_far.len()))
}

/// How many rows there are about once the table's rows are joined by the links: each of the rows so far is taken to
/// have as many followers as some of them have on average. It serves to choose an order of joins, and is no more than a
/// guess.
pub fn guessed_count(
    alloc: Global,
    links: &Links,
    table: &Rows,
    so_far: &Rows,
) -> Result<usize, OutOfMemory> {
    if links.is_empty() {
        return Ok(so_far.len().saturating_mul(table.len()));
    }
    let mut keys = Keys::new(alloc, links.len(), SAMPLE.min(so_far.len()))?;
    count_joined(alloc, links, table, so_far, &mut keys)
}
