//! How many rows gets give, about. Nothing rests on it but speed, so nothing here says what it gives.
ghost use Rattle.std.specs.Prelude.{map};
ghost use Rattle.esto_exec.specs.Runnable.{AreRunnable};

use crate::turns::{Prepared, SoFar, links_at, nothing_done};
use esto_columns::Rows;
use esto_guess::guessed_count;
use esto_order::{Cell, Edge, FanOut};
use esto_steps::{Link, Source, Whole};
use esto_term::{List, OutOfMemory, Values};
use std::alloc::Global;

/// The rows that the get of the number reads, if it is there and has no inputs.
fn rows_read<'a, F: Whole>(steps: &Prepared, fragments: &'a [F], number: usize) -> Option<&'a Rows>
    requires { AreRunnable (map F.shape fragments.now) steps.now.gets.now }
{
    if number >= steps.gets.len() {
        return None;
    }
    let get = steps.gets.item(number);
    if !get.inputs.is_empty() {
        return None;
    }
    Some(fragments[get.fragment].whole())
}

/// How many rows a get with inputs is taken to give for so many that lead to it: a quarter more, from four on, since no look
/// tells that it gives one each. So of the gets that can come next, one of which a look tells it comes first.
fn asked_of(count: usize) -> usize {
    count.saturating_add(count / 4)
}

/// How many rows there are about once the get of the number is joined. What one with inputs gives is not looked at.
pub(crate) fn rows_after<F: Whole>(
    alloc: Global,
    steps: &Prepared,
    fragments: &[F],
    number: usize,
    so_far: &SoFar,
) -> Result<usize, OutOfMemory>
    requires { AreRunnable (map F.shape fragments.now) steps.now.gets.now }
{
    let Some(table) = rows_read(steps, fragments, number) else {
        return Ok(asked_of(so_far.rows.len()));
    };
    let links = links_at(alloc, number, &so_far.done, &so_far.places, steps.equations)?;
    guessed_count(alloc, &links, table, &so_far.rows)
}

/// How many followers the rows have in all among those of the table, which follow a row if they hold its code of the
/// one column in the other.
fn count_followers(
    alloc: Global,
    rows: &Rows,
    one: usize,
    table: &Rows,
    other: usize,
) -> Result<usize, OutOfMemory> {
    let mut links = List::new(alloc);
    links.push(Link {
        column: other,
        source: Source::Cell(one),
    })?;
    guessed_count(alloc, &links, table, rows)
}

/// That part of the followers which is left where of the rows of the table only so many count.
fn part_of(followers: usize, size: usize, table: &Rows) -> usize {
    followers.saturating_mul(size) / table.len().max(1)
}

/// How many rows the get of the number gives by itself, by the sizes of all.
fn size_at(sizes: &Values<usize>, number: usize) -> usize {
    match sizes.items().get(number) {
        Some(size) => *size,
        None => usize::MAX,
    }
}

/// Followers that were counted: those of rows with the one column among the rows with the other.
#[derive(Clone, Copy)]
struct Counted {
    one: StoredColumn,
    other: StoredColumn,
    followers: usize,
}

/// A column of the rows of a fragment, which has a number.
#[derive(Clone, Copy)]
struct StoredColumn {
    fragment: usize,
    column: usize,
}

/// The column that the cell is of.
fn stored(steps: &Prepared, cell: &Cell) -> StoredColumn {
    let fragment = match steps.gets.items().get(cell.get) {
        Some(get) => get.fragment,
        None => usize::MAX,
    };
    StoredColumn {
        fragment,
        column: cell.column,
    }
}

/// Whether the columns are one.
fn are_one(one: &StoredColumn, other: &StoredColumn) -> bool {
    one.fragment == other.fragment && one.column == other.column
}

/// The followers of rows with the one column among those with the other, if they were counted.
fn found(counted: &List<Counted>, one: &StoredColumn, other: &StoredColumn) -> Option<usize> {
    'counted: for it in counted.items() {
        if are_one(&it.one, one) && are_one(&it.other, other) {
            return Some(it.followers);
        }
    }
    None
}

/// How many followers the rows have in all among those of the table by the columns, which is counted once.
fn followers_of(
    alloc: Global,
    rows: &Rows,
    one: StoredColumn,
    table: &Rows,
    other: StoredColumn,
    counted: &mut List<Counted>,
) -> Result<usize, OutOfMemory> {
    if let Some(followers) = found(counted, &one, &other) {
        return Ok(followers);
    }
    let followers = count_followers(alloc, rows, one.column, table, other.column)?;
    counted.push(Counted {
        one,
        other,
        followers,
    })?;
    Ok(followers)
}

/// How many followers rows with the one cell have among those with the other, by the code that both hold, where each
/// get gives so many rows by itself. A get with inputs is taken to give one row for each row of the get that leads to
/// it, and, where it leads on itself, the codes that the rows of the other one hold.
fn fan_out<F: Whole>(
    alloc: Global,
    steps: &Prepared,
    fragments: &[F],
    sizes: &Values<usize>,
    one: &Cell,
    other: &Cell,
    counted: &mut List<Counted>,
) -> Result<FanOut, OutOfMemory>
    requires { AreRunnable (map F.shape fragments.now) steps.now.gets.now }
{
    let (from, to) = (one.get, other.get);
    let Some(table) = rows_read(steps, fragments, to) else {
        return Ok(FanOut {
            from,
            to,
            rows: 1,
            followers: 1,
        });
    };
    let (rows, cell) = match rows_read(steps, fragments, from) {
        Some(rows) => (rows, one),
        None => (table, other),
    };
    let (one, other) = (stored(steps, cell), stored(steps, other));
    let followers = followers_of(alloc, rows, one, table, other, counted)?;
    Ok(FanOut {
        from,
        to,
        rows: rows.len(),
        followers: part_of(followers, size_at(sizes, to), table),
    })
}

/// Puts how many followers rows have by the edge at the end, each way.
fn push_fan_outs<F: Whole>(
    alloc: Global,
    steps: &Prepared,
    fragments: &[F],
    sizes: &Values<usize>,
    edge: &Edge,
    counted: &mut List<Counted>,
    fan_outs: &mut List<FanOut>,
) -> Result<(), OutOfMemory>
    requires { AreRunnable (map F.shape fragments.now) steps.now.gets.now }
{
    let (one, other) = (&edge.one, &edge.other);
    let there = fan_out(alloc, steps, fragments, sizes, one, other, counted)?;
    let back = fan_out(alloc, steps, fragments, sizes, other, one, counted)?;
    fan_outs.push(there)?;
    fan_outs.push(back)
}

/// How many followers rows have by each of the edges, where each get gives so many rows by itself.
pub(crate) fn fan_outs_of<F: Whole>(
    alloc: Global,
    steps: &Prepared,
    fragments: &[F],
    sizes: &Values<usize>,
    edges: &List<Edge>,
) -> Result<List<FanOut>, OutOfMemory>
    requires { AreRunnable (map F.shape fragments.now) steps.now.gets.now }
{
    let mut counted = List::new(alloc);
    let mut fan_outs = List::new(alloc);
    'edges: for edge in edges.items() {
        push_fan_outs(
            alloc,
            steps,
            fragments,
            sizes,
            edge,
            &mut counted,
            &mut fan_outs,
        )?;
    }
    Ok(fan_outs)
}

/// How many rows each get gives by itself, where nothing is done.
fn sizes_after<F: Whole>(
    alloc: Global,
    steps: &Prepared,
    fragments: &[F],
    nothing: &SoFar,
) -> Result<Values<usize>, OutOfMemory>
    requires { AreRunnable (map F.shape fragments.now) steps.now.gets.now }
{
    let mut sizes = Values::new(alloc);
    'gets: for number in 0..steps.gets.len() {
        sizes.push(rows_after(alloc, steps, fragments, number, nothing)?)?;
    }
    Ok(sizes)
}

/// How many rows each get gives by itself.
pub(crate) fn sizes_of<F: Whole>(
    alloc: Global,
    steps: &Prepared,
    fragments: &[F],
) -> Result<Values<usize>, OutOfMemory>
    requires { AreRunnable (map F.shape fragments.now) steps.now.gets.now }
{
    let nothing = nothing_done(alloc)?;
    sizes_after(alloc, steps, fragments, &nothing)
}
