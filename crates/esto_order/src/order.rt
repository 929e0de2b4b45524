//! In which order the fewest rows are made.
use crate::graph::{JoinGraph, is_in};
use crate::reach::candidates;
use esto_term::{List, OutOfMemory, Places, Values};
use std::alloc::Global;

/// By an edge, so many rows of the get `from` have so many followers in all among the rows of the get `to`, about.
#[derive(Clone, Copy)]
pub struct FanOut {
    pub from: usize,
    pub to: usize,
    pub rows: usize,
    pub followers: usize,
}

/// How many rows each get gives by itself, about, and how many follow rows of others.
#[derive(Drop)]
pub struct Guesses {
    pub sizes: Values<usize>,
    pub fan_outs: List<FanOut>,
}

/// A way from a get to others: the gets on it, how many rows there are at its end, and how many were made in all.
#[derive(Drop)]
struct Way {
    done: Places,
    rows: usize,
    made: usize,
}

/// How many rows the get of the number gives by itself.
fn size_of(guesses: &Guesses, number: usize) -> usize {
    match guesses.sizes.items().get(number) {
        Some(size) => *size,
        None => usize::MAX,
    }
}

/// How many rows there are about once the get of the number comes after the way: by the edge by which there are the
/// fewest, or, without an edge, each row of the one beside each of the other.
fn rows_after(guesses: &Guesses, way: &Way, number: usize) -> usize {
    let mut least = way.rows.saturating_mul(size_of(guesses, number));
    'fan_outs: for fan_out in guesses.fan_outs.items() {
        if fan_out.to == number && is_in(&way.done, fan_out.from) {
            let rows = way.rows.saturating_mul(fan_out.followers) / fan_out.rows.max(1);
            least = least.min(rows);
        }
    }
    least
}

/// The one of the gets after which there are the fewest rows.
fn fewest_after(guesses: &Guesses, way: &Way, candidates: &Places) -> Option<usize> {
    let mut best: Option<usize> = None;
    let mut least = usize::MAX;
    'gets: for number in candidates.items() {
        let rows = rows_after(guesses, way, *number);
        if best.is_none() || rows < least {
            best = Some(*number);
            least = rows;
        }
    }
    best
}

/// Goes on to the get that comes next, if one can.
fn go_on(
    alloc: Global,
    graph: &JoinGraph,
    guesses: &Guesses,
    way: &mut Way,
) -> Result<(), OutOfMemory> {
    let next = candidates(alloc, graph, &way.done)?;
    if let Some(number) = fewest_after(guesses, way, &next) {
        way.rows = rows_after(guesses, way, number).max(1);
        way.made = way.made.saturating_add(way.rows);
        way.done.push(number)?;
    }
    Ok(())
}

/// Goes on until none can come.
fn go_through(
    alloc: Global,
    graph: &JoinGraph,
    guesses: &Guesses,
    way: &mut Way,
) -> Result<(), OutOfMemory> {
    'turns: for _turn in 0..graph.nodes.len() {
        go_on(alloc, graph, guesses, way)?;
    }
    Ok(())
}

/// The way on which the get of the number comes first, and then each time the one after which there are the fewest
/// rows.
fn way_from(
    alloc: Global,
    graph: &JoinGraph,
    guesses: &Guesses,
    number: usize,
) -> Result<Way, OutOfMemory> {
    let size = size_of(guesses, number);
    let mut done = Values::new(alloc);
    done.push(number)?;
    let mut way = Way {
        done,
        rows: size,
        made: size,
    };
    go_through(alloc, graph, guesses, &mut way)?;
    Ok(way)
}

/// The gets of that way from one of these on which the fewest rows are made.
fn cheapest_way(
    alloc: Global,
    graph: &JoinGraph,
    guesses: &Guesses,
    starts: &Places,
) -> Result<Places, OutOfMemory> {
    let mut best = Values::new(alloc);
    let mut least = usize::MAX;
    'gets: for number in starts.items() {
        let way = way_from(alloc, graph, guesses, *number)?;
        if best.is_empty() || way.made < least {
            least = way.made;
            best = way.done;
        }
    }
    Ok(best)
}

/// Of the orders that begin with each of the candidates and go on each time to the get after which there are the fewest
/// rows, the one in which the fewest rows are made in all, as far as the guesses tell.
pub fn cheapest_order(
    alloc: Global,
    graph: &JoinGraph,
    guesses: &Guesses,
) -> Result<Places, OutOfMemory> {
    let done = Values::new(alloc);
    let starts = candidates(alloc, graph, &done)?;
    cheapest_way(alloc, graph, guesses, &starts)
}
