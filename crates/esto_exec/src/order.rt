//! Which get is joined next, and in which order of all it is planned to be. Nothing rests on it but speed, so nothing
//! here says what it gives.
ghost use Rattle.std.specs.Prelude.{map};
ghost use Rattle.esto_exec.specs.Runnable.{AreRunnable};

use crate::guesses::{fan_outs_of, rows_after, sizes_of};
use crate::slots::{Equation, Equations, Side, Slot, first_of, side_of};
use crate::turns::{Prepared, SoFar};
use esto_order::{
    Cell, Edge, Guesses, JoinGraph, Node, candidates, candidates_towards, cheapest_order,
};
use esto_steps::{Get, Links, Whole};
use esto_term::{List, OutOfMemory, Places, Values};
use std::alloc::Global;

/// How many gets there are at most where an order is planned: each that can come first may be tried as the first one.
const MOST_GETS: usize = 32;

/// How many edges there are at most where an order is planned: for each of them rows are looked at, both ways.
const MOST_EDGES: usize = 64;

/// How many rows some get gives by itself at least, about, where an order is planned. One with inputs is taken to give
/// one.
const LEAST_ROWS: usize = 1_024;

/// The cell of the slot, as an order of joins sees it.
fn cell_of(slot: &Slot) -> Cell {
    Cell {
        get: slot.get,
        column: slot.column,
    }
}

/// The edges from inputs of the get of the number to the cells that they name.
fn needs_of(
    alloc: Global,
    arities: &[usize],
    number: usize,
    links: &Links,
) -> Result<List<Edge>, OutOfMemory> {
    let mut needs = List::new(alloc);
    'links: for link in links.items() {
        if let Side::Held(slot) = side_of(arities, &link.source) {
            let one = Cell {
                get: number,
                column: link.column,
            };
            needs.push(Edge {
                one,
                other: cell_of(&slot),
            })?;
        }
    }
    Ok(needs)
}

/// Whether the get of the number has to hold a constant.
fn has_constant(equations: &Equations, number: usize) -> bool {
    'equations: for equation in equations.items() {
        if equation.slot.get == number {
            if let Side::Constant(_) = &equation.side {
                return true;
            }
        }
    }
    false
}

/// The get of the number, as an order of joins sees it.
fn node_of(alloc: Global, steps: &Prepared, get: &Get, number: usize) -> Result<Node, OutOfMemory> {
    let needs = needs_of(alloc, first_of(steps.arities, number), number, &get.inputs)?;
    Ok(Node {
        needs,
        has_inputs: !get.inputs.is_empty(),
        has_constant: has_constant(steps.equations, number),
    })
}

/// The gets, as an order of joins sees them.
fn nodes_of(alloc: Global, steps: &Prepared) -> Result<List<Node>, OutOfMemory> {
    let mut nodes = List::new(alloc);
    'gets: for (number, get) in steps.gets.items().iter().enumerate() {
        nodes.push(node_of(alloc, steps, get, number)?)?;
    }
    Ok(nodes)
}

/// Puts the edge of the equation at the end, if it is between cells of two gets.
fn push_edge(edges: &mut List<Edge>, equation: &Equation) -> Result<(), OutOfMemory> {
    let Side::Held(other) = &equation.side else {
        return Ok(());
    };
    if other.get == equation.slot.get {
        return Ok(());
    }
    edges.push(Edge {
        one: cell_of(&equation.slot),
        other: cell_of(other),
    })
}

/// The edges of the equations between cells of two gets.
fn edges_of(alloc: Global, equations: &Equations) -> Result<List<Edge>, OutOfMemory> {
    let mut edges = List::new(alloc);
    'equations: for equation in equations.items() {
        push_edge(&mut edges, equation)?;
    }
    Ok(edges)
}

/// The gets and what links them.
pub(crate) fn graph_of(alloc: Global, steps: &Prepared) -> Result<JoinGraph, OutOfMemory> {
    let nodes = nodes_of(alloc, steps)?;
    let edges = edges_of(alloc, steps.equations)?;
    Ok(JoinGraph { nodes, edges })
}

/// The one of the gets after which there are the fewest rows, as far as that is known.
fn fewest<F: Whole>(
    alloc: Global,
    steps: &Prepared,
    fragments: &[F],
    so_far: &SoFar,
    candidates: &Places,
) -> Result<Option<usize>, OutOfMemory>
    requires { AreRunnable (map F.shape fragments.now) steps.now.gets.now }
{
    let mut best: Option<usize> = None;
    let mut least = usize::MAX;
    'gets: for number in candidates.items() {
        let rows = rows_after(alloc, steps, fragments, *number, so_far)?;
        if best.is_none() || rows < least {
            best = Some(*number);
            least = rows;
        }
    }
    Ok(best)
}

/// The one of the gets to join next: the one after which there are the fewest rows, where there is a choice and a row.
fn best_of<F: Whole>(
    alloc: Global,
    steps: &Prepared,
    fragments: &[F],
    so_far: &SoFar,
    candidates: &Places,
) -> Result<Option<usize>, OutOfMemory>
    requires { AreRunnable (map F.shape fragments.now) steps.now.gets.now }
{
    if candidates.len() < 2 || so_far.rows.len() == 0 {
        return Ok(candidates.items().first().copied());
    }
    fewest(alloc, steps, fragments, so_far, candidates)
}

/// Whether one of the gets gives many rows by itself, where they give so many.
fn some_are_large(sizes: &Values<usize>) -> bool {
    sizes.items().iter().any(|size| *size >= LEAST_ROWS)
}

/// Of the orders of joins that are tried, the one in which the fewest rows are made, where the gets give as many rows by
/// themselves as the sizes say; an empty one where there are too many edges.
fn order_by<F: Whole>(
    alloc: Global,
    steps: &Prepared,
    fragments: &[F],
    graph: &JoinGraph,
    sizes: Values<usize>,
) -> Result<Places, OutOfMemory>
    requires { AreRunnable (map F.shape fragments.now) steps.now.gets.now }
{
    if graph.edges.len() > MOST_EDGES {
        return Ok(Values::new(alloc));
    }
    let fan_outs = fan_outs_of(alloc, steps, fragments, &sizes, &graph.edges)?;
    let guesses = Guesses { sizes, fan_outs };
    cheapest_order(alloc, graph, &guesses)
}

/// Of the orders of joins that are tried, the one in which the fewest rows are made, as far as guesses tell. It is empty
/// where there are fewer than three gets or more than `MOST_GETS`, more than `MOST_EDGES` edges, or no get that gives
/// `LEAST_ROWS` rows by itself.
pub(crate) fn planned_order<F: Whole>(
    alloc: Global,
    steps: &Prepared,
    fragments: &[F],
) -> Result<Places, OutOfMemory>
    requires { AreRunnable (map F.shape fragments.now) steps.now.gets.now }
{
    if steps.gets.len() < 3 || steps.gets.len() > MOST_GETS {
        return Ok(Values::new(alloc));
    }
    let sizes = sizes_of(alloc, steps, fragments)?;
    if !some_are_large(&sizes) {
        return Ok(Values::new(alloc));
    }
    let graph = graph_of(alloc, steps)?.with_shared(alloc, MOST_EDGES)?;
    order_by(alloc, steps, fragments, &graph, sizes)
}

/// The get that is joined next, of those whose inputs are known: the first one that is planned, where nothing is done;
/// else one that is linked to the gets that are done, if there is one, else one that leads on to the most others, or
/// any where all that are left can come. Of these it is the one after which there are the fewest rows.
pub(crate) fn next_get<F: Whole>(
    alloc: Global,
    steps: &Prepared,
    fragments: &[F],
    so_far: &SoFar,
) -> Result<Option<usize>, OutOfMemory>
    requires { AreRunnable (map F.shape fragments.now) steps.now.gets.now }
{
    if so_far.done.is_empty() && steps.first.is_some() {
        return Ok(steps.first);
    }
    let graph = graph_of(alloc, steps)?;
    let candidates = candidates(alloc, &graph, &so_far.done)?;
    best_of(alloc, steps, fragments, so_far, &candidates)
}

/// The get that is joined next on the way to those named: of those that can come, the one after which there are the
/// fewest rows.
pub(crate) fn next_towards<F: Whole>(
    alloc: Global,
    steps: &Prepared,
    fragments: &[F],
    named: &Places,
    so_far: &SoFar,
) -> Result<Option<usize>, OutOfMemory>
    requires { AreRunnable (map F.shape fragments.now) steps.now.gets.now }
{
    let graph = graph_of(alloc, steps)?;
    let candidates = candidates_towards(alloc, &graph, named, &so_far.done)?;
    best_of(alloc, steps, fragments, so_far, &candidates)
}
