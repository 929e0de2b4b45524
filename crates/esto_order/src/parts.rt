//! Whether gets fall into parts.
use crate::graph::{Edge, JoinGraph, Node, is_in};
use crate::reach::{reach, reach_from, ready_gets, unlinked_gets};
use esto_term::{List, OutOfMemory, Places, Values};
use std::alloc::Global;

/// Takes a get as done that leads to the most others, or any where all that are left can come, and all that links lead
/// to from it.
fn start_part(alloc: Global, graph: &JoinGraph, done: &mut Places) -> Result<(), OutOfMemory> {
    let starts = unlinked_gets(alloc, graph, done)?;
    if let Some(number) = starts.items().first() {
        reach_from(alloc, graph, *number, done)?;
    }
    Ok(())
}

/// How often a get has to come to which no links lead from those before it, if each time the one comes that leads to
/// the most others.
fn count_parts(alloc: Global, graph: &JoinGraph) -> Result<usize, OutOfMemory> {
    let mut done = Values::new(alloc);
    let mut parts: usize = 0;
    'rounds: for _round in 0..graph.nodes.len() {
        if done.len() >= graph.nodes.len() {
            return Ok(parts);
        }
        start_part(alloc, graph, &mut done)?;
        parts = parts.saturating_add(1);
    }
    Ok(parts)
}

/// Whether the get of the number has to hold a constant.
fn has_constant(graph: &JoinGraph, number: usize) -> bool {
    match graph.nodes.items().get(number) {
        Some(node) => node.has_constant,
        None => false,
    }
}

/// Whether one of the gets that can come first and have to hold a constant leads to all others, or there are no such
/// gets.
fn constants_lead(alloc: Global, graph: &JoinGraph) -> Result<bool, OutOfMemory> {
    let done = Values::new(alloc);
    let ready = ready_gets(alloc, graph, &done)?;
    let mut found = false;
    'gets: for number in ready.items() {
        if has_constant(graph, *number) {
            if reach(alloc, graph, &done, *number)? >= graph.nodes.len() {
                return Ok(true);
            }
            found = true;
        }
    }
    Ok(!found)
}

/// Whether one of the gets has inputs.
fn some_ask(graph: &JoinGraph) -> bool {
    graph.nodes.items().iter().any(|node| node.has_inputs)
}

/// Puts the edges at the end of the others.
fn push_all(edges: &mut List<Edge>, more: &List<Edge>) -> Result<(), OutOfMemory> {
    'edges: for edge in more.items() {
        edges.push(*edge)?;
    }
    Ok(())
}

/// All edges, those from inputs among them.
fn edges_freed(alloc: Global, graph: &JoinGraph) -> Result<List<Edge>, OutOfMemory> {
    let mut edges = List::new(alloc);
    push_all(&mut edges, &graph.edges)?;
    'gets: for node in graph.nodes.items() {
        push_all(&mut edges, &node.needs)?;
    }
    Ok(edges)
}

/// All gets, without their inputs.
fn nodes_freed(alloc: Global, graph: &JoinGraph) -> Result<List<Node>, OutOfMemory> {
    let mut nodes = List::new(alloc);
    'gets: for node in graph.nodes.items() {
        nodes.push(Node {
            needs: List::new(alloc),
            has_inputs: false,
            has_constant: node.has_constant,
        })?;
    }
    Ok(nodes)
}

/// Into how many parts the gets fall where inputs are read as filters.
fn count_free_parts(alloc: Global, graph: &JoinGraph) -> Result<usize, OutOfMemory> {
    let nodes = nodes_freed(alloc, graph)?;
    let edges = edges_freed(alloc, graph)?;
    count_parts(alloc, &JoinGraph { nodes, edges })
}

/// Whether gets are to be asked beforehand: where they fall into fewer parts if inputs are read as filters; or where
/// all hang together, and some that can come first have to hold a constant, so that they may well have few rows, but
/// none of these leads to all others.
pub fn asks_beforehand(alloc: Global, graph: &JoinGraph) -> Result<bool, OutOfMemory> {
    if !some_ask(graph) {
        return Ok(false);
    }
    let parts = count_parts(alloc, graph)?;
    if parts < 2 {
        return Ok(!constants_lead(alloc, graph)?);
    }
    Ok(count_free_parts(alloc, graph)? < parts)
}

/// Puts the gets that the inputs of the get of the number name at the end, if it is one of those named.
fn push_led(graph: &JoinGraph, number: usize, named: &mut Places) -> Result<(), OutOfMemory> {
    let Some(node) = graph.nodes.items().get(number) else {
        return Ok(());
    };
    if !is_in(named, number) {
        return Ok(());
    }
    'needs: for edge in node.needs.items() {
        named.push(edge.other.get)?;
    }
    Ok(())
}

/// The numbers of the gets that the inputs of the get of the number lead back to, and its own. Inputs name cells of
/// gets with smaller numbers.
pub fn led_back(alloc: Global, graph: &JoinGraph, number: usize) -> Result<Places, OutOfMemory> {
    let mut named = Values::new(alloc);
    named.push(number)?;
    'gets: for turn in 0..number {
        push_led(graph, number - turn, &mut named)?;
    }
    Ok(named)
}
