//! What links lead to.
use crate::graph::{JoinGraph, has_all, is_in};
use esto_term::{OutOfMemory, Places, Replicate, Values};
use std::alloc::Global;

/// The gets that can come next.
pub(crate) fn ready_gets(
    alloc: Global,
    graph: &JoinGraph,
    done: &Places,
) -> Result<Places, OutOfMemory> {
    let mut ready = Values::new(alloc);
    'gets: for number in 0..graph.nodes.len() {
        if graph.can_come(done, number) {
            ready.push(number)?;
        }
    }
    Ok(ready)
}

/// Puts the gets that can come next and are linked to the done ones at the end.
fn push_linked(graph: &JoinGraph, done: &Places, linked: &mut Places) -> Result<(), OutOfMemory> {
    'gets: for number in 0..graph.nodes.len() {
        if graph.can_come(done, number) && graph.is_linked(done, number) {
            linked.push(number)?;
        }
    }
    Ok(())
}

/// Takes the gets that can come next and are linked to the done ones as done.
fn reach_more(alloc: Global, graph: &JoinGraph, done: &mut Places) -> Result<(), OutOfMemory> {
    let before = done.copy(alloc)?;
    push_linked(graph, &before, done)
}

/// Takes all gets that links lead to as done.
fn reach_all(alloc: Global, graph: &JoinGraph, done: &mut Places) -> Result<(), OutOfMemory> {
    let mut before: usize = 0;
    'rounds: for _round in 0..graph.nodes.len() {
        if done.len() == before {
            return Ok(());
        }
        before = done.len();
        reach_more(alloc, graph, done)?;
    }
    Ok(())
}

/// Takes the get of the number as done, and all that links lead to after it. Tells how many are done then.
pub(crate) fn reach_from(
    alloc: Global,
    graph: &JoinGraph,
    number: usize,
    done: &mut Places,
) -> Result<usize, OutOfMemory> {
    done.push(number)?;
    reach_all(alloc, graph, done)?;
    Ok(done.len())
}

/// How many gets are done once the get of the number is, and after it all that links lead to.
pub(crate) fn reach(
    alloc: Global,
    graph: &JoinGraph,
    done: &Places,
    number: usize,
) -> Result<usize, OutOfMemory> {
    let mut reached = done.copy(alloc)?;
    reach_from(alloc, graph, number, &mut reached)
}

/// Those of the gets that lead to the most others.
fn leading_gets(
    alloc: Global,
    graph: &JoinGraph,
    done: &Places,
    ready: &Places,
) -> Result<Places, OutOfMemory> {
    let mut leading = Values::new(alloc);
    let mut most: usize = 0;
    'gets: for number in ready.items() {
        let reached = reach(alloc, graph, done, *number)?;
        if reached > most {
            leading.truncate(0);
            most = reached;
        }
        if reached == most {
            leading.push(*number)?;
        }
    }
    Ok(leading)
}

/// The gets that can come next, where none is linked to the done ones: those that lead to the most others, or all where
/// all that are left can come.
pub(crate) fn unlinked_gets(
    alloc: Global,
    graph: &JoinGraph,
    done: &Places,
) -> Result<Places, OutOfMemory> {
    let ready = ready_gets(alloc, graph, done)?;
    if done.len().saturating_add(ready.len()) >= graph.nodes.len() {
        return Ok(ready);
    }
    leading_gets(alloc, graph, done, &ready)
}

/// The gets that are thought of as the next one: those that can come and are linked to the done ones, if there are
/// some, else those that lead on to the most others, or all where all that are left can come.
pub fn candidates(alloc: Global, graph: &JoinGraph, done: &Places) -> Result<Places, OutOfMemory> {
    let mut linked = Values::new(alloc);
    push_linked(graph, done, &mut linked)?;
    if linked.is_empty() {
        return unlinked_gets(alloc, graph, done);
    }
    Ok(linked)
}

/// Whether links lead from the get of the number to all those named.
fn leads_to(
    alloc: Global,
    graph: &JoinGraph,
    named: &Places,
    number: usize,
) -> Result<bool, OutOfMemory> {
    let mut done = Values::new(alloc);
    reach_from(alloc, graph, number, &mut done)?;
    Ok(has_all(&done, named))
}

/// The gets that can come first from which links lead to all those named.
fn leading_to(alloc: Global, graph: &JoinGraph, named: &Places) -> Result<Places, OutOfMemory> {
    let done = Values::new(alloc);
    let ready = ready_gets(alloc, graph, &done)?;
    let mut leading = Values::new(alloc);
    'gets: for number in ready.items() {
        if leads_to(alloc, graph, named, *number)? {
            leading.push(*number)?;
        }
    }
    Ok(leading)
}

/// Whether the get of the number can come next on the way to those named: it is linked to the done ones, and is one of
/// those or has no inputs.
fn is_on_the_way(graph: &JoinGraph, named: &Places, done: &Places, number: usize) -> bool {
    match graph.nodes.items().get(number) {
        Some(node) => {
            (!node.has_inputs || is_in(named, number))
                && graph.can_come(done, number)
                && graph.is_linked(done, number)
        }
        None => false,
    }
}

/// The gets that can come next on the way to those named: first, those from which links lead to all of these; then,
/// those that are linked to the done ones and have no inputs or are named.
pub fn candidates_towards(
    alloc: Global,
    graph: &JoinGraph,
    named: &Places,
    done: &Places,
) -> Result<Places, OutOfMemory> {
    if done.is_empty() {
        return leading_to(alloc, graph, named);
    }
    let mut linked = Values::new(alloc);
    'gets: for number in 0..graph.nodes.len() {
        if is_on_the_way(graph, named, done, number) {
            linked.push(number)?;
        }
    }
    Ok(linked)
}
