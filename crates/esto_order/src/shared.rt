//! Cells that have to hold the same code as a third.
use crate::graph::{Cell, Edge, JoinGraph};
use esto_term::{List, OutOfMemory};
use std::alloc::Global;

/// Whether the cells are one.
fn are_one(one: &Cell, other: &Cell) -> bool {
    one.get == other.get && one.column == other.column
}

/// Puts the edge between the cells at the end, if they are of two gets.
fn push_edge(edges: &mut List<Edge>, one: &Cell, other: &Cell) -> Result<(), OutOfMemory> {
    if one.get == other.get {
        return Ok(());
    }
    edges.push(Edge {
        one: *one,
        other: *other,
    })
}

/// Puts the edges from the first cell of the edge to those of the others that have the same second one, and are of
/// another get, at the end.
fn push_shared(edges: &mut List<Edge>, others: &[Edge], edge: &Edge) -> Result<(), OutOfMemory> {
    'others: for other in others {
        if are_one(&edge.other, &other.other) {
            push_edge(edges, &edge.one, &other.one)?;
        }
    }
    Ok(())
}

impl JoinGraph {
    /// The edges between cells of two gets, and those between two such cells that have to hold the same code as a third,
    /// which is the second of an edge of each. It is gone on with as long as there are not too many.
    fn shared_edges(&self, alloc: Global, most: usize) -> Result<List<Edge>, OutOfMemory> {
        let mut edges = List::new(alloc);
        let own = self.edges.items();
        'edges: for (at, edge) in own.iter().enumerate() {
            if edges.len() > most {
                return Ok(edges);
            }
            push_edge(&mut edges, &edge.one, &edge.other)?;
            push_shared(&mut edges, &own[..at], edge)?;
        }
        Ok(edges)
    }

    /// The same gets, linked as well where cells of two of them have to hold the same code as a third. The same graph,
    /// where there would be more than so many edges with these.
    pub fn with_shared(self, alloc: Global, most: usize) -> Result<JoinGraph, OutOfMemory> {
        let edges = self.shared_edges(alloc, most)?;
        if edges.len() > most {
            return Ok(self);
        }
        Ok(JoinGraph {
            nodes: self.nodes,
            edges,
        })
    }
}
