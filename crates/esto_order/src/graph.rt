//! Gets and what links them.
use esto_term::{List, Places};

/// A cell of the rows that a get gives: the number of the get, and the column.
#[derive(Clone, Copy)]
pub struct Cell {
    pub get: usize,
    pub column: usize,
}

/// Two cells that have to hold the same code where rows are joined.
#[derive(Clone, Copy)]
pub struct Edge {
    pub one: Cell,
    pub other: Cell,
}

/// A get, as an order of joins sees it: the edges from its inputs to the cells that these name, whether it has inputs,
/// and whether it has to hold a constant.
#[derive(Drop)]
pub struct Node {
    pub needs: List<Edge>,
    pub has_inputs: bool,
    pub has_constant: bool,
}

/// The gets that are joined, and the links between them. A get can be done once all are whose cells its inputs name; it
/// is linked to those, and by an edge either way.
#[derive(Drop)]
pub struct JoinGraph {
    pub nodes: List<Node>,
    pub edges: List<Edge>,
}

/// Whether the number is one of these.
pub(crate) fn is_in(numbers: &Places, number: usize) -> bool {
    numbers.items().contains(&number)
}

/// Whether the gets that the edges lead to are all done.
fn are_done(done: &Places, needs: &List<Edge>) -> bool {
    needs.items().iter().all(|edge| is_in(done, edge.other.get))
}

/// Whether the numbers have all of the others.
pub(crate) fn has_all(numbers: &Places, others: &Places) -> bool {
    others.items().iter().all(|other| is_in(numbers, *other))
}

impl JoinGraph {
    /// Whether the get of the number is not done and can be.
    pub(crate) fn can_come(&self, done: &Places, number: usize) -> bool {
        match self.nodes.items().get(number) {
            Some(node) => !is_in(done, number) && are_done(done, &node.needs),
            None => false,
        }
    }

    /// Whether the edge is one between the get of the number and one that is done.
    fn joins(done: &Places, number: usize, edge: &Edge) -> bool {
        (edge.one.get == number && is_in(done, edge.other.get))
            || (edge.other.get == number && is_in(done, edge.one.get))
    }

    /// Whether the get of the number, which can come next, is linked to those that are done.
    pub(crate) fn is_linked(&self, done: &Places, number: usize) -> bool {
        if let Some(node) = self.nodes.items().get(number) {
            if !node.needs.is_empty() {
                return true;
            }
        }
        let edges = self.edges.items();
        edges
            .iter()
            .any(|edge| JoinGraph::joins(done, number, edge))
    }
}
