//! Whether the graph of relations of some rules is acyclic, with the evidence: ranks, or a cycle.
//! Start from `judge`.
#![tactic(auto)]

mod graph;
mod relations;

pub use esto_constraint::{Cycle, Ranks};
pub use relations::{judge, judgements_are_exact};
