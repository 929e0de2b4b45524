//! The ranks of relations, and cycles of the graph of relations.
ghost use Rattle.std.specs.Prelude.{◌≡◌, ◌<◌, ℕ, List, length, slice_index};
ghost use Rattle.esto_semantics.specs.Rules.{Rule};
ghost use Rattle.esto_constraint.specs.Graphs.{IsWithin, AreRanks};
ghost use Rattle.esto_constraint.specs.Relations.{IsEdge};

use esto_term::{Places, TextRow};
use std::marker::Model;

/// The ranks of the relations of a schema, where the rules' graph of relations is acyclic. Contracts see their
/// list, in the order of the relations.
#[derive(Drop)]
pub struct Ranks {
    ranks: Vec<usize>,
}

impl Model for Ranks {
    ghost use Rattle.std.specs.Prelude.{List, ℕ};

    ghost Value = { List ℕ };

    ghost view = { λ it. it.ranks.items };
}

impl Ranks {
    /// The ranks of the relations of a schema, in the order of the relations.
    pub fn of(ranks: Vec<usize>) -> Ranks
        ensures { result ≡ ranks.items }
    {
        Ranks { ranks }
    }

    /// How many relations the schema has for which the ranks were judged.
    pub fn len(&self) -> usize
        ensures { result ≡ length self.now }
    {
        self.ranks.len()
    }

    /// The rank of a relation of the schema for which the ranks were judged: the greatest number of edges on a
    /// walk that ends there.
    pub fn rank(&self, relation: usize) -> u64
        requires { relation < length self.now }
        ensures { result ≡ slice_index self.now relation }
    {
        self.ranks[relation] as u64
    }
}

/// A cycle of the graph of relations: for each of its edges, in order, the relation at which it starts, and that
/// relation's name.
#[derive(Drop)]
pub struct Cycle {
    pub relations: Places,
    pub names: TextRow,
}

/// A law: ranks rise along every edge, and each is below the number of relations.
pub fn ranks_rise()
    ensures rise { (rules : List Rule) (count : ℕ) (ranks : List ℕ) → IsWithin count (IsEdge rules)
        → AreRanks (IsEdge rules) count ranks → (from to : ℕ) → IsEdge rules from to
        → slice_index ranks from < slice_index ranks to }
    ensures small { (rules : List Rule) (count : ℕ) (ranks : List ℕ) → IsWithin count (IsEdge rules)
        → AreRanks (IsEdge rules) count ranks → (relation : ℕ) → relation < count
        → slice_index ranks relation < count }
{}
