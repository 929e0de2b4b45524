//! The graph of relations of some rules, and its judgement.
ghost use Rattle.std.specs.Prelude.{◌≡◌, ◌<◌, ◌++◌, ℕ, List, length, All, IfOk, OnOk, ⊤};
ghost use Rattle.either.specs.Either.{MatchEither};
ghost use Rattle.esto_semantics.specs.Rules.{Rule};
ghost use Rattle.esto_constraint.specs.Constraints.{rule_of, rules_of};
ghost use Rattle.esto_constraint.specs.Graphs.{IsWithin, IsAcyclic, IsLeastCycle, AreRanks};
ghost use Rattle.esto_acyclic.specs.Relations.{AreNamesOf};
ghost use Rattle.esto_constraint.specs.Relations.{edges_from, edges_between, edges_of_rule, edges_of, IsEdge};

use crate::graph::{Edge, judge_edges};
use either::{Either, Left, Right};
use esto_constraint::{Constraint, Cycle, Ranks, Rules};
use esto_query::Schema;
use esto_semantics::Atom;
use esto_term::{List, OutOfMemory, Replicate, TextRow, Values};
use std::alloc::Global;

/// Puts the edges from a relation to the relations of a head's atoms at the end.
fn add_edges_from(
    relation: usize,
    head: &[Atom],
    edges: &mut Values<Edge>,
) -> Result<(), OutOfMemory>
    ensures { OnOk result (edges.new ≡ edges.old ++ edges_from relation head.now) }
{
    'atoms: for atom in head {
        edges.push((relation, atom.relation))?;
    }
    Ok(())
}

/// Puts the edges from the relations of a body's atoms to those of a head's atoms at the end.
fn add_edges_between(
    body: &[Atom],
    head: &[Atom],
    edges: &mut Values<Edge>,
) -> Result<(), OutOfMemory>
    ensures { OnOk result (edges.new ≡ edges.old ++ edges_between body.now head.now) }
{
    'atoms: for atom in body {
        add_edges_from(atom.relation, head, edges)?;
    }
    Ok(())
}

/// Puts the edges that a rule gives at the end.
fn add_edges_of(rule: &Constraint, edges: &mut Values<Edge>) -> Result<(), OutOfMemory>
    ensures { OnOk result (edges.new ≡ edges.old ++ edges_of_rule (rule_of rule.now)) }
{
    match rule {
        Constraint::Tuple(rule) => add_edges_between(rule.body.items(), rule.head.items(), edges),
        Constraint::Equal(_) => Ok(()),
        Constraint::Never(_) => Ok(()),
    }
}

/// The edges that the rules give.
fn edges_of(alloc: Global, rules: &[Constraint]) -> Result<Values<Edge>, OutOfMemory>
    ensures { IfOk result (λ it. it ≡ edges_of (rules_of rules.now)) }
{
    let mut edges = Values::new(alloc);
    'rules: for rule in rules {
        add_edges_of(rule, &mut edges)?;
    }
    Ok(edges)
}

/// The schema's names of these relations, in order.
fn names_of(alloc: Global, schema: &Schema, relations: &[usize]) -> Result<TextRow, OutOfMemory>
    requires { All (λ relation. relation < length schema.now) relations.now }
    ensures { IfOk result (λ names. AreNamesOf schema.now relations.now names) }
{
    let mut names = List::new(alloc);
    'relations: for relation in relations {
        let name = schema.name(*relation).copy(alloc)?;
        names.push(name)?;
    }
    Ok(names)
}

/// Judges the graph of relations of the rules, which has an edge from each relation of the body of a tuple rule
/// to each relation of its head. Left comes exactly where it is acyclic, with the ranks of the schema's
/// relations. Else Right comes with the cycle that begins at the least relation on a cycle, is the shortest from
/// there back to it, and the least of the shortest by the list of relations.
pub fn judge(
    alloc: Global,
    schema: &Schema,
    rules: &Rules,
) -> Result<Either<Ranks, Cycle>, OutOfMemory>
    requires { IsWithin (length schema.now) (IsEdge (rules_of rules.now)) }
    ensures acyclic { IfOk result (λ judged. MatchEither judged
        (λ _. IsAcyclic (IsEdge (rules_of rules.now)))
        (λ _. ¬ (IsAcyclic (IsEdge (rules_of rules.now))))) }
    ensures ranks { IfOk result (λ judged. MatchEither judged
        (λ ranks. AreRanks (IsEdge (rules_of rules.now)) (length schema.now) ranks) (λ _. ⊤)) }
    ensures cycle { IfOk result (λ judged. MatchEither judged (λ _. ⊤)
        (λ cycle. IsLeastCycle (IsEdge (rules_of rules.now)) cycle.relations
        × AreNamesOf schema.now cycle.relations cycle.names)) }
{
    let edges = edges_of(alloc, rules.items())?;
    let judged = judge_edges(alloc, schema.len(), edges.items())?;
    match judged {
        Left(ranks) => Ok(Left(Ranks::of(ranks))),
        Right(relations) => {
            let names = names_of(alloc, schema, relations.items())?;
            Ok(Right(Cycle { relations, names }))
        }
    }
}

/// A law: where there are ranks no cycle is there; there is one list of ranks, and one least cycle.
pub fn judgements_are_exact()
    ensures acyclic { (rules : List Rule) (count : ℕ) (ranks : List ℕ)
        → IsWithin count (IsEdge rules) → AreRanks (IsEdge rules) count ranks
        → IsAcyclic (IsEdge rules) }
    ensures ranks { (rules : List Rule) (count : ℕ) (ranks others : List ℕ)
        → AreRanks (IsEdge rules) count ranks → AreRanks (IsEdge rules) count others
        → ranks ≡ others }
    ensures cycles { (rules : List Rule) (relations others : List ℕ)
        → IsLeastCycle (IsEdge rules) relations → IsLeastCycle (IsEdge rules) others
        → relations ≡ others }
{}
