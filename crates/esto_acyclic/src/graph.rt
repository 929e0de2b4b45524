//! Graphs over numbered relations: their ranks, or their least cycle.
ghost use Rattle.std.specs.Prelude.{◌≡◌, ◌<◌, ◌≤◌, ◌⊎◌, ℕ, length, slice_index, replicate, IfOk, MatchOption};
ghost use Rattle.either.specs.Either.{MatchEither};
ghost use Rattle.esto_constraint.specs.Graphs.{Joins, IsWithin, HasNoCycle, IsLeastCycle, IsLeastCycleAt, AreRanks};
ghost use Rattle.esto_acyclic.specs.Rounds.{AreReached, IsLong, Lifts, Raises, AreNear, AreDistances, Lowers, Sinks};

use either::{Either, Left, Right};
use esto_term::{OutOfMemory, Places, Values};
use std::alloc::Global;

/// An edge, from the first relation to the second.
pub type Edge = (usize, usize);

/// What became of numbers that are to rise along edges.
pub enum Round {
    /// They rise along each edge.
    Still,
    /// One was raised.
    Rose,
    /// Some walk has as many edges as there are relations.
    Full,
}

/// Raises the number at an edge's end above the number at its start.
fn lift(from: usize, to: usize, ranks: &mut Vec<usize>) -> Round
    requires from { from < length ranks.old.items }
    requires to { to < length ranks.old.items }
    ensures { Lifts from to ranks.old.items ranks.new.items result }
{
    if ranks[from] < ranks[to] {
        return Round::Still;
    }
    if ranks[from] >= ranks.len() - 1 {
        return Round::Full;
    }
    ranks[to] = ranks[from] + 1;
    Round::Rose
}

/// Raises the numbers along each edge, once.
fn raise(edges: &[Edge], ranks: &mut Vec<usize>) -> Round
    requires within { IsWithin (length ranks.old.items) (Joins edges.now) }
    requires reached { AreReached (Joins edges.now) ranks.old.items }
    ensures same { length ranks.new.items ≡ length ranks.old.items }
    ensures reached { AreReached (Joins edges.now) ranks.new.items }
    ensures raises { Raises edges.now ranks.old.items ranks.new.items result }
{
    let mut rose = false;
    'edges: for edge in edges {
        let (from, to) = *edge;
        match lift(from, to, ranks) {
            Round::Still => {}
            Round::Rose => rose = true,
            Round::Full => return Round::Full,
        }
    }
    if rose { Round::Rose } else { Round::Still }
}

/// A list of one number, so many times.
fn filled(alloc: Global, number: usize, count: usize) -> Result<Vec<usize>, OutOfMemory>
    ensures { IfOk result (λ it. it.items ≡ replicate count number) }
{
    match vec![in alloc; number; count] {
        Ok(numbers) => Ok(numbers),
        Err(_) => Err(OutOfMemory),
    }
}

/// The ranks; None where some walk has as many edges as there are relations.
fn ranks_of(alloc: Global, count: usize, edges: &[Edge]) -> Result<Option<Vec<usize>>, OutOfMemory>
    requires { IsWithin count (Joins edges.now) }
    ensures { IfOk result (λ it. MatchOption it (IsLong (Joins edges.now) count)
        (λ ranks. AreRanks (Joins edges.now) count ranks.items)) }
{
    let mut ranks = filled(alloc, 0, count)?;
    'rounds: loop {
        match raise(edges, &mut ranks) {
            Round::Still => return Ok(Some(ranks)),
            Round::Full => return Ok(None),
            Round::Rose => {}
        }
    }
}

/// Lowers the distance at an edge's start to at most one more than the distance at its end.
fn lower(from: usize, to: usize, distances: &mut Vec<usize>) -> bool
    requires from { from < length distances.old.items }
    requires to { to < length distances.old.items }
    ensures { Lowers from to distances.old.items distances.new.items result }
{
    if distances[from] <= 1 {
        return false;
    }
    if distances[to] >= distances[from] - 1 {
        return false;
    }
    distances[from] = distances[to] + 1;
    true
}

/// Lowers the distances along each edge, once, and tells whether one fell.
fn sink(edges: &[Edge], distances: &mut Vec<usize>) -> bool
    requires { IsWithin (length distances.old.items) (Joins edges.now) }
    ensures same { length distances.new.items ≡ length distances.old.items }
    ensures near { (target : ℕ) → AreNear (Joins edges.now) target distances.old.items
        → AreNear (Joins edges.now) target distances.new.items }
    ensures sinks { Sinks edges.now distances.old.items distances.new.items result }
{
    let mut fell = false;
    'edges: for edge in edges {
        let (from, to) = *edge;
        if lower(from, to, distances) {
            fell = true;
        }
    }
    fell
}

/// For each relation the least number of edges on a walk from it to the target; the number of relations or more
/// where no walk leads there.
fn distances_to(
    alloc: Global,
    count: usize,
    edges: &[Edge],
    target: usize,
) -> Result<Vec<usize>, OutOfMemory>
    requires within { IsWithin count (Joins edges.now) }
    requires target { target < count }
    ensures same { IfOk result (λ it. length it.items ≡ count) }
    ensures exact { IfOk result (λ it. AreDistances (Joins edges.now) target it.items) }
{
    let mut distances = filled(alloc, count, count)?;
    distances[target] = 0;
    'rounds: loop {
        if !sink(edges, &mut distances) {
            return Ok(distances);
        }
    }
}

/// The lesser of the best distance so far and that of an edge's end, where the edge starts at the relation.
fn nearer(edge: Edge, distances: &[usize], relation: usize, best: usize) -> usize
    requires { edge.1 < length distances.now }
    ensures within { result ≤ best }
    ensures least { edge.0 ≡ relation → result ≤ slice_index distances.now edge.1 }
    ensures is { (result ≡ best) ⊎ ((edge.0 ≡ relation)
        × (slice_index distances.now edge.1 ≡ result)) }
{
    let (from, to) = edge;
    if from != relation {
        return best;
    }
    if distances[to] < best {
        distances[to]
    } else {
        best
    }
}

/// The least distance of a relation to which an edge leads from this one, or the number of relations.
fn nearest(edges: &[Edge], distances: &[usize], relation: usize) -> usize
    requires { IsWithin (length distances.now) (Joins edges.now) }
    ensures least { (next : ℕ) → Joins edges.now relation next
        → result ≤ slice_index distances.now next }
    ensures is { result < length distances.now
        → (next : ℕ) × Joins edges.now relation next × (slice_index distances.now next ≡ result) }
{
    let mut best = distances.len();
    'edges: for edge in edges {
        best = nearer(*edge, distances, relation, best);
    }
    best
}

/// The lesser of the best relation so far and an edge's end, where the edge starts at the relation and its end
/// is at that distance.
fn lesser(edge: Edge, distances: &[usize], relation: usize, distance: usize, best: usize) -> usize
    requires { edge.1 < length distances.now }
    ensures within { result ≤ best }
    ensures least { edge.0 ≡ relation → slice_index distances.now edge.1 ≡ distance
        → result ≤ edge.1 }
    ensures is { (result ≡ best) ⊎ ((edge.0 ≡ relation)
        × (slice_index distances.now edge.1 ≡ distance) × (edge.1 ≡ result)) }
{
    let (from, to) = edge;
    if from != relation {
        return best;
    }
    if distances[to] != distance {
        return best;
    }
    if to < best { to } else { best }
}

/// The least relation at that distance to which an edge leads from this one, or the number of relations.
fn least_next(edges: &[Edge], distances: &[usize], relation: usize, distance: usize) -> usize
    requires { IsWithin (length distances.now) (Joins edges.now) }
    ensures least { (next : ℕ) → Joins edges.now relation next
        → slice_index distances.now next ≡ distance → result ≤ next }
    ensures is { result < length distances.now
        → Joins edges.now relation result × (slice_index distances.now result ≡ distance) }
{
    let mut best = distances.len();
    'edges: for edge in edges {
        best = lesser(*edge, distances, relation, distance, best);
    }
    best
}

/// The least of the shortest cycles at a relation, by the distances to it; None where none is there.
fn cycle_by_distances(
    alloc: Global,
    edges: &[Edge],
    distances: &[usize],
    start: usize,
) -> Result<Option<Places>, OutOfMemory>
    requires within { IsWithin (length distances.now) (Joins edges.now) }
    requires start { start < length distances.now }
    requires exact { AreDistances (Joins edges.now) start distances.now }
    ensures { IfOk result (λ it. MatchOption it (HasNoCycle (Joins edges.now) start)
        (λ cycle. IsLeastCycleAt (Joins edges.now) start cycle)) }
{
    let near = nearest(edges, distances, start);
    if near >= distances.len() {
        return Ok(None);
    }
    let mut cycle = Values::new(alloc);
    let mut relation = start;
    let mut left = near + 1;
    'steps: while left > 0 {
        cycle.push(relation)?;
        relation = least_next(edges, distances, relation, left - 1);
        left -= 1;
    }
    Ok(Some(cycle))
}

/// The least of the shortest cycles at a relation; None where none is there.
fn cycle_at(
    alloc: Global,
    count: usize,
    edges: &[Edge],
    start: usize,
) -> Result<Option<Places>, OutOfMemory>
    requires within { IsWithin count (Joins edges.now) }
    requires start { start < count }
    ensures { IfOk result (λ it. MatchOption it (HasNoCycle (Joins edges.now) start)
        (λ cycle. IsLeastCycleAt (Joins edges.now) start cycle)) }
{
    let distances = distances_to(alloc, count, edges, start)?;
    cycle_by_distances(alloc, edges, distances.as_slice(), start)
}

/// The least cycle, where some walk has as many edges as there are relations.
fn least_cycle(alloc: Global, count: usize, edges: &[Edge]) -> Result<Places, OutOfMemory>
    requires within { IsWithin count (Joins edges.now) }
    requires long { IsLong (Joins edges.now) count }
    ensures { IfOk result (λ cycle. IsLeastCycle (Joins edges.now) cycle) }
{
    'starts: for start in 0..count {
        let found = cycle_at(alloc, count, edges, start)?;
        match found {
            Some(cycle) => return Ok(cycle),
            None => {}
        }
    }
    unreachable!()
}

/// The ranks of so many relations, where the edges between them make no cycle; else the least cycle.
pub fn judge_edges(
    alloc: Global,
    count: usize,
    edges: &[Edge],
) -> Result<Either<Vec<usize>, Places>, OutOfMemory>
    requires { IsWithin count (Joins edges.now) }
    ensures judged { IfOk result (λ it. MatchEither it
        (λ ranks. AreRanks (Joins edges.now) count ranks.items)
        (λ cycle. IsLeastCycle (Joins edges.now) cycle)) }
{
    let found = ranks_of(alloc, count, edges)?;
    match found {
        Some(ranks) => Ok(Left(ranks)),
        None => {
            let cycle = least_cycle(alloc, count, edges)?;
            Ok(Right(cycle))
        }
    }
}
