//! Rows so far joined with rows that are found by the indexes that these have, or else looked at one by one.
ghost use Rattle.std.specs.Prelude.{◌≡◌, ◌↔◌, ◌<◌, [], List, ℕ, slice_index_or, length};
ghost use Rattle.std.specs.Prelude.{Contains, IfOk, OnOk, IsTrue, MatchOption};
ghost use Rattle.esto_steps.specs.declared.steps.Link.{Link};
ghost use Rattle.esto_steps.specs.Meaning.{IsMet, Follows};
ghost use Rattle.esto_steps.specs.Joined.{IsJoin, IsFollower, IsFollowerAt, IsKept, GainsOnly};
ghost use Rattle.esto_steps.specs.Paired.{gained_rows, NameAll};
ghost use Rattle.esto_steps.specs.Probed.{HaveMet, HaveAllMet};

use crate::codes::code_at;
use crate::gained::{Gained, into_rows};
use crate::gather::name_all;
use crate::join::{Join, none_gained, push_follower};
use crate::pairs::Pair;
use crate::steps::{Link, Links};
use esto_columns::Rows;
use esto_term::OutOfMemory;
use std::alloc::Global;

/// How many rows are foreseen, at most, where there is no more than one row so far.
const FORESEEN: usize = 1 << 12;

/// How many rows are foreseen: one of each row so far, or, where there is no more than one so far and all rows of the
/// fragment are looked at, one for each of these, up to some thousands.
fn foreseen(so_far: &Rows, rows: &Rows, all: bool) -> usize {
    if all && so_far.len() <= 1 {
        return rows.len().min(FORESEEN);
    }
    so_far.len()
}

/// Places among which are those of all rows that meet the link with the row so far at the place. `None` may come where the
/// rows have no index by the link's column.
fn places_met(
    alloc: Global,
    so_far: &Rows,
    at: usize,
    rows: &Rows,
    link: &Link,
) -> Result<Option<Vec<usize>>, OutOfMemory>
    requires { at < length so_far.now.rows }
    ensures { IfOk result (λ found. MatchOption found Unit (λ places.
        HaveMet (slice_index_or so_far.now.rows at []) rows.now.rows link.now places.items)) }
{
    let Some(code) = code_at(so_far, at, &link.source) else {
        return Ok(Some(Vec::new(alloc)));
    };
    rows.places(alloc, &[link.column], &[code])
}

/// Places among which are those of all rows that meet the links with the row so far at the place, by the first link whose
/// column has an index.
fn places_by(
    alloc: Global,
    so_far: &Rows,
    at: usize,
    rows: &Rows,
    links: &Links,
) -> Result<Option<Vec<usize>>, OutOfMemory>
    requires { at < length so_far.now.rows }
    ensures { IfOk result (λ found. MatchOption found Unit (λ places.
        HaveAllMet (slice_index_or so_far.now.rows at []) rows.now.rows links.now places.items)) }
{
    'links: for link in links.items() {
        if let Some(places) = places_met(alloc, so_far, at, rows, link)? {
            return Ok(Some(places));
        }
    }
    Ok(None)
}

/// Puts what is kept of the row so far at the place with each of the rows at the places that follows it at the end. Tells
/// how many places were looked at.
fn push_at_places(
    alloc: Global,
    join: &Join,
    so_far: &Rows,
    at: usize,
    rows: &Rows,
    places: &[usize],
    into: &mut Gained,
) -> Result<usize, OutOfMemory>
    requires there { at < length so_far.now.rows }
    requires named { NameAll join.now.kept.now so_far.now.rows rows.now.rows }
    requires arity { into.old.own.arity ≡ length join.now.kept.now }
    ensures arity { OnOk result (into.new.own.arity ≡ into.old.own.arity) }
    ensures rows { OnOk result (GainsOnly (gained_rows join.now.kept.now so_far.now rows.now into.old)
        (gained_rows join.now.kept.now so_far.now rows.now into.new) (λ it. (place : ℕ)
        × Contains places.now place × IsKept join.now.kept.now (IsFollowerAt join.now.get.now
        (slice_index_or so_far.now.rows at []) rows.now.rows place) it)) }
{
    'places: for place in places {
        let pair = Pair {
            left: at,
            right: *place,
        };
        push_follower(alloc, join, so_far, rows, pair, into)?;
    }
    Ok(places.len())
}

/// Puts what is kept of the row so far at the place with each of the rows that follows it at the end, by a look at every
/// row. Tells how many were looked at.
fn push_everywhere(
    alloc: Global,
    join: &Join,
    so_far: &Rows,
    at: usize,
    rows: &Rows,
    into: &mut Gained,
) -> Result<usize, OutOfMemory>
    requires there { at < length so_far.now.rows }
    requires named { NameAll join.now.kept.now so_far.now.rows rows.now.rows }
    requires arity { into.old.own.arity ≡ length join.now.kept.now }
    ensures arity { OnOk result (into.new.own.arity ≡ into.old.own.arity) }
    ensures rows { OnOk result (GainsOnly (gained_rows join.now.kept.now so_far.now rows.now into.old)
        (gained_rows join.now.kept.now so_far.now rows.now into.new) (IsKept join.now.kept.now
        (IsFollower join.now.get.now (slice_index_or so_far.now.rows at []) rows.now.rows))) }
{
    'rows: for place in 0..rows.len() {
        let pair = Pair {
            left: at,
            right: place,
        };
        push_follower(alloc, join, so_far, rows, pair, into)?;
    }
    Ok(rows.len())
}

/// Puts what is kept of the row so far at the place with each of the rows that follows it at the end, by one of the links,
/// which each of these meets, where its column has an index. Tells how many rows were looked at.
fn push_met(
    alloc: Global,
    join: &Join,
    so_far: &Rows,
    at: usize,
    rows: &Rows,
    links: &Links,
    into: &mut Gained,
) -> Result<usize, OutOfMemory>
    requires there { at < length so_far.now.rows }
    requires named { NameAll join.now.kept.now so_far.now.rows rows.now.rows }
    requires early { (cells row : List ℕ) → Contains so_far.now.rows cells
        → Follows join.now.get.now cells row
        → (link : Link) → Contains links.now link → IsMet cells row link }
    requires arity { into.old.own.arity ≡ length join.now.kept.now }
    ensures arity { OnOk result (into.new.own.arity ≡ into.old.own.arity) }
    ensures rows { OnOk result (GainsOnly (gained_rows join.now.kept.now so_far.now rows.now into.old)
        (gained_rows join.now.kept.now so_far.now rows.now into.new) (IsKept join.now.kept.now
        (IsFollower join.now.get.now (slice_index_or so_far.now.rows at []) rows.now.rows))) }
{
    into.begin();
    if let Some(places) = places_by(alloc, so_far, at, rows, links)? {
        return push_at_places(alloc, join, so_far, at, rows, places.as_slice(), into);
    }
    push_everywhere(alloc, join, so_far, at, rows, into)
}

/// Puts what is kept of each of the rows so far with every one of the rows that follows it at the end, by one of the links
/// where its column has an index. Gives up before the next row so far once more than the most were looked at, and tells
/// whether it went through.
fn push_each_met(
    alloc: Global,
    join: &Join,
    so_far: &Rows,
    rows: &Rows,
    links: &Links,
    most: usize,
    into: &mut Gained,
) -> Result<bool, OutOfMemory>
    requires none { gained_rows join.now.kept.now so_far.now rows.now into.old ≡ [] }
    requires arity { into.old.own.arity ≡ length join.now.kept.now }
    requires named { NameAll join.now.kept.now so_far.now.rows rows.now.rows }
    requires early { (cells row : List ℕ) → Contains so_far.now.rows cells
        → Follows join.now.get.now cells row
        → (link : Link) → Contains links.now link → IsMet cells row link }
    ensures arity { OnOk result (into.new.own.arity ≡ into.old.own.arity) }
    ensures rows { IfOk result (λ through. IsTrue through → (row : List ℕ)
        → Contains (gained_rows join.now.kept.now so_far.now rows.now into.new) row
        ↔ IsKept join.now.kept.now (IsJoin join.now.get.now so_far.now.rows rows.now.rows) row) }
{
    let mut looked: usize = 0;
    'rows: for at in 0..so_far.len() {
        if looked > most {
            return Ok(false);
        }
        let more = push_met(alloc, join, so_far, at, rows, links, into)?;
        looked = looked.saturating_add(more);
    }
    Ok(true)
}

/// What is kept of the rows so far, each with every one of the rows that follows it after it. The rows are found by the
/// first of the links whose column has an index, and where none has one, each row is looked at for each so far. None come
/// where more than the most were looked at before one of the rows so far.
pub(crate) fn joined_reached(
    alloc: Global,
    join: &Join,
    so_far: &Rows,
    rows: &Rows,
    links: &Links,
    most: usize,
) -> Result<Option<Rows>, OutOfMemory>
    requires { (cells row : List ℕ) → Contains so_far.now.rows cells
        → Follows join.now.get.now cells row
        → (link : Link) → Contains links.now link → IsMet cells row link }
    ensures { IfOk result (λ found. MatchOption found Unit (λ it. (row : List ℕ)
        → Contains it.rows row
        ↔ IsKept join.now.kept.now (IsJoin join.now.get.now so_far.now.rows rows.now.rows) row)) }
{
    if !name_all(join.kept, so_far, rows) {
        return Ok(Some(Rows::new(alloc, join.kept.len())?));
    }
    let room = foreseen(so_far, rows, links.is_empty());
    let mut gained = none_gained(alloc, join, so_far, room)?;
    if !push_each_met(alloc, join, so_far, rows, links, most, &mut gained)? {
        return Ok(None);
    }
    let joined = into_rows(alloc, join.kept, so_far, rows, gained)?;
    Ok(Some(joined))
}
