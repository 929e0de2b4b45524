//! Rows so far joined with rows of a fragment.
ghost use Rattle.std.specs.Prelude.{◌≡◌, ◌↔◌, ◌<◌, ◌≤◌, [], List, ℕ, Some, slice_get, slice_index_or, length, map};
ghost use Rattle.std.specs.Prelude.{Contains, IfOk, OnOk, IsTrue, MatchOption};
ghost use Rattle.esto_steps.specs.Meaning.{IsMet, Follows};
ghost use Rattle.esto_steps.specs.declared.steps.Link.{Link};
ghost use Rattle.esto_steps.specs.declared.steps.Source.{Source};
ghost use Rattle.esto_steps.specs.declared.steps.Source.TheVariants.{Cell};
ghost use Rattle.esto_columns.specs.Indexed.{AreChains, bucket_of};
ghost use Rattle.esto_steps.specs.Indexed.{FindsRows};
ghost use Rattle.esto_steps.specs.Joined.{IsJoin, IsFollower, IsFollowerAt, IsKept, GainsOnly};
ghost use Rattle.esto_steps.specs.Named.{NamesCodes};
ghost use Rattle.esto_steps.specs.Paired.{gained_rows, NameAll};

use crate::codes::{each_met, each_passed, name_codes};
use crate::cost::Patience;
use crate::gained::{Gained, into_rows, put_unseen};
use crate::gather::name_all;
use crate::index::index_of;
use crate::links::{columns_of, sources_of};
use crate::pairs::Pair;
use crate::steps::{Get, Links, Sources};
use esto_columns::{Index, Rows};
use esto_term::{OutOfMemory, Values};
use std::alloc::Global;

/// A get that is joined, what names the codes that are kept of its joined rows, and whether what is kept of pairs of
/// different rows so far differs. No contract rests on this: where it is wrongly told, rows come twice.
#[derive(Clone, Copy)]
pub struct Join<'a> {
    pub get: &'a Get,
    pub kept: &'a Sources,
    pub in_stretches: bool,
}

/// Whether the pair's row of the fragment follows its row so far.
fn follows(get: &Get, so_far: &Rows, rows: &Rows, pair: Pair) -> bool
    requires left { pair.left < length so_far.now.rows }
    requires right { pair.right < length rows.now.rows }
    ensures { IsTrue result ↔ Follows get.now (slice_index_or so_far.now.rows pair.left [])
        (slice_index_or rows.now.rows pair.right []) }
{
    each_met(so_far, rows, pair, &get.inputs) && each_passed(so_far, rows, pair, &get.filters)
}

/// Puts what is kept of the pair at the end, where its row of the fragment is there and follows its row so far, unless the
/// stretch has it.
pub(crate) fn push_follower(
    alloc: Global,
    join: &Join,
    so_far: &Rows,
    rows: &Rows,
    pair: Pair,
    into: &mut Gained,
) -> Result<(), OutOfMemory>
    requires there { pair.left < length so_far.now.rows }
    requires named { NameAll join.now.kept.now so_far.now.rows rows.now.rows }
    requires arity { into.old.own.arity ≡ length join.now.kept.now }
    ensures arity { OnOk result (into.new.own.arity ≡ into.old.own.arity) }
    ensures rows { OnOk result (GainsOnly (gained_rows join.now.kept.now so_far.now rows.now into.old)
        (gained_rows join.now.kept.now so_far.now rows.now into.new) (IsKept join.now.kept.now
        (IsFollowerAt join.now.get.now (slice_index_or so_far.now.rows pair.left []) rows.now.rows
        pair.right))) }
{
    let _width = so_far.arity();
    if pair.right >= rows.len() {
        return Ok(());
    }
    if !follows(join.get, so_far, rows, pair) {
        return Ok(());
    }
    put_unseen(alloc, join.kept, so_far, rows, pair, into)
}

/// Puts what is kept of the row so far at the place with each of the rows that follows it at the end, of the rows whose
/// keys are in one bucket with the key. Tells how many places were looked at.
fn push_followers(
    alloc: Global,
    join: &Join,
    so_far: &Rows,
    at: usize,
    rows: &Rows,
    index: &Index,
    key: &[u64],
    into: &mut Gained,
) -> Result<usize, OutOfMemory>
    requires there { at < length so_far.now.rows }
    requires named { NameAll join.now.kept.now so_far.now.rows rows.now.rows }
    requires arity { into.old.own.arity ≡ length join.now.kept.now }
    ensures arity { OnOk result (into.new.own.arity ≡ into.old.own.arity) }
    ensures rows { OnOk result ((buckets : List ℕ) → AreChains index.now buckets
        → GainsOnly (gained_rows join.now.kept.now so_far.now rows.now into.old)
        (gained_rows join.now.kept.now so_far.now rows.now into.new) (λ it. (place : ℕ)
        × (slice_get buckets place ≡ Some (bucket_of (length index.now.last) key.now))
        × IsKept join.now.kept.now (IsFollowerAt join.now.get.now
        (slice_index_or so_far.now.rows at []) rows.now.rows place) it)) }
{
    let mut next = index.last_of(key);
    let mut looked: usize = 0;
    'places: while next > 0 {
        let place = next - 1;
        let pair = Pair {
            left: at,
            right: place,
        };
        push_follower(alloc, join, so_far, rows, pair, into)?;
        next = index.before(place);
        looked = looked.saturating_add(1);
    }
    Ok(looked)
}

/// Puts what is kept of the row so far at the place with each of the rows that follows it at the end. Its key is read into
/// the list. Tells how many places were looked at.
fn push_joined(
    alloc: Global,
    join: &Join,
    so_far: &Rows,
    at: usize,
    rows: &Rows,
    sources: &Sources,
    index: &Index,
    key: &mut Values<u64>,
    into: &mut Gained,
) -> Result<usize, OutOfMemory>
    requires there { at < length so_far.now.rows }
    requires named { NameAll join.now.kept.now so_far.now.rows rows.now.rows }
    requires found { (columns : List Source) × FindsRows rows.now.rows columns index.now
        × ((cells row : List ℕ) → Contains so_far.now.rows cells
        → Follows join.now.get.now cells row
        → (codes : List ℕ) × NamesCodes cells sources.now codes × NamesCodes row columns codes) }
    requires arity { into.old.own.arity ≡ length join.now.kept.now }
    ensures arity { OnOk result (into.new.own.arity ≡ into.old.own.arity) }
    ensures rows { OnOk result (GainsOnly (gained_rows join.now.kept.now so_far.now rows.now into.old)
        (gained_rows join.now.kept.now so_far.now rows.now into.new) (IsKept join.now.kept.now
        (IsFollower join.now.get.now (slice_index_or so_far.now.rows at []) rows.now.rows))) }
{
    if !name_codes(so_far, at, sources, key)? {
        return Ok(0);
    }
    into.begin();
    push_followers(alloc, join, so_far, at, rows, index, key.items(), into)
}

/// Whether the join, which looked at so many places, gives up.
fn gives_up(patience: Patience, looked: usize, gained: &Gained) -> bool
    ensures { IsTrue result → patience.most < looked }
{
    looked > patience.most && looked > gained.count().saturating_mul(patience.times)
}

/// Puts what is kept of each of the rows so far with every one of the rows that follows it at the end. Tells whether it went
/// through; if not, it gave up before one of the rows so far.
fn push_each_joined(
    alloc: Global,
    join: &Join,
    so_far: &Rows,
    rows: &Rows,
    sources: &Sources,
    index: &Index,
    key: &mut Values<u64>,
    patience: Patience,
    into: &mut Gained,
) -> Result<bool, OutOfMemory>
    requires none { gained_rows join.now.kept.now so_far.now rows.now into.old ≡ [] }
    requires arity { into.old.own.arity ≡ length join.now.kept.now }
    requires named { NameAll join.now.kept.now so_far.now.rows rows.now.rows }
    requires found { (columns : List Source) × FindsRows rows.now.rows columns index.now
        × ((cells row : List ℕ) → Contains so_far.now.rows cells
        → Follows join.now.get.now cells row
        → (codes : List ℕ) × NamesCodes cells sources.now codes × NamesCodes row columns codes) }
    ensures arity { OnOk result (into.new.own.arity ≡ into.old.own.arity) }
    ensures through { IfOk result (λ through. 18446744073709551615 ≤ patience.most → IsTrue through) }
    ensures rows { IfOk result (λ through. IsTrue through → (row : List ℕ)
        → Contains (gained_rows join.now.kept.now so_far.now rows.now into.new) row
        ↔ IsKept join.now.kept.now (IsJoin join.now.get.now so_far.now.rows rows.now.rows) row) }
{
    let mut looked: usize = 0;
    'rows: for at in 0..so_far.len() {
        if gives_up(patience, looked, into) {
            return Ok(false);
        }
        let more = push_joined(alloc, join, so_far, at, rows, sources, index, key, into)?;
        looked = looked.saturating_add(more);
    }
    Ok(true)
}

/// An index of the rows by the columns of the links.
pub(crate) fn index_by(alloc: Global, rows: &Rows, links: &Links) -> Result<Index, OutOfMemory>
    ensures { IfOk result
        (FindsRows rows.now.rows (map (λ link. Cell link.column) links.now)) }
{
    let columns = columns_of(alloc, links)?;
    let mut key = Values::new(alloc);
    index_of(alloc, rows, &columns, &mut key)
}

/// Puts what is kept of each of the rows so far with every one of the rows that follows it at the end, by an index of
/// these by the columns of the links. The links are ones that each row meets which follows one so far. Tells whether it went
/// through; if not, it gave up before one of the rows so far.
fn push_by_index(
    alloc: Global,
    join: &Join,
    so_far: &Rows,
    rows: &Rows,
    links: &Links,
    index: &Index,
    patience: Patience,
    into: &mut Gained,
) -> Result<bool, OutOfMemory>
    requires none { gained_rows join.now.kept.now so_far.now rows.now into.old ≡ [] }
    requires arity { into.old.own.arity ≡ length join.now.kept.now }
    requires named { NameAll join.now.kept.now so_far.now.rows rows.now.rows }
    requires own { FindsRows rows.now.rows (map (λ link. Cell link.column) links.now) index.now }
    requires early { (cells row : List ℕ) → Contains so_far.now.rows cells
        → Follows join.now.get.now cells row
        → (link : Link) → Contains links.now link → IsMet cells row link }
    ensures arity { OnOk result (into.new.own.arity ≡ into.old.own.arity) }
    ensures through { IfOk result (λ through. 18446744073709551615 ≤ patience.most → IsTrue through) }
    ensures rows { IfOk result (λ through. IsTrue through → (row : List ℕ)
        → Contains (gained_rows join.now.kept.now so_far.now rows.now into.new) row
        ↔ IsKept join.now.kept.now (IsJoin join.now.get.now so_far.now.rows rows.now.rows) row) }
{
    let sources = sources_of(alloc, links)?;
    let mut key = Values::new(alloc);
    push_each_joined(
        alloc, join, so_far, rows, &sources, index, &mut key, patience, into,
    )
}

/// Nothing gained yet, with room for so many rows. Where pairs of different rows so far differ in what is kept, each is
/// looked for only among those of one.
pub(crate) fn none_gained(
    alloc: Global,
    join: &Join,
    so_far: &Rows,
    room: usize,
) -> Result<Gained, OutOfMemory>
    ensures { IfOk result (λ it. it ≡ record {
      own = record { arity = length join.now.kept.now; rows = [] };
      pairs = [];
    }) }
{
    if so_far.len() > 1 && join.in_stretches {
        return Gained::in_stretches(alloc, join.kept.len(), room);
    }
    Gained::new(alloc, join.kept.len(), room)
}

/// What is kept of the rows so far, each with every one of the rows that follows it after it, by an index of the rows
/// by the columns of the links, which each row meets that follows one so far; none where it gives up.
pub(crate) fn joined_over(
    alloc: Global,
    join: &Join,
    so_far: &Rows,
    rows: &Rows,
    links: &Links,
    index: &Index,
    patience: Patience,
) -> Result<Option<Rows>, OutOfMemory>
    requires own { FindsRows rows.now.rows (map (λ link. Cell link.column) links.now) index.now }
    requires early { (cells row : List ℕ) → Contains so_far.now.rows cells
        → Follows join.now.get.now cells row
        → (link : Link) → Contains links.now link → IsMet cells row link }
    ensures { IfOk result (λ found. MatchOption found Unit (λ it. (row : List ℕ)
        → Contains it.rows row
        ↔ IsKept join.now.kept.now (IsJoin join.now.get.now so_far.now.rows rows.now.rows) row)) }
{
    if !name_all(join.kept, so_far, rows) {
        return Ok(Some(Rows::new(alloc, join.kept.len())?));
    }
    let mut gained = none_gained(alloc, join, so_far, so_far.len())?;
    if !push_by_index(
        alloc,
        join,
        so_far,
        rows,
        links,
        index,
        patience,
        &mut gained,
    )? {
        return Ok(None);
    }
    let joined = into_rows(alloc, join.kept, so_far, rows, gained)?;
    Ok(Some(joined))
}

/// The same without giving up.
fn joined_all(
    alloc: Global,
    join: &Join,
    so_far: &Rows,
    rows: &Rows,
    links: &Links,
    index: &Index,
) -> Result<Rows, OutOfMemory>
    requires own { FindsRows rows.now.rows (map (λ link. Cell link.column) links.now) index.now }
    requires early { (cells row : List ℕ) → Contains so_far.now.rows cells
        → Follows join.now.get.now cells row
        → (link : Link) → Contains links.now link → IsMet cells row link }
    ensures { IfOk result (λ it. (row : List ℕ) → Contains it.rows row
        ↔ IsKept join.now.kept.now (IsJoin join.now.get.now so_far.now.rows rows.now.rows) row) }
{
    if !name_all(join.kept, so_far, rows) {
        return Rows::new(alloc, join.kept.len());
    }
    let mut gained = none_gained(alloc, join, so_far, so_far.len())?;
    let patience = Patience {
        most: usize::MAX,
        times: 0,
    };
    let _through = push_by_index(
        alloc,
        join,
        so_far,
        rows,
        links,
        index,
        patience,
        &mut gained,
    )?;
    into_rows(alloc, join.kept, so_far, rows, gained)
}

/// The same, where the index is made for it.
pub(crate) fn joined_linked(
    alloc: Global,
    join: &Join,
    so_far: &Rows,
    rows: &Rows,
    links: &Links,
) -> Result<Rows, OutOfMemory>
    requires { (cells row : List ℕ) → Contains so_far.now.rows cells
        → Follows join.now.get.now cells row
        → (link : Link) → Contains links.now link → IsMet cells row link }
    ensures { IfOk result (λ it. (row : List ℕ) → Contains it.rows row
        ↔ IsKept join.now.kept.now (IsJoin join.now.get.now so_far.now.rows rows.now.rows) row) }
{
    let index = index_by(alloc, rows, links)?;
    joined_all(alloc, join, so_far, rows, links, &index)
}
