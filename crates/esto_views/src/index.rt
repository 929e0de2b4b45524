//! The places of terms, by a sorted index.
ghost use Rattle.std.specs.Prelude.{◌≡◌, true, false, IfOk, MatchOption};
ghost use Rattle.std.specs.List.Sorted.{IsPartitionPoint};
ghost use Rattle.std.specs.Ordering.{is_lt};
ghost use Rattle.esto_term.specs.Order.{term_cmp};
ghost use Rattle.esto_views.specs.Indexes.{entry_cmp, AreEntries, IsIndex, IsInOrder, HasNoEntry, IsFirstEntry};

use esto_term::{OutOfMemory, Term};
use std::alloc::Global;
use std::cmp::Ordering;

/// A term, with one of its places in a list.
#[derive(Clone, Copy)]
pub struct Entry<'a> {
    pub term: &'a Term,
    pub place: usize,
}

/// The order of entries: by term, and then by place.
fn compare_entries(entry: &Entry, other: &Entry) -> Ordering
    ensures { result ≡ entry_cmp entry.now other.now }
{
    entry
        .term
        .compare(other.term)
        .then(entry.place.cmp(&other.place))
}

/// The entries of the terms.
fn entries_of<'a>(alloc: Global, terms: &'a [Term]) -> Result<Vec<Entry<'a>>, OutOfMemory>
    ensures { IfOk result (λ entries. AreEntries terms.now entries.items) }
{
    let mut entries = Vec::new(alloc);
    'terms: for (place, term) in terms.iter().enumerate() {
        let Ok(()) = entries.push(Entry { term, place }) else {
            return Err(OutOfMemory);
        };
    }
    Ok(entries)
}

/// The index of the terms: their entries, in order.
pub fn index_of<'a>(alloc: Global, terms: &'a [Term]) -> Result<Vec<Entry<'a>>, OutOfMemory>
    ensures { IfOk result (λ index. IsIndex terms.now index.items) }
{
    let mut entries = entries_of(alloc, terms)?;
    entries.sort_by(|entry, other| compare_entries(entry, other))?;
    Ok(entries)
}

/// How many entries have lesser terms than this one: they come first.
fn lesser_entries(index: &[Entry], term: &Term) -> usize
    requires { IsInOrder index.now }
    ensures { IsPartitionPoint (λ entry. is_lt (term_cmp entry.term.now term.now) ≡ true)
        (λ entry. is_lt (term_cmp entry.term.now term.now) ≡ false) index.now result }
{
    index.partition_point(|entry| entry.term.compare(term).is_lt())
}

/// The place of the term's first entry, or None where it has none.
pub fn first_place(index: &[Entry], term: &Term) -> Option<usize>
    requires { IsInOrder index.now }
    ensures { MatchOption result (HasNoEntry index.now term.now) (IsFirstEntry index.now term.now) }
{
    let first = lesser_entries(index, term);
    let entry = index.get(first)?;
    if entry.term.compare(term).is_eq() {
        Some(entry.place)
    } else {
        None
    }
}
