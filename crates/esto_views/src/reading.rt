//! The terms of rows and a head, by first occurrence.
ghost use Rattle.std.specs.Prelude.{◌≡◌, ◌⊎◌, ◌+◌, ◌++◌, true, false, Some, take, slice_get};
ghost use Rattle.std.specs.Prelude.{Contains, IfOk, OnOk};
ghost use Rattle.esto_semantics.specs.Maps.{IsConstant};
ghost use Rattle.esto_views.specs.Reading.{terms_read, AreFirstOccurrences};

use crate::indexed::IndexedTerms;
use esto_query::Facts;
use esto_term::{List, OutOfMemory, Replicate, Term, Terms};
use std::alloc::Global;

/// Puts a copy of the row's terms at the end.
fn append_copy(alloc: Global, row: &Terms, terms: &mut Terms) -> Result<(), OutOfMemory>
    ensures { OnOk result (terms.new ≡ terms.old ++ row.now) }
{
    let copy = row.copy(alloc)?;
    terms.append(copy)
}

/// The terms of the rows, in order, and then those of the head.
fn terms_read(alloc: Global, rows: &Facts, head: &Terms) -> Result<Terms, OutOfMemory>
    ensures { IfOk result (λ terms. terms ≡ terms_read rows.now head.now) }
{
    let mut terms = List::new(alloc);
    'rows: for row in rows.items() {
        append_copy(alloc, &row.terms, &mut terms)?;
    }
    append_copy(alloc, head, &mut terms)?;
    Ok(terms)
}

/// Whether the term, which stands at that place, is no constant and stands at none before.
fn is_new(terms: &IndexedTerms, place: usize, term: &Term) -> bool
    requires { slice_get terms.now place ≡ Some term.now }
    ensures new { result ≡ true
        → ¬ (IsConstant term.now) × ¬ (Contains (take place terms.now) term.now) }
    ensures known { result ≡ false
        → IsConstant term.now ⊎ Contains (take place terms.now) term.now }
{
    match terms.first(term) {
        Some(first) => first == place && !term.is_constant(),
        None => false,
    }
}

/// Reads the term at that place: where those seen are the first occurrences before it, they then
/// are those up to it.
fn read_term(
    alloc: Global,
    terms: &IndexedTerms,
    place: usize,
    term: &Term,
    seen: &mut Terms,
) -> Result<(), OutOfMemory>
    requires { slice_get terms.now place ≡ Some term.now }
    ensures { OnOk result (AreFirstOccurrences (take place terms.now) seen.old
        → AreFirstOccurrences (take (place + 1) terms.now) seen.new) }
{
    if !is_new(terms, place, term) {
        return Ok(());
    }
    let copy = term.copy(alloc)?;
    seen.push(copy)
}

/// Those of the terms that are no constants, each once, by first occurrence.
fn seen_in(alloc: Global, terms: &IndexedTerms) -> Result<Terms, OutOfMemory>
    ensures { IfOk result (λ seen. AreFirstOccurrences terms.now seen) }
{
    let mut seen = List::new(alloc);
    'terms: for (place, term) in terms.items().iter().enumerate() {
        read_term(alloc, terms, place, term, &mut seen)?;
    }
    Ok(seen)
}

/// The terms that are no constants, each once, by their first occurrence in the rows, in order, and then in the
/// head.
pub fn first_occurrences(alloc: Global, rows: &Facts, head: &Terms) -> Result<Terms, OutOfMemory>
    ensures { IfOk result (λ seen. AreFirstOccurrences (terms_read rows.now head.now) seen) }
{
    let read = terms_read(alloc, rows, head)?;
    let terms = IndexedTerms::of(alloc, &read)?;
    seen_in(alloc, &terms)
}
