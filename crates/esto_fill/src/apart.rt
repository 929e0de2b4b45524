//! Two sets of rows of texts, and the least row that is in one of them alone.
ghost use Rattle.std.specs.Prelude.{◌≡◌, ◌↔◌, List, Some, map, Contains, IfOk};
ghost use Rattle.std.specs.Cmp.Lexicographic.{slice_cmp};
ghost use Rattle.std.specs.Ordering.{nat_cmp};
ghost use Rattle.esto_rows.specs.Lent.{AreRising};
ghost use Rattle.esto_ports.specs.declared.difference.Difference.TheVariants as difference;
ghost use Rattle.esto_query.specs.Rows.{IsAscending};
ghost use Rattle.esto_term.specs.declared.term.Term.{Term};
ghost use Rattle.esto_term.specs.declared.term.Term.TheVariants.{Const};
ghost use Rattle.esto_fill.specs.Differences.{AreOne};
ghost use Rattle.esto_fill.specs.Judging.{TellsApart};

use crate::rows::constant_texts;
use esto_ports::Difference;
use esto_query::in_order;
use esto_relmodel::constants;
use esto_term::{OutOfMemory, Replicate, TermRows, Terms, Text, TextRow, TextRows, push};
use std::alloc::Global;
use std::cmp::Ordering;

// The rows of the constants of these cells.
fn constant_rows(alloc: Global, rows: &[TextRow]) -> Result<Vec<Terms>, OutOfMemory>
    ensures { IfOk result (λ it. it.items ≡ map (map Const) rows.now) }
{
    let mut terms = Vec::new(alloc);
    'rows: for row in rows {
        let own = constants(alloc, row.items())?;
        push(&mut terms, own)?;
    }
    Ok(terms)
}

// The rows of the constants of these cells, each once, in the order of terms.
fn ordered_rows(alloc: Global, rows: &TextRows) -> Result<TermRows, OutOfMemory>
    ensures rows { IfOk result (λ it. (row : List Term)
        → Contains it row ↔ Contains (map (map Const) rows.now) row) }
    ensures ascending { IfOk result IsAscending }
{
    let mut terms = constant_rows(alloc, rows.items())?;
    in_order(alloc, &mut terms)
}

/// The rows, each once, in order, cell by cell by bytes.
pub fn ordered_texts(alloc: Global, rows: &TextRows) -> Result<TextRows, OutOfMemory>
    ensures rows { IfOk result (λ it. AreOne (Contains it) (Contains rows.now)) }
    ensures rising { IfOk result AreRising }
{
    let terms = ordered_rows(alloc, rows)?;
    constant_texts(alloc, terms.items())
}

// The order of the rows, cell by cell by bytes.
fn compare_rows(row: &[Text], other: &[Text]) -> Ordering
    ensures { result ≡ slice_cmp (slice_cmp nat_cmp) row.now other.now }
{
    'texts: for (place, text) in row.iter().enumerate() {
        if place >= other.len() {
            return Ordering::Greater;
        }
        let order = text.bytes().cmp(other[place].bytes());
        if order.is_ne() {
            return order;
        }
    }
    row.len().cmp(&other.len())
}

// The fragment of the name lacks the row.
fn missing(alloc: Global, name: &Text, row: &TextRow) -> Result<Option<Difference>, OutOfMemory>
    ensures { IfOk result (λ it. it ≡ Some (difference.Missing name.now row.now)) }
{
    let name = name.copy(alloc)?;
    let row = row.copy(alloc)?;
    Ok(Some(Difference::Missing(name, row)))
}

// The fragment of the name holds the row too many.
fn extra(alloc: Global, name: &Text, row: &TextRow) -> Result<Option<Difference>, OutOfMemory>
    ensures { IfOk result (λ it. it ≡ Some (difference.Extra name.now row.now)) }
{
    let name = name.copy(alloc)?;
    let row = row.copy(alloc)?;
    Ok(Some(Difference::Extra(name, row)))
}

/// The least row, cell by cell by bytes, that is in one of the two lists alone: the fragment of the name lacks it where
/// the first list has it, and else holds it too many. None comes exactly where both have the same rows.
pub fn apart_rows(
    alloc: Global,
    name: &Text,
    own: &[TextRow],
    held: &[TextRow],
) -> Result<Option<Difference>, OutOfMemory>
    requires own { AreRising own.now }
    requires held { AreRising held.now }
    ensures { IfOk result (TellsApart name.now own.now held.now) }
{
    'rows: for (place, row) in own.iter().enumerate() {
        if place >= held.len() {
            return missing(alloc, name, row);
        }
        match compare_rows(row.items(), held[place].items()) {
            Ordering::Less => return missing(alloc, name, row),
            Ordering::Greater => return extra(alloc, name, &held[place]),
            Ordering::Equal => {}
        }
    }
    if own.len() < held.len() {
        return extra(alloc, name, &held[own.len()]);
    }
    Ok(None)
}
