//! Rows that are kept of pairs, column by column.
ghost use Rattle.std.specs.Prelude.{◌≡◌, length, map, replicate, IfOk};
ghost use Rattle.std.specs.Prelude.{◌↔◌, ◌+◌, Contains, IsTrue, false};
ghost use Rattle.esto_steps.specs.declared.steps.Source.{Source};
ghost use Rattle.esto_steps.specs.Named.{IsEarly};
ghost use Rattle.esto_steps.specs.Paired.{code_in, code_or_zero, kept_rows, NameAll, NameNone};

use crate::pairs::Pair;
use crate::steps::{Source, Sources};
use esto_columns::{Column, Rows};
use esto_term::{List, OutOfMemory, Places};
use std::alloc::Global;

/// The places of the pairs' rows so far.
fn lefts_of(alloc: Global, pairs: &List<Pair>) -> Result<Places, OutOfMemory>
    ensures { IfOk result (λ it. it ≡ map (λ pair. pair.left) pairs.now) }
{
    let mut lefts = Places::with_room(alloc, pairs.len())?;
    'pairs: for pair in pairs.items() {
        lefts.push(pair.left)?;
    }
    Ok(lefts)
}

/// The places of the pairs' rows of the fragment.
fn rights_of(alloc: Global, pairs: &List<Pair>) -> Result<Places, OutOfMemory>
    ensures { IfOk result (λ it. it ≡ map (λ pair. pair.right) pairs.now) }
{
    let mut rights = Places::with_room(alloc, pairs.len())?;
    'pairs: for pair in pairs.items() {
        rights.push(pair.right)?;
    }
    Ok(rights)
}

/// The code so many times.
pub(crate) fn repeated(alloc: Global, count: usize, code: u64) -> Result<Column, OutOfMemory>
    ensures { IfOk result (λ it. it ≡ replicate count code) }
{
    let mut column = Column::with_room(alloc, count)?;
    'times: for _time in 0..count {
        column.push(code)?;
    }
    Ok(column)
}

/// The codes that the source names in the pairs, with 0 for one in which it names none. The places are those of the
/// pairs.
fn column_of(
    alloc: Global,
    so_far: &Rows,
    rows: &Rows,
    pairs: &List<Pair>,
    lefts: &[usize],
    rights: &[usize],
    source: &Source,
) -> Result<Column, OutOfMemory>
    requires lefts { lefts.now ≡ map (λ pair. pair.left) pairs.now }
    requires rights { rights.now ≡ map (λ pair. pair.right) pairs.now }
    ensures { IfOk result (λ it. it
        ≡ map (λ pair. code_or_zero (code_in so_far.now rows.now pair source.now)) pairs.now) }
{
    match source {
        Source::Code(code) => repeated(alloc, pairs.len(), *code),
        Source::Cell(at) => {
            let width = so_far.arity();
            if *at < width {
                return so_far.column(*at).at_places(alloc, lefts);
            }
            if *at - width < rows.arity() {
                return rows.column(*at - width).at_places(alloc, rights);
            }
            repeated(alloc, pairs.len(), 0)
        }
    }
}

/// The columns of what is kept of the pairs.
fn kept_columns(
    alloc: Global,
    kept: &Sources,
    so_far: &Rows,
    rows: &Rows,
    pairs: &List<Pair>,
) -> Result<List<Column>, OutOfMemory>
    ensures { IfOk result (λ it. it ≡ map (λ source.
        map (λ pair. code_or_zero (code_in so_far.now rows.now pair source)) pairs.now) kept.now) }
{
    let lefts = lefts_of(alloc, pairs)?;
    let rights = rights_of(alloc, pairs)?;
    let mut columns = List::new(alloc);
    'sources: for source in kept.items() {
        let column = column_of(
            alloc,
            so_far,
            rows,
            pairs,
            lefts.items(),
            rights.items(),
            source,
        )?;
        columns.push(column)?;
    }
    Ok(columns)
}

/// What is kept of the pairs, in order, with 0 for a source that names none in one.
pub(crate) fn gathered(
    alloc: Global,
    kept: &Sources,
    so_far: &Rows,
    rows: &Rows,
    pairs: &List<Pair>,
) -> Result<Rows, OutOfMemory>
    ensures { IfOk result (λ it. it ≡ record {
      arity = length kept.now;
      rows = kept_rows kept.now so_far.now rows.now pairs.now;
    }) }
{
    let columns = kept_columns(alloc, kept, so_far, rows, pairs)?;
    Ok(Rows::of_columns(alloc, columns.into_vec(), pairs.len()))
}

/// Whether the source is a code, or one of so many cells with so many more after them.
fn is_within(source: &Source, width: usize, more: usize) -> bool
    ensures { IsTrue result ↔ IsEarly (width + more) source.now }
{
    match source {
        Source::Code(_) => true,
        Source::Cell(place) => *place < width || *place - width < more,
    }
}

/// Whether each of the sources is a code, or one of so many cells with so many more after them.
pub(crate) fn are_within(sources: &Sources, width: usize, more: usize) -> bool
    ensures { IsTrue result ↔ ((source : Source) → Contains sources.now source
        → IsEarly (width + more) source) }
{
    'sources: for source in sources.items() {
        if !is_within(source, width, more) {
            return false;
        }
    }
    true
}

/// Whether the sources name codes in each row so far with each row of the fragment after it. If not, they name codes in
/// none.
pub(crate) fn name_all(sources: &Sources, so_far: &Rows, rows: &Rows) -> bool
    ensures all { IsTrue result → NameAll sources.now so_far.now.rows rows.now.rows }
    ensures none { result ≡ false → NameNone sources.now so_far.now.rows rows.now.rows }
{
    are_within(sources, so_far.arity(), rows.arity())
}
