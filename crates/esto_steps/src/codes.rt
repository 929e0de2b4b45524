//! Codes that sources name in rows, and links that rows meet.
ghost use Rattle.std.specs.Prelude.{◌≡◌, ◌↔◌, ◌++◌, ◌<◌, [], ℕ, Some, length, slice_get, slice_index_or, Contains, IfOk, IsTrue};
ghost use Rattle.esto_steps.specs.declared.steps.Link.{Link};
ghost use Rattle.esto_steps.specs.Meaning.{code_at, IsMet};
ghost use Rattle.esto_steps.specs.Named.{Names};
ghost use Rattle.esto_steps.specs.Paired.{code_in};

use crate::pairs::Pair;
use crate::steps::{Links, Source, Sources};
use esto_columns::Rows;
use esto_term::{OutOfMemory, Values};

/// The code that the source names in the row at the place.
pub(crate) fn code_at(rows: &Rows, place: usize, source: &Source) -> Option<u64>
    requires { place < length rows.now.rows }
    ensures { result ≡ code_at (slice_index_or rows.now.rows place []) source.now }
{
    match source {
        Source::Code(code) => Some(*code),
        Source::Cell(column) => rows.code(place, *column),
    }
}

/// Makes the codes those that the sources name in the row at the place, and tells whether each names one. Where one
/// doesn't, the codes are any.
pub(crate) fn name_codes(
    rows: &Rows,
    place: usize,
    sources: &Sources,
    codes: &mut Values<u64>,
) -> Result<bool, OutOfMemory>
    requires { place < length rows.now.rows }
    ensures { IfOk result
        (Names (slice_index_or rows.now.rows place []) sources.now codes.new) }
{
    codes.truncate(0);
    'sources: for source in sources.items() {
        let Some(code) = code_at(rows, place, source) else {
            return Ok(false);
        };
        codes.push(code)?;
    }
    Ok(true)
}

/// The code in the column of the row at the place, if there are such a row and column.
fn held(rows: &Rows, place: usize, column: usize) -> Option<u64>
    ensures { result ≡ slice_get (slice_index_or rows.now.rows place []) column }
{
    if place >= rows.len() {
        return None;
    }
    rows.code(place, column)
}

/// The code that the source names in the pair.
pub(crate) fn code_in(so_far: &Rows, rows: &Rows, pair: Pair, source: &Source) -> Option<u64>
    ensures { result ≡ code_in so_far.now rows.now pair source.now }
{
    match source {
        Source::Code(code) => Some(*code),
        Source::Cell(at) => {
            let width = so_far.arity();
            if *at < width {
                held(so_far, pair.left, *at)
            } else {
                held(rows, pair.right, *at - width)
            }
        }
    }
}

/// Whether the row at the place has the code in the column, where it is one.
fn has_code(rows: &Rows, place: usize, column: usize, code: Option<u64>) -> bool
    requires { place < length rows.now.rows }
    ensures { IsTrue result ↔ ((it : ℕ)
        × (slice_get (slice_index_or rows.now.rows place []) column ≡ Some it) × (code ≡ Some it)) }
{
    let Some(code) = code else {
        return false;
    };
    let Some(held) = rows.code(place, column) else {
        return false;
    };
    held == code
}

/// Whether the pair's row of the fragment meets each of the links, whose sources are in its row so far.
pub(crate) fn each_met(so_far: &Rows, rows: &Rows, pair: Pair, links: &Links) -> bool
    requires left { pair.left < length so_far.now.rows }
    requires right { pair.right < length rows.now.rows }
    ensures { IsTrue result ↔ ((link : Link) → Contains links.now link
        → IsMet (slice_index_or so_far.now.rows pair.left [])
        (slice_index_or rows.now.rows pair.right []) link) }
{
    'links: for link in links.items() {
        let code = code_at(so_far, pair.left, &link.source);
        if !has_code(rows, pair.right, link.column, code) {
            return false;
        }
    }
    true
}

/// The same, where the sources may be in the row of the fragment too.
pub(crate) fn each_passed(so_far: &Rows, rows: &Rows, pair: Pair, links: &Links) -> bool
    requires left { pair.left < length so_far.now.rows }
    requires right { pair.right < length rows.now.rows }
    ensures { IsTrue result ↔ ((link : Link) → Contains links.now link
        → IsMet (slice_index_or so_far.now.rows pair.left []
        ++ slice_index_or rows.now.rows pair.right [])
        (slice_index_or rows.now.rows pair.right []) link) }
{
    let _width = so_far.arity();
    'links: for link in links.items() {
        let code = code_in(so_far, rows, pair, &link.source);
        if !has_code(rows, pair.right, link.column, code) {
            return false;
        }
    }
    true
}
