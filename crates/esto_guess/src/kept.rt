//! Joins with a key of the rows so far, and where among what they keep the codes of a row so far stand.
use esto_steps::{Get, Links, Source, Sources};
use esto_term::Places;

/// A get that is joined, what names the codes that are kept of its joined rows, and a key of the rows so far: cells such
/// that no two of these rows have the same codes in all of them. No contract rests on the key: where it is none, rows come
/// twice.
#[derive(Clone, Copy)]
pub struct Keyed<'a> {
    pub get: &'a Get,
    pub kept: &'a Sources,
    pub key: &'a Places,
}

/// Whether the source is the cell at the place.
fn is_cell(source: &Source, place: usize) -> bool {
    match source {
        Source::Code(_) => false,
        Source::Cell(other) => *other == place,
    }
}

/// Where among the kept the cell stands; none where it isn't kept.
fn kept_at(kept: &Sources, cell: usize) -> Option<usize> {
    'sources: for (at, source) in kept.items().iter().enumerate() {
        if is_cell(source, cell) {
            return Some(at);
        }
    }
    None
}

/// Where among the kept a cell of the fragment's row stands that has the code of the cell by one of the links; none where
/// no such cell is kept. Rows so far have so many cells.
fn tied_at(kept: &Sources, links: &Links, width: usize, cell: usize) -> Option<usize> {
    'links: for link in links.items() {
        if is_cell(&link.source, cell) {
            let tied = kept_at(kept, width.saturating_add(link.column));
            if tied.is_some() {
                return tied;
            }
        }
    }
    None
}

/// Where among what the join keeps the code of the cell of a row so far stands, be it the cell itself or one that a link
/// ties to it; none where it isn't kept. Rows so far have so many cells.
pub(crate) fn code_kept_at(join: &Keyed, width: usize, cell: usize) -> Option<usize> {
    let own = kept_at(join.kept, cell);
    if own.is_some() {
        return own;
    }
    let tied = tied_at(join.kept, &join.get.inputs, width, cell);
    if tied.is_some() {
        return tied;
    }
    tied_at(join.kept, &join.get.filters, width, cell)
}

/// Whether the join keeps the codes of each cell of its key. If so, joined rows that follow different rows so far differ,
/// since no two of these are the same in the key. Rows so far have so many cells.
pub fn is_key_kept(join: &Keyed, width: usize) -> bool {
    'cells: for cell in join.key.items() {
        if code_kept_at(join, width, *cell).is_none() {
            return false;
        }
    }
    true
}
