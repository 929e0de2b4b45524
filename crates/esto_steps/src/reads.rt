//! What a join reads of a fragment's rows, and rows that stand for others which have the same codes there.
ghost use Rattle.std.specs.Prelude.{◌≡◌, ◌↔◌, ◌++◌, ◌+◌, ◌<◌, [], List, ℕ, map, flat_map, length, take};
ghost use Rattle.std.specs.Prelude.{Contains, IfOk, OnOk, MatchOption};
ghost use Rattle.esto_steps.specs.declared.steps.Source.TheVariants.{Cell};
ghost use Rattle.esto_steps.specs.Reads.{own_cells, filter_cells, read_cells, StandFor, AreStood};
ghost use Rattle.esto_steps.specs.declared.steps.Link.{Link};
ghost use Rattle.esto_steps.specs.Joined.{IsJoin, IsKept};
ghost use Rattle.esto_steps.specs.Meaning.{IsMet, Follows};

use crate::codes::name_codes;
use crate::cost::{cheap_links, most_looks, patience_for};
use crate::join::{Join, index_by, joined_linked, joined_over};
use crate::links::early_links;
use crate::probe::joined_reached;
use crate::seen::Seen;
use crate::steps::{Link, Links, Source, Sources};
use esto_columns::Rows;
use esto_term::{List, OutOfMemory, Values};
use std::alloc::Global;

/// Puts the cell that the source names past so many at the end, as a cell of the row that stands there.
fn push_own(cells: &mut Sources, width: usize, source: &Source) -> Result<(), OutOfMemory>
    ensures { OnOk result (cells.new ≡ cells.old ++ own_cells width source.now) }
{
    match source {
        Source::Code(_) => Ok(()),
        Source::Cell(place) => {
            if *place < width {
                return Ok(());
            }
            cells.push(Source::Cell(*place - width))
        }
    }
}

/// Puts the columns of the links at the end.
fn push_columns(cells: &mut Sources, links: &Links) -> Result<(), OutOfMemory>
    ensures { OnOk result (cells.new ≡ cells.old ++ map (λ link. Cell link.column) links.now) }
{
    'links: for link in links.items() {
        cells.push(Source::Cell(link.column))?;
    }
    Ok(())
}

/// Puts what the filter reads at the end.
fn push_filter(cells: &mut Sources, width: usize, link: &Link) -> Result<(), OutOfMemory>
    ensures { OnOk result (cells.new ≡ cells.old ++ filter_cells width link.now) }
{
    cells.push(Source::Cell(link.column))?;
    push_own(cells, width, &link.source)
}

/// Puts what the filters read at the end.
fn push_filters(cells: &mut Sources, width: usize, links: &Links) -> Result<(), OutOfMemory>
    ensures { OnOk result (cells.new ≡ cells.old ++ flat_map (filter_cells width) links.now) }
{
    'links: for link in links.items() {
        push_filter(cells, width, link)?;
    }
    Ok(())
}

/// Puts what the sources name past so many cells at the end.
fn push_kept(cells: &mut Sources, width: usize, kept: &Sources) -> Result<(), OutOfMemory>
    ensures { OnOk result (cells.new ≡ cells.old ++ flat_map (own_cells width) kept.now) }
{
    'sources: for source in kept.items() {
        push_own(cells, width, source)?;
    }
    Ok(())
}

/// Puts the cells of the fragment's row that the join reads, where rows so far have so many, into the list, which is
/// empty.
fn put_cells_read(cells: &mut Sources, join: &Join, width: usize) -> Result<(), OutOfMemory>
    requires { cells.old ≡ [] }
    ensures { OnOk result (cells.new ≡ read_cells width join.now.get.now join.now.kept.now) }
{
    push_columns(cells, &join.get.inputs)?;
    push_filters(cells, width, &join.get.filters)?;
    push_kept(cells, width, join.kept)
}

/// The cells of the fragment's row that the join reads, where rows so far have so many.
fn cells_read(alloc: Global, join: &Join, width: usize) -> Result<Sources, OutOfMemory>
    ensures { IfOk result (λ it. it ≡ read_cells width join.now.get.now join.now.kept.now) }
{
    let mut cells = List::new(alloc);
    put_cells_read(&mut cells, join, width)?;
    Ok(cells)
}

/// Whether the cell is one of these.
fn has_cell(cells: &Sources, column: usize) -> bool {
    'cells: for cell in cells.items() {
        if let Source::Cell(place) = cell {
            if *place == column {
                return true;
            }
        }
    }
    false
}

/// Whether each cell of a row of the arity is one of these.
fn has_all(cells: &Sources, arity: usize) -> bool {
    'columns: for column in 0..arity {
        if !has_cell(cells, column) {
            return false;
        }
    }
    true
}

/// Lists that are filled anew for each row: its codes, and those of them that are read.
#[derive(Drop)]
struct Buffers {
    row: Values<u64>,
    key: Values<u64>,
}

/// Puts the row at the place after the few, unless one with the same codes in the cells was seen.
fn push_first(
    alloc: Global,
    rows: &Rows,
    at: usize,
    cells: &Sources,
    buffers: &mut Buffers,
    seen: &mut Seen,
    few: &mut Rows,
) -> Result<(), OutOfMemory>
    requires there { at < length rows.now.rows }
    requires arity { few.old.arity ≡ rows.now.arity }
    requires width { seen.old.arity ≡ length cells.now }
    ensures arity { OnOk result (few.new.arity ≡ few.old.arity) }
    ensures width { OnOk result (seen.new.arity ≡ seen.old.arity) }
    ensures stand { OnOk result
        (AreStood cells.now (take at rows.now.rows) seen.old.rows few.old.rows
        → AreStood cells.now (take (at + 1) rows.now.rows) seen.new.rows few.new.rows) }
{
    if !name_codes(rows, at, cells, &mut buffers.key)? {
        return few.add_from(rows, at, &mut buffers.row);
    }
    if seen.has(buffers.key.items()) {
        return Ok(());
    }
    seen.put(alloc, buffers.key.items())?;
    few.add_from(rows, at, &mut buffers.row)
}

/// Puts the first of the rows for each list of codes in the cells after the few.
fn push_firsts(
    alloc: Global,
    rows: &Rows,
    cells: &Sources,
    buffers: &mut Buffers,
    seen: &mut Seen,
    few: &mut Rows,
) -> Result<(), OutOfMemory>
    requires none { few.old ≡ record { arity = rows.now.arity; rows = [] } }
    requires unseen { seen.old ≡ record { arity = length cells.now; rows = [] } }
    ensures { OnOk result (StandFor cells.now rows.now.rows few.new.rows) }
{
    'rows: for at in 0..rows.len() {
        push_first(alloc, rows, at, cells, buffers, seen, few)?;
    }
    Ok(())
}

/// Puts some of the rows, which stand for all where only the cells are read, after the few.
fn push_few(alloc: Global, rows: &Rows, cells: &Sources, few: &mut Rows) -> Result<(), OutOfMemory>
    requires { few.old ≡ record { arity = rows.now.arity; rows = [] } }
    ensures { OnOk result (StandFor cells.now rows.now.rows few.new.rows) }
{
    let mut seen = Seen::new(alloc, cells.len(), rows.len())?;
    let mut buffers = Buffers {
        row: Values::new(alloc),
        key: Values::new(alloc),
    };
    push_firsts(alloc, rows, cells, &mut buffers, &mut seen, few)
}

/// Some of the rows, which stand for all where only the cells are read.
fn firsts(alloc: Global, rows: &Rows, cells: &Sources) -> Result<Rows, OutOfMemory>
    ensures { IfOk result (λ it. StandFor cells.now rows.now.rows it.rows) }
{
    let mut few = Rows::new(alloc, rows.arity())?;
    push_few(alloc, rows, cells, &mut few)?;
    Ok(few)
}

/// What is kept of the rows so far, each with every one of the rows that follows it after it, where few of the rows are
/// made to stand for all. Each row that follows one so far meets the links, and the cells are those of the rows that
/// the join reads.
fn joined_by(
    alloc: Global,
    join: &Join,
    so_far: &Rows,
    rows: &Rows,
    links: &Links,
    cells: &Sources,
) -> Result<Rows, OutOfMemory>
    requires cells { cells.now ≡ read_cells so_far.now.arity join.now.get.now join.now.kept.now }
    requires early { (cells row : List ℕ) → Contains so_far.now.rows cells
        → Follows join.now.get.now cells row
        → (link : Link) → Contains links.now link → IsMet cells row link }
    ensures { IfOk result (λ it. (row : List ℕ) → Contains it.rows row
        ↔ IsKept join.now.kept.now (IsJoin join.now.get.now so_far.now.rows rows.now.rows) row) }
{
    let _arity = so_far.arity();
    let few = firsts(alloc, rows, cells)?;
    joined_linked(alloc, join, so_far, &few, links)
}

/// The same by an index of the rows by the columns of the links, which is made for it; none where it gives up. Each row that
/// follows one so far meets the links.
fn joined_indexed(
    alloc: Global,
    join: &Join,
    so_far: &Rows,
    rows: &Rows,
    links: &Links,
    whole: bool,
) -> Result<Option<Rows>, OutOfMemory>
    requires { (cells row : List ℕ) → Contains so_far.now.rows cells
        → Follows join.now.get.now cells row
        → (link : Link) → Contains links.now link → IsMet cells row link }
    ensures { IfOk result (λ found. MatchOption found Unit (λ it. (row : List ℕ)
        → Contains it.rows row
        ↔ IsKept join.now.kept.now (IsJoin join.now.get.now so_far.now.rows rows.now.rows) row)) }
{
    let patience = patience_for(so_far, rows, whole);
    let index = index_by(alloc, rows, links)?;
    joined_over(alloc, join, so_far, rows, links, &index, patience)
}

/// The same by an index of the rows, unless it gives up. Then few of the rows are made to stand for all, and at once where
/// there are no links and a cell of the rows isn't read. Each row that follows one so far meets the links, and the cells
/// are those of the rows that the join reads.
fn joined_read(
    alloc: Global,
    join: &Join,
    so_far: &Rows,
    rows: &Rows,
    links: &Links,
    cells: &Sources,
) -> Result<Rows, OutOfMemory>
    requires cells { cells.now ≡ read_cells so_far.now.arity join.now.get.now join.now.kept.now }
    requires early { (cells row : List ℕ) → Contains so_far.now.rows cells
        → Follows join.now.get.now cells row
        → (link : Link) → Contains links.now link → IsMet cells row link }
    ensures { IfOk result (λ it. (row : List ℕ) → Contains it.rows row
        ↔ IsKept join.now.kept.now (IsJoin join.now.get.now so_far.now.rows rows.now.rows) row) }
{
    let whole = has_all(cells, rows.arity());
    if links.is_empty() && !whole {
        return joined_by(alloc, join, so_far, rows, links, cells);
    }
    if let Some(joined) = joined_indexed(alloc, join, so_far, rows, links, whole)? {
        return Ok(joined);
    }
    joined_by(alloc, join, so_far, rows, links, cells)
}

/// The same, where the rows have no indexes that serve.
fn joined_wide(
    alloc: Global,
    join: &Join,
    so_far: &Rows,
    rows: &Rows,
    links: &Links,
) -> Result<Rows, OutOfMemory>
    requires { (cells row : List ℕ) → Contains so_far.now.rows cells
        → Follows join.now.get.now cells row
        → (link : Link) → Contains links.now link → IsMet cells row link }
    ensures { IfOk result (λ it. (row : List ℕ) → Contains it.rows row
        ↔ IsKept join.now.kept.now (IsJoin join.now.get.now so_far.now.rows rows.now.rows) row) }
{
    let cells = cells_read(alloc, join, so_far.arity())?;
    joined_read(alloc, join, so_far, rows, links, &cells)
}

/// The same, where the rows are found by an index that they have and it is cheap, and where there is no more than one
/// row so far; else none.
fn joined_cheaply(
    alloc: Global,
    join: &Join,
    so_far: &Rows,
    rows: &Rows,
    links: &Links,
) -> Result<Option<Rows>, OutOfMemory>
    requires { (cells row : List ℕ) → Contains so_far.now.rows cells
        → Follows join.now.get.now cells row
        → (link : Link) → Contains links.now link → IsMet cells row link }
    ensures { IfOk result (λ found. MatchOption found Unit (λ it. (row : List ℕ)
        → Contains it.rows row
        ↔ IsKept join.now.kept.now (IsJoin join.now.get.now so_far.now.rows rows.now.rows) row)) }
{
    let cheap = cheap_links(alloc, so_far, rows, links)?;
    if so_far.len() > 1 && cheap.is_empty() {
        return Ok(None);
    }
    joined_reached(alloc, join, so_far, rows, &cheap, most_looks(so_far, rows))
}

/// The same, where each row that follows one so far meets the links. Where it is cheap the rows are found by an index
/// that they have, and for one row so far each is looked at once.
fn joined_early(
    alloc: Global,
    join: &Join,
    so_far: &Rows,
    rows: &Rows,
    links: &Links,
) -> Result<Rows, OutOfMemory>
    requires { (cells row : List ℕ) → Contains so_far.now.rows cells
        → Follows join.now.get.now cells row
        → (link : Link) → Contains links.now link → IsMet cells row link }
    ensures { IfOk result (λ it. (row : List ℕ) → Contains it.rows row
        ↔ IsKept join.now.kept.now (IsJoin join.now.get.now so_far.now.rows rows.now.rows) row) }
{
    if let Some(joined) = joined_cheaply(alloc, join, so_far, rows, links)? {
        return Ok(joined);
    }
    joined_wide(alloc, join, so_far, rows, links)
}

/// What is kept of the rows so far, each with every one of the rows that follows it after it. An index of the rows by
/// one column serves to find them where it is cheap, and for one row so far none is needed. Else an index is made; and
/// where a join by it looks at many rows for few that it gives, only the first of those that are the same in the cells
/// that are read is joined.
pub fn joined_firsts(
    alloc: Global,
    join: &Join,
    so_far: &Rows,
    rows: &Rows,
) -> Result<Rows, OutOfMemory>
    ensures { IfOk result (λ it. (row : List ℕ) → Contains it.rows row
        ↔ IsKept join.now.kept.now (IsJoin join.now.get.now so_far.now.rows rows.now.rows) row) }
{
    let width = so_far.arity();
    let links = early_links(alloc, join.get, width)?;
    joined_early(alloc, join, so_far, rows, &links)
}
