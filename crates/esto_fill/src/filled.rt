//! A fragment's file, filled with the rows of its view.
ghost use Rattle.std.specs.Prelude.{◌≡◌, ◌++◌, ◌<◌, All, length, slice_get, IfOk, IfSome};
ghost use Rattle.esto_docmodel.specs.Stores.{IsShapeFor};
ghost use Rattle.esto_docmodel.specs.declared.file.Shape.TheVariants as shapes;
ghost use Rattle.esto_query.specs.Making.{query_of};
ghost use Rattle.esto_semantics.specs.Queries.{IsAnswer};
ghost use Rattle.esto_fill.specs.Databases.{database_of};
ghost use Rattle.esto_fill.specs.Filled.{Fills, IsOpenedAs, SaysRows, with_mark};
ghost use Rattle.esto_ports.specs.Marks.{without_mark};
ghost use Rattle.esto_ports.specs.declared.mark.TheConstants.{MARK};
ghost use Rattle.esto_fill.specs.Placing.{WritesRows};
ghost use Rattle.esto_fill.specs.declared.filled.FillError.TheVariants as filled;

use crate::answering::answer;
use crate::loaded::Loaded;
use crate::rows::AnswerError;
use esto_docs::write_documents;
use esto_keymodel::key_row_fault;
use esto_mapping::{Catalogue, Shape, catalogues_are_sound};
use esto_ports::MARK;
use esto_query::{Query, queries_are_sound};
use esto_stores::{write_keys, write_table};
use esto_term::{Bytes, OutOfMemory, Replicate, Text, TextRows};
use std::alloc::Global;

/// Why a fragment's file is not filled.
#[derive(Drop)]
pub enum FillError {
    /// A row of the view holds a node in this column, counted from 1, and no row holds one in a lesser.
    NodeInRow(u64),
    /// The file is one of keys, and can't hold this cell, which has a tab, a carriage return or a line feed; it is the
    /// first such cell, by row and then by cell.
    KeyText(Text),
    OutOfMemory,
}

impl From<OutOfMemory> for FillError {
    ghost from_gives = { λ _ e. e ≡ filled.OutOfMemory };

    fn from(_: OutOfMemory) -> FillError {
        FillError::OutOfMemory
    }
}

impl From<AnswerError> for FillError {
    ghost use Rattle.std.specs.Prelude.{◌≡◌};
    ghost use Rattle.esto_fill.specs.Filled.{refusal_of};

    ghost from_gives = { λ error e. e ≡ refusal_of error };

    fn from(error: AnswerError) -> FillError {
        match error {
            AnswerError::NodeInRow(column) => FillError::NodeInRow(column),
            AnswerError::OutOfMemory => FillError::OutOfMemory,
        }
    }
}

// The text of a key file with these rows, each of which has as many cells, and at least one; or the first cell that it
// can't hold.
fn keys_of(alloc: Global, rows: &TextRows, columns: usize) -> Result<Bytes, FillError>
    requires some { 0 < columns }
    requires wide { All (λ row. length row ≡ columns) rows.now }
    ensures text { WritesRows shapes.Keys rows.now result }
    ensures opened { IfOk result (SaysRows shapes.Keys columns rows.now) }
{
    'rows: for row in rows.items() {
        if let Some(column) = key_row_fault(row) {
            let cell = row.item(column).copy(alloc)?;
            return Err(FillError::KeyText(cell));
        }
    }
    let text = write_keys(alloc, rows)?;
    Ok(text)
}

/// The text of the rows in the shape, which is one for the view; or the first cell that it can't hold.
pub fn text_of(
    alloc: Global,
    shape: &Shape,
    view: &Query,
    rows: &TextRows,
) -> Result<Bytes, FillError>
    requires fits { IsShapeFor shape.now view.now }
    requires wide { All (λ row. length row ≡ length view.now.head) rows.now }
    ensures text { WritesRows shape.now rows.now result }
    ensures opened { IfOk result (SaysRows shape.now (length view.now.head) rows.now) }
{
    queries_are_sound();
    let columns = view.head.len();
    match shape {
        Shape::Table(names) => {
            let text = write_table(alloc, names, rows)?;
            Ok(text)
        }
        Shape::Documents(layout, pattern) => {
            let text = write_documents(alloc, rows, layout, pattern, columns)?;
            Ok(text)
        }
        Shape::Keys => keys_of(alloc, rows, columns),
    }
}

// The bytes, with a byte-order mark before them.
fn after_mark(alloc: Global, bytes: &[u8]) -> Result<Bytes, OutOfMemory>
    ensures { IfOk result (λ it. it ≡ MARK ++ bytes.now) }
{
    let mut marked = Bytes::from_slice(alloc, &MARK)?;
    marked.append(bytes)?;
    Ok(marked)
}

/// The text, with a byte-order mark once more before it where it begins with one.
pub fn marked(alloc: Global, text: Bytes) -> Result<Bytes, OutOfMemory>
    ensures { IfOk result (λ it. it ≡ with_mark text) }
{
    if !text.bytes().starts_with(&MARK) {
        return Ok(text);
    }
    after_mark(alloc, text.bytes())
}

/// The text of the fragment's file in the shape of its store, with the rows of its view over the database of the facts:
/// each once, in rising order, cell by cell by bytes. Where the text itself begins with a byte-order mark, one more stands
/// before it. NodeInRow comes exactly where some row holds a node, with the least column that has one, counted from 1;
/// else KeyText exactly where the file is one of keys and some cell has a tab, a carriage return or a line feed.
pub fn fill(
    alloc: Global,
    catalogue: &Catalogue,
    fragment: usize,
    loaded: &Loaded,
) -> Result<Bytes, FillError>
    requires { fragment < length catalogue.now.fragments }
    ensures text { IfSome (slice_get catalogue.now.fragments fragment) (λ definition.
        IfSome (slice_get catalogue.now.stores fragment) (λ store. Fills store.shape
        (IsAnswer (query_of definition.view) (database_of loaded.now.facts)) result)) }
    // Read as a file is, it says exactly the rows.
    ensures opened { IfOk result (λ file.
        IfSome (slice_get catalogue.now.fragments fragment) (λ definition.
        IfSome (slice_get catalogue.now.stores fragment) (λ store.
        IsOpenedAs store.shape (length definition.view.head)
        (IsAnswer (query_of definition.view) (database_of loaded.now.facts))
        (without_mark file)))) }
{
    catalogues_are_sound();
    let definition = catalogue.fragments.item(fragment);
    let store = catalogue.stores.item(fragment);
    let rows = answer(alloc, &definition.view, loaded)?;
    let text = text_of(alloc, &store.shape, &definition.view, &rows)?;
    let file = marked(alloc, text)?;
    Ok(file)
}
