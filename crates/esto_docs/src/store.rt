//! The rows of a fragment's file.
ghost use Rattle.std.specs.Prelude.{length, IfOk};
ghost use Rattle.esto_docmodel.specs.Stores.{IsShapeFor};
ghost use Rattle.esto_docs.specs.Stores.{HaveWidth, IsRowIn, first_fault_in, GivesRows};

use crate::rows::open_documents;
use esto_docmodel::{Shape, Store};
use esto_ports::FileError;
use esto_stores::{open_keys, open_table};
use esto_term::TextRows;
use esto_views::FragmentDef;
use std::alloc::Global;

/// The rows of a fragment's file, in the shape of its store, or the file's first fault.
pub(crate) fn rows_in(
    alloc: Global,
    shape: &Shape,
    fragment: &FragmentDef,
    bytes: &[u8],
) -> Result<TextRows, FileError>
    requires { IsShapeFor shape.now fragment.now.view }
    ensures { GivesRows (IsRowIn shape.now bytes.now)
        (first_fault_in shape.now (length fragment.now.view.head) bytes.now) result }
{
    let columns = fragment.view.head.len();
    match shape {
        Shape::Table(names) => open_table(alloc, bytes, names),
        Shape::Documents(layout, pattern) => {
            open_documents(alloc, bytes, layout, pattern, columns)
        }
        Shape::Keys => open_keys(alloc, bytes, columns),
    }
}

/// The rows of a fragment's file, in the shape of its store, or the file's first fault. Each row has as many cells as
/// the fragment's view has columns.
pub fn open_store(
    alloc: Global,
    store: &Store,
    fragment: &FragmentDef,
    bytes: &[u8],
) -> Result<TextRows, FileError>
    requires { IsShapeFor store.now.shape fragment.now.view }
    ensures rows { GivesRows (IsRowIn store.now.shape bytes.now)
        (first_fault_in store.now.shape (length fragment.now.view.head) bytes.now) result }
    ensures wide { IfOk result (HaveWidth (length fragment.now.view.head)) }
{
    rows_in(alloc, &store.shape, fragment, bytes)
}
