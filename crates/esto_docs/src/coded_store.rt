//! The rows of a fragment's file as rows of codes.
ghost use Rattle.std.specs.Prelude.{length};
ghost use Rattle.esto_docmodel.specs.Stores.{IsShapeFor};
ghost use Rattle.esto_columns.specs.Interned.{Grows};
ghost use Rattle.esto_docs.specs.Coded.{CodesFile};
ghost use Rattle.esto_docs.specs.Stores.{IsRowIn, first_fault_in};

use crate::store::rows_in;
use esto_columns::{Codes, Rows, code_taken_rows};
use esto_docmodel::Shape;
use esto_ports::FileError;
use esto_stores::{code_keys, code_table};
use esto_views::FragmentDef;
use std::alloc::Global;

/// The rows of a fragment's file as rows of codes, or the file's first fault: rows of texts are read, and let go as
/// they get their codes.
fn code_texts(
    alloc: Global,
    shape: &Shape,
    fragment: &FragmentDef,
    bytes: &[u8],
    codes: &mut Codes,
) -> Result<Rows, FileError>
    requires { IsShapeFor shape.now fragment.now.view }
    ensures rows { let width = length fragment.now.view.head in
        CodesFile (IsRowIn shape.now bytes.now) (first_fault_in shape.now width bytes.now)
        width codes.new result }
    ensures grown { Grows codes.old codes.new }
{
    let columns = fragment.view.head.len();
    let rows = rows_in(alloc, shape, fragment, bytes)?;
    let coded = code_taken_rows(alloc, rows, columns, codes)?;
    Ok(coded)
}

/// The rows of a fragment's file, in the shape of its store, as rows of codes, or the file's first fault. Cells of
/// tables and key files get their codes as they are read. New texts get codes; where there is a fault, those of the
/// cells before it may have got theirs.
pub fn code_store(
    alloc: Global,
    shape: &Shape,
    fragment: &FragmentDef,
    bytes: &[u8],
    codes: &mut Codes,
) -> Result<Rows, FileError>
    requires { IsShapeFor shape.now fragment.now.view }
    ensures rows { let width = length fragment.now.view.head in
        CodesFile (IsRowIn shape.now bytes.now) (first_fault_in shape.now width bytes.now)
        width codes.new result }
    ensures grown { Grows codes.old codes.new }
{
    match shape {
        Shape::Table(names) => code_table(alloc, bytes, names, codes),
        Shape::Documents(_, _) => code_texts(alloc, shape, fragment, bytes, codes),
        Shape::Keys => code_keys(alloc, bytes, fragment.view.head.len(), codes),
    }
}
