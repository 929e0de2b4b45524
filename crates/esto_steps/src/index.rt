//! Indexes of rows by the codes that sources name in them.
ghost use Rattle.std.specs.Prelude.{◌+◌, ◌<◌, length, take, IfOk, OnOk};
ghost use Rattle.esto_steps.specs.Indexed.{FindsRows};

use crate::codes::name_codes;
use crate::steps::Sources;
use esto_columns::{Index, Rows};
use esto_term::{OutOfMemory, Values};
use std::alloc::Global;

/// Puts the key of the row at the place into the index of the rows before it: the codes that the columns name in it,
/// and any where they don't all name one. The key is read into the list.
fn index_row(
    rows: &Rows,
    columns: &Sources,
    at: usize,
    key: &mut Values<u64>,
    index: &mut Index,
) -> Result<(), OutOfMemory>
    requires there { at < length rows.now.rows }
    requires own { FindsRows (take at rows.now.rows) columns.now index.old }
    ensures { OnOk result (FindsRows (take (at + 1) rows.now.rows) columns.now index.new) }
{
    name_codes(rows, at, columns, key)?;
    index.add(key.items())
}

/// An index of the rows by the codes that the columns name in them, which are read into the list.
pub(crate) fn index_of(
    alloc: Global,
    rows: &Rows,
    columns: &Sources,
    key: &mut Values<u64>,
) -> Result<Index, OutOfMemory>
    ensures { IfOk result (FindsRows rows.now.rows columns.now) }
{
    let mut index = Index::new(alloc, rows.len())?;
    'rows: for at in 0..rows.len() {
        index_row(rows, columns, at, key, &mut index)?;
    }
    Ok(index)
}
