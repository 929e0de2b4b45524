//! Rows of codes that an executor asks.
ghost use Rattle.std.specs.Prelude.{◌≡◌, map, IfOk};
ghost use Rattle.esto_steps.specs.Planned.{inputs_of};

use esto_columns::{Rows, StoredRows};
use esto_plan::ways_of;
use esto_term::OutOfMemory;
use esto_views::FragmentDef;
use std::alloc::Global;

/// The rows with the ways of the fragment's patterns.
pub(crate) fn stored_rows(
    alloc: Global,
    fragment: &FragmentDef,
    rows: Rows,
) -> Result<StoredRows, OutOfMemory>
    ensures { IfOk result (λ it. it
        ≡ record { rows = rows; ways = map inputs_of fragment.now.access }) }
{
    let ways = ways_of(alloc, &fragment.access)?;
    StoredRows::new(alloc, rows, ways)
}
