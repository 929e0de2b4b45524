//! Rows that a key file can't hold.
ghost use Rattle.std.specs.Prelude.{◌≡◌, position};
ghost use Rattle.std.specs.List.{list_any};
ghost use Rattle.esto_keymodel.specs.Cells.{is_part};

use esto_term::TextRow;

/// The byte between two cells of a line.
const TAB: u8 = b'\t';

/// The byte after a line.
const LINE_FEED: u8 = b'\n';

/// The byte that is dropped at a line's end.
const CARRIAGE_RETURN: u8 = b'\r';

/// Whether the cell has a tab, a carriage return or a line feed.
fn has_part(cell: &[u8]) -> bool
    ensures { result ≡ list_any is_part cell.now }
{
    cell.iter().any(|byte| *byte == TAB || *byte == LINE_FEED || *byte == CARRIAGE_RETURN)
}

/// The first cell, counted from 0, that has a tab, a carriage return or a line feed, so that no line of a key file can hold
/// the row. None comes exactly where no cell has one. It takes no memory.
pub fn key_row_fault(row: &TextRow) -> Option<usize>
    ensures { result ≡ position (λ cell. list_any is_part cell) row.now }
{
    row.items().iter().position(|cell| has_part(cell.bytes()))
}
