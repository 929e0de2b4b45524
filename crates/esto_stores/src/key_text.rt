//! The text of key files.
ghost use Rattle.std.specs.Prelude.{◌≡◌, ◌<◌, ◌∷◌, ◌++◌, ℕ, true, length, All, IfOk, OnOk, None};
ghost use Rattle.std.specs.List.{join_with_byte};
ghost use Rattle.esto_stores.specs.Rows.{are_texts};
ghost use Rattle.esto_stores.specs.Keys.{tab, key_rows, key_fault};
ghost use Rattle.esto_stores.specs.KeyText.{row_fault, line_text, keys_text};

use esto_ports::lines_begin_anew;
use esto_term::{Bytes, OutOfMemory, Text, TextRows};
use std::alloc::Global;

// Puts a tab and a cell at the end.
fn put_next(text: &mut Bytes, cell: &[u8]) -> Result<(), OutOfMemory>
    ensures { OnOk result (text.new ≡ text.old ++ tab ∷ cell.now) }
{
    text.append(b"\t")?;
    text.append(cell)
}

// Puts a cell at the end, and a tab and the cell for each other one.
fn put_cells(text: &mut Bytes, first: &Text, others: &[Text]) -> Result<(), OutOfMemory>
    ensures line { OnOk result
        (text.new ≡ text.old ++ join_with_byte tab (first.now ∷ others.now)) }
    ensures texts { OnOk result (are_texts (first.now ∷ others.now) ≡ true) }
{
    text.append(first.bytes())?;
    'cells: for cell in others {
        put_next(text, cell.bytes())?;
    }
    Ok(())
}

// Puts the line of a row at the end.
fn put_line(text: &mut Bytes, row: &[Text]) -> Result<(), OutOfMemory>
    ensures line { OnOk result (text.new ≡ text.old ++ line_text row.now) }
    ensures texts { OnOk result (are_texts row.now ≡ true) }
{
    if let Some((first, others)) = row.split_first() {
        put_cells(text, first, others)?;
    }
    text.append(b"\n")
}

/// The text of a key file with these rows, which have at least one cell each, and none with a tab, a CR or an LF. It is
/// opened as the same rows.
pub fn write_keys(alloc: Global, rows: &TextRows) -> Result<Bytes, OutOfMemory>
    requires plain { All (λ row. row_fault row ≡ None) rows.now }
    requires some { All (λ row. 0 < length row) rows.now }
    ensures text { IfOk result (λ text. text ≡ keys_text rows.now) }
    ensures rows { IfOk result (λ text. key_rows text ≡ rows.now) }
    ensures fault { (width : ℕ) → All (λ row. length row ≡ width) rows.now
        → IfOk result (λ text. key_fault width text ≡ None) }
{
    lines_begin_anew();
    let mut text = Bytes::new(alloc);
    'rows: for row in rows.items() {
        put_line(&mut text, row.items())?;
    }
    Ok(text)
}
