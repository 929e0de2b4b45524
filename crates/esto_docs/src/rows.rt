//! The rows of JSON files.
ghost use Rattle.std.specs.Prelude.{Contains, ◌↔◌, IfOk};
ghost use Rattle.serde_json.specs.View.{items_view};
ghost use Rattle.esto_ports.specs.Lines.{lines_of};
ghost use Rattle.esto_docmodel.specs.Layouts.{IsLayout};
ghost use Rattle.esto_docmodel.specs.Shapes.{entries_of};
ghost use Rattle.esto_docs.specs.Files.{json_of, lines_fault, trees_of_lines, array_fault, trees_of_array, trees_fault, file_trees};
ghost use Rattle.esto_docs.specs.Rows.{Row, IsRowOf, GivesRows, OpensLine};
ghost use Rattle.esto_docs.specs.Trees.{trees_of};

use crate::filling::put_rows;
use crate::parse::{ParseError, is_blank, or_file_error, or_parse_error, parse, parse_array};
use esto_docmodel::{Layout, Pattern};
use esto_ports::{FileError, FileKind, cut_line, fault};
use esto_term::{List, OutOfMemory, TextRows};
use serde_json::Value;
use std::alloc::Global;

// Puts the rows of a line's document at the end, unless the line is blank.
fn open_line(
    alloc: Global,
    line: &[u8],
    pattern: &Pattern,
    columns: usize,
    rows: &mut TextRows,
) -> Result<(), ParseError>
    requires { IsLayout columns (entries_of pattern.now.entries) }
    ensures { OpensLine (IsRowOf columns (entries_of pattern.now.entries))
        line.now rows.old rows.new result }
{
    if is_blank(line) {
        return Ok(());
    }
    let value = parse(alloc, line)?;
    or_parse_error(put_rows(alloc, &value, pattern, columns, rows))
}

// The rows of a file of lines. A line's value is let go once its rows are put.
fn open_lines(
    alloc: Global,
    bytes: &[u8],
    pattern: &Pattern,
    columns: usize,
) -> Result<TextRows, FileError>
    requires { IsLayout columns (entries_of pattern.now.entries) }
    ensures { let lines = lines_of bytes.now in
        GivesRows (IsRowOf columns (entries_of pattern.now.entries) (trees_of_lines lines))
        (lines_fault 1 lines) result }
{
    let mut rows = List::new(alloc);
    let mut rest = bytes;
    let mut number: u64 = 1;
    'lines: while !rest.is_empty() {
        let (line, after) = cut_line(rest);
        match open_line(alloc, line, pattern, columns, &mut rows) {
            Ok(()) => {}
            Err(ParseError::BadJson) => return Err(fault(FileKind::BadJson, number)),
            Err(ParseError::OutOfMemory) => return Err(FileError::OutOfMemory),
        }
        rest = after;
        number += 1;
    }
    Ok(rows)
}

// The rows of JSON values.
fn open_items(
    alloc: Global,
    items: &Vec<Value>,
    pattern: &Pattern,
    columns: usize,
) -> Result<TextRows, OutOfMemory>
    requires { IsLayout columns (entries_of pattern.now.entries) }
    ensures { IfOk result (λ rows. (row : Row) → Contains rows row
        ↔ IsRowOf columns (entries_of pattern.now.entries)
        (trees_of (items_view items.now.items)) row) }
{
    let mut rows = List::new(alloc);
    'items: for item in items {
        put_rows(alloc, item, pattern, columns, &mut rows)?;
    }
    Ok(rows)
}

// The rows of a file that is one array.
fn open_array(
    alloc: Global,
    bytes: &[u8],
    pattern: &Pattern,
    columns: usize,
) -> Result<TextRows, FileError>
    requires { IsLayout columns (entries_of pattern.now.entries) }
    ensures { let value = json_of bytes.now in
        GivesRows (IsRowOf columns (entries_of pattern.now.entries) (trees_of_array value))
        (array_fault value) result }
{
    let items = parse_array(alloc, bytes)?;
    or_file_error(open_items(alloc, &items, pattern, columns))
}

/// The rows of a JSON file by a layout of so many columns, or the file's first fault, as `read_trees` has it. They are
/// exactly the rows under which the layout is matched in one of the documents; as a set, since a row may come from
/// several documents, and from several places of one.
pub fn open_documents(
    alloc: Global,
    bytes: &[u8],
    layout: &Layout,
    pattern: &Pattern,
    columns: usize,
) -> Result<TextRows, FileError>
    requires { IsLayout columns (entries_of pattern.now.entries) }
    ensures { GivesRows
        (IsRowOf columns (entries_of pattern.now.entries) (file_trees layout.now bytes.now))
        (trees_fault layout.now bytes.now) result }
{
    match layout {
        Layout::Array => open_array(alloc, bytes, pattern, columns),
        Layout::Lines => open_lines(alloc, bytes, pattern, columns),
    }
}
