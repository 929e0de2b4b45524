//! The text of JSON files.
ghost use Rattle.std.specs.Prelude.{◌≡◌, ◌↔◌, ◌++◌, ◌∷◌, [], List, map, length, All, Contains, IfOk, OnOk, None, string_bytes};
ghost use Rattle.serde_json.specs.Data.{array as array_data};
ghost use Rattle.serde_json.specs.View.{view, items_of};
ghost use Rattle.serde_json.specs.Written.{compact_text};
ghost use Rattle.esto_docmodel.specs.Layouts.{IsLayout};
ghost use Rattle.esto_docmodel.specs.Patterns.{Entries};
ghost use Rattle.esto_docmodel.specs.Shapes.{entries_of};
ghost use Rattle.esto_docs.specs.Documents.{document, document_line, documents_text};
ghost use Rattle.esto_docs.specs.Files.{trees_fault, file_trees};
ghost use Rattle.esto_docs.specs.Rows.{Row, IsRowOf};
ghost use Rattle.esto_docs.specs.Plain.{IsPlain, IsReadBack};
ghost use Rattle.esto_docs.specs.Written.{HasWritten};
ghost use Rattle.esto_docmodel.specs.declared.file.Layout.TheVariants as layouts;

use crate::document::document_of;
use esto_docmodel::{Layout, Pattern};
use esto_ports::lines_begin_anew;
use esto_term::{Bytes, OutOfMemory, Text, TextRows, push};
use serde_json::Value;
use std::alloc::Global;

// The text of a document, on one line.
fn document_text(alloc: Global, document: &Value) -> Result<Bytes, OutOfMemory>
    requires { IsPlain (view document.now) }
    ensures text { IfOk result (λ text. text ≡ compact_text (view document.now)) }
    ensures read { IfOk result (λ _. IsReadBack (view document.now)) }
{
    match document.to_string(alloc) {
        Ok(text) => Ok(Bytes::from_string(text)),
        Err(_) => Err(OutOfMemory),
    }
}

// The text of a row's document, on one line.
fn row_text(alloc: Global, pattern: &Pattern, row: &[Text]) -> Result<Bytes, OutOfMemory>
    requires { IsPlain (document (entries_of pattern.now.entries) row.now) }
    ensures text { IfOk result (λ text.
        text ≡ compact_text (document (entries_of pattern.now.entries) row.now)) }
    ensures read { IfOk result (λ _.
        IsReadBack (document (entries_of pattern.now.entries) row.now)) }
{
    let document = document_of(alloc, pattern.entries.items(), row)?;
    document_text(alloc, &document)
}

// Puts the line of a row's document at the end.
fn put_line(
    alloc: Global,
    text: &mut Bytes,
    pattern: &Pattern,
    row: &[Text],
) -> Result<(), OutOfMemory>
    requires { IsPlain (document (entries_of pattern.now.entries) row.now) }
    ensures line { OnOk result (text.new ≡ text.old
        ++ document_line (document (entries_of pattern.now.entries) row.now)) }
    ensures read { OnOk result (IsReadBack (document (entries_of pattern.now.entries) row.now)) }
{
    let line = row_text(alloc, pattern, row)?;
    text.append(line.bytes())?;
    text.append(b"\n")
}

// The text of a file with a document on each line.
fn write_lines(alloc: Global, rows: &TextRows, pattern: &Pattern) -> Result<Bytes, OutOfMemory>
    requires { (row : Row) → IsPlain (document (entries_of pattern.now.entries) row) }
    ensures { IfOk result (HasWritten layouts.Lines
        (map (document (entries_of pattern.now.entries)) rows.now)) }
{
    lines_begin_anew();
    let mut text = Bytes::new(alloc);
    'rows: for row in rows.items() {
        put_line(alloc, &mut text, pattern, row.items())?;
    }
    Ok(text)
}

// The documents of rows.
fn documents_of(
    alloc: Global,
    rows: &TextRows,
    pattern: &Pattern,
) -> Result<Vec<Value>, OutOfMemory>
    ensures { IfOk result (λ it.
        map view it.items ≡ map (document (entries_of pattern.now.entries)) rows.now) }
{
    let mut documents = Vec::new(alloc);
    'rows: for row in rows.items() {
        let document = document_of(alloc, pattern.entries.items(), row.items())?;
        push(&mut documents, document)?;
    }
    Ok(documents)
}

// The bytes of a line, and a line feed after them.
fn ended(line: String) -> Result<Bytes, OutOfMemory>
    ensures { IfOk result (λ text. text ≡ string_bytes line ++ 10 ∷ []) }
{
    let mut text = Bytes::from_string(line);
    text.append(b"\n")?;
    Ok(text)
}

// The text of a file that is this one value.
fn array_text(alloc: Global, array: &Value) -> Result<Bytes, OutOfMemory>
    ensures { IfOk result (λ text. (es : Entries) (rows : List Row)
        → ((row : Row) → IsPlain (document es row))
        → view array.now ≡ array_data (items_of (map (document es) rows))
        → HasWritten layouts.Array (map (document es) rows) text) }
{
    match array.to_string(alloc) {
        Ok(line) => ended(line),
        Err(_) => Err(OutOfMemory),
    }
}

// The text of a file with all documents in one array.
fn write_array(alloc: Global, rows: &TextRows, pattern: &Pattern) -> Result<Bytes, OutOfMemory>
    requires { (row : Row) → IsPlain (document (entries_of pattern.now.entries) row) }
    ensures { IfOk result (HasWritten layouts.Array
        (map (document (entries_of pattern.now.entries)) rows.now)) }
{
    let array = Value::Array(documents_of(alloc, rows, pattern)?);
    array_text(alloc, &array)
}

/// The text of a JSON file with these rows by a layout of so many columns: one document a row, in order, in compact form.
/// In layout Lines each is followed by a line feed; in layout Array they are one array, followed by a line feed. It is
/// opened as the same set of rows.
pub fn write_documents(
    alloc: Global,
    rows: &TextRows,
    layout: &Layout,
    pattern: &Pattern,
    columns: usize,
) -> Result<Bytes, OutOfMemory>
    requires layout { IsLayout columns (entries_of pattern.now.entries) }
    requires lengths { All (λ row. length row ≡ columns) rows.now }
    ensures text { IfOk result (λ text. text ≡ documents_text layout.now
        (map (document (entries_of pattern.now.entries)) rows.now)) }
    ensures rows { IfOk result (λ text. (row : Row)
        → IsRowOf columns (entries_of pattern.now.entries) (file_trees layout.now text) row
        ↔ Contains rows.now row) }
    ensures fault { IfOk result (λ text. trees_fault layout.now text ≡ None) }
{
    match layout {
        Layout::Array => write_array(alloc, rows, pattern),
        Layout::Lines => write_lines(alloc, rows, pattern),
    }
}
