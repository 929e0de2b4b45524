//! The facts of the documents of JSON files.
ghost use Rattle.std.specs.Prelude.{IfOk};
ghost use Rattle.serde_json.specs.View.{items_view};
ghost use Rattle.esto_docmodel.specs.Gaining.{HaveRoom};
ghost use Rattle.esto_docmodel.specs.Putting.{PutsDocuments};
ghost use Rattle.esto_ports.specs.Lines.{lines_of};
ghost use Rattle.esto_docs.specs.Encoding.{EncodesLine, GivesEncoded, GivesNext};
ghost use Rattle.esto_docs.specs.Files.{json_of, lines_fault, trees_of_lines, array_fault, trees_of_array, trees_fault, file_trees};
ghost use Rattle.esto_docs.specs.Trees.{trees_of};

use crate::facts::put_document;
use crate::parse::{ParseError, is_blank, or_file_error, or_parse_error, parse, parse_array};
use esto_docmodel::{Encoded, FactSink, Kept, Layout};
use esto_ports::{FileError, FileKind, cut_line, fault};
use esto_term::{List, OutOfMemory};
use serde_json::Value;
use std::alloc::Global;

// Puts the facts of a line's document, unless the line is blank: the first number that is not used.
fn encode_line<S: FactSink>(
    alloc: Global,
    line: &[u8],
    relations: &Kept,
    sink: &mut S,
    first: u64,
) -> Result<u64, ParseError>
    requires { HaveRoom (S.arities sink.old) relations.now.base }
    ensures { EncodesLine S.Holds S.arities relations.now line.now first sink.old sink.new result }
{
    if is_blank(line) {
        return Ok(first);
    }
    let value = parse(alloc, line)?;
    or_parse_error(put_document(alloc, sink, relations, &value, first))
}

// Puts the facts of a file of lines. A line's value is let go once its facts are put.
fn encode_lines<S: FactSink>(
    alloc: Global,
    bytes: &[u8],
    relations: &Kept,
    sink: &mut S,
    first: u64,
) -> Result<u64, FileError>
    requires { HaveRoom (S.arities sink.old) relations.now.base }
    ensures { let lines = lines_of bytes.now in
        GivesNext S.Holds S.arities relations.now first (trees_of_lines lines)
        (lines_fault 1 lines) sink.old sink.new result }
{
    let mut next = first;
    let mut rest = bytes;
    let mut number: u64 = 1;
    'lines: while !rest.is_empty() {
        let (line, after) = cut_line(rest);
        match encode_line(alloc, line, relations, sink, next) {
            Ok(later) => next = later,
            Err(ParseError::BadJson) => return Err(fault(FileKind::BadJson, number)),
            Err(ParseError::OutOfMemory) => return Err(FileError::OutOfMemory),
        }
        rest = after;
        number += 1;
    }
    Ok(next)
}

// Puts the facts of JSON values.
fn encode_items<S: FactSink>(
    alloc: Global,
    items: &Vec<Value>,
    relations: &Kept,
    sink: &mut S,
    first: u64,
) -> Result<u64, OutOfMemory>
    requires { HaveRoom (S.arities sink.old) relations.now.base }
    ensures { IfOk result (λ next. PutsDocuments S.Holds S.arities relations.now
        (trees_of (items_view items.now.items)) first next sink.old sink.new) }
{
    let mut next = first;
    'items: for item in items {
        next = put_document(alloc, sink, relations, item, next)?;
    }
    Ok(next)
}

// Puts the facts of a file that is one array.
fn encode_array<S: FactSink>(
    alloc: Global,
    bytes: &[u8],
    relations: &Kept,
    sink: &mut S,
    first: u64,
) -> Result<u64, FileError>
    requires { HaveRoom (S.arities sink.old) relations.now.base }
    ensures { let value = json_of bytes.now in
        GivesNext S.Holds S.arities relations.now first (trees_of_array value)
        (array_fault value) sink.old sink.new result }
{
    let items = parse_array(alloc, bytes)?;
    or_file_error(encode_items(alloc, &items, relations, sink, first))
}

/// Puts the facts of the documents of a JSON file into the sink, as far as they are kept. Nodes are numbered from `first`
/// on, and the answer is the first number that is not used; or it is the file's first fault, as `read_trees` has it,
/// whichever facts are kept. OutOfMemory comes too where a relation or a node has no number of 64 bits. After a fault or
/// an error some of the facts may be put.
pub fn encode_into<S: FactSink>(
    alloc: Global,
    bytes: &[u8],
    layout: &Layout,
    relations: &Kept,
    sink: &mut S,
    first: u64,
) -> Result<u64, FileError>
    requires { HaveRoom (S.arities sink.old) relations.now.base }
    ensures { GivesNext S.Holds S.arities relations.now first (file_trees layout.now bytes.now)
        (trees_fault layout.now bytes.now) sink.old sink.new result }
{
    match layout {
        Layout::Array => encode_array(alloc, bytes, relations, sink, first),
        Layout::Lines => encode_lines(alloc, bytes, relations, sink, first),
    }
}

/// The facts of the documents of a JSON file, as far as they are kept, whose nodes are numbered from `first` on; or the
/// file's first fault, as `read_trees` has it, whichever facts are kept. OutOfMemory comes too where a relation or
/// a node has no number of 64 bits.
pub fn encode_file(
    alloc: Global,
    bytes: &[u8],
    layout: &Layout,
    relations: &Kept,
    first: u64,
) -> Result<Encoded, FileError>
    ensures { GivesEncoded relations.now first (file_trees layout.now bytes.now)
        (trees_fault layout.now bytes.now) result }
{
    let mut facts = List::new(alloc);
    match encode_into(alloc, bytes, layout, relations, &mut facts, first) {
        Ok(next) => Ok(Encoded { facts, next }),
        Err(error) => Err(error),
    }
}
