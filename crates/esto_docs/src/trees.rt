//! The documents of JSON files, as trees.
ghost use Rattle.esto_ports.specs.FileFaults.{Gives};
ghost use Rattle.esto_ports.specs.Lines.{lines_of};
ghost use Rattle.esto_docs.specs.Files.{json_of, lines_fault, trees_of_lines, array_fault, trees_of_array, trees_fault, file_trees};
ghost use Rattle.esto_docs.specs.Parsing.{ParsesTree, PutsLine};

use crate::from_json::{tree_of, trees_of};
use crate::parse::{ParseError, is_blank, or_file_error, or_parse_error, parse, parse_array};
use esto_docmodel::{Layout, Tree, Trees};
use esto_ports::{FileError, FileKind, cut_line, fault};
use esto_term::List;
use std::alloc::Global;

/// The tree of a JSON value that bytes are.
pub fn parse_tree(alloc: Global, bytes: &[u8]) -> Result<Tree, ParseError>
    ensures { ParsesTree bytes.now result }
{
    let value = parse(alloc, bytes)?;
    or_parse_error(tree_of(alloc, &value))
}

// Puts the document of a line at the end, unless the line is blank.
fn put_line(alloc: Global, line: &[u8], trees: &mut Trees) -> Result<(), ParseError>
    ensures { PutsLine line.now trees.old trees.new result }
{
    if is_blank(line) {
        return Ok(());
    }
    let tree = parse_tree(alloc, line)?;
    or_parse_error(trees.push(tree))
}

// The documents of a file of lines.
fn read_lines(alloc: Global, bytes: &[u8]) -> Result<Trees, FileError>
    ensures { let lines = lines_of bytes.now in
        Gives (trees_of_lines lines) (lines_fault 1 lines) result }
{
    let mut trees = List::new(alloc);
    let mut rest = bytes;
    let mut number: u64 = 1;
    'lines: while !rest.is_empty() {
        let (line, after) = cut_line(rest);
        match put_line(alloc, line, &mut trees) {
            Ok(()) => {}
            Err(ParseError::BadJson) => return Err(fault(FileKind::BadJson, number)),
            Err(ParseError::OutOfMemory) => return Err(FileError::OutOfMemory),
        }
        rest = after;
        number += 1;
    }
    Ok(trees)
}

// The documents of a file that is one array.
fn read_array(alloc: Global, bytes: &[u8]) -> Result<Trees, FileError>
    ensures { let value = json_of bytes.now in
        Gives (trees_of_array value) (array_fault value) result }
{
    let items = parse_array(alloc, bytes)?;
    or_file_error(trees_of(alloc, &items))
}

/// The documents of a JSON file in that layout, or its first fault. In layout Lines the file is cut at each line feed, a
/// line of spaces, tabs and carriage returns alone is skipped, and each other line is a document: BadJson with the line's
/// number, counted from 1 over all lines, at the first that is no JSON value. In layout Array the whole file is one value,
/// and its items are the documents: BadJson at 0 where it is no JSON value, and NotArray at 0 where it is no array.
pub fn read_trees(alloc: Global, bytes: &[u8], layout: &Layout) -> Result<Trees, FileError>
    ensures { Gives (file_trees layout.now bytes.now) (trees_fault layout.now bytes.now) result }
{
    match layout {
        Layout::Array => read_array(alloc, bytes),
        Layout::Lines => read_lines(alloc, bytes),
    }
}
