//! The rows of key files.
ghost use Rattle.std.specs.Prelude.{◌≡◌, ◌==◌, ◌+◌, length, map, IfOk};
ghost use Rattle.std.specs.List.{slice_split};
ghost use Rattle.esto_ports.specs.FileFaults.{Gives};
ghost use Rattle.esto_ports.specs.declared.file_fault.FileKind.TheVariants as kinds;
ghost use Rattle.esto_stores.specs.Rows.{AddsTexts, ReadsRow};
ghost use Rattle.esto_stores.specs.Keys.{tab, without_return, key_rows, key_fault};

use crate::cells::{push_cell, put_row};
use esto_ports::{FileError, FileKind, cut_line, fault};
use esto_term::{List, OutOfMemory, TextError, TextRow, TextRows};
use std::alloc::{AllocError, Global};

/// The line without one carriage return at its end.
pub fn drop_return(line: &[u8]) -> &[u8]
    ensures { result.now ≡ without_return line.now }
{
    if let Some((last, front)) = line.split_last() {
        if *last == b'\r' {
            return front;
        }
    }
    line
}

// The parts between tabs.
fn parts<'a>(alloc: Global, line: &'a [u8]) -> Result<Vec<&'a [u8]>, AllocError>
    ensures { IfOk result (λ cells.
        map (λ cell. cell.now) cells.items ≡ slice_split (λ b. b == tab) line.now) }
{
    line.split(|b| *b == b'\t').collect(alloc)
}

// The cells that tabs part.
fn split_cells<'a>(alloc: Global, line: &'a [u8]) -> Result<Vec<&'a [u8]>, OutOfMemory>
    ensures { IfOk result (λ cells.
        map (λ cell. cell.now) cells.items ≡ slice_split (λ b. b == tab) line.now) }
{
    match parts(alloc, line) {
        Ok(cells) => Ok(cells),
        Err(_) => Err(OutOfMemory),
    }
}

// The row of these cells, if they are texts.
fn text_cells(alloc: Global, cells: &[&[u8]]) -> Result<TextRow, TextError>
    ensures { ReadsRow (map (λ cell. cell.now) cells.now) result }
{
    let Ok(mut row) = List::with_room(alloc, cells.len()) else {
        return Err(TextError::OutOfMemory);
    };
    'cells: for cell in cells {
        push_cell(alloc, &mut row, cell)?;
    }
    Ok(row)
}

// Puts these cells, which are to be so many, at the end of the rows as the one of this number, or finds its fault.
fn add_cells(
    alloc: Global,
    found: &[&[u8]],
    cells: usize,
    number: u64,
    rows: &mut TextRows,
) -> Result<(), FileError>
    requires { number ≡ length rows.old + 1 }
    ensures { AddsTexts kinds.Cells cells (λ cells. cells) (map (λ cell. cell.now) found.now)
        rows.old rows.new result }
{
    if found.len() != cells {
        return Err(fault(FileKind::Cells, number));
    }
    match text_cells(alloc, found) {
        Ok(row) => put_row(row, rows),
        Err(TextError::NotUtf8) => Err(fault(FileKind::NotUtf8, number)),
        Err(TextError::OutOfMemory) => Err(FileError::OutOfMemory),
    }
}

// Puts the cells of the line of this number, which are to be so many, as a row after these, or finds its fault.
fn add_line(
    alloc: Global,
    line: &[u8],
    cells: usize,
    number: u64,
    rows: &mut TextRows,
) -> Result<(), FileError>
    requires { number ≡ length rows.old + 1 }
    ensures { AddsTexts kinds.Cells cells (λ cells. cells)
        (slice_split (λ b. b == tab) line.now) rows.old rows.new result }
{
    let parts = split_cells(alloc, line)?;
    add_cells(alloc, parts.as_slice(), cells, number, rows)
}

/// The rows of a key file with that many columns, or its first fault. Each line, less one CR at its end, is a row of the
/// cells that tabs part. Line by line, counted from 1: Cells where the number of cells is not that of the columns, and
/// NotUtf8 where a cell is not UTF-8.
pub fn open_keys(alloc: Global, bytes: &[u8], cells: usize) -> Result<TextRows, FileError>
    ensures { Gives (key_rows bytes.now) (key_fault cells bytes.now) result }
{
    let mut rows: TextRows = List::new(alloc);
    let mut rest = bytes;
    'lines: while !rest.is_empty() {
        let (line, after) = cut_line(rest);
        let number = rows.items().len() as u64 + 1;
        add_line(alloc, drop_return(line), cells, number, &mut rows)?;
        rest = after;
    }
    Ok(rows)
}
