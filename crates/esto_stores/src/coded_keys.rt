//! The rows of key files as rows of codes.
ghost use Rattle.std.specs.Prelude.{◌≡◌, ◌==◌, ◌<◌, ◌∷◌, [], length, position, IfSome};
ghost use Rattle.std.specs.List.{slice_split};
ghost use Rattle.std.specs.Option.{option_map_or};
ghost use Rattle.esto_columns.specs.Interned.{Grows};
ghost use Rattle.esto_ports.specs.declared.file_fault.FileKind.TheVariants as kinds;
ghost use Rattle.esto_stores.specs.Coded.{AddsRow, CodesCells, CodesRows, FillsRows};
ghost use Rattle.esto_stores.specs.Keys.{tab, key_rows, key_fault};

use crate::coded_rows::{next_fault, push_code, put_codes};
use crate::keys::drop_return;
use esto_columns::{Codes, Rows};
use esto_ports::{FileError, FileKind, cut_line};
use esto_term::{TextError, Values};
use std::alloc::Global;

// How many cells tabs part.
fn count_cells(line: &[u8]) -> usize
    ensures { result ≡ length (slice_split (λ b. b == tab) line.now) }
{
    let mut count: usize = 1;
    'bytes: for byte in line {
        if *byte == b'\t' {
            count += 1;
        }
    }
    count
}

// Where the first tab stands.
fn find_tab(line: &[u8]) -> Option<usize>
    ensures { result ≡ position (λ b. b == tab) line.now }
{
    line.iter().position(|b| *b == b'\t')
}

// The first cell, and the bytes after the tab where it ends, if there is one.
fn cut_cell(line: &[u8]) -> (&[u8], Option<&[u8]>)
    ensures cells { slice_split (λ b. b == tab) line.now ≡ result.0.now
        ∷ option_map_or (λ rest. slice_split (λ b. b == tab) rest.now) result.1 [] }
    ensures less { IfSome result.1 (λ rest. length rest.now < length line.now) }
{
    match find_tab(line) {
        Some(end) => (&line[..end], Some(&line[end + 1..])),
        None => (line, None),
    }
}

// Makes the row the codes of the cells that tabs part, if they are texts. New texts get codes.
fn code_line(line: &[u8], codes: &mut Codes, row: &mut Values<u64>) -> Result<(), TextError>
    ensures coded { CodesCells (slice_split (λ b. b == tab) line.now) codes.new row.new result }
    ensures grown { Grows codes.old codes.new }
{
    row.truncate(0);
    let mut rest = Some(line);
    'cells: while let Some(cells) = rest {
        let (cell, after) = cut_cell(cells);
        push_code(cell, codes, row)?;
        rest = after;
    }
    Ok(())
}

// Puts the codes of a line's cells after the rows of codes, or finds the line's fault.
fn add_line(
    line: &[u8],
    codes: &mut Codes,
    row: &mut Values<u64>,
    coded: &mut Rows,
) -> Result<(), FileError>
    ensures adds { AddsRow kinds.Cells coded.old.arity (λ cells. cells)
        (slice_split (λ b. b == tab) line.now) codes.old coded.old codes.new coded.new result }
    ensures grown { Grows codes.old codes.new }
{
    if count_cells(line) != coded.arity() {
        return Err(next_fault(FileKind::Cells, coded));
    }
    let read = code_line(line, codes, row);
    put_codes(read, row.items(), coded)
}

// Puts the codes of the cells of all lines into the rows of codes, up to the first fault.
fn add_lines(
    alloc: Global,
    bytes: &[u8],
    codes: &mut Codes,
    coded: &mut Rows,
) -> Result<(), FileError>
    requires { coded.old.rows ≡ [] }
    ensures rows { FillsRows (key_rows bytes.now) (key_fault coded.old.arity bytes.now)
        coded.old.arity codes.new coded.new result }
    ensures grown { Grows codes.old codes.new }
{
    let mut row = Values::new(alloc);
    let mut rest = bytes;
    'lines: while !rest.is_empty() {
        let (line, after) = cut_line(rest);
        add_line(drop_return(line), codes, &mut row, coded)?;
        rest = after;
    }
    Ok(())
}

/// The rows of a key file with that many columns as rows of codes, or its first fault. Rows and fault are those of
/// `open_keys`, but no row of texts is made: each cell gets its code as its line is read. New texts get codes; where
/// there is a fault, those of the rows before it may have got theirs.
pub fn code_keys(
    alloc: Global,
    bytes: &[u8],
    cells: usize,
    codes: &mut Codes,
) -> Result<Rows, FileError>
    ensures rows { CodesRows (key_rows bytes.now) (key_fault cells bytes.now)
        cells codes.new result }
    ensures grown { Grows codes.old codes.new }
{
    let mut coded = Rows::new(alloc, cells)?;
    add_lines(alloc, bytes, codes, &mut coded)?;
    Ok(coded)
}
