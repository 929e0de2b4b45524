//! Rows of tables and keys, documents, and codes of texts.
ghost use Rattle.std.specs.Prelude.{◌≡◌, All, length, IsTrue, IfOk};
ghost use Rattle.esto_docmodel.specs.Shapes.{entries_of};
ghost use Rattle.esto_docmodel.specs.Valuations.{HaveFlatTerms};

use crate::printing::{put_facts, put_number, put_numbers, put_row};
use crate::reading::place;
use esto_columns::{Codes, Column, Picks, Rows, code_rows, select};
use esto_docmodel::{Entry, Layout, Pattern, Step, Tree, Trees, encode_documents, match_pattern};
use esto_docs::read_trees;
use esto_keymodel::{key_row_fault, pair_facts};
use esto_relmodel::table_facts;
use esto_script::{Refused, each, parts, put, put_counted, text};
use esto_semantics::Valuation;
use esto_term::{List, Term, TextRow, TextRows};
use std::alloc::Global;
use std::slice::from_ref;

// The cells between these signs.
fn cells(alloc: Global, line: &str, sign: char) -> Result<TextRow, Refused> {
    each(alloc, line, sign, |cell| text(alloc, cell))
}

// Rows between semicolons, each of cells between commas.
fn rows(alloc: Global, line: &str) -> Result<TextRows, Refused> {
    each(alloc, line, ';', |row| cells(alloc, row, ','))
}

/// The facts of the rows of a table, a line each.
pub fn put_table(rt: &HostRuntime, alloc: Global, line: &str) -> Result<(), Refused> {
    let facts = table_facts(alloc, 0, &rows(alloc, line)?)?;
    'facts: for fact in facts.items() {
        put_row(rt, fact.terms.items());
    }
    Ok(())
}

// Whether each row has so many cells.
fn have_cells(rows: &[TextRow], cells: usize) -> bool
    ensures { IsTrue result → All (λ row. length row ≡ cells) rows.now }
{
    'rows: for row in rows {
        if row.len() != cells {
            return false;
        }
    }
    true
}

/// The facts of rows of keys, each of a key, a field and a value, a line each.
pub fn put_pairs(rt: &HostRuntime, alloc: Global, line: &str) -> Result<(), Refused> {
    let rows = rows(alloc, line)?;
    if !have_cells(rows.items(), 3) {
        return Err(Refused);
    }
    let facts = pair_facts(alloc, 0, &rows)?;
    put_facts(rt, facts.items());
    Ok(())
}

/// The first cell that no line of a key file can hold, or that there is none. Cells stand between bars.
pub fn put_key_row(rt: &HostRuntime, alloc: Global, line: &str) -> Result<(), Refused> {
    match key_row_fault(&cells(alloc, line, '|')?) {
        Some(cell) => put_counted(rt, "cell ", cell as u64),
        None => put(rt, "no fault\n"),
    }
    Ok(())
}

// Puts the codes of the words at the end of the column, in order.
fn add_codes(codes: &mut Codes, column: &mut Column, line: &str) -> Result<(), Refused> {
    'words: for word in line.split(' ') {
        let Ok(code) = codes.intern(word.as_bytes()) else {
            return Err(Refused);
        };
        column.push(code)?;
    }
    Ok(())
}

// The codes of the words, in order.
fn codes_of(alloc: Global, line: &str) -> Result<Column, Refused> {
    let mut column = Column::new(alloc);
    add_codes(&mut Codes::new(alloc), &mut column, line)?;
    Ok(column)
}

// The places at which the first word's code stands.
fn firsts(alloc: Global, column: &Column) -> Result<Picks, Refused> {
    let mut picks = Picks::new(alloc);
    picks.reserve(column.len())?;
    select(column, 0, &mut picks);
    Ok(picks)
}

// A line of the column's codes.
fn put_column(rt: &HostRuntime, column: &Column) {
    'codes: for at in 0..column.len() {
        put_number(rt, column.item(at));
    }
    put(rt, "\n");
}

// The columns of rows of codes, a line each.
fn put_columns(rt: &HostRuntime, rows: &Rows) {
    'columns: for column in 0..rows.arity() {
        put_column(rt, rows.column(column));
    }
}

/// Rows of so many cells as rows of codes: their columns, a line each. The number of cells stands before the rows.
pub fn put_coded(rt: &HostRuntime, alloc: Global, line: &str) -> Result<(), Refused> {
    let (cells, line) = parts(line, ' ');
    let cells = place(cells)?;
    let rows = rows(alloc, line)?;
    if !have_cells(rows.items(), cells) {
        return Err(Refused);
    }
    let coded = code_rows(alloc, &rows, cells, &mut Codes::new(alloc))?;
    put_columns(rt, &coded);
    Ok(())
}

/// The codes of the words, and then the places at which the first word's code stands.
pub fn put_codes(rt: &HostRuntime, alloc: Global, line: &str) -> Result<(), Refused> {
    let column = codes_of(alloc, line)?;
    put_column(rt, &column);
    let picks = firsts(alloc, &column)?;
    put_numbers(rt, picks.items());
    Ok(())
}

// The document that a line writes, in a list.
fn document(alloc: Global, line: &str) -> Result<Trees, Refused> {
    match read_trees(alloc, line.as_bytes(), &Layout::Lines) {
        Ok(trees) => Ok(trees),
        Err(_) => Err(Refused),
    }
}

/// The facts of a document, a line each, and the first number that no node has.
pub fn put_encoded(rt: &HostRuntime, alloc: Global, line: &str) -> Result<(), Refused> {
    let trees = document(alloc, line)?;
    let encoded = encode_documents(alloc, 0, &trees, 0)?;
    put_facts(rt, encoded.facts.items());
    put_counted(rt, "next ", encoded.next);
    Ok(())
}

// The pattern `{ **: x }`.
fn anything_inside(alloc: Global) -> Result<Pattern, Refused>
    ensures { IfOk result (λ it. HaveFlatTerms (entries_of it.entries)) }
{
    let mut path = List::new(alloc);
    path.push(Step::Below)?;
    let mut entries = List::new(alloc);
    entries.push(Entry::Value(path, Term::Plain(0)))?;
    Ok(Pattern { entries })
}

// The terms that stand for the pattern's variable, a line each, or that a match has none.
fn put_found(rt: &HostRuntime, found: &[Valuation]) {
    'matches: for valuation in found {
        match valuation.value(0) {
            Some(term) => put_row(rt, from_ref(term)),
            None => put(rt, "no value\n"),
        }
    }
}

// The terms that stand for the pattern's variable in a document, a line each.
fn put_matches(
    rt: &HostRuntime,
    alloc: Global,
    pattern: &Pattern,
    tree: &Tree,
) -> Result<(), Refused>
    requires { HaveFlatTerms (entries_of pattern.now.entries) }
{
    let found = match_pattern(alloc, pattern, tree)?;
    put_found(rt, found.items());
    Ok(())
}

// The texts that stand strictly inside each of the documents.
fn put_all_inside(rt: &HostRuntime, alloc: Global, trees: &[Tree]) -> Result<(), Refused> {
    let pattern = anything_inside(alloc)?;
    'trees: for tree in trees {
        put_matches(rt, alloc, &pattern, tree)?;
    }
    Ok(())
}

/// The texts that stand strictly inside a document, by a pattern.
pub fn put_inside(rt: &HostRuntime, alloc: Global, line: &str) -> Result<(), Refused> {
    let trees = document(alloc, line)?;
    put_all_inside(rt, alloc, trees.items())
}
