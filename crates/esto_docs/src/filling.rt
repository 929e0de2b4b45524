//! The rows of a document by a layout, filled cell by cell.
ghost use Rattle.std.specs.Prelude.{◌≡◌, ◌++◌, ◌∷◌, [], ℕ, OnOk, length, map, slice_set};
ghost use Rattle.serde_json.specs.View.{view};
ghost use Rattle.esto_term.specs.declared.term.Term.TheVariants.{Plain};
ghost use Rattle.esto_docmodel.specs.Forests.{Node};
ghost use Rattle.esto_docmodel.specs.Layouts.{IsColumn, IsLayout};
ghost use Rattle.esto_docmodel.specs.Shapes.{entries_of};
ghost use Rattle.esto_docs.specs.Filling.{value_node, value_text, cells_of, AreReady, Completes, Fills, FillsSome, tasks_of, with_path};
ghost use Rattle.esto_docs.specs.Rows.{IsRowOf, Gains};
ghost use Rattle.esto_docs.specs.Trees.{tree_of};

use crate::holding::{holds_text, items_of, member_of, row_of};
use crate::matching::can_match;
use esto_docmodel::{Entry, Pattern, Step, path_of};
use esto_term::{OutOfMemory, Term, TextRows};
use serde_json::Value;
use std::alloc::Global;

/// What is left to match: nothing, or entries of a layout in a value, and what follows them.
#[derive(Clone, Copy)]
pub enum Todo<'a, 'b> {
    Nothing,
    Entries(&'a [Entry], &'a Value, &'b Todo<'a, 'b>),
}

// Puts the value into the cell of the column.
fn put_cell<'a>(cells: &mut [&'a Value], term: &Term, value: &'a Value)
    requires { IsColumn (length cells.old) term.now }
    ensures count { length cells.new ≡ length cells.old }
    ensures cell { (column : ℕ) → term.now ≡ Plain column → cells_of cells.new
        ≡ slice_set (cells_of cells.old) column (value_text (view value.now)) }
{
    match term {
        Term::Plain(column) => cells[*column as usize] = value,
        Term::Const(_) => {}
        Term::Made(_, _, _) => {}
    }
}

// Puts the row of the cells at the end.
fn put_row(alloc: Global, cells: &[&Value], rows: &mut TextRows) -> Result<(), OutOfMemory>
    ensures { OnOk result (rows.new ≡ rows.old ++ cells_of cells.now ∷ []) }
{
    let row = row_of(alloc, cells)?;
    rows.push(row)
}

// Puts the rows that complete the cells by all that is left to match.
#[cycle(fill)]
fn fill<'a>(
    alloc: Global,
    todo: Todo<'a, '_>,
    cells: &mut [&'a Value],
    rows: &mut TextRows,
) -> Result<(), OutOfMemory>
    requires { AreReady (length cells.old) (tasks_of todo) }
    ensures { OnOk result (Fills (length cells.old) (tasks_of todo.entry)
        (cells_of cells.old) (cells_of cells.new) rows.old rows.new) }
{
    match todo {
        Todo::Nothing => put_row(alloc, cells, rows),
        Todo::Entries(entries, value, later) => match entries.split_first() {
            Some((entry, rest)) => {
                let todo = Todo::Entries(rest, value, later);
                follow(alloc, entry, path_of(entry), value, todo, cells, rows)
            }
            None => fill(alloc, *later, cells, rows),
        },
    }
}

// The same, where the entry is to be matched first, by what is left of its path.
#[cycle(fill)]
fn follow<'a>(
    alloc: Global,
    entry: &'a Entry,
    path: &[Step],
    value: &'a Value,
    todo: Todo<'a, '_>,
    cells: &mut [&'a Value],
    rows: &mut TextRows,
) -> Result<(), OutOfMemory>
    requires { AreReady (length cells.old)
        ((with_path path.now (entries_of (entry.now ∷ [])), value_node (view value.now))
        ∷ tasks_of todo) }
    ensures { OnOk result (Fills (length cells.old)
        ((with_path path.now (entries_of (entry.now ∷ [])), value_node (view value.now))
        ∷ tasks_of todo.entry)
        (cells_of cells.old) (cells_of cells.new) rows.old rows.new) }
{
    let Some((step, rest)) = path.split_first() else {
        return reach(alloc, entry, value, todo, cells, rows);
    };
    match step {
        Step::Name(name) => match member_of(value, name.as_str()) {
            Some(member) => follow(alloc, entry, rest, member, todo, cells, rows),
            None => Ok(()),
        },
        Step::Item => follow_items(alloc, entry, rest, items_of(value), todo, cells, rows),
        Step::Below => Ok(()),
    }
}

// The same, where the entry is to be matched in one of the items.
#[cycle(fill)]
fn follow_items<'a>(
    alloc: Global,
    entry: &'a Entry,
    path: &[Step],
    items: &'a [Value],
    todo: Todo<'a, '_>,
    cells: &mut [&'a Value],
    rows: &mut TextRows,
) -> Result<(), OutOfMemory>
    requires { (node : Node) → AreReady (length cells.old)
        ((with_path path.now (entries_of (entry.now ∷ [])), node) ∷ tasks_of todo) }
    ensures { OnOk result (FillsSome (length cells.old)
        (with_path path.now (entries_of (entry.now ∷ [])))
        (map (λ item. value_node (view item)) items.now) (tasks_of todo.entry)
        (cells_of cells.old) (cells_of cells.new) rows.old rows.new) }
{
    'items: for item in items {
        follow(alloc, entry, path, item, todo, cells, rows)?;
    }
    Ok(())
}

// The same, where the entry's path leads to the value.
#[cycle(fill)]
fn reach<'a>(
    alloc: Global,
    entry: &'a Entry,
    value: &'a Value,
    todo: Todo<'a, '_>,
    cells: &mut [&'a Value],
    rows: &mut TextRows,
) -> Result<(), OutOfMemory>
    requires { AreReady (length cells.old)
        ((with_path [] (entries_of (entry.now ∷ [])), value_node (view value.now))
        ∷ tasks_of todo) }
    ensures { OnOk result (Fills (length cells.old)
        ((with_path [] (entries_of (entry.now ∷ [])), value_node (view value.now))
        ∷ tasks_of todo.entry)
        (cells_of cells.old) (cells_of cells.new) rows.old rows.new) }
{
    match entry {
        Entry::Value(_, term) => {
            if !holds_text(value) {
                return Ok(());
            }
            put_cell(cells, term, value);
            fill(alloc, todo, cells, rows)
        }
        Entry::Group(_, inner) => {
            let entries = inner.items();
            if !can_match(entries, value) {
                return Ok(());
            }
            fill(alloc, Todo::Entries(entries, value, &todo), cells, rows)
        }
    }
}

// Puts the rows that complete the cells by the entries, matched in the value.
fn put_completing<'a>(
    alloc: Global,
    value: &'a Value,
    entries: &'a [Entry],
    cells: &mut [&'a Value],
    rows: &mut TextRows,
) -> Result<(), OutOfMemory>
    requires { AreReady (length cells.old)
        ((entries_of entries.now, value_node (view value.now)) ∷ []) }
    ensures { OnOk result (Gains (Completes (length cells.old)
        ((entries_of entries.now, value_node (view value.now)) ∷ []) (cells_of cells.old))
        rows.old rows.new) }
{
    fill(
        alloc,
        Todo::Entries(entries, value, &Todo::Nothing),
        cells,
        rows,
    )
}

/// Puts the rows of a document at the end, by a layout of so many columns.
pub fn put_rows(
    alloc: Global,
    value: &Value,
    pattern: &Pattern,
    columns: usize,
    rows: &mut TextRows,
) -> Result<(), OutOfMemory>
    requires { IsLayout columns (entries_of pattern.now.entries) }
    ensures { OnOk result (Gains
        (IsRowOf columns (entries_of pattern.now.entries) (tree_of (view value.now) ∷ []))
        rows.old rows.new) }
{
    let entries = pattern.entries.items();
    if !can_match(entries, value) {
        return Ok(());
    }
    match vec![in alloc; value; columns] {
        Ok(mut cells) => put_completing(alloc, value, entries, &mut cells, rows),
        Err(_) => Err(OutOfMemory),
    }
}
