//! The facts of rows.
ghost use Rattle.std.specs.Prelude.{◌≡◌, ℕ, List, [], ◌∷◌, ◌++◌, false, map, IfOk, OnOk};
ghost use Rattle.esto_term.specs.declared.term.Term.TheVariants.{Const};
ghost use Rattle.esto_relmodel.specs.Once.{AreEachOnce};
ghost use Rattle.esto_relmodel.specs.RowFacts.{row_fact, AreRowFacts};

use crate::seen::Seen;
use esto_semantics::{Atom, Fact, Facts};
use esto_term::{List, OutOfMemory, Replicate, Term, Terms, Text, TextRow, TextRows};
use std::alloc::Global;

/// The constant of a cell.
fn constant(alloc: Global, cell: &Text) -> Result<Term, OutOfMemory>
    ensures { IfOk result (λ it. it ≡ Const cell.now) }
{
    Ok(Term::Const(cell.copy(alloc)?))
}

/// The constants of the cells, in order.
pub fn constants(alloc: Global, cells: &[Text]) -> Result<Terms, OutOfMemory>
    ensures { IfOk result (λ it. it ≡ map Const cells.now) }
{
    let mut terms = List::with_room(alloc, cells.len())?;
    'cells: for cell in cells {
        let term = constant(alloc, cell)?;
        terms.push(term)?;
    }
    Ok(terms)
}

/// The row as a fact.
fn fact_of(alloc: Global, relation: usize, row: &TextRow) -> Result<Atom, OutOfMemory>
    ensures { IfOk result (λ it. it ≡ row_fact relation row.now) }
{
    let terms = constants(alloc, row.items())?;
    Ok(Fact { relation, terms })
}

/// Puts the fact of the row, unless the row was seen.
fn put_row<'a>(
    alloc: Global,
    relation: usize,
    row: &'a TextRow,
    seen: &mut Seen<'a>,
    facts: &mut Facts,
) -> Result<(), OutOfMemory>
    requires { facts.old ≡ map (row_fact relation) seen.old }
    ensures facts { OnOk result (facts.new ≡ map (row_fact relation) seen.new) }
    ensures once { OnOk result ((rows : List (List (List ℕ))) → AreEachOnce rows seen.old
        → AreEachOnce (rows ++ row.now ∷ []) seen.new) }
{
    if !seen.add(alloc, row)? {
        return Ok(());
    }
    let fact = fact_of(alloc, relation, row)?;
    facts.push(fact)
}

/// The facts of the rows, each of which is put among those that were seen, which are none at the start.
fn facts_seen<'a>(
    alloc: Global,
    relation: usize,
    rows: &'a [TextRow],
    seen: &mut Seen<'a>,
) -> Result<Facts, OutOfMemory>
    requires { seen.old ≡ [] }
    ensures { IfOk result (λ it. AreRowFacts relation rows.now it) }
{
    let mut facts = List::new(alloc);
    'rows: for row in rows {
        put_row(alloc, relation, row, seen, &mut facts)?;
    }
    Ok(facts)
}

/// The facts of a table's rows: each row as a fact of the relation over its cells as constants, a repeated row once, in
/// order of first occurrence.
pub fn table_facts(alloc: Global, relation: usize, rows: &TextRows) -> Result<Facts, OutOfMemory>
    ensures { IfOk result (λ it. AreRowFacts relation rows.now it) }
{
    let mut seen = Seen::new(alloc);
    facts_seen(alloc, relation, rows.items(), &mut seen)
}

// Whether one of the rows stands there twice. Those before it are put among those that were seen, which are none at
// the start.
fn is_seen_twice<'a>(
    alloc: Global,
    rows: &'a [TextRow],
    seen: &mut Seen<'a>,
) -> Result<bool, OutOfMemory>
    requires { seen.old ≡ [] }
    ensures { IfOk result (λ it. (it ≡ false) → AreEachOnce rows.now rows.now) }
{
    'rows: for row in rows {
        if !seen.add(alloc, row)? {
            return Ok(true);
        }
    }
    Ok(false)
}

// Whether one of the rows stands there twice.
fn has_repeats(alloc: Global, rows: &[TextRow]) -> Result<bool, OutOfMemory>
    ensures { IfOk result (λ it. (it ≡ false) → AreEachOnce rows.now rows.now) }
{
    let mut seen = Seen::new(alloc);
    is_seen_twice(alloc, rows, &mut seen)
}

// The constants of the cells, which are moved and not copied, in order.
fn moved_constants(alloc: Global, row: TextRow) -> Result<Terms, OutOfMemory>
    ensures { IfOk result (λ it. it ≡ map Const row) }
{
    let mut terms = List::with_room(alloc, row.len())?;
    'cells: for cell in row.into_vec() {
        terms.push(Term::Const(cell))?;
    }
    Ok(terms)
}

// Puts the row, which is moved and not copied, as a fact at the end.
fn put_moved(
    alloc: Global,
    relation: usize,
    row: TextRow,
    facts: &mut Facts,
) -> Result<(), OutOfMemory>
    ensures { OnOk result (facts.new ≡ facts.old ++ row_fact relation row ∷ []) }
{
    let terms = moved_constants(alloc, row)?;
    facts.push(Fact { relation, terms })
}

// The rows as facts, whose cells are moved and not copied.
fn moved_rows(alloc: Global, relation: usize, rows: TextRows) -> Result<Facts, OutOfMemory>
    ensures { IfOk result (λ it. it ≡ map (row_fact relation) rows) }
{
    let mut facts = List::new(alloc);
    'rows: for row in rows.into_vec() {
        put_moved(alloc, relation, row, &mut facts)?;
    }
    Ok(facts)
}

/// The same facts as those of `table_facts`. Where no row is repeated, its cells are moved and not copied.
pub fn facts_of_rows(alloc: Global, relation: usize, rows: TextRows) -> Result<Facts, OutOfMemory>
    ensures { IfOk result (λ it. AreRowFacts relation rows it) }
{
    if has_repeats(alloc, rows.items())? {
        return table_facts(alloc, relation, &rows);
    }
    moved_rows(alloc, relation, rows)
}
