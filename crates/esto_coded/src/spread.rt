//! Codes that spread from some terms of a match to all terms of its atoms, one atom after the other: the rows of its
//! relation are passed over once, and none are joined.
ghost use Rattle.std.specs.Prelude.{◌≡◌, ◌<◌, ◌∷◌, [], ℕ, List, Some, length, map, slice_get, nat_eq, IsTrue, IfOk, IfSome, OnOk};
ghost use Rattle.std.specs.Set.{is_member};
ghost use Rattle.esto_coded.specs.Coded.{rows_in};
ghost use Rattle.esto_coded.specs.Relations.{coded_of};
ghost use Rattle.esto_coded.specs.Spread.{AreReached, IsReached, Passes, Reaches, Spreads, TakesPassing};

use crate::answers::is_over;
use esto_columns::{Rows, StoredRows};
use esto_query::mentions;
use esto_rows::CodeSet;
use esto_semantics::Atom;
use esto_term::{OutOfMemory, Places, Term, Values, has_term};
use std::alloc::Global;

/// Codes are few where there are no more.
const MANY_CODES: usize = 65_536;

/// Whether the term is no constant, and is one of the leading ones or stands in one of the atoms.
fn is_reached(lead: &[Term], before: &[Atom], term: &Term) -> bool
    ensures { IsTrue result → IsReached lead.now before.now term.now }
{
    if term.is_constant() {
        return false;
    }
    if has_term(lead, term) {
        return true;
    }
    mentions(before, term)
}

/// Puts the column at the end, if its term is reached.
fn push_reached(
    lead: &[Term],
    before: &[Atom],
    terms: &[Term],
    column: usize,
    columns: &mut Places,
) -> Result<(), OutOfMemory>
    requires { column < length terms.now }
    ensures { OnOk result (AreReached lead.now before.now terms.now columns.old
        → AreReached lead.now before.now terms.now columns.new) }
{
    if !is_reached(lead, before, &terms[column]) {
        return Ok(());
    }
    columns.push(column)
}

/// The columns of reached terms.
fn reached_columns(
    alloc: Global,
    lead: &[Term],
    before: &[Atom],
    terms: &[Term],
) -> Result<Places, OutOfMemory>
    ensures { IfOk result (AreReached lead.now before.now terms.now) }
{
    let mut columns = Values::new(alloc);
    'columns: for column in 0..terms.len() {
        push_reached(lead, before, terms, column, &mut columns)?;
    }
    Ok(columns)
}

/// Whether the row's code in the column is in the set. A row that has none there passes too.
fn passes_at(column: usize, row: &[u64], set: &CodeSet) -> bool
    ensures { ((code : ℕ) → slice_get row.now column ≡ Some code
        → IsTrue (is_member nat_eq set.now code)) → IsTrue result }
{
    match row.get(column) {
        Some(code) => set.has(*code),
        None => true,
    }
}

/// The same in each of the columns.
fn passes(columns: &[usize], row: &[u64], set: &CodeSet) -> bool
    ensures { Passes columns.now row.now set.now → IsTrue result }
{
    'columns: for column in columns {
        if !passes_at(*column, row, set) {
            return false;
        }
    }
    true
}

/// Adds the codes of the row, if it passes.
fn take_row(columns: &[usize], row: &[u64], set: &mut CodeSet) -> Result<(), OutOfMemory>
    ensures { OnOk result (TakesPassing columns.now (row.now ∷ []) set.old set.new) }
{
    if !passes(columns, row, set) {
        return Ok(());
    }
    set.add_all(row)
}

/// Whether the row at the place may pass, by its code in the first of the columns alone.
fn may_pass(columns: &[usize], rows: &Rows, at: usize, set: &CodeSet) -> bool
    requires { at < length rows.now.rows }
    ensures { (row : List ℕ) → slice_get rows.now.rows at ≡ Some row
        → Passes columns.now row set.now → IsTrue result }
{
    let Some(column) = columns.first() else {
        return true;
    };
    match rows.code(at, *column) {
        Some(code) => set.has(code),
        None => true,
    }
}

/// Adds the codes of the row at the place, which is read into the list where it may pass, if it passes.
fn take_at(
    columns: &[usize],
    rows: &Rows,
    at: usize,
    row: &mut Values<u64>,
    set: &mut CodeSet,
) -> Result<(), OutOfMemory>
    requires { at < length rows.now.rows }
    ensures { OnOk result ((own : List ℕ) × (slice_get rows.now.rows at ≡ Some own)
        × TakesPassing columns.now (own ∷ []) set.old set.new) }
{
    if !may_pass(columns, rows, at, set) {
        return Ok(());
    }
    rows.read_row(at, row)?;
    take_row(columns, row.items(), set)
}

/// The same of each of the rows.
fn take_rows(
    alloc: Global,
    columns: &[usize],
    rows: &Rows,
    set: &mut CodeSet,
) -> Result<(), OutOfMemory>
    ensures { OnOk result (TakesPassing columns.now rows.now.rows set.old set.new) }
{
    let mut row = Values::new(alloc);
    'rows: for at in 0..rows.len() {
        take_at(columns, rows, at, &mut row, set)?;
    }
    Ok(())
}

/// The same of the rows of the relation of the number.
fn take_relation(
    alloc: Global,
    columns: &[usize],
    number: usize,
    relations: &[StoredRows],
    set: &mut CodeSet,
) -> Result<(), OutOfMemory>
    requires { number < length relations.now }
    ensures { OnOk result (TakesPassing columns.now
        (rows_in (map (λ stored. stored.rows) relations.now) number) set.old set.new) }
{
    take_rows(alloc, columns, &relations[number].rows, set)
}

/// Adds the codes of those rows of the atom's relation that have codes of the set in the columns of reached terms: the
/// leading ones, and those of the atoms before.
fn take_atom(
    alloc: Global,
    lead: &[Term],
    before: &[Atom],
    atom: &Atom,
    relations: &[StoredRows],
    set: &mut CodeSet,
) -> Result<(), OutOfMemory>
    ensures { OnOk result ((texts : List (List ℕ))
        → Reaches (coded_of texts relations.now) lead.now before.now atom.now set.old set.new) }
{
    if !is_over(atom, relations) {
        return Ok(());
    }
    let columns = reached_columns(alloc, lead, before, atom.terms.items())?;
    take_relation(alloc, columns.items(), atom.relation, relations, set)
}

/// The same of each of the atoms, one after the other, as long as codes are few; whether they are at the end.
fn take_atoms(
    alloc: Global,
    lead: &[Term],
    atoms: &[Atom],
    relations: &[StoredRows],
    set: &mut CodeSet,
) -> Result<bool, OutOfMemory>
    ensures { IfOk result (λ it. IsTrue it → (texts : List (List ℕ))
        → Spreads (coded_of texts relations.now) lead.now atoms.now set.old set.new) }
{
    'atoms: for at in 0..atoms.len() {
        if set.len() > MANY_CODES {
            return Ok(false);
        }
        let (before, _) = atoms.split_at(at);
        take_atom(alloc, lead, before, &atoms[at], relations, set)?;
    }
    Ok(set.len() <= MANY_CODES)
}

/// The codes that come from those of the leading terms, by the atoms in order. None as soon as they are not few.
pub(crate) fn spread_codes(
    alloc: Global,
    lead: &[Term],
    atoms: &[Atom],
    relations: &[StoredRows],
    seed: CodeSet,
) -> Result<Option<CodeSet>, OutOfMemory>
    ensures { IfOk result (λ it. IfSome it (λ set. (texts : List (List ℕ))
        → Spreads (coded_of texts relations.now) lead.now atoms.now seed set)) }
{
    let mut set = seed;
    if !take_atoms(alloc, lead, atoms, relations, &mut set)? {
        return Ok(None);
    }
    Ok(Some(set))
}
