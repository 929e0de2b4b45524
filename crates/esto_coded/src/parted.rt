//! A part of the facts: those rows all of whose codes are among some codes, as facts over terms.
ghost use Rattle.std.specs.Prelude.{◌≡◌, ◌<◌, ◌∷◌, [], ◌++◌, ℕ, List, length, map, slice_get, Some, IsTrue, IfOk, OnOk};
ghost use Rattle.esto_rows.specs.Wanted.{are_among};
ghost use Rattle.esto_coded.specs.Coded.{rows_in};
ghost use Rattle.esto_coded.specs.Parted.{ArePart, asked_facts, is_asked, kept_facts, term_of};
ghost use Rattle.esto_coded.specs.Relations.{coded_of};

use crate::coded::FIRST_NODE;
use esto_columns::{Codes, Rows, StoredRows};
use esto_rows::CodeSet;
use esto_semantics::{Atom, Fact, Facts};
use esto_term::{List, OutOfMemory, Term, Terms, Text, Values};
use std::alloc::Global;

/// The term for which the code stands.
fn term_of(alloc: Global, code: u64, codes: &Codes) -> Result<Term, OutOfMemory>
    ensures { IfOk result (λ it. it ≡ term_of codes.now code) }
{
    if code >= codes.len() {
        return Ok(Term::Plain(code.saturating_sub(FIRST_NODE)));
    }
    match Text::from_bytes(alloc, codes.text(code)) {
        Ok(text) => Ok(Term::Const(text)),
        Err(_) => Err(OutOfMemory),
    }
}

/// Puts the term for which the code stands at the end.
fn push_term(alloc: Global, code: u64, codes: &Codes, terms: &mut Terms) -> Result<(), OutOfMemory>
    ensures { OnOk result (terms.new ≡ terms.old ++ term_of codes.now code ∷ []) }
{
    let term = term_of(alloc, code, codes)?;
    terms.push(term)
}

/// The terms for which the codes of the row stand.
fn terms_of(alloc: Global, row: &[u64], codes: &Codes) -> Result<Terms, OutOfMemory>
    ensures { IfOk result (λ it. it ≡ map (term_of codes.now) row.now) }
{
    let mut terms = List::new(alloc);
    'codes: for code in row {
        push_term(alloc, *code, codes, &mut terms)?;
    }
    Ok(terms)
}

/// Puts the row as a fact at the end, if all its codes are among those of the set.
fn put_row(
    alloc: Global,
    number: usize,
    row: &[u64],
    codes: &Codes,
    set: &CodeSet,
    facts: &mut Facts,
) -> Result<(), OutOfMemory>
    ensures { OnOk result
        (facts.new ≡ facts.old ++ kept_facts codes.now set.now number (row.now ∷ [])) }
{
    if !set.has_all(row) {
        return Ok(());
    }
    let terms = terms_of(alloc, row, codes)?;
    facts.push(Fact {
        relation: number,
        terms,
    })
}

/// Whether the row at the place may have all its codes in the set, by its first one alone.
fn may_have(rows: &Rows, at: usize, set: &CodeSet) -> bool
    requires { at < length rows.now.rows }
    ensures { (row : List ℕ) → slice_get rows.now.rows at ≡ Some row
        → IsTrue (are_among set.now row) → IsTrue result }
{
    match rows.code(at, 0) {
        Some(code) => set.has(code),
        None => true,
    }
}

/// The same of the row at the place, which is read into the list where it may have them.
fn put_at(
    alloc: Global,
    number: usize,
    rows: &Rows,
    at: usize,
    row: &mut Values<u64>,
    codes: &Codes,
    set: &CodeSet,
    facts: &mut Facts,
) -> Result<(), OutOfMemory>
    requires { at < length rows.now.rows }
    ensures { OnOk result ((own : List ℕ) × (slice_get rows.now.rows at ≡ Some own)
        × (facts.new ≡ facts.old ++ kept_facts codes.now set.now number (own ∷ []))) }
{
    if !may_have(rows, at, set) {
        return Ok(());
    }
    rows.read_row(at, row)?;
    put_row(alloc, number, row.items(), codes, set, facts)
}

/// The same of each of the rows, in order.
fn put_rows(
    alloc: Global,
    number: usize,
    rows: &Rows,
    codes: &Codes,
    set: &CodeSet,
    facts: &mut Facts,
) -> Result<(), OutOfMemory>
    ensures { OnOk result
        (facts.new ≡ facts.old ++ kept_facts codes.now set.now number rows.now.rows) }
{
    let mut row = Values::new(alloc);
    'rows: for at in 0..rows.len() {
        put_at(alloc, number, rows, at, &mut row, codes, set, facts)?;
    }
    Ok(())
}

/// Whether one of the atoms is over the relation of the number.
fn is_asked(atoms: &[Atom], number: usize) -> bool
    ensures { result ≡ is_asked atoms.now number }
{
    atoms.iter().any(|atom| atom.relation == number)
}

/// Puts the rows of the relation of the number, if one of the atoms is over it.
fn put_asked(
    alloc: Global,
    number: usize,
    atoms: &[Atom],
    codes: &Codes,
    relations: &[StoredRows],
    set: &CodeSet,
    facts: &mut Facts,
) -> Result<(), OutOfMemory>
    requires { number < length relations.now }
    ensures { OnOk result (facts.new ≡ facts.old ++ asked_facts codes.now atoms.now set.now number
        (rows_in (map (λ stored. stored.rows) relations.now) number)) }
{
    if !is_asked(atoms, number) {
        return Ok(());
    }
    put_rows(alloc, number, &relations[number].rows, codes, set, facts)
}

/// Of the relations that the atoms are over those rows all of whose codes are among those of the set, as facts,
/// relation by relation, in order.
pub(crate) fn part_of(
    alloc: Global,
    atoms: &[Atom],
    codes: &Codes,
    relations: &[StoredRows],
    set: &CodeSet,
) -> Result<Facts, OutOfMemory>
    ensures { IfOk result (ArePart (coded_of codes.now relations.now) atoms.now set.now) }
{
    let mut facts = List::new(alloc);
    'relations: for number in 0..relations.len() {
        put_asked(alloc, number, atoms, codes, relations, set, &mut facts)?;
    }
    Ok(facts)
}
