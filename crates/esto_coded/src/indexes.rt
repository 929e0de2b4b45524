//! Indexes of relations by the columns that join atoms. They serve to find rows faster, and contracts don't see them.
ghost use Rattle.std.specs.Prelude.{◌≡◌, ◌<◌, length};

use crate::answers::is_over;
use crate::coded::CodedFacts;
use esto_columns::{Rows, StoredRows};
use esto_semantics::Atom;
use esto_term::{OutOfMemory, Term, has_term};
use std::alloc::Global;

/// A relation of fewer rows gets no index.
const FEW_ROWS: usize = 64;

/// Makes an index of the rows by the column, where they have none and there is memory for it.
fn index_column(alloc: Global, column: usize, rows: &mut Rows) -> Result<(), OutOfMemory>
    ensures { rows.new ≡ rows.old }
{
    if rows.index_by(&[column]).is_some() {
        return Ok(());
    }
    // without it rows are found more slowly, and that is all
    let _made = rows.index(alloc, &[column]);
    Ok(())
}

/// Whether the term stands in another of the atoms than that at the place.
fn is_elsewhere(atoms: &[Atom], at: usize, term: &Term) -> bool {
    'atoms: for (place, atom) in atoms.iter().enumerate() {
        if place != at && has_term(atom.terms.items(), term) {
            return true;
        }
    }
    false
}

/// Makes an index of the rows by each column of the atom at the place whose term is no constant and stands in another
/// of the atoms.
fn index_columns(
    alloc: Global,
    atoms: &[Atom],
    at: usize,
    rows: &mut Rows,
) -> Result<(), OutOfMemory>
    requires { at < length atoms.now }
    ensures { rows.new ≡ rows.old }
{
    'columns: for (column, term) in atoms[at].terms.items().iter().enumerate() {
        if !term.is_constant() && is_elsewhere(atoms, at, term) {
            index_column(alloc, column, rows)?;
        }
    }
    Ok(())
}

/// The same of the atom's relation, where it is there, with so many columns and with many rows.
fn index_atom(
    alloc: Global,
    atoms: &[Atom],
    at: usize,
    relations: &mut Vec<StoredRows>,
) -> Result<(), OutOfMemory>
    requires { at < length atoms.now }
    ensures { relations.new.items ≡ relations.old.items }
{
    let atom = &atoms[at];
    if !is_over(atom, relations.as_slice()) || relations[atom.relation].rows.len() < FEW_ROWS {
        return Ok(());
    }
    let relation = &mut relations[atom.relation];
    index_columns(alloc, atoms, at, &mut relation.rows)
}

/// The same of each of the atoms.
fn index_atoms(
    alloc: Global,
    atoms: &[Atom],
    relations: &mut Vec<StoredRows>,
) -> Result<(), OutOfMemory>
    ensures { relations.new.items ≡ relations.old.items }
{
    'atoms: for at in 0..atoms.len() {
        index_atom(alloc, atoms, at, relations)?;
    }
    Ok(())
}

impl CodedFacts {
    /// Makes an index of the relation of each atom by each column whose variable stands in another of the atoms too. A
    /// relation of few rows gets none, nor does one where there is no memory for it. They stay until a row is put into
    /// the relation, and are not made again.
    pub fn index_joins(&mut self, alloc: Global, atoms: &[Atom]) -> Result<(), OutOfMemory>
        ensures { self.new ≡ self.old }
    {
        index_atoms(alloc, atoms, &mut self.relations)
    }
}
