//! The columns by which facts are found.

use crate::body::mentions;
use esto_semantics::Atom;
use esto_table::Marks;
use esto_term::{OutOfMemory, Term};
use std::alloc::Global;

/// Columns of relations by which searches ask. An index by them serves any search; one that asks by other columns takes
/// longer.
#[derive(Drop)]
pub struct Columns {
    pub(crate) marks: Marks,
}

// Whether a search may ask by the term in an atom, where each of these atoms may come before it.
fn is_asked(seen: &[Atom], before: &[Atom], after: &[Atom], term: &Term) -> bool {
    match term {
        Term::Const(_) => true,
        Term::Plain(_) => {
            mentions(before, term) || mentions(after, term) || mentions(seen, term)
        }
        Term::Made(_, _, _) => false,
    }
}

// Marks the columns of the atom that are asked for, where each of the other atoms may come before it.
fn mark_atom(
    alloc: Global,
    marks: &mut Marks,
    seen: &[Atom],
    before: &[Atom],
    atom: &Atom,
    after: &[Atom],
) -> Result<(), OutOfMemory> {
    'terms: for (column, term) in atom.terms.items().iter().enumerate() {
        if is_asked(seen, before, after, term) {
            marks.mark(alloc, atom.relation, column)?;
        }
    }
    Ok(())
}

impl Columns {
    /// No column.
    pub fn none(alloc: Global) -> Columns {
        Columns {
            marks: Marks::none(alloc),
        }
    }

    /// Adds the columns by which a search for matches of the body may ask, in whichever order it takes the atoms, where the
    /// variables of the seen atoms have their values already.
    pub fn add_asked(
        &mut self,
        alloc: Global,
        seen: &[Atom],
        body: &[Atom],
    ) -> Result<(), OutOfMemory> {
        'atoms: for (place, atom) in body.iter().enumerate() {
            mark_atom(
                alloc,
                &mut self.marks,
                seen,
                &body[..place],
                atom,
                &body[place + 1..],
            )?;
        }
        Ok(())
    }
}
