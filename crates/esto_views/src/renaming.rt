//! The renaming of terms to variables that are numbered by place, and the names of these variables.
ghost use Rattle.std.specs.Prelude.{◌≡◌, map, IfOk};
ghost use Rattle.esto_views.specs.Renamings.{numbered, name_of, renamed_atom};

use crate::indexed::IndexedTerms;
use crate::plan::{PlanAtom, PlanAtoms};
use esto_query::{Facts, Name, Names};
use esto_term::{List, OutOfMemory, Replicate, Term, Terms};
use std::alloc::Global;

/// The variable that the term becomes, whose number is the term's place among those seen. Each other term stays.
fn rename_term(alloc: Global, seen: &IndexedTerms, term: &Term) -> Result<Term, OutOfMemory>
    ensures { IfOk result (λ renamed. renamed ≡ numbered 0 seen.now term.now) }
{
    match seen.first(term) {
        Some(place) => Ok(Term::Plain(place as u64)),
        None => term.copy(alloc),
    }
}

/// The row with its terms renamed.
pub fn rename_row(alloc: Global, seen: &IndexedTerms, row: &[Term]) -> Result<Terms, OutOfMemory>
    ensures { IfOk result (λ renamed. renamed ≡ map (numbered 0 seen.now) row.now) }
{
    let mut renamed = List::new(alloc);
    'terms: for term in row {
        let other = rename_term(alloc, seen, term)?;
        renamed.push(other)?;
    }
    Ok(renamed)
}

/// The plan's atoms that the rows over fragments become.
pub fn rename_rows(
    alloc: Global,
    seen: &IndexedTerms,
    rows: &Facts,
) -> Result<PlanAtoms, OutOfMemory>
    ensures { IfOk result (λ atoms. atoms ≡ map (renamed_atom (numbered 0 seen.now)) rows.now) }
{
    let mut atoms = List::new(alloc);
    'rows: for row in rows.items() {
        let terms = rename_row(alloc, seen, row.terms.items())?;
        atoms.push(PlanAtom {
            fragment: row.relation,
            terms,
        })?;
    }
    Ok(atoms)
}

/// The name of a term: that of a query's variable, and none for each other term.
fn name_of(alloc: Global, names: &Names, term: &Term) -> Result<Name, OutOfMemory>
    ensures { IfOk result (λ name. name ≡ name_of names.now term.now) }
{
    match term {
        Term::Plain(variable) => {
            let number = *variable as usize;
            if number >= names.len() {
                return Ok(Name::Hidden);
            }
            names.item(number).copy(alloc)
        }
        Term::Const(_) => Ok(Name::Hidden),
        Term::Made(_, _, _) => Ok(Name::Hidden),
    }
}

/// The names of the terms.
pub fn names_of(alloc: Global, names: &Names, terms: &[Term]) -> Result<Names, OutOfMemory>
    ensures { IfOk result (λ found. found ≡ map (name_of names.now) terms.now) }
{
    let mut found = List::new(alloc);
    'terms: for term in terms {
        let name = name_of(alloc, names, term)?;
        found.push(name)?;
    }
    Ok(found)
}
