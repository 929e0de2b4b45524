//! What the atoms of a body mention, and whether they fit a schema.
ghost use Rattle.std.specs.Prelude.{◌≡◌, ◌↔◌, ◌<◌, IsTrue, All, length, MatchOption};
ghost use Rattle.esto_term.specs.declared.term.Term.TheVariants.{Plain};
ghost use Rattle.esto_semantics.specs.Facts.{Mentions};
ghost use Rattle.esto_semantics.specs.Maps.{IsFlat, IsFixedBy};
ghost use Rattle.esto_semantics.specs.WellFormed.{AreOver};
ghost use Rattle.esto_query.specs.Schemas.{arities_of};
ghost use Rattle.esto_query.specs.Making.{IsFirstMisfit};

use crate::schema::Schema;
use esto_semantics::Atom;
use esto_term::{Term, has_term};

/// Whether one of the atoms has that term.
pub fn mentions(atoms: &[Atom], term: &Term) -> bool
    ensures { IsTrue result ↔ Mentions atoms.now term.now }
{
    'atoms: for atom in atoms {
        if has_term(atom.terms.items(), term) {
            return true;
        }
    }
    false
}

/// The place of the first atom with another number of terms than its relation has columns. None comes exactly where
/// there is none.
pub fn first_misfit(schema: &Schema, atoms: &[Atom]) -> Option<usize>
    requires { All (λ atom. atom.relation < length schema.now) atoms.now }
    ensures { MatchOption result (AreOver (arities_of schema.now) atoms.now)
        (IsFirstMisfit (arities_of schema.now) atoms.now) }
{
    for place in 0..atoms.len() {
        let atom = &atoms[place];
        if atom.terms.len() != schema.arity(atom.relation) {
            return Some(place);
        }
    }
    None
}

/// The variable that the term is, where it is in none of the atoms. None comes exactly where the term is a constant or
/// in one of them.
pub fn missing_variable(term: &Term, atoms: &[Atom]) -> Option<u64>
    requires { IsFlat term.now }
    ensures { MatchOption result (IsFixedBy atoms.now term.now)
        (λ variable. (term.now ≡ Plain variable) × ¬ (Mentions atoms.now (Plain variable))) }
{
    match term {
        Term::Plain(variable) => {
            if mentions(atoms, term) {
                None
            } else {
                Some(*variable)
            }
        }
        Term::Const(_) => None,
        Term::Made(_, _, _) => None,
    }
}
