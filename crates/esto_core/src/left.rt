//! What is left of the atoms of a plan.
ghost use Rattle.std.specs.Prelude.{◌≡◌, ◌++◌, ◌<◌, ◌↔◌, [], ◌∷◌, List, length, Contains, IsTrue, IfOk, OnOk};
ghost use Rattle.esto_term.specs.declared.term.Term.{Term};
ghost use Rattle.esto_semantics.specs.Maps.{IsFlat, AreFlat};
ghost use Rattle.esto_semantics.specs.Cores.{Retracts, AreLeft};
ghost use Rattle.esto_core.specs.Left.{without, IsFixing, IsDroppedAt};

use esto_query::{first_match, matches_send};
use esto_semantics::{Atom, Facts, Valuation, valuations_are_maps};
use esto_term::{List, OutOfMemory, Replicate, Term, Terms};
use std::alloc::Global;

/// Makes the valuation of what fixes some terms that of what fixes this one too.
fn fix(alloc: Global, start: &mut Valuation, term: &Term) -> Result<(), OutOfMemory>
    requires { IsFlat term.now }
    ensures { OnOk result ((terms : List Term)
        → IsFixing terms start.old → IsFixing (terms ++ term.now ∷ []) start.new) }
{
    match term {
        Term::Plain(variable) => {
            start.bind(*variable, term.copy(alloc)?)?;
            Ok(())
        }
        Term::Const(_) => Ok(()),
        Term::Made(_, _, _) => Ok(()),
    }
}

/// The valuation whose maps are exactly those that send each of the terms to itself.
fn fixing(alloc: Global, terms: &[Term]) -> Result<Valuation, OutOfMemory>
    requires { (term : Term) → Contains terms.now term → IsFlat term }
    ensures { IfOk result (IsFixing terms.now) }
{
    let mut start = Valuation::new(alloc);
    'terms: for term in terms {
        fix(alloc, &mut start, term)?;
    }
    Ok(start)
}

/// Puts copies of the atoms at the end.
fn push_atoms(alloc: Global, list: &mut Facts, atoms: &[Atom]) -> Result<(), OutOfMemory>
    ensures { OnOk result (list.new ≡ list.old ++ atoms.now) }
{
    'atoms: for atom in atoms {
        list.push(atom.copy(alloc)?)?;
    }
    Ok(())
}

/// The atoms without the one at the place.
fn without(alloc: Global, atoms: &[Atom], place: usize) -> Result<Facts, OutOfMemory>
    requires { place < length atoms.now }
    ensures { IfOk result (λ others. others ≡ without place atoms.now) }
{
    let mut others = List::new(alloc);
    push_atoms(alloc, &mut others, &atoms[..place])?;
    push_atoms(alloc, &mut others, &atoms[place + 1..])?;
    Ok(others)
}

/// The atom, and then the others.
fn with_first(alloc: Global, atom: &Atom, others: &[Atom]) -> Result<Facts, OutOfMemory>
    ensures { IfOk result (λ all. all ≡ atom.now ∷ others.now) }
{
    let mut all = List::new(alloc);
    all.push(atom.copy(alloc)?)?;
    push_atoms(alloc, &mut all, others)?;
    Ok(all)
}

/// Whether the atom and the others retract into the others. The atom comes first in the search: where it has nowhere to
/// go, nothing else is tried.
fn retracts(alloc: Global, head: &Terms, atom: &Atom, others: &Facts) -> Result<bool, OutOfMemory>
    requires flat_head { (term : Term) → Contains head.now term → IsFlat term }
    requires flat { AreFlat (atom.now ∷ others.now) }
    ensures { IfOk result (λ answer. IsTrue answer
        ↔ Retracts head.now (atom.now ∷ others.now) others.now) }
{
    matches_send();
    valuations_are_maps();
    let start = fixing(alloc, head.items())?;
    let all = with_first(alloc, atom, others.items())?;
    let found = first_match(alloc, &all, others, &start)?;
    Ok(found.is_some())
}

/// Drops the atom at the place, where the atoms retract into those without it.
fn drop_at(alloc: Global, head: &Terms, left: &mut Facts, place: usize) -> Result<(), OutOfMemory>
    requires flat_head { (term : Term) → Contains head.now term → IsFlat term }
    requires flat { AreFlat left.old }
    requires there { place < length left.old }
    ensures { OnOk result (IsDroppedAt head.now place left.old left.new) }
{
    let others = without(alloc, left.items(), place)?;
    if retracts(alloc, head, left.item(place), &others)? {
        *left = others;
    }
    Ok(())
}

/// What is left of the atoms, when they are gone through from the last to the first, and each is dropped where those that
/// are left then retract into those without it. It makes one search for each atom, and an index of the facts for each.
pub fn left_of(alloc: Global, head: &Terms, atoms: &Facts) -> Result<Facts, OutOfMemory>
    requires flat_head { (term : Term) → Contains head.now term → IsFlat term }
    requires flat { AreFlat atoms.now }
    ensures { IfOk result (AreLeft head.now [] atoms.now) }
{
    let mut left = atoms.copy(alloc)?;
    'places: for place in (0..atoms.len()).rev() {
        drop_at(alloc, head, &mut left, place)?;
    }
    Ok(left)
}
