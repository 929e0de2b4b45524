//! Equality rules whose body is two halves, each of which is the other under another naming of variables. Whether facts
//! meet such a rule is told by the matches of one half: those that agree on the shared variables agree on the side.
ghost use Rattle.std.specs.Prelude.{◌≡◌, ◌∷◌, map, IsTrue, IfOk};
ghost use Rattle.esto_chase_laws.specs.Making.{frontier};
ghost use Rattle.esto_semantics.specs.Facts.{image};
ghost use Rattle.esto_semantics.specs.Maps.{AreFlat};
ghost use Rattle.esto_coded.specs.Mirrored.{renamed, IsMirrored};

use esto_constraint::frontier_of;
use esto_semantics::Atom;
use esto_term::{OutOfMemory, Replicate, Term, Terms, has_term};
use std::alloc::Global;

/// Whether the other term stands for the term, by the two lists.
fn goes(from: &Terms, to: &Terms, term: &Term, other: &Term) -> bool
    ensures { IsTrue result → renamed from.now to.now term.now ≡ other.now }
{
    if from.len() != to.len() {
        return false;
    }
    'places: for place in 0..from.len() {
        if from.item(place).equal(term) {
            return to.item(place).equal(other);
        }
    }
    term.equal(other)
}

/// Whether the other terms stand for the terms, one each.
fn all_go(from: &Terms, to: &Terms, terms: &[Term], others: &[Term]) -> bool
    ensures { IsTrue result → map (renamed from.now to.now) terms.now ≡ others.now }
{
    if terms.len() != others.len() {
        return false;
    }
    'places: for place in 0..terms.len() {
        if !goes(from, to, &terms[place], &others[place]) {
            return false;
        }
    }
    true
}

/// Whether the other atom stands for the atom.
fn atom_goes(from: &Terms, to: &Terms, atom: &Atom, other: &Atom) -> bool
    ensures { IsTrue result → image (renamed from.now to.now) atom.now ≡ other.now }
{
    if atom.relation != other.relation {
        return false;
    }
    all_go(from, to, atom.terms.items(), other.terms.items())
}

/// Whether the other atoms stand for the atoms, one each.
fn atoms_go(from: &Terms, to: &Terms, atoms: &[Atom], others: &[Atom]) -> bool
    ensures { IsTrue result → map (image (renamed from.now to.now)) atoms.now ≡ others.now }
{
    if atoms.len() != others.len() {
        return false;
    }
    'places: for place in 0..atoms.len() {
        if !atom_goes(from, to, &atoms[place], &others[place]) {
            return false;
        }
    }
    true
}

/// Whether the other side stands for the side, and each of the shared terms for itself.
fn sides_go(from: &Terms, to: &Terms, side: &Term, other: &Term, shared: &[Term]) -> bool
    ensures { IsTrue result → (renamed from.now to.now side.now ≡ other.now)
        × (map (renamed from.now to.now) shared.now ≡ shared.now) }
{
    if !goes(from, to, side, other) {
        return false;
    }
    all_go(from, to, shared, shared)
}

/// Whether the halves and the sides go over to one another, by the variables of the one half and those of the other.
fn go_over(
    first: &[Atom],
    second: &[Atom],
    left: &Term,
    right: &Term,
    shared: &[Term],
    from: &Terms,
    to: &Terms,
) -> bool
    requires flat { AreFlat first.now }
    requires shared { shared.now ≡ frontier first.now second.now }
    requires from { from.now ≡ frontier first.now first.now }
    requires to { to.now ≡ frontier second.now second.now }
    ensures { IsTrue result → IsMirrored first.now second.now left.now right.now shared.now }
{
    if !has_term(from.items(), left)
        || !atoms_go(from, to, first, second)
        || !atoms_go(to, from, second, first)
    {
        return false;
    }
    if !sides_go(from, to, left, right, shared) {
        return false;
    }
    sides_go(to, from, right, left, shared)
}

/// Whether the halves and the sides are mirrored over what both halves share.
pub(crate) fn are_mirrored(
    alloc: Global,
    first: &[Atom],
    second: &[Atom],
    left: &Term,
    right: &Term,
    shared: &[Term],
) -> Result<bool, OutOfMemory>
    requires flat { AreFlat first.now }
    requires shared { shared.now ≡ frontier first.now second.now }
    ensures { IfOk result (λ it. IsTrue it
        → IsMirrored first.now second.now left.now right.now shared.now) }
{
    let from = frontier_of(alloc, first, first)?;
    let to = frontier_of(alloc, second, second)?;
    Ok(go_over(first, second, left, right, shared, &from, &to))
}

/// The term, and then the others.
pub(crate) fn with_first(alloc: Global, term: &Term, others: &Terms) -> Result<Terms, OutOfMemory>
    ensures { IfOk result (λ it. it ≡ term.now ∷ others.now) }
{
    let mut all = others.copy(alloc)?;
    let own = term.copy(alloc)?;
    all.insert(0, own)?;
    Ok(all)
}
