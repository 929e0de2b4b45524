//! What terms meet first, and what a rule makes.
ghost use Rattle.std.specs.Prelude.{◌≡◌, ◌++◌, length, map, IfOk};
ghost use Rattle.esto_semantics.specs.Facts.{image, terms_of};
ghost use Rattle.esto_semantics.specs.Spreads.{substituted};
ghost use Rattle.esto_chase_laws.specs.Making.{made_for};
ghost use Rattle.esto_chase_laws.specs.WorldMatches.{taken};
ghost use Rattle.esto_prov.specs.Taking.{made_of};

use crate::lists::{put_made, put_terms};
use esto_semantics::Atom;
use esto_term::{List, OutOfMemory, Replicate, Term, Terms, has_term};
use std::alloc::Global;

/// The terms of the atoms, in order.
pub fn terms_of(alloc: Global, atoms: &[Atom]) -> Result<Terms, OutOfMemory>
    ensures { IfOk result (λ it. it ≡ terms_of atoms.now) }
{
    let mut terms = List::new(alloc);
    'atoms: for atom in atoms {
        put_terms(alloc, atom.terms.items(), &mut terms)?;
    }
    Ok(terms)
}

/// The term that a term meets first.
pub fn taken_term<'a>(from: &[Term], to: &'a [Term], term: &'a Term) -> &'a Term
    ensures { result.now ≡ taken from.now to.now term.now }
{
    match term {
        Term::Const(_) => term,
        Term::Plain(_) => first_met(from, to, term),
        Term::Made(_, _, _) => first_met(from, to, term),
    }
}

/// The term at the first place of a term, or the term itself.
fn first_met<'a>(from: &[Term], to: &'a [Term], term: &'a Term) -> &'a Term
    ensures { result.now ≡ substituted from.now to.now term.now }
{
    'places: for place in 0..from.len() {
        if place >= to.len() {
            return term;
        }
        if term.compare(&from[place]).is_eq() {
            return &to[place];
        }
    }
    term
}

/// What a term meets first, where the terms of an atom stand behind others.
pub fn met_first<'a>(
    from: &[Term],
    to: &'a [Term],
    terms: &[Term],
    owns: &'a [Term],
    term: &'a Term,
) -> &'a Term
    requires { length from.now ≡ length to.now }
    ensures { result.now ≡ taken (from.now ++ terms.now) (to.now ++ owns.now) term.now }
{
    if has_term(from, term) {
        return taken_term(from, to, term);
    }
    taken_term(terms, owns, term)
}

/// What the terms meet first.
pub fn taken_terms(
    alloc: Global,
    from: &[Term],
    to: &[Term],
    terms: &[Term],
) -> Result<Terms, OutOfMemory>
    ensures { IfOk result (λ it. it ≡ map (taken from.now to.now) terms.now) }
{
    let mut taken = List::new(alloc);
    'terms: for term in terms {
        let met = taken_term(from, to, term).copy(alloc);
        put_made(&mut taken, met)?;
    }
    Ok(taken)
}

/// The term that a rule makes for a variable; every other term stays.
fn made_for(alloc: Global, number: usize, values: &Terms, term: &Term) -> Result<Term, OutOfMemory>
    ensures { IfOk result (λ it. it ≡ made_for number values.now term.now) }
{
    match term {
        Term::Const(_) => term.copy(alloc),
        Term::Plain(variable) => Ok(Term::Made(number as u64, *variable, values.copy(alloc)?)),
        Term::Made(_, _, _) => term.copy(alloc),
    }
}

/// What a term of a head becomes.
fn made_term(
    alloc: Global,
    number: usize,
    from: &[Term],
    to: &[Term],
    values: &Terms,
    term: &Term,
) -> Result<Term, OutOfMemory>
    ensures { IfOk result (λ it. it ≡ made_of number from.now to.now values.now term.now) }
{
    if has_term(from, term) {
        return taken_term(from, to, term).copy(alloc);
    }
    made_for(alloc, number, values, term)
}

/// What an atom of a head becomes.
pub fn made_fact(
    alloc: Global,
    number: usize,
    from: &[Term],
    to: &[Term],
    values: &Terms,
    atom: &Atom,
) -> Result<Atom, OutOfMemory>
    ensures { IfOk result (λ it. it ≡ image (made_of number from.now to.now values.now) atom.now) }
{
    let mut terms = List::new(alloc);
    'terms: for term in atom.terms.items() {
        let made = made_term(alloc, number, from, to, values, term);
        put_made(&mut terms, made)?;
    }
    Ok(Atom {
        relation: atom.relation,
        terms,
    })
}
