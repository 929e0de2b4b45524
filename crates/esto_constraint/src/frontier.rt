//! The frontier of a tuple rule.
ghost use Rattle.std.specs.Prelude.{◌≡◌, [], ◌∷◌, IfOk, OnOk};
ghost use Rattle.std.specs.List.{filter};
ghost use Rattle.esto_term.specs.Order.{same_term};
ghost use Rattle.esto_chase_laws.specs.Joined.{joined_by};
ghost use Rattle.esto_chase_laws.specs.Making.{is_variable_of, frontier};

use esto_query::mentions;
use esto_semantics::Atom;
use esto_term::{List, OutOfMemory, Replicate, Term, Terms, has_term};
use std::alloc::Global;

/// Whether the term is a variable that stands in the atoms.
fn is_variable_of(atoms: &[Atom], term: &Term) -> bool
    ensures { result ≡ is_variable_of atoms.now term.now }
{
    match term {
        Term::Plain(_) => mentions(atoms, term),
        Term::Const(_) => false,
        Term::Made(_, _, _) => false,
    }
}

/// Puts the term at the end, where it is a variable of the head and is not there yet.
fn add_variable(
    alloc: Global,
    term: &Term,
    head: &[Atom],
    shared: &mut Terms,
) -> Result<(), OutOfMemory>
    ensures { OnOk result (shared.new ≡
        joined_by same_term shared.old (filter (is_variable_of head.now) (term.now ∷ []))) }
{
    if !is_variable_of(head, term) || has_term(shared.items(), term) {
        return Ok(());
    }
    let copy = term.copy(alloc)?;
    shared.push(copy)
}

/// Puts those of the terms at the end that are variables of the head and are not there yet.
fn add_variables(
    alloc: Global,
    terms: &[Term],
    head: &[Atom],
    shared: &mut Terms,
) -> Result<(), OutOfMemory>
    ensures { OnOk result (shared.new ≡
        joined_by same_term shared.old (filter (is_variable_of head.now) terms.now)) }
{
    'terms: for term in terms {
        add_variable(alloc, term, head, shared)?;
    }
    Ok(())
}

/// The frontier: the variables that are in body and head, in order of first occurrence in the body.
pub fn frontier_of(alloc: Global, body: &[Atom], head: &[Atom]) -> Result<Terms, OutOfMemory>
    ensures { IfOk result (λ it. it ≡ frontier body.now head.now) }
{
    let mut shared = List::new(alloc);
    'atoms: for atom in body {
        add_variables(alloc, atom.terms.items(), head, &mut shared)?;
    }
    Ok(shared)
}
