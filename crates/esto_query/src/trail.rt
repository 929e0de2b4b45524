//! The bindings that a search has made, in order.
ghost use Rattle.std.specs.Prelude.{◌≡◌, Contains, IfOk, map};
ghost use Rattle.std.specs.FinMap.{get};
ghost use Rattle.std.specs.Option.{option_copied};
ghost use Rattle.esto_term.specs.declared.term.Term.{Term};
ghost use Rattle.esto_semantics.specs.Facts.{image};
ghost use Rattle.esto_semantics.specs.Maps.{IsFlat};
ghost use Rattle.esto_query.specs.Trails.{with_trail, Tries};

use esto_semantics::{Atom, Valuation};
use esto_term::{OutOfMemory, Term};

/// A variable, and the term that it was given.
#[derive(Clone, Copy)]
pub struct Binding<'a> {
    pub variable: u64,
    pub term: &'a Term,
}

/// The variable's term, in the trail or at the start.
pub fn value<'b, 'a: 'b>(
    start: &'b Valuation,
    trail: &'b [Binding<'a>],
    variable: u64,
) -> Option<&'b Term>
    ensures { option_copied result ≡ get (with_trail start.now trail.now) variable }
{
    for at in (0..trail.len()).rev() {
        let binding = &trail[at];
        if binding.variable == variable {
            return Some(binding.term);
        }
    }
    start.value(variable)
}

/// Gives the term's variable a term, if need be, so that the term becomes the target; where it
/// cannot, the trail stays.
pub fn bind_term<'a>(
    start: &Valuation,
    trail: &mut Vec<Binding<'a>>,
    term: &Term,
    target: &'a Term,
) -> Result<bool, OutOfMemory>
    requires { IsFlat term.now }
    ensures { IfOk result (λ is_bound. Tries start.now trail.old.items trail.new.items is_bound
        (λ m. m term.now ≡ target.now)) }
{
    match term {
        Term::Const(_) => Ok(term.equal(target)),
        Term::Made(_, _, _) => Ok(term.equal(target)),
        Term::Plain(variable) => match value(start, trail, *variable) {
            Some(bound) => Ok(bound.equal(target)),
            None => match trail.push(Binding {
                variable: *variable,
                term: target,
            }) {
                Ok(()) => Ok(true),
                Err(_) => Err(OutOfMemory),
            },
        },
    }
}

/// The same for a row of terms.
pub fn bind_row<'a>(
    start: &Valuation,
    trail: &mut Vec<Binding<'a>>,
    terms: &[Term],
    targets: &'a [Term],
) -> Result<bool, OutOfMemory>
    requires { (term : Term) → Contains terms.now term → IsFlat term }
    ensures { IfOk result (λ is_bound. Tries start.now trail.old.items trail.new.items is_bound
        (λ m. map m terms.now ≡ targets.now)) }
{
    if terms.len() != targets.len() {
        return Ok(false);
    }
    let mark = trail.len();
    for at in 0..terms.len() {
        match bind_term(start, trail, &terms[at], &targets[at]) {
            Ok(true) => {}
            Ok(false) => {
                trail.truncate(mark);
                return Ok(false);
            }
            Err(error) => return Err(error),
        }
    }
    Ok(true)
}

/// The same for an atom and a fact.
pub fn bind_atom<'a>(
    start: &Valuation,
    trail: &mut Vec<Binding<'a>>,
    atom: &Atom,
    fact: &'a Atom,
) -> Result<bool, OutOfMemory>
    requires { (term : Term) → Contains atom.now.terms term → IsFlat term }
    ensures { IfOk result (λ is_bound. Tries start.now trail.old.items trail.new.items is_bound
        (λ m. image m atom.now ≡ fact.now)) }
{
    if atom.relation != fact.relation {
        return Ok(false);
    }
    bind_row(start, trail, atom.terms.items(), fact.terms.items())
}
