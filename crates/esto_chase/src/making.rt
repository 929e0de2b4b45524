//! The facts that a tuple rule makes of a match of its body.
ghost use Rattle.std.specs.Prelude.{◌≡◌, map, IfOk};
ghost use Rattle.esto_semantics.specs.Facts.{image};
ghost use Rattle.esto_semantics.specs.Valuations.{map_of};
ghost use Rattle.esto_constraint.specs.Tests.{IsOver};
ghost use Rattle.esto_chase_laws.specs.Making.{made_facts};
ghost use Rattle.esto_chase.specs.Made.{made_by};

use esto_constraint::{Tgd, frontier_of, rules_are_sound, value_of};
use esto_semantics::{Atom, Facts, Valuation};
use esto_term::{List, OutOfMemory, Replicate, Term, Terms};
use std::alloc::Global;

/// The terms' values.
fn values_of(alloc: Global, valuation: &Valuation, terms: &[Term]) -> Result<Terms, OutOfMemory>
    ensures { IfOk result (λ it. it ≡ map (map_of valuation.now) terms.now) }
{
    let mut values = List::new(alloc);
    'terms: for term in terms {
        let value = value_of(valuation, term).copy(alloc)?;
        values.push(value)?;
    }
    Ok(values)
}

/// What the rule makes of a term of its head, where it has that number and these values of its frontier: the value of a
/// variable that has one, a made term for another variable, and a constant itself.
fn make_term(
    alloc: Global,
    number: usize,
    values: &Terms,
    valuation: &Valuation,
    term: &Term,
) -> Result<Term, OutOfMemory>
    ensures { IfOk result (λ it. it ≡ made_by number values.now valuation.now term.now) }
{
    match term {
        Term::Plain(variable) => match valuation.value(*variable) {
            Some(value) => value.copy(alloc),
            None => {
                let frontier = values.copy(alloc)?;
                Ok(Term::Made(number as u64, *variable, frontier))
            }
        },
        Term::Const(_) => term.copy(alloc),
        Term::Made(_, _, _) => term.copy(alloc),
    }
}

/// What the rule makes of a row of its head.
fn make_row(
    alloc: Global,
    number: usize,
    values: &Terms,
    valuation: &Valuation,
    row: &[Term],
) -> Result<Terms, OutOfMemory>
    ensures { IfOk result (λ it. it ≡ map (made_by number values.now valuation.now) row.now) }
{
    let mut made = List::new(alloc);
    'terms: for term in row {
        let term = make_term(alloc, number, values, valuation, term)?;
        made.push(term)?;
    }
    Ok(made)
}

/// What the rule makes of the atoms of its head.
fn make_all(
    alloc: Global,
    number: usize,
    values: &Terms,
    valuation: &Valuation,
    head: &[Atom],
) -> Result<Facts, OutOfMemory>
    ensures { IfOk result (λ it.
        it ≡ map (image (made_by number values.now valuation.now)) head.now) }
{
    let mut facts = List::new(alloc);
    'atoms: for atom in head {
        let terms = make_row(alloc, number, values, valuation, atom.terms.items())?;
        facts.push(Atom {
            relation: atom.relation,
            terms,
        })?;
    }
    Ok(facts)
}

/// The facts that the rule of that number makes of a match of its body: its head, in which each variable that is not in
/// the body is a term that the rule makes for it, at the values of the frontier.
pub fn made_facts(
    alloc: Global,
    number: usize,
    rule: &Tgd,
    valuation: &Valuation,
) -> Result<Facts, OutOfMemory>
    requires { IsOver rule.now.body valuation.now }
    ensures { IfOk result (λ it.
        it ≡ made_facts number rule.now.body rule.now.head (map_of valuation.now)) }
{
    rules_are_sound();
    let shared = frontier_of(alloc, rule.body.items(), rule.head.items())?;
    let values = values_of(alloc, valuation, shared.items())?;
    make_all(alloc, number, &values, valuation, rule.head.items())
}
