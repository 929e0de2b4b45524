//! Queries and rules that are made of their parts, and why they are refused.
ghost use Rattle.std.specs.Prelude.{◌≡◌, ◌≢◌, [], length, IsTrue, IfOk};
ghost use Rattle.esto_part_cases.specs.Bodies.{IsFit, AreFit, IsFitAtom, AreFitAtoms};

use crate::reading::{facts, term, terms};
use esto_constraint::{Constraint, make_denial, make_equal_rule, make_tuple_rule};
use esto_query::{Name, Names, Query, QueryFault, Schema, make_query};
use esto_script::{Refused, parts, put, put_counted};
use esto_semantics::{Atom, Atoms};
use esto_term::{List, Term, Terms};
use std::alloc::Global;

/// How many variables there are, none of which has a name of its own.
const VARIABLES: usize = 100;

// The names of the variables.
fn names(alloc: Global) -> Result<Names, Refused>
    ensures { IfOk result (λ names. length names ≡ 100) }
{
    let mut names = List::new(alloc);
    'variables: for _variable in 0..VARIABLES {
        names.push(Name::Hidden)?;
    }
    Ok(names)
}

// Whether the term is a constant or one of the variables.
fn is_fit(term: &Term) -> bool
    ensures { IsTrue result → IsFit 100 term.now }
{
    match term {
        Term::Const(_) => true,
        Term::Plain(variable) => *variable < VARIABLES as u64,
        Term::Made(_, _, _) => false,
    }
}

fn are_fit(terms: &[Term]) -> bool
    ensures { IsTrue result → AreFit 100 terms.now }
{
    'terms: for term in terms {
        if !is_fit(term) {
            return false;
        }
    }
    true
}

fn is_fit_atom(atom: &Atom, relations: usize) -> bool
    ensures { IsTrue result → IsFitAtom relations 100 atom.now }
{
    atom.relation < relations && are_fit(atom.terms.items())
}

// Whether the atoms are over the relations and the variables.
fn are_fit_atoms(atoms: &[Atom], relations: usize) -> bool
    ensures { IsTrue result → AreFitAtoms relations 100 atoms.now }
{
    'atoms: for atom in atoms {
        if !is_fit_atom(atom, relations) {
            return false;
        }
    }
    true
}

// The atoms that a line writes, at least one, over the relations and the variables.
fn body(alloc: Global, line: &str, relations: usize) -> Result<Atoms, Refused>
    ensures some { IfOk result (λ body. body ≢ []) }
    ensures fit { IfOk result (AreFitAtoms relations 100) }
{
    let body = facts(alloc, line)?;
    if body.is_empty() || !are_fit_atoms(body.items(), relations) {
        return Err(Refused);
    }
    Ok(body)
}

// The terms that a line writes, at least one, constants or variables.
fn head(alloc: Global, line: &str) -> Result<Terms, Refused>
    ensures some { IfOk result (λ head. head ≢ []) }
    ensures fit { IfOk result (AreFit 100) }
{
    let head = terms(alloc, line)?;
    if head.is_empty() || !are_fit(head.items()) {
        return Err(Refused);
    }
    Ok(head)
}

// The side that a word writes.
fn side(alloc: Global, word: &str) -> Result<Term, Refused>
    ensures { IfOk result (IsFit 100) }
{
    let side = term(alloc, word)?;
    if !is_fit(&side) {
        return Err(Refused);
    }
    Ok(side)
}

/// A rule, or why it is refused.
pub type RuleMade = Result<Constraint, QueryFault>;

/// What comes of making a query: the atoms of its body, and after `|` the terms of its head.
pub fn query_made(
    alloc: Global,
    schema: &Schema,
    line: &str,
) -> Result<Result<Query, QueryFault>, Refused> {
    let (atoms, words) = parts(line, '|');
    let body = body(alloc, atoms, schema.len())?;
    let head = head(alloc, words)?;
    let names = names(alloc)?;
    Ok(make_query(alloc, schema, head, body, names))
}

// What comes of making a tuple rule: the atoms of its body, and after `|` those of its head.
fn tuple_rule_made(alloc: Global, schema: &Schema, line: &str) -> Result<RuleMade, Refused> {
    let (atoms, others) = parts(line, '|');
    let relations = schema.len();
    let left = body(alloc, atoms, relations)?;
    let right = body(alloc, others, relations)?;
    let names = names(alloc)?;
    Ok(make_tuple_rule(alloc, schema, left, right, names))
}

// What comes of making an equality rule: the atoms of its body, and after `|` its two sides, with `=` between them.
fn equal_rule_made(alloc: Global, schema: &Schema, line: &str) -> Result<RuleMade, Refused> {
    let (atoms, sides) = parts(line, '|');
    let (first, second) = parts(sides, '=');
    let body = body(alloc, atoms, schema.len())?;
    let left = side(alloc, first)?;
    let right = side(alloc, second)?;
    let names = names(alloc)?;
    Ok(make_equal_rule(alloc, schema, body, left, right, names))
}

// What comes of making a denial: the atoms of its body.
fn denial_made(alloc: Global, schema: &Schema, line: &str) -> Result<RuleMade, Refused> {
    let body = body(alloc, line, schema.len())?;
    let names = names(alloc)?;
    Ok(make_denial(alloc, schema, body, names))
}

/// What comes of making the rule that the word names, of what the line writes.
pub fn rule_made(
    alloc: Global,
    schema: &Schema,
    word: &str,
    line: &str,
) -> Result<RuleMade, Refused> {
    match word {
        "make_tuple_rule" => tuple_rule_made(alloc, schema, line),
        "make_equal_rule" => equal_rule_made(alloc, schema, line),
        "make_denial" => denial_made(alloc, schema, line),
        _ => Err(Refused),
    }
}

/// Why something is refused.
pub fn put_fault(rt: &HostRuntime, fault: QueryFault) {
    match fault {
        QueryFault::Unsafe(variable) => put_counted(rt, "Unsafe ", variable),
        QueryFault::Arity(place) => put_counted(rt, "Arity ", place as u64),
        QueryFault::TooLarge(count) => put_counted(rt, "TooLarge ", count as u64),
        QueryFault::OutOfMemory => put(rt, "OutOfMemory\n"),
    }
}
