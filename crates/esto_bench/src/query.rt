//! The query of the made case.
ghost use Rattle.std.specs.Prelude.{◌≡◌, ◌<◌, ◌≤◌, map, IfOk};
ghost use Rattle.esto_bench.specs.Case.{IsMadeQuery, below, made_atom, made_name, made_names};

use crate::case::MAX_SIZE;
use crate::fragments::{push_atom, two_variables};
use esto_query::{Name, Names, Query};
use esto_semantics::Atoms;
use esto_term::{List, OutOfMemory, Text};
use std::alloc::Global;

// The body: an atom over each relation, in order.
#[tactic(auto, using(crate::proofs::BothLemmas::mapped_more))]
fn made_body(alloc: Global, size: usize) -> Result<Atoms, OutOfMemory>
    requires { size ≤ MAX_SIZE }
    ensures { IfOk result (λ it. it ≡ map made_atom (below size)) }
{
    let mut body = List::new(alloc);
    'relations: for relation in 0..size {
        let variable = relation as u64;
        push_atom(alloc, &mut body, relation, variable, variable + 1)?;
    }
    Ok(body)
}

// The name of the variable.
fn name_of(alloc: Global, variable: usize) -> Result<Name, OutOfMemory>
    ensures { IfOk result (λ it. it ≡ made_name variable) }
{
    let text = format!(in alloc; "x{variable}")?;
    let name = Text::from_str(alloc, text.as_str())?;
    Ok(Name::Given(name))
}

// The names of the variables, from x0 to that of the size.
#[tactic(auto, using(crate::proofs::BothLemmas::mapped_more))]
fn made_names(alloc: Global, size: usize) -> Result<Names, OutOfMemory>
    requires { size ≤ MAX_SIZE }
    ensures { IfOk result (λ it. it ≡ made_names size) }
{
    let mut names = List::new(alloc);
    'variables: for variable in 0..size + 1 {
        let name = name_of(alloc, variable)?;
        names.push(name)?;
    }
    Ok(names)
}

/// The query of the made case of this size, 1 to `MAX_SIZE`.
pub fn made_query(alloc: Global, size: usize) -> Result<Query, OutOfMemory>
    requires some { 0 < size }
    requires few { size ≤ MAX_SIZE }
    ensures { IfOk result (IsMadeQuery size) }
{
    let head = two_variables(alloc, 0, size as u64)?;
    let names = made_names(alloc, size)?;
    let body = made_body(alloc, size)?;
    Ok(Query { head, body, names })
}
