//! Orders of sets of a plan's atoms under the binding patterns of the fragments.

use crate::printing::{put_number, put_numbers, put_row, put_set, put_sorted};
use crate::reading::{numbers, place, set_of};
use either::{Left, Right};
use esto_access::{access_products, is_order, order_of, reached};
use esto_bits::{Products, RowBits};
use esto_mapping::Catalogue;
use esto_query::Query;
use esto_script::{Refused, put};
use esto_term::Places;
use esto_universal::universal;
use esto_views::{FragmentDefs, Plan};
use std::alloc::Global;

/// The universal plan of a query over the catalogue's fragments; it does not depend on their patterns. A query that is not
/// satisfiable has none.
pub fn plan_of(alloc: Global, catalogue: &Catalogue, query: &Query) -> Result<Plan, Refused> {
    match universal(alloc, query, catalogue)? {
        Left(plan) => Ok(plan),
        Right(_) => Err(Refused),
    }
}

/// The plan's atoms, one a line: the number, the name of the fragment, and the terms.
pub fn put_plan(rt: &HostRuntime, plan: &Plan, fragments: &FragmentDefs) {
    'atoms: for (number, atom) in plan.atoms.items().iter().enumerate() {
        let name = match fragments.items().get(atom.fragment) {
            Some(fragment) => fragment.name.as_str(),
            None => "",
        };
        put_number(rt, number as u64);
        put(rt, name);
        put(rt, " ");
        put_row(rt, atom.terms.items());
    }
}

// The stated order of a set of the plan's atoms.
fn put_order(
    rt: &HostRuntime,
    alloc: Global,
    set: &RowBits,
    plan: &Plan,
    fragments: &FragmentDefs,
) -> Result<(), Refused> {
    match order_of(alloc, set, plan, fragments)? {
        Some(order) => put_numbers(rt, order.items()),
        None => put(rt, "no order\n"),
    }
    Ok(())
}

// What is reached in a set of the plan's atoms.
fn put_reached(
    rt: &HostRuntime,
    alloc: Global,
    set: &RowBits,
    plan: &Plan,
    fragments: &FragmentDefs,
) -> Result<(), Refused> {
    let reached = reached(alloc, set, plan, fragments)?;
    put_set(rt, &reached);
    Ok(())
}

// Whether the numbers, as they are written, are an order of the set.
fn put_is_order(
    rt: &HostRuntime,
    numbers: &Places,
    set: &RowBits,
    plan: &Plan,
    fragments: &FragmentDefs,
) -> Result<(), Refused> {
    if is_order(numbers, set, plan, fragments) {
        put(rt, "an order\n");
    } else {
        put(rt, "no order\n");
    }
    Ok(())
}

// Answers what the word asks about a set of the plan's atoms, whose numbers were written so.
fn put_about(
    rt: &HostRuntime,
    alloc: Global,
    plan: &Plan,
    fragments: &FragmentDefs,
    word: &str,
    numbers: &Places,
) -> Result<(), Refused> {
    let set = set_of(alloc, numbers.items(), plan.atoms.len())?;
    match word {
        "order" => put_order(rt, alloc, &set, plan, fragments),
        "reached" => put_reached(rt, alloc, &set, plan, fragments),
        "is_order" => put_is_order(rt, numbers, &set, plan, fragments),
        _ => Err(Refused),
    }
}

// Answers what is asked about a set of the plan's atoms: its stated order, what is reached in it, and whether the numbers, as
// they are written, are an order of it.
fn ask_set(
    rt: &HostRuntime,
    alloc: Global,
    plan: &Plan,
    fragments: &FragmentDefs,
    word: &str,
    rest: &str,
) -> Result<(), Refused> {
    let numbers = numbers(alloc, rest)?;
    put_about(rt, alloc, plan, fragments, word, &numbers)
}

// The products of an atom, sorted, or that it has none.
fn put_own(rt: &HostRuntime, alloc: Global, own: &Products) -> Result<(), Refused> {
    if own.is_empty() {
        put(rt, "none\n");
    }
    put_sorted(rt, alloc, own)
}

// The access products of the atom of a number.
fn put_access(
    rt: &HostRuntime,
    alloc: Global,
    plan: &Plan,
    fragments: &FragmentDefs,
    word: &str,
) -> Result<(), Refused> {
    let number = place(word)?;
    let products = access_products(alloc, plan, fragments)?;
    match products.items().get(number) {
        Some(own) => put_own(rt, alloc, own),
        None => Err(Refused),
    }
}

/// Answers what is asked about an atom of the plan, or a set of them, under the patterns of these fragments.
pub fn ask_under(
    rt: &HostRuntime,
    alloc: Global,
    plan: &Plan,
    fragments: &FragmentDefs,
    word: &str,
    rest: &str,
) -> Result<(), Refused> {
    match word {
        "access" => put_access(rt, alloc, plan, fragments, rest),
        _ => ask_set(rt, alloc, plan, fragments, word, rest),
    }
}
