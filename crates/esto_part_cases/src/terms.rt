//! Terms: how deep they nest, and how they compare.

use esto_script::{Refused, put, put_digits, text};
use esto_term::{List, Term, Terms, Text, TextError};
use std::alloc::Global;
use std::cmp::Ordering;

// One term that is plain.
fn one_plain(alloc: Global) -> Result<Terms, Refused> {
    let mut terms = List::new(alloc);
    terms.push(Term::Plain(0))?;
    Ok(terms)
}

// Puts terms that rise in their order at the end.
fn add_rising(alloc: Global, terms: &mut Terms) -> Result<(), Refused> {
    terms.push(Term::Const(text(alloc, "b")?))?;
    terms.push(Term::Plain(0))?;
    terms.push(Term::Made(1, 0, List::new(alloc)))?;
    terms.push(Term::Made(0, 0, one_plain(alloc)?))?;
    Ok(())
}

// Terms that rise in their order.
fn rising(alloc: Global) -> Result<Terms, Refused> {
    let mut terms = List::new(alloc);
    add_rising(alloc, &mut terms)?;
    Ok(terms)
}

fn word(order: Ordering) -> &'static str {
    match order {
        Ordering::Less => " less",
        Ordering::Equal => " equal",
        Ordering::Greater => " greater",
    }
}

// A line of a term: its nesting, and how it compares with each of the terms.
fn put_term(rt: &HostRuntime, term: &Term, others: &[Term]) {
    put(rt, "nesting ");
    put_digits(rt, term.nesting());
    put(rt, ":");
    'others: for other in others {
        put(rt, word(term.compare(other)));
        put(rt, if term.equal(other) { " same" } else { "" });
    }
    put(rt, "\n");
}

/// A line of each of four terms that rise, and one of bytes that are no text.
pub fn put_terms(rt: &HostRuntime, alloc: Global) -> Result<(), Refused> {
    let terms = rising(alloc)?;
    'terms: for term in terms.items() {
        put_term(rt, term, terms.items());
    }
    match Text::from_bytes(alloc, b"\xff") {
        Err(TextError::NotUtf8) => put(rt, "no text\n"),
        _ => put(rt, "a text\n"),
    }
    Ok(())
}
