//! How numbers, sets and terms are printed.

use esto_bits::{Products, RowBits};
use esto_script::{Refused, put, put_digits};
use esto_semantics::Atom;
use esto_term::{Term, TermRows};
use std::alloc::Global;

/// A number, and a blank.
pub fn put_number(rt: &HostRuntime, number: u64) {
    put_digits(rt, number);
    put(rt, " ");
}

/// A line of numbers.
pub fn put_numbers(rt: &HostRuntime, numbers: &[usize]) {
    'numbers: for number in numbers {
        put_number(rt, *number as u64);
    }
    put(rt, "\n");
}

/// The numbers of a set.
pub fn put_members(rt: &HostRuntime, set: &RowBits) {
    'numbers: for number in 0..set.count() {
        if set.has(number) {
            put_number(rt, number as u64);
        }
    }
}

/// A line of the numbers of a set.
pub fn put_set(rt: &HostRuntime, set: &RowBits) {
    put_members(rt, set);
    put(rt, "\n");
}

/// Sets, one a line.
pub fn put_sets(rt: &HostRuntime, sets: &[RowBits]) {
    'sets: for set in sets {
        put_set(rt, set);
    }
}

/// The sets of a collection, sorted, one a line.
pub fn put_sorted(rt: &HostRuntime, alloc: Global, products: &Products) -> Result<(), Refused> {
    let sorted = products.sorted(alloc)?;
    put_sets(rt, sorted.items());
    Ok(())
}

/// A term: a constant after a quote, a plain term by its number, and a made one by its rule, its variable, the length of its
/// frontier and its nesting.
pub fn put_term(rt: &HostRuntime, term: &Term) {
    match term {
        Term::Const(constant) => {
            put(rt, "'");
            put(rt, constant.as_str());
            put(rt, " ");
        }
        Term::Plain(number) => put_number(rt, *number),
        Term::Made(rule, variable, frontier) => {
            put(rt, "made(");
            put_digits(rt, *rule);
            put(rt, ",");
            put_digits(rt, *variable);
            put(rt, ",");
            put_digits(rt, frontier.len() as u64);
            put(rt, "):");
            put_number(rt, term.nesting());
        }
    }
}

/// The terms of a row.
pub fn put_terms(rt: &HostRuntime, row: &[Term]) {
    'terms: for term in row {
        put_term(rt, term);
    }
}

/// A line of terms.
pub fn put_row(rt: &HostRuntime, row: &[Term]) {
    put_terms(rt, row);
    put(rt, "\n");
}

/// Rows, one a line.
pub fn put_rows(rt: &HostRuntime, rows: &TermRows) {
    'rows: for row in rows.items() {
        put_row(rt, row.items());
    }
}

/// Facts, one a line: the number of the relation, and the terms.
pub fn put_facts(rt: &HostRuntime, facts: &[Atom]) {
    'facts: for fact in facts {
        put_number(rt, fact.relation as u64);
        put_row(rt, fact.terms.items());
    }
}
