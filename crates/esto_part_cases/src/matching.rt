//! Matches, answers, and rules that facts meet or break.

use crate::printing::{put_numbers, put_rows};
use crate::reading::term;
use esto_constraint::{Constraint, Rules, active, meets};
use esto_mapping::{Catalogue, catalogues_are_sound};
use esto_query::{Facts, Found, Query, answers, first_match, next_match, queries_are_sound};
use esto_read::{read_constraint, read_query};
use esto_script::{Refused, put, put_digits};
use esto_semantics::Valuation;
use std::alloc::Global;

/// The query that a text is over the catalogue.
pub fn query(alloc: Global, catalogue: &Catalogue, text: &str) -> Result<Query, Refused> {
    catalogues_are_sound();
    match read_query(alloc, text.as_bytes(), &catalogue.words, &catalogue.schema) {
        Ok(named) => Ok(named.query),
        Err(_) => Err(Refused),
    }
}

/// The rule that a text is over the catalogue.
pub fn rule(alloc: Global, catalogue: &Catalogue, text: &str) -> Result<Constraint, Refused> {
    catalogues_are_sound();
    match read_constraint(alloc, text.as_bytes(), &catalogue.words, &catalogue.schema) {
        Ok(rule) => Ok(rule),
        Err(_) => Err(Refused),
    }
}

/// The valuation that gives variable 0 this term, or none where the word is empty.
pub fn start_of(alloc: Global, word: &str) -> Result<Valuation, Refused> {
    if word.is_empty() {
        return Ok(Valuation::new(alloc));
    }
    let term = term(alloc, word)?;
    let mut start = Valuation::new(alloc);
    start.bind(0, term)?;
    Ok(start)
}

// The match after the given one, or the first one.
fn next(
    alloc: Global,
    query: &Query,
    facts: &Facts,
    start: &Valuation,
    last: Option<&Found>,
) -> Result<Option<Found>, Refused> {
    queries_are_sound();
    let Some(last) = last else {
        let found = first_match(alloc, &query.body, facts, start)?;
        return Ok(found);
    };
    let found = next_match(alloc, &query.body, facts, start, last)?;
    Ok(found)
}

// The places of a match, where there is one, which then makes room for the match after it.
fn put_match(
    rt: &HostRuntime,
    alloc: Global,
    query: &Query,
    facts: &Facts,
    start: &Valuation,
    found: &mut Option<Found>,
) -> Result<(), Refused> {
    let Some(here) = &*found else {
        return Ok(());
    };
    put_numbers(rt, here.places.items());
    let after = next(alloc, query, facts, start, Some(here))?;
    *found = after;
    Ok(())
}

/// The places of the matches of a query's body, at most nine.
pub fn put_matches(
    rt: &HostRuntime,
    alloc: Global,
    query: &Query,
    facts: &Facts,
    start: &Valuation,
) -> Result<(), Refused> {
    let mut found = next(alloc, query, facts, start, None)?;
    'turns: for _turn in 0..9 {
        put_match(rt, alloc, query, facts, start, &mut found)?;
    }
    Ok(())
}

/// The answers of a query, a row a line.
pub fn put_answers(
    rt: &HostRuntime,
    alloc: Global,
    query: &Query,
    facts: &Facts,
) -> Result<(), Refused> {
    let rows = answers(alloc, query, facts)?;
    put_rows(rt, &rows);
    Ok(())
}

/// The places of a rule's least active match, or that it is met.
pub fn put_active(
    rt: &HostRuntime,
    alloc: Global,
    rule: &Constraint,
    facts: &Facts,
) -> Result<(), Refused> {
    match active(alloc, rule, facts)? {
        Some(found) => put_numbers(rt, found.places.items()),
        None => put(rt, "met\n"),
    }
    Ok(())
}

/// The number of the first rule that the facts break, with the places of its least active match, or that all are met.
pub fn put_broken(
    rt: &HostRuntime,
    alloc: Global,
    rules: &Rules,
    facts: &Facts,
) -> Result<(), Refused> {
    match meets(alloc, rules, facts)? {
        Some(broken) => {
            put(rt, "rule ");
            put_digits(rt, broken.rule as u64);
            put(rt, ": ");
            put_numbers(rt, broken.found.places.items());
        }
        None => put(rt, "met\n"),
    }
    Ok(())
}
