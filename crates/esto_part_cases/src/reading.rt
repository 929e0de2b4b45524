//! What the words of a script say: places, terms, facts and sets.
ghost use Rattle.std.specs.Prelude.{◌≡◌, length, IfOk};

use esto_bits::RowBits;
use esto_query::Facts;
use esto_script::{Refused, number, parts, text};
use esto_semantics::Atom;
use esto_term::{List, Places, Term, Terms, Values};
use std::alloc::Global;

/// A number in decimal that counts or names a place.
pub fn place(word: &str) -> Result<usize, Refused> {
    match word.parse::<usize>() {
        Ok(place) => Ok(place),
        Err(_) => Err(Refused),
    }
}

// The plain term that a word writes.
fn plain(word: &str) -> Result<Term, Refused> {
    match word.parse::<u64>() {
        Ok(number) => Ok(Term::Plain(number)),
        Err(_) => Err(Refused),
    }
}

/// The term that a word writes: a constant after a quote, else a plain term by its number.
pub fn term(alloc: Global, word: &str) -> Result<Term, Refused> {
    match word.strip_prefix('\'') {
        Some(constant) => Ok(Term::Const(text(alloc, constant)?)),
        None => plain(word),
    }
}

// Puts the term that a word writes at the end.
fn add_term(alloc: Global, terms: &mut Terms, word: &str) -> Result<(), Refused> {
    terms.push(term(alloc, word)?)?;
    Ok(())
}

/// Terms, between blanks.
pub fn terms(alloc: Global, line: &str) -> Result<Terms, Refused> {
    let mut terms = List::new(alloc);
    'words: for word in line.split_whitespace() {
        add_term(alloc, &mut terms, word)?;
    }
    Ok(terms)
}

// A fact: the number of its relation and its terms, between blanks.
fn fact(alloc: Global, line: &str) -> Result<Atom, Refused> {
    let (relation, rest) = parts(line, ' ');
    let relation = place(relation)?;
    let terms = terms(alloc, rest)?;
    Ok(Atom { relation, terms })
}

// Puts a fact at the end.
fn add_fact(alloc: Global, facts: &mut Facts, line: &str) -> Result<(), Refused> {
    facts.push(fact(alloc, line)?)?;
    Ok(())
}

// Puts the fact that stands after a number at the end, so many times.
fn repeat_fact(alloc: Global, facts: &mut Facts, line: &str) -> Result<(), Refused> {
    let (count, part) = parts(line, ' ');
    if part.is_empty() {
        return Err(Refused);
    }
    'turns: for _turn in 0..number(count) {
        add_fact(alloc, facts, part)?;
    }
    Ok(())
}

// Puts a fact at the end, or after `*` and a number one so many times. A part with no sign has none.
fn add_facts(alloc: Global, facts: &mut Facts, line: &str) -> Result<(), Refused> {
    if line.is_empty() {
        return Ok(());
    }
    match line.strip_prefix('*') {
        Some(rest) => repeat_fact(alloc, facts, rest),
        None => add_fact(alloc, facts, line),
    }
}

/// Facts, between semicolons; after `*` and a number one that comes so many times.
pub fn facts(alloc: Global, line: &str) -> Result<Facts, Refused> {
    let mut facts = List::new(alloc);
    'parts: for part in line.split(';') {
        add_facts(alloc, &mut facts, part)?;
    }
    Ok(facts)
}

// Puts a number at the end.
fn add_number(numbers: &mut Places, word: &str) -> Result<(), Refused> {
    numbers.push(place(word)?)?;
    Ok(())
}

/// Numbers, between commas; `-` is none.
pub fn numbers(alloc: Global, word: &str) -> Result<Places, Refused> {
    if word == "-" {
        return Ok(Values::new(alloc));
    }
    let mut numbers = Values::new(alloc);
    'words: for word in word.split(',') {
        add_number(&mut numbers, word)?;
    }
    Ok(numbers)
}

/// The set of these numbers, where each is below the count.
pub fn set_of(alloc: Global, numbers: &[usize], count: usize) -> Result<RowBits, Refused>
    ensures { IfOk result (λ it. length it ≡ count) }
{
    if !numbers.iter().all(|number| *number < count) {
        return Err(Refused);
    }
    let set = RowBits::of(alloc, count, numbers)?;
    Ok(set)
}

/// The set that a word writes, of numbers below the count.
pub fn set(alloc: Global, word: &str, count: usize) -> Result<RowBits, Refused>
    ensures { IfOk result (λ it. length it ≡ count) }
{
    let numbers = numbers(alloc, word)?;
    set_of(alloc, numbers.items(), count)
}
