//! Sets of numbers, and the minimal ones of them.

use crate::printing::{put_set, put_sorted};
use crate::reading::{place, set};
use esto_bits::{Products, RowBits};
use esto_script::{Refused, let_go, parts, put, put_digits};
use std::alloc::Global;

/// What came of a set: whether it was covered, and whether it was then added.
#[derive(Clone, Copy)]
struct Added {
    was_covered: bool,
    is_added: bool,
}

// Puts in the set that a word writes.
fn add(alloc: Global, products: &mut Products, word: &str) -> Result<Added, Refused> {
    let set = set(alloc, word, products.count())?;
    let was_covered = products.covered(&set);
    let is_added = products.add(alloc, &set)?;
    Ok(Added {
        was_covered,
        is_added,
    })
}

// What came of a set, and how many are kept.
fn put_added(rt: &HostRuntime, added: Added, kept: usize) {
    put(rt, if added.was_covered { "" } else { "not " });
    put(rt, "covered, ");
    put(rt, if added.is_added { "" } else { "not " });
    put(rt, "added, ");
    put_digits(rt, kept as u64);
    put(rt, " kept\n");
}

// The products of the sets, in the order of the words. Where it tells, there is a line of each.
fn products_of(
    rt: &HostRuntime,
    alloc: Global,
    count: usize,
    words: &str,
    tells: bool,
) -> Result<Products, Refused> {
    let mut products = Products::new(alloc, count);
    'words: for word in words.split(' ') {
        let added = add(alloc, &mut products, word)?;
        if tells {
            put_added(rt, added, products.len());
        }
    }
    Ok(products)
}

// A line of each set, in the order of the words, and then the kept ones, sorted.
fn put_products(rt: &HostRuntime, alloc: Global, count: usize, words: &str) -> Result<(), Refused> {
    let products = products_of(rt, alloc, count, words, true)?;
    put_sorted(rt, alloc, &products)
}

// Puts the numbers of each kept set into the union.
fn unite(products: &Products, union: &mut RowBits) {
    'places: for place in 0..products.len() {
        if union.count() == products.count() {
            products.union_into(place, union);
        }
    }
}

// The first set with the numbers of each kept one of the others.
fn put_union(rt: &HostRuntime, alloc: Global, count: usize, words: &str) -> Result<(), Refused> {
    let (first, others) = parts(words, ' ');
    let products = products_of(rt, alloc, count, others, false)?;
    let mut union = set(alloc, first, count)?;
    unite(&products, &mut union);
    put_set(rt, &union);
    Ok(())
}

// The sorted kept ones of the unions of a set of the one side and one of the other.
fn put_unions(
    rt: &HostRuntime,
    alloc: Global,
    left: &Products,
    right: &Products,
) -> Result<(), Refused> {
    if left.count() != right.count() {
        return Err(Refused);
    }
    let joined = left.joined(alloc, right)?;
    put_sorted(rt, alloc, &joined)
}

// The minimal unions of a set before `|` and one after it.
fn put_joined(rt: &HostRuntime, alloc: Global, count: usize, words: &str) -> Result<(), Refused> {
    let (left, right) = words.split_once(" | ").unwrap_or((words, "-"));
    let left = products_of(rt, alloc, count, left, false)?;
    let right = products_of(rt, alloc, count, right, false)?;
    let outcome = put_unions(rt, alloc, &left, &right);
    let_go(left);
    let_go(right);
    outcome
}

/// Answers what the words ask of sets. The first word of the line is what the numbers are below.
pub fn ask_sets(rt: &HostRuntime, alloc: Global, word: &str, line: &str) -> Result<(), Refused> {
    let (count, words) = parts(line, ' ');
    let count = place(count)?;
    match word {
        "products" => put_products(rt, alloc, count, words),
        "union" => put_union(rt, alloc, count, words),
        _ => put_joined(rt, alloc, count, words),
    }
}
