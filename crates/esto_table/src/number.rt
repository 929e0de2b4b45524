//! Numbers of terms, by which places are found.
ghost use Rattle.std.specs.Prelude.{◌≡◌, OnOk};
ghost use Rattle.esto_table.specs.Numbers.{AreInOrder, IsNumber, IsRank, key_of};

use crate::hash::{mixed, term_hash};
use crate::marks::Marks;
use esto_term::{OutOfMemory, Replicate, Term, push};
use std::alloc::Global;

/// The key of a term's number in a column of a relation.
pub fn key_of(relation: usize, column: usize, number: u64) -> u64
    ensures { result ≡ key_of relation column number }
{
    mixed(mixed(number, relation as u64), column as u64)
}

/// The number of a term: its hash, or, where there are names, which are in order, its rank among them.
pub fn number_of(names: &[Term], term: &Term) -> u64
    requires { AreInOrder names.now }
    ensures { IsNumber names.now term.now result }
{
    if names.is_empty() {
        return term_hash(term);
    }
    rank_of(names, term) as u64
}

// How many of the names come before the term.
fn rank_of(names: &[Term], term: &Term) -> usize
    requires { AreInOrder names.now }
    ensures { IsRank names.now term.now result }
{
    names.partition_point(|name| name.compare(term).is_lt())
}

/// How many of the terms, which stand in the columns of the relation one by one, stand in a marked one.
pub fn count_marked(marks: &Marks, relation: usize, terms: &[Term]) -> usize {
    let mut count: usize = 0;
    'columns: for column in 0..terms.len() {
        if marks.has(relation, column) {
            count = count.saturating_add(1);
        }
    }
    count
}

/// Adds a copy of the term.
fn add_name(alloc: Global, term: &Term, names: &mut Vec<Term>) -> Result<(), OutOfMemory> {
    let name = term.copy(alloc)?;
    push(names, name)
}

/// Adds copies of those of the terms that stand in a marked column of the relation.
pub fn add_names(
    alloc: Global,
    marks: &Marks,
    relation: usize,
    terms: &[Term],
    names: &mut Vec<Term>,
) -> Result<(), OutOfMemory> {
    'columns: for (column, term) in terms.iter().enumerate() {
        if marks.has(relation, column) {
            add_name(alloc, term, names)?;
        }
    }
    Ok(())
}

/// Puts the names in order.
pub fn put_in_order(names: &mut Vec<Term>) -> Result<(), OutOfMemory>
    ensures { OnOk result (AreInOrder names.new.items) }
{
    match names.sort_by(|name, other| name.compare(other)) {
        Ok(()) => Ok(()),
        Err(_) => Err(OutOfMemory),
    }
}

/// The column of the relation whose term has the key by its hash, or the number of the terms.
pub fn column_under(relation: usize, terms: &[Term], key: u64) -> usize {
    'columns: for (column, term) in terms.iter().enumerate() {
        if key_of(relation, column, term_hash(term)) == key {
            return column;
        }
    }
    terms.len()
}
