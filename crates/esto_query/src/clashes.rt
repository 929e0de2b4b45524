//! Names of facts, and whether hashes of their terms clash.
ghost use Rattle.std.specs.Prelude.{IfOk};
ghost use Rattle.esto_table.specs.Numbers.{AreInOrder};

use esto_semantics::Atom;
use esto_table::{Marks, Table, add_names, column_under, put_in_order};
use esto_term::{OutOfMemory, Term};
use std::alloc::Global;

// From how many places under one key on they are looked at for different terms.
const MANY: usize = 16;

/// The names of the facts: their terms in the columns, in order.
pub fn names_of(alloc: Global, columns: &Marks, facts: &[Atom]) -> Result<Vec<Term>, OutOfMemory>
    ensures { IfOk result (λ it. AreInOrder it.items) }
{
    let mut names = Vec::new(alloc);
    'facts: for fact in facts {
        add_names(
            alloc,
            columns,
            fact.relation,
            fact.terms.items(),
            &mut names,
        )?;
    }
    put_in_order(&mut names)?;
    Ok(names)
}

// Whether the facts have different terms in the column, or none.
fn differ(fact: &Atom, other: &Atom, column: usize) -> bool {
    if fact.relation != other.relation {
        return true;
    }
    match fact.terms.items().get(column) {
        Some(term) => match other.terms.items().get(column) {
            Some(other) => !term.equal(other),
            None => true,
        },
        None => true,
    }
}

// Whether there are many places under the key at this one, and the facts of this place and the next have different terms
// there.
fn clashes_at(facts: &[Atom], table: &Table, at: usize) -> bool {
    let Some(last) = table.keys.get(at.saturating_add(MANY)) else {
        return false;
    };
    if *last != table.keys[at] || at + 1 >= table.places.len() {
        return false;
    }
    let Some(fact) = facts.get(table.places[at]) else {
        return false;
    };
    let Some(next) = facts.get(table.places[at + 1]) else {
        return false;
    };
    let column = column_under(fact.relation, fact.terms.items(), *last);
    differ(fact, next, column)
}

/// Whether the hashes of different terms clash under a key with many places.
pub fn clashes(facts: &[Atom], table: &Table) -> bool {
    'places: for at in 0..table.keys.len() {
        if clashes_at(facts, table, at) {
            return true;
        }
    }
    false
}
