//! Facts with their index.
ghost use Rattle.std.specs.Prelude.{◌≡◌, Some, Contains, slice_get, IfOk};
ghost use Rattle.esto_term.specs.declared.term.Term.{Term};
ghost use Rattle.esto_semantics.specs.Facts.{image};
ghost use Rattle.esto_semantics.specs.Maps.{IsFlat};
ghost use Rattle.esto_query.specs.Trails.{with_trail, Tries};
ghost use Rattle.esto_semantics.specs.Valuations.{Assignment};
ghost use Rattle.esto_query.specs.Indexes.{AreCandidates};

use crate::columns::Columns;
use crate::index::{Index, index_of, least_after, places_for};
use crate::trail::{Binding, bind_atom};
use esto_semantics::{Atom, Facts, Valuation};
use esto_table::Marks;
use esto_term::OutOfMemory;
use std::alloc::Global;
use std::marker::Model;

/// A list of facts with its index, in which the facts that an atom can go to are found by their relation or by one of
/// their columns. It is built once, and then serves any number of searches. Contracts see the list of facts.
#[derive(Drop)]
pub struct IndexedFacts<'a> {
    facts: &'a [Atom],
    index: Index,
}

impl<'a> Model for IndexedFacts<'a> {
    ghost use Rattle.std.specs.Prelude.{List};
    ghost use Rattle.esto_term.specs.declared.term.Term.{Term};
    ghost use Rattle.esto_semantics.specs.declared.fact.Fact.{Fact};
    ghost use Rattle.esto_term.specs.contracts.term.Term as term;
    ghost use Rattle.std.specs.Coded.{codes};
    ghost use Rattle.esto_query.specs.Indexes.{IsIndex};

    ghost Value = { List (Fact Term) };

    ghost coded = { Prim.hlevel (codes, term.the_row.coded) };

    ghost view = { λ it. it.facts.now };

    ghost invariant = { λ it. IsIndex it.facts.now it.index };
}

impl<'a> IndexedFacts<'a> {
    /// The facts with their index by each column.
    pub fn of(alloc: Global, facts: &'a Facts) -> Result<IndexedFacts<'a>, OutOfMemory>
        ensures { IfOk result (λ indexed. indexed ≡ facts.now) }
    {
        let columns = Columns {
            marks: Marks::every(alloc),
        };
        IndexedFacts::by(alloc, columns, facts)
    }

    /// The facts with their index by these columns.
    pub fn by(
        alloc: Global,
        columns: Columns,
        facts: &'a Facts,
    ) -> Result<IndexedFacts<'a>, OutOfMemory>
        ensures { IfOk result (λ indexed. indexed ≡ facts.now) }
    {
        let facts = facts.items();
        let index = index_of(alloc, columns.marks, facts)?;
        Ok(IndexedFacts { facts, index })
    }

    /// The facts, in order.
    pub fn items(&self) -> &'a [Atom]
        ensures { result.now ≡ self.now }
    {
        self.facts
    }
}

/// The places to which the atom can go.
pub fn candidates<'b>(
    start: &Valuation,
    facts: &'b IndexedFacts,
    trail: &[Binding],
    atom: &Atom,
) -> &'b [usize]
    ensures { AreCandidates facts.now atom.now (with_trail start.now trail.now) result.now }
{
    places_for(start, facts.facts, &facts.index, trail, atom)
}

/// All places of the atom's relation, to which it can go whatever is known.
pub fn all_places<'b>(facts: &'b IndexedFacts, atom: &Atom) -> &'b [usize]
    ensures { (known : Assignment) → AreCandidates facts.now atom.now known result.now }
{
    facts.index.relations.at(atom.relation as u64)
}

/// How many places are left to the other atom of so many, where the first one goes to the fact.
pub fn ways_after(
    facts: &IndexedFacts,
    first: &Atom,
    fact: &Atom,
    other: &Atom,
    ways: usize,
) -> usize {
    least_after(&facts.index, first, fact, other, ways)
}

/// Gives variables terms, if need be, so that the atom becomes the fact at that place; where it
/// cannot, or there is no such place, the trail stays.
pub fn bind_place<'a>(
    start: &Valuation,
    facts: &IndexedFacts<'a>,
    trail: &mut Vec<Binding<'a>>,
    atom: &Atom,
    place: usize,
) -> Result<bool, OutOfMemory>
    requires { (term : Term) → Contains atom.now.terms term → IsFlat term }
    ensures { IfOk result (λ is_bound. Tries start.now trail.old.items trail.new.items is_bound
        (λ m. slice_get facts.now place ≡ Some (image m atom.now))) }
{
    let items = facts.items();
    if place >= items.len() {
        return Ok(false);
    }
    bind_atom(start, trail, atom, &items[place])
}
