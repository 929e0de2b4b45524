//! The index of a list of facts.
ghost use Rattle.std.specs.Prelude.{◌≡◌, ◌<◌, ◌+◌, List, length, IfOk, OnOk, IfSome};
ghost use Rattle.esto_term.specs.declared.term.Term.{Term};
ghost use Rattle.esto_term.specs.declared.term.Term.TheVariants.{Const};
ghost use Rattle.esto_semantics.specs.Maps.{Keeps};
ghost use Rattle.esto_table.specs.Buckets.{AreRising};
ghost use Rattle.esto_semantics.specs.Valuations.{Extends};
ghost use Rattle.esto_query.specs.Trails.{with_trail};
ghost use Rattle.esto_table.specs.Numbers.{AreInOrder};
ghost use Rattle.esto_table.specs.declared.entry.Entry.{Entry};
ghost use Rattle.esto_query.specs.Indexes.{AddsTerms, AreListed, AreInBuckets, IsTableOf, IsIndex, AreCandidates};

use crate::clashes::{clashes, names_of};
use crate::trail::{Binding, value};
use esto_semantics::{Atom, Valuation};
use esto_table::{Buckets, Entry, Marks, Table, count_marked, key_of, number_of, table_of};
use esto_term::{OutOfMemory, Term, push};
use std::alloc::Global;

/// The most buckets by relations. More relations share them.
const MOST_RELATIONS: usize = 2048;

/// How many places are so few that no column is asked for fewer.
const FEW: usize = 3;

/// The places of a list of facts: each by the fact's relation, in buckets, and by its term in each of the columns, in a
/// table.
#[derive(Drop)]
pub struct Index {
    pub columns: Marks,
    /// The names among which terms have their ranks, where hashes clash.
    pub names: Vec<Term>,
    pub relations: Buckets,
    pub terms: Table,
}

/// Puts the places of the facts into the buckets of their relations, which are empty.
fn add_relations(facts: &[Atom], relations: &mut Buckets) -> Result<(), OutOfMemory>
    requires { AreRising relations.old 0 }
    ensures { OnOk result (AreInBuckets facts.now (length facts.now) relations.new) }
{
    'facts: for place in 0..facts.len() {
        relations.put(facts[place].relation as u64, place)?;
    }
    Ok(())
}

/// Adds the entry of a fact's place by its term in the column, if that is one of the columns.
fn add_term(
    columns: &Marks,
    names: &[Term],
    fact: &Atom,
    place: usize,
    column: usize,
    terms: &mut Vec<Entry>,
) -> Result<(), OutOfMemory>
    requires within { column < length fact.now.terms }
    requires names { AreInOrder names.now }
    ensures { OnOk result ((old : List Entry)
        → AddsTerms fact.now columns.now names.now place column old terms.old.items
        → AddsTerms fact.now columns.now names.now place (column + 1) old terms.new.items) }
{
    if !columns.has(fact.relation, column) {
        return Ok(());
    }
    let number = number_of(names, fact.terms.item(column));
    let key = key_of(fact.relation, column, number);
    push(terms, Entry { key, place })
}

/// Adds the entries of a fact's place by its terms in the columns.
fn add_terms(
    columns: &Marks,
    names: &[Term],
    fact: &Atom,
    place: usize,
    terms: &mut Vec<Entry>,
) -> Result<(), OutOfMemory>
    requires { AreInOrder names.now }
    ensures { OnOk result (AddsTerms fact.now columns.now names.now place (length fact.now.terms)
        terms.old.items terms.new.items) }
{
    'columns: for column in 0..fact.terms.len() {
        add_term(columns, names, fact, place, column, terms)?;
    }
    Ok(())
}

/// Adds the entries of the facts' places to none.
fn add_facts(
    columns: &Marks,
    names: &[Term],
    facts: &[Atom],
    terms: &mut Vec<Entry>,
) -> Result<(), OutOfMemory>
    requires { AreInOrder names.now }
    ensures { OnOk result (AreListed facts.now columns.now names.now (length facts.now)
        terms.new.items) }
{
    'facts: for place in 0..facts.len() {
        add_terms(columns, names, &facts[place], place, terms)?;
    }
    Ok(())
}

/// How many terms of the facts stand in one of the columns.
fn count_terms(columns: &Marks, facts: &[Atom]) -> usize {
    let mut count: usize = 0;
    'facts: for fact in facts {
        count = count.saturating_add(count_marked(columns, fact.relation, fact.terms.items()));
    }
    count
}

/// The table of the facts' places by their terms in the columns.
fn table_by(
    alloc: Global,
    columns: &Marks,
    names: &[Term],
    facts: &[Atom],
) -> Result<Table, OutOfMemory>
    requires { AreInOrder names.now }
    ensures { IfOk result (IsTableOf facts.now columns.now names.now) }
{
    let mut terms = Vec::with_capacity(alloc, count_terms(columns, facts))?;
    add_facts(columns, names, facts, &mut terms)?;
    table_of(alloc, terms)
}

/// The buckets of the facts' places by their relations.
fn buckets_of(alloc: Global, facts: &[Atom]) -> Result<Buckets, OutOfMemory>
    ensures { IfOk result (AreInBuckets facts.now (length facts.now)) }
{
    let mut relations = Buckets::new(alloc, facts.len().min(MOST_RELATIONS))?;
    add_relations(facts, &mut relations)?;
    Ok(relations)
}

/// The names among which terms have their ranks for numbers, and the table of the facts' places by these.
fn ranked_table(
    alloc: Global,
    columns: &Marks,
    facts: &[Atom],
) -> Result<(Vec<Term>, Table), OutOfMemory>
    ensures { IfOk result (λ it. AreInOrder it.0.items
        × IsTableOf facts.now columns.now it.0.items it.1) }
{
    let names = names_of(alloc, columns, facts)?;
    let terms = table_by(alloc, columns, &names, facts)?;
    Ok((names, terms))
}

/// The table of the facts' places by their terms in the columns, behind the names by which these have numbers: none, but
/// where hashes clash those among which terms have their ranks.
fn named_table(
    alloc: Global,
    columns: &Marks,
    facts: &[Atom],
) -> Result<(Vec<Term>, Table), OutOfMemory>
    ensures { IfOk result (λ it. AreInOrder it.0.items
        × IsTableOf facts.now columns.now it.0.items it.1) }
{
    let terms = table_by(alloc, columns, &[], facts)?;
    if clashes(facts, &terms) {
        return ranked_table(alloc, columns, facts);
    }
    Ok((Vec::new(alloc), terms))
}

/// The index of the facts by the columns. Terms have their hashes for numbers, but where these clash, as texts can be made
/// to do, their ranks.
pub fn index_of(alloc: Global, columns: Marks, facts: &[Atom]) -> Result<Index, OutOfMemory>
    ensures { IfOk result (IsIndex facts.now) }
{
    let relations = buckets_of(alloc, facts)?;
    let (names, terms) = named_table(alloc, &columns, facts)?;
    Ok(Index {
        columns,
        names,
        relations,
        terms,
    })
}

/// The term that each map which extends the trail sends this one to.
fn bound_to<'b, 'a: 'b>(
    start: &'b Valuation,
    trail: &'b [Binding<'a>],
    term: &'b Term,
) -> Option<&'b Term>
    ensures { IfSome result (λ bound. (m : Term → Term) → Keeps Const m
        → Extends m (with_trail start.now trail.now) → m term.now ≡ bound.now) }
{
    match term {
        Term::Plain(variable) => value(start, trail, *variable),
        Term::Const(_) => Some(term),
        Term::Made(_, _, _) => None,
    }
}

/// The places of the term's value in the column, if there are fewer than the given ones, which are candidates too.
fn fewer_by<'b, 'c, 'a: 'c>(
    start: &'c Valuation,
    facts: &[Atom],
    index: &'b Index,
    trail: &'c [Binding<'a>],
    atom: &'c Atom,
    column: usize,
    best: &'b [usize],
) -> &'b [usize]
    requires index { IsIndex facts.now index.now }
    requires within { column < length atom.now.terms }
    requires best { AreCandidates facts.now atom.now (with_trail start.now trail.now) best.now }
    ensures { AreCandidates facts.now atom.now (with_trail start.now trail.now) result.now }
{
    if best.len() <= FEW || !index.columns.has(atom.relation, column) {
        return best;
    }
    let Some(bound) = bound_to(start, trail, atom.terms.item(column)) else {
        return best;
    };
    let number = number_of(&index.names, bound);
    let found = index.terms.at(key_of(atom.relation, column, number));
    if best.len() <= found.len() {
        return best;
    }
    found
}

/// The places to which the atom can go: those of its relation, or fewer where the index finds it by a column that is
/// bound.
pub fn places_for<'b, 'c, 'a: 'c>(
    start: &'c Valuation,
    facts: &[Atom],
    index: &'b Index,
    trail: &'c [Binding<'a>],
    atom: &'c Atom,
) -> &'b [usize]
    requires { IsIndex facts.now index.now }
    ensures { AreCandidates facts.now atom.now (with_trail start.now trail.now) result.now }
{
    let mut best = index.relations.at(atom.relation as u64);
    'columns: for column in 0..atom.terms.len() {
        best = fewer_by(start, facts, index, trail, atom, column, best);
    }
    best
}

/// How many places the value has in the column.
fn ways_of(index: &Index, relation: usize, column: usize, value: &Term) -> usize
    requires { AreInOrder index.now.names.items }
{
    let number = number_of(&index.names, value);
    index.terms.at(key_of(relation, column, number)).len()
}

/// How many places the term's value has in the column, where the first atom goes to the fact.
fn ways_by(
    index: &Index,
    first: &Atom,
    fact: &Atom,
    relation: usize,
    column: usize,
    term: &Term,
) -> usize
    requires { AreInOrder index.now.names.items }
{
    'columns: for (place, shared) in first.terms.items().iter().enumerate() {
        if shared.equal(term) {
            return match fact.terms.items().get(place) {
                Some(value) => ways_of(index, relation, column, value),
                None => usize::MAX,
            };
        }
    }
    usize::MAX
}

/// How many places are left to the other atom of so many, where the first one goes to the fact.
pub fn least_after(index: &Index, first: &Atom, fact: &Atom, other: &Atom, ways: usize) -> usize
    requires { AreInOrder index.now.names.items }
{
    let mut least = ways;
    'columns: for (column, term) in other.terms.items().iter().enumerate() {
        if index.columns.has(other.relation, column) {
            least = least.min(ways_by(index, first, fact, other.relation, column, term));
        }
    }
    least
}
