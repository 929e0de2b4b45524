//! Which facts of a list are not there yet, by a sorted index.
ghost use Rattle.std.specs.Prelude.{◌≡◌, [], ◌++◌, length, IfOk, OnOk};
ghost use Rattle.esto_semantics.specs.Listed.{chosen};
ghost use Rattle.esto_chase_laws.specs.Joined.{joined};
ghost use Rattle.esto_instance.specs.Fresh.{fact_cmp, entry_cmp, IsOld, IsNew, Adds, AreEntries};
ghost use Rattle.esto_instance.specs.Fresh.{IsInOrder, IsFirstRank, AreFresh};

use esto_semantics::{Atom, Facts};
use esto_term::{List, OutOfMemory, Replicate, Values, compare_terms};
use std::alloc::Global;
use std::cmp::Ordering;

/// A fact, with 0 where it was there before, and else one more than its place among the further facts.
#[derive(Clone, Copy)]
pub struct Entry<'a> {
    pub fact: &'a Atom,
    pub rank: usize,
}

/// The order of facts: by relation, and then term by term.
fn compare_facts(fact: &Atom, other: &Atom) -> Ordering
    ensures { result ≡ fact_cmp fact.now other.now }
{
    fact.relation
        .cmp(&other.relation)
        .then(compare_terms(fact.terms.items(), other.terms.items()))
}

/// The order of entries: by fact, and then by rank.
fn compare_entries(entry: &Entry, other: &Entry) -> Ordering
    ensures { result ≡ entry_cmp entry.now other.now }
{
    compare_facts(entry.fact, other.fact).then(entry.rank.cmp(&other.rank))
}

/// Puts the entries of the facts that were there before at the end.
fn add_old<'a>(facts: &'a [Atom], entries: &mut Vec<Entry<'a>>) -> Result<(), OutOfMemory>
    ensures { OnOk result (Adds (IsOld facts.now) entries.old.items entries.new.items) }
{
    'facts: for fact in facts {
        let Ok(()) = entries.push(Entry { fact, rank: 0 }) else {
            return Err(OutOfMemory);
        };
    }
    Ok(())
}

/// Puts the entries of the further facts at the end.
fn add_new<'a>(facts: &'a [Atom], entries: &mut Vec<Entry<'a>>) -> Result<(), OutOfMemory>
    ensures { OnOk result (Adds (IsNew facts.now) entries.old.items entries.new.items) }
{
    'facts: for (place, fact) in facts.iter().enumerate() {
        let rank = place + 1;
        let Ok(()) = entries.push(Entry { fact, rank }) else {
            return Err(OutOfMemory);
        };
    }
    Ok(())
}

/// The index of the facts that were there before, and of the further ones: their entries, in order.
fn index_of<'a>(
    alloc: Global,
    facts: &'a [Atom],
    more: &'a [Atom],
) -> Result<Vec<Entry<'a>>, OutOfMemory>
    ensures entries { IfOk result (λ index. AreEntries facts.now more.now index.items) }
    ensures in_order { IfOk result (λ index. IsInOrder index.items) }
{
    let mut entries = Vec::new(alloc);
    add_old(facts, &mut entries)?;
    add_new(more, &mut entries)?;
    entries.sort_by(|entry, other| compare_entries(entry, other))?;
    Ok(entries)
}

/// The rank of the first entry of the fact.
fn first_rank(index: &[Entry], fact: &Atom) -> usize
    requires { IsInOrder index.now }
    ensures { IsFirstRank index.now fact.now result }
{
    let first = index.partition_point(|entry| compare_facts(entry.fact, fact).is_lt());
    match index.get(first) {
        Some(entry) => entry.rank,
        None => 0,
    }
}

/// For each of the further facts, whether it was not there before, nor is earlier among them.
fn marks_of(alloc: Global, facts: &[Atom], more: &[Atom]) -> Result<Values<bool>, OutOfMemory>
    ensures { IfOk result (λ marks. AreFresh facts.now more.now marks) }
{
    let index = index_of(alloc, facts, more)?;
    let mut marks = Values::new(alloc);
    'more: for (place, fact) in more.iter().enumerate() {
        let rank = place + 1;
        marks.push(first_rank(&index, fact) == rank)?;
    }
    Ok(marks)
}

/// Copies of the facts that are marked.
fn copies_of(alloc: Global, facts: &[Atom], marks: &Values<bool>) -> Result<Facts, OutOfMemory>
    requires { length marks.now ≡ length facts.now }
    ensures { IfOk result (λ it. it ≡ chosen marks.now facts.now) }
{
    let mut copies = List::new(alloc);
    'facts: for (place, fact) in facts.iter().enumerate() {
        if marks.item(place) {
            let copy = fact.copy(alloc)?;
            copies.push(copy)?;
        }
    }
    Ok(copies)
}

/// Those of the further facts that are not there, in their order and once.
pub fn fresh_facts(alloc: Global, facts: &[Atom], more: &[Atom]) -> Result<Facts, OutOfMemory>
    ensures { IfOk result (λ fresh. joined facts.now more.now ≡ facts.now ++ fresh) }
{
    let marks = marks_of(alloc, facts, more)?;
    copies_of(alloc, more, &marks)
}

/// Each of the facts once, where it stands first.
pub fn once(alloc: Global, facts: &[Atom]) -> Result<Facts, OutOfMemory>
    ensures { IfOk result (λ it. it ≡ joined [] facts.now) }
{
    fresh_facts(alloc, &[], facts)
}
