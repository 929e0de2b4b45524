//! The loop, and what it promises.
ghost use Rattle.std.specs.Prelude.{◌≡◌, ◌<◌, ◌⊎◌, Bool, List, [], length, take, slice_index, Contains, IfOk, OnOk};
ghost use Rattle.esto_semantics.specs.Maps.{AreFlat};
ghost use Rattle.esto_semantics.specs.Rules.{Rule};
ghost use Rattle.esto_constraint.specs.Constraints.{rules_of};
ghost use Rattle.esto_constraint.specs.Graphs.{IsWithin, AreRanks};
ghost use Rattle.esto_constraint.specs.Relations.{IsEdge};
ghost use Rattle.esto_semantics.specs.Expanded.{facts_of};
ghost use Rattle.esto_semantics.specs.declared.expanded.ExpandedFact.{ExpandedFact};
ghost use Rattle.esto_chase_laws.specs.Derived.{AreDerived, AreNew};
ghost use Rattle.esto_chase_laws.specs.WorldLaws.{AreGiven, IsSound, IsReceivedNowhere, IsDatabase, AreNestedWithin};
ghost use Rattle.esto_chase_laws.specs.WorldSteps.{AreAnswered, AreJoined};
ghost use Rattle.esto_chase_laws.specs.Worlds.{InWorld, AreOfCount, IsClosed, IsBroken, IsDenied};
ghost use Rattle.esto_condchase.specs.Rounds.{IsEntryOf};
ghost use Rattle.esto_known.specs.Added.{IsAdded, IsGrownBy};
ghost use Rattle.esto_chase_laws.specs.declared.entry.Entry.{Entry};

use crate::rounds::round;
use esto_bits::RowBits;
use esto_chase_laws::{
    Claim, Entry, Reason, closed_worlds_are_databases, complete_entries_are_closed,
    derived_entries_are_bounded, derived_entries_are_reasoned, derived_entries_are_sound,
};
use esto_constraint::{Constraint, Ranks, Rules, ranks_rise, rules_are_sound};
use esto_known::{Known, add, add_all};
use esto_prov::Entries;
use esto_semantics::{ExpandedFact, ExpandedFacts};
use esto_term::{List, OutOfMemory, Replicate};
use std::alloc::Global;

/// The entry of an expanded fact.
fn entry_of(alloc: Global, fact: &ExpandedFact, atoms: usize) -> Result<Entry, OutOfMemory>
    requires { fact.now.atom < atoms }
    ensures is { IfOk result (IsEntryOf fact.now) }
    ensures counted { IfOk result (λ it. length it.product ≡ atoms) }
{
    let product = RowBits::of(alloc, atoms, &[fact.atom])?;
    let own = fact.fact.copy(alloc)?;
    Ok(Entry {
        claim: Claim::Fact(own),
        product,
        reason: Reason::Expanded(fact.atom, fact.place),
    })
}

/// Adds the entry of an expanded fact, unless the entries cover it.
fn give(
    alloc: Global,
    fact: &ExpandedFact,
    atoms: usize,
    entries: &mut Known,
) -> Result<(), OutOfMemory>
    requires atom { fact.now.atom < atoms }
    requires counts { AreOfCount atoms entries.old }
    ensures { OnOk result ((entry : Entry) × IsEntryOf fact.now entry
        × (length entry.product ≡ atoms)
        × IsAdded entries.old entry.claim entry.product entry.reason entries.new) }
{
    let entry = entry_of(alloc, fact, atoms)?;
    let added = add(alloc, entries, &entry);
    drop(entry);
    added
}

/// Puts the entries of the expanded facts, where there are none yet.
fn give_all(
    alloc: Global,
    facts: &[ExpandedFact],
    atoms: usize,
    entries: &mut Known,
) -> Result<(), OutOfMemory>
    requires atoms { (fact : ExpandedFact) → Contains facts.now fact → fact.atom < atoms }
    requires none { entries.old ≡ [] }
    ensures derived { OnOk result ((rules : List Rule) → AreDerived facts.now rules entries.new) }
    ensures new { OnOk result (AreNew entries.new) }
    ensures counted { OnOk result (AreOfCount atoms entries.new) }
    ensures given { OnOk result (AreGiven facts.now entries.new) }
{
    'facts: for fact in facts {
        give(alloc, fact, atoms, entries)?;
    }
    Ok(())
}

/// A round: adds what the rules and the links ask for and the entries do not cover.
fn next(
    alloc: Global,
    entries: &mut Known,
    since: usize,
    rules: &[Constraint],
    count: usize,
) -> Result<(), OutOfMemory>
    requires before { AreAnswered (rules_of rules.now) (take since entries.old) entries.old }
    requires joined_before { AreJoined (take since entries.old) entries.old }
    requires counts { AreOfCount count entries.old }
    ensures counted { OnOk result (AreOfCount count entries.new) }
    ensures grown { OnOk result ((asked : List Entry)
        × IsGrownBy (rules_of rules.now) entries.old asked entries.new) }
    ensures answered { OnOk result
        (AreAnswered (rules_of rules.now) entries.old entries.new) }
    ensures joined { OnOk result (AreJoined entries.old entries.new) }
{
    let asked = round(alloc, entries, since, rules, count)?;
    add_all(alloc, entries, asked.items(), count)
}

/// The entries of the expanded facts and the rounds, to the end, where there are no entries yet: each entry follows
/// from those before it, which do not cover it, each expanded fact is a fact of each world that has its atom, and no
/// rule and no link asks for more.
fn rounds(
    alloc: Global,
    facts: &ExpandedFacts,
    atoms: usize,
    rules: &Rules,
    ranks: &Ranks,
    entries: &mut Known,
) -> Result<(), OutOfMemory>
    requires flat { AreFlat (facts_of facts.now) }
    requires atoms { (fact : ExpandedFact) → Contains facts.now fact → fact.atom < atoms }
    requires within { IsWithin (length ranks.now) (IsEdge (rules_of rules.now)) }
    requires ranks { AreRanks (IsEdge (rules_of rules.now)) (length ranks.now) ranks.now }
    requires none { entries.old ≡ [] }
    ensures derived { OnOk result (AreDerived facts.now (rules_of rules.now) entries.new) }
    ensures new { OnOk result (AreNew entries.new) }
    ensures counted { OnOk result (AreOfCount atoms entries.new) }
    ensures given { OnOk result (AreGiven facts.now entries.new) }
    ensures answered { OnOk result (AreAnswered (rules_of rules.now) entries.new entries.new) }
    ensures joined { OnOk result (AreJoined entries.new entries.new) }
{
    rules_are_sound();
    ranks_rise();
    derived_entries_are_bounded();
    let _count = ranks.len();
    give_all(alloc, facts.items(), atoms, entries)?;
    let mut since = 0;
    'rounds: loop {
        let before = entries.len();
        next(alloc, entries, since, rules.items(), atoms)?;
        if entries.len() == before {
            return Ok(());
        }
        since = before;
    }
}

/// The entries to which the rounds come.
fn chased(
    alloc: Global,
    facts: &ExpandedFacts,
    atoms: usize,
    rules: &Rules,
    ranks: &Ranks,
) -> Result<List<Entry>, OutOfMemory>
    requires flat { AreFlat (facts_of facts.now) }
    requires atoms { (fact : ExpandedFact) → Contains facts.now fact → fact.atom < atoms }
    requires within { IsWithin (length ranks.now) (IsEdge (rules_of rules.now)) }
    requires ranks { AreRanks (IsEdge (rules_of rules.now)) (length ranks.now) ranks.now }
    ensures derived { IfOk result (AreDerived facts.now (rules_of rules.now)) }
    ensures new { IfOk result AreNew }
    ensures counted { IfOk result (AreOfCount atoms) }
    ensures given { IfOk result (AreGiven facts.now) }
    ensures answered { IfOk result
        (λ entries. AreAnswered (rules_of rules.now) entries entries) }
    ensures joined { IfOk result (λ entries. AreJoined entries entries) }
{
    let mut entries = Known::new(alloc)?;
    let ended = rounds(alloc, facts, atoms, rules, ranks, &mut entries);
    ended.and(Ok(entries.into_list()))
}

/// The conditional chase of expanded facts: what the rules make of them in the world of each set of atoms, in one chase
/// for all sets. An entry is a fact or an equality of two terms, with the set of atoms that it rests on; the world of a
/// set has the entries whose products are within it. The facts have no made term, their atoms are below `atoms`, and
/// the ranks are those of the rules' relations.
///
/// Each round goes through the matches of all rules among the entries that stood when it began, modulo equalities, but
/// for those that use none of the last round's, and through the links that meet; it adds what they ask for and no entry
/// covers, small products first. An equality is an entry of its own and replaces nothing. A denial asks for nothing.
/// The chase ends after a round that added nothing. Each expanded fact of an atom is a fact of each world that has the
/// atom. Each world is closed: it meets each rule that is no denial, where linked terms count as one. It is sound:
/// every database that meets the rules and receives the facts of the set's atoms receives the world. Where no two
/// different constants are one in it and no denial's body has a match, it is a database that meets the rules; else no
/// such database receives the set's facts. A term of a fact nests no deeper than the rank of the fact's relation.
/// Source: the backchase with provenance (Ileana, Cautis, Deutsch and Katsis 2014).
pub fn chase_with_products(
    alloc: Global,
    facts: &ExpandedFacts,
    atoms: usize,
    rules: &Rules,
    ranks: &Ranks,
) -> Result<Entries, OutOfMemory>
    requires flat { AreFlat (facts_of facts.now) }
    requires atoms { (fact : ExpandedFact) → Contains facts.now fact → fact.atom < atoms }
    requires within { IsWithin (length ranks.now) (IsEdge (rules_of rules.now)) }
    requires ranks { AreRanks (IsEdge (rules_of rules.now)) (length ranks.now) ranks.now }
    ensures counted { IfOk result (AreOfCount atoms) }
    ensures given { IfOk result (AreGiven facts.now) }
    ensures closed { IfOk result
        (λ entries. (set : List Bool) → IsClosed (rules_of rules.now) (InWorld entries set)) }
    ensures sound { IfOk result
        (λ entries. (set : List Bool) → IsSound facts.now (rules_of rules.now) entries set) }
    ensures database { IfOk result (λ entries. (set : List Bool)
        → ¬ (IsBroken (InWorld entries set))
        → ¬ (IsDenied (rules_of rules.now) (InWorld entries set))
        → IsDatabase (rules_of rules.now) (InWorld entries set)) }
    ensures nowhere { IfOk result (λ entries. (set : List Bool)
        → IsBroken (InWorld entries set) ⊎ IsDenied (rules_of rules.now) (InWorld entries set)
        → IsReceivedNowhere facts.now (rules_of rules.now) set) }
    ensures bounded { IfOk result (AreNestedWithin (slice_index ranks.now)) }
    ensures derived { IfOk result (AreDerived facts.now (rules_of rules.now)) }
    ensures new { IfOk result AreNew }
    ensures joined { IfOk result (λ entries. AreJoined entries entries) }
{
    rules_are_sound();
    ranks_rise();
    complete_entries_are_closed();
    derived_entries_are_sound();
    closed_worlds_are_databases();
    derived_entries_are_bounded();
    derived_entries_are_reasoned();
    let entries = chased(alloc, facts, atoms, rules, ranks)?;
    Ok(Entries::from_list(entries))
}
