//! Laws of entries and of their worlds.
ghost use Rattle.esto_chase_laws.specs.WorldLaws.{DerivedEntriesAreSound, BrokenWorldsAreReceivedNowhere, CompleteEntriesAreClosed, ClosedWorldsAreDatabases};
ghost use Rattle.esto_chase_laws.specs.WorldLaws.{MatchesAreDirect, DerivedFactsNestWithinRanks, DerivedEntriesAreFew, DerivedEntriesAreReasoned};
ghost use Rattle.esto_chase_laws.specs.WorldLaws.{MatchesShowContainment, ContainmentShowsMatches, DerivedClaimsRestOnAtoms, MatchesRestOnAtoms};

use esto_semantics::{
    universal_instances_decide_containment, what_follows_the_facts_follows_the_query,
};

/// A law: derived entries hold in every database that meets the rules. Each valuation that sends the expanded facts of a
/// set of atoms into such a database is followed by one that sends the facts of the set's world into it and gives linked
/// terms one value. So there is no such database where the world makes two different constants one, or has a match of a
/// denial's body.
pub fn derived_entries_are_sound()
    ensures sound { DerivedEntriesAreSound }
    ensures nowhere { BrokenWorldsAreReceivedNowhere }
{}

/// A law: where all that the rules and the links ask for among the entries is there, each world is closed: it meets each
/// rule that is no denial, where linked terms count as one.
pub fn complete_entries_are_closed()
    ensures { CompleteEntriesAreClosed }
{}

/// A law: a closed world in which no two different constants are one and no denial's body has a match is a database that
/// meets the rules, with one value for linked terms.
pub fn closed_worlds_are_databases()
    ensures { ClosedWorldsAreDatabases }
{}

/// A law: where links are joined, a world has a match, head to head, exactly where it has a direct one, which uses at most
/// one equality at each place.
pub fn matches_are_direct()
    ensures { MatchesAreDirect }
{}

/// A law: the expanded facts of some atoms, with a head, are contained in a query under the rules where the world of the
/// atoms has a match of the query's body whose head is, place by place, one with that head. Where the world makes no two
/// different constants one and has no match of a denial's body, it has such a match exactly there.
pub fn matches_decide_containment()
    ensures shown { MatchesShowContainment }
    ensures found { ContainmentShowsMatches }
{
    universal_instances_decide_containment();
    what_follows_the_facts_follows_the_query();
}

/// A law: each derived claim rests on an atom at least, and each variable that it is about stands in an expanded fact of
/// one of its atoms.
pub fn derived_claims_rest_on_atoms()
    ensures { DerivedClaimsRestOnAtoms }
{}

/// A law: a match of a query in the world of some atoms rests on an atom at least, and each variable that its head is one
/// with stands in an expanded fact of one of them.
pub fn matches_rest_on_atoms()
    ensures { MatchesRestOnAtoms }
{}

/// A law: under ranks that rise, the terms of derived facts nest no deeper than the ranks of their relations, and derived
/// entries, none of which is covered by those before it, are no more than a bound.
pub fn derived_entries_are_bounded()
    ensures nested { DerivedFactsNestWithinRanks }
    ensures few { DerivedEntriesAreFew }
{}

/// A law: derived entries of one count keep what a list of entries keeps: each product is exactly what its reason names.
pub fn derived_entries_are_reasoned()
    ensures { DerivedEntriesAreReasoned }
{}
