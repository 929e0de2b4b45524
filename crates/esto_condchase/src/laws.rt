//! The law of entries.
ghost use Rattle.esto_condchase.specs.Evidence.{EntriesAreConsistent, EntriesDecideAnswers, EntriesDecideUnions};

use esto_chase_laws::matches_decide_containment;
use esto_constraint::rules_are_sound;
use esto_query::queries_are_sound;
use esto_semantics::{
    an_expansion_means_the_same, an_expansion_of_a_plan_expands_its_candidates,
    candidates_contain_the_query, chosen_atoms_are_named,
};
use esto_views::{matched_sets_are_contained, plans_are_sound};

/// A law: a set of the atoms of a plan that is universal for a satisfiable query answers the query exactly where the
/// set's world, by the entries, has a match of the query's body whose head is, place by place, one with the plan's
/// head. Where the plan receives unions for the query, no set's world makes two different constants one or has a match
/// of a denial's body. Where that is so, a set answers a part of a union exactly where its world has such a match of
/// one of the union's queries.
pub fn entries_decide_answers()
    ensures decide { EntriesDecideAnswers }
    ensures unions { EntriesDecideUnions }
    ensures consistent { EntriesAreConsistent }
{
    plans_are_sound();
    rules_are_sound();
    queries_are_sound();
    matches_decide_containment();
    matched_sets_are_contained();
    chosen_atoms_are_named();
    candidates_contain_the_query();
    an_expansion_means_the_same();
    an_expansion_of_a_plan_expands_its_candidates();
}
