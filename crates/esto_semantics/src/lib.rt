//! What the words of the field mean: facts, databases, valuations, queries and their answers, rules, containment,
//! views, expansions, universal plans, their cores, binding patterns and listed sets, and plans and listed sets of
//! unions. The definitions stand in `specs/`; laws about them are the contracts of public functions here. Begin with
//! `universal_instances_decide_containment`, `rewritings_map_onto_sets`, `listed_sets_are_minimal`, `cores_are_one`
//! and `executable_unions_map_onto_sets`.
#![tactic(auto)]

mod access;
mod containment;
mod cores;
mod expanded;
mod expansions;
mod fact;
mod followed;
mod listed;
mod plans;
mod standing;
mod unions;
mod valuation;
mod well_formed;

pub use access::{
    executable_sets_unite, minimal_executable_sets_are_told_by_parts, rewritings_without_inputs,
    stated_orders_exist,
};
pub use containment::{
    answers_grow_with_the_database, containment_is_a_preorder,
    parts_of_an_instance_contain_the_query, queries_are_their_own_instances,
    universal_instances_decide_containment, universal_instances_satisfy_queries,
    universal_instances_show_what_is_not_contained,
};
pub use cores::{
    cores_are_one, cores_have_no_retract, maps_between_plans_compose,
    plans_that_map_to_each_other_are_universal_alike, renamed_plans_are_alike,
    what_is_left_is_a_core,
};
pub use expanded::{ExpandedFact, ExpandedFacts};
pub use expansions::{
    an_expansion_means_the_same, an_expansion_of_a_plan_expands_its_candidates,
    queries_over_fragments_have_expansions,
};
pub use fact::{Atom, Atoms, Database, Fact, Facts, Value};
pub use followed::what_follows_the_facts_follows_the_query;
pub use listed::{
    chosen_atoms_are_named, equivalent_parts_have_minimal_sets, listed_sets_are_executable,
    listed_sets_are_minimal, picks_exist, weights_exist,
};
pub use plans::{
    candidates_contain_the_query, candidates_of_rewritings_are_executable_rewritings,
    queries_contain_what_they_map_to, queries_map_onto_executable_sets, rewritings_map_onto_sets,
    rows_of_a_universal_instance_are_a_universal_plan, sets_weigh_no_more_than_what_maps_onto_them,
};
pub use standing::databases_stand_for_facts;
pub use unions::{
    choices_are_executable_unions, executable_unions_exist, executable_unions_map_onto_sets,
    plans_receive_unions, sets_listed_in_unions_are_executable, unions_of_one,
};
pub use valuation::{Valuation, valuations_are_maps};
pub use well_formed::{facts_outside_a_schema_do_not_count, well_formed_databases_suffice};
