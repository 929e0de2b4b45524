//! The standard chase: its run as a list of steps, and laws about it. A run has one end, says
//! exactly what every database that meets the rules receives, and is no longer than a bound. And
//! worlds, for one chase of all sets of a plan's atoms: what entries claim of each set, where each
//! entry rests on the atoms that it needs and an equality is an entry of its own. Entries that are
//! derived say what holds in every database that meets the rules; a closed world is such a database.
//! The definitions stand in `specs/`; the laws are the contracts of public functions here. Begin
//! with `states_are_universal`, `finished_runs_decide` and `runs_reach_an_end`, and for worlds with
//! `derived_entries_are_sound`, `complete_entries_are_closed` and `matches_decide_containment`.
#![tactic(auto)]

mod bounds;
mod clash;
mod entry;
mod receiving;
mod runs;
mod worlds;

pub use bounds::{runs_end, terms_nest_within_ranks};
pub use clash::Clash;
pub use entry::{Chain, Claim, Entry, Reason, same};
pub use receiving::{
    clashes_receive_nothing, finished_runs_decide, states_are_received, states_are_universal,
};
pub use runs::{
    ends_have_no_step, heads_go_along, made_terms_are_new, merged_terms_meet, queries_have_starts,
    rules_are_decided, runs_have_one_end, runs_reach_an_end, states_go_on,
};
pub use worlds::{
    closed_worlds_are_databases, complete_entries_are_closed, derived_claims_rest_on_atoms,
    derived_entries_are_bounded, derived_entries_are_reasoned, derived_entries_are_sound,
    matches_are_direct, matches_decide_containment, matches_rest_on_atoms,
};
