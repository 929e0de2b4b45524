//! The sets of a plan's atoms that are listed in a union of queries. Start from `union_sets`.
#![tactic(auto)]

mod laws;
mod sets;

pub use laws::{
    listed_in_unions_are_one, no_union_rewriting_is_told, one_query_has_its_listed_sets,
    picks_answer_unions,
};
pub use sets::union_sets;
