//! The universal plan of a query. Start from `universal`.
#![tactic(auto)]

mod planned;
mod planning;
mod rows;
mod stated;

pub use planned::{
    plans_of_runs_are_over_fragments, plans_of_runs_are_universal, plans_tell_satisfiable_queries,
    runs_have_one_outcome,
};
pub use planning::universal;
pub use stated::{
    stated_plans_are_one, stated_plans_are_universal, stated_plans_have_distinct_atoms,
};
