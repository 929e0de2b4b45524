//! The core of a plan. Start from `core_of`.
#![tactic(auto)]

mod cored;
mod left;

pub use cored::{
    core_of, cored_plans_are_cores, cored_plans_are_determined, cored_plans_are_one_for_a_query,
    cored_plans_are_universal,
};
