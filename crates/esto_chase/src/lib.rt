//! The standard chase: a run of steps from a start to facts that meet the rules, or to a clash.
//! Start from `chase` and `Chased`.
#![tactic(auto)]

mod chasing;
mod laws;
mod making;
mod next;
mod steps;

pub use chasing::{Chased, chase};
pub use esto_chase_laws::Clash;
pub use laws::clashed_queries_are_unsatisfiable;
