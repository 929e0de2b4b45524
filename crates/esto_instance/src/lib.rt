//! Instances of the standard chase: facts over terms with a head, and the trace of the steps that
//! made them. Start from `Instance` and `ChaseStep`.
#![tactic(auto)]

mod fresh;
mod instance;
mod receiving;
mod replacing;

pub use instance::{ChaseStep, Instance, Trace};
