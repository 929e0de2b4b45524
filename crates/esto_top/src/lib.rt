//! The top call: from the words of a command line, over a shelf and a sink, to a status and one
//! text. Start from `mediate`, `outcomes_are_determined` and `outcomes_exist`.
#![tactic(auto)]

mod below;
mod bench;
pub mod certificate_laws;
mod check;
mod command;
pub mod data_laws;
mod ending;
pub mod ends;
mod laws;
mod list;
mod queries;
pub mod reasoning_laws;
mod run;
mod task;
mod top;
mod unions;

pub use esto_status::{Status, status_line};
pub use laws::{
    answers_agree_with_runs, explained_sets_are_accepted, outcomes_are_determined,
    outcomes_are_where_files_are, outcomes_exist,
};
pub use top::mediate;
