//! Tables as facts: the facts of rows, each row once. Start from `table_facts` and `constants`.
#![tactic(auto)]

mod facts;
mod seen;

pub use facts::{constants, facts_of_rows, table_facts};
