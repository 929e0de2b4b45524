//! The opening of the catalogue, of a query and of a union of queries, as steps of a command's course. Start from
//! `open_catalogue`, `open_query` and `open_union`.
#![tactic(auto)]

mod laws;
mod opening;
mod unions;

pub use laws::{opened_unions_are_queries, openings_are_one};
pub use opening::{open_catalogue, open_query};
pub use unions::open_union;
