//! The made case of a size, and its summary: a chain of relations that are each stored twice, so that lists, weights and
//! rows can be looked at without any file. Start from `bench`.
#![tactic(auto)]

mod case;
mod catalogue;
mod fragments;
mod laws;
mod query;
mod rows;
mod summary;

pub use case::{MAX_SIZE, bench};
pub use catalogue::made_catalogue;
pub use laws::summaries_are_one;
pub use query::made_query;
pub use summary::{Summary, summary_text};
