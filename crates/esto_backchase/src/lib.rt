//! The listed sets of a plan: the minimal sets of its atoms that are rewritings of the query. Start from
//! `minimal_sets` and `minimal_sets_plain`.
#![tactic(auto)]

mod candidates;
mod laws;
mod listing;
mod products;
mod safety;
mod search;

pub use laws::listed_sets_cover_rewritings;
pub use listing::minimal_sets_plain;
pub use products::{Backchase, minimal_sets};
