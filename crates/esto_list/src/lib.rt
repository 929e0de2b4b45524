//! The list of the executable sets of a plan's atoms that are kept: in order, with weights, the
//! pick, and the text that is printed. Start from `Listing` and `Listed`.
#![tactic(auto)]

mod listing;
mod text;
mod weight;

pub use esto_views::{meet_terms, put_constant, put_count, put_number, put_numbers, put_terms};
pub use listing::{Listed, Listing};
