//! The conditional chase: one chase of a plan's expanded facts for the worlds of all sets of its
//! atoms, the products of a query's matches in these worlds, and what they say of the sets. Start
//! from `chase_with_products`, `products_of_matches`, `entries_of` and `entries_decide_answers`.
#![tactic(auto)]

mod chase;
mod evidence;
mod joining;
mod laws;
mod news;
mod passing;
mod products;
mod reached;
mod rounds;
mod steps;
mod ways;

pub use chase::chase_with_products;
pub use evidence::{entries_of, matching_products};
pub use laws::entries_decide_answers;
pub use products::products_of_matches;
