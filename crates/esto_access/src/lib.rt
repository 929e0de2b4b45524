//! Orders in which the atoms of a plan can be executed under the binding patterns of their fragments, the access
//! products of each atom, which are the least sets in which it is reached, and sets of atoms completed by them. Start from
//! `order_of`, `reached`, `access_products` and `executable_products`.
#![tactic(auto)]

mod atoms;
mod completion;
mod laws;
mod needs;
mod order;
mod run;
mod supply;

pub use atoms::way_of;
pub use completion::{complete, executable_products};
pub use laws::{minimal_completions_are_executable, rounds_are_enough};
pub use order::{is_order, order_of, reached};
pub use supply::{Supplies, access_products};
