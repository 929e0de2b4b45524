//! Entries that keep their reasons: derivations of their claims, and the products of a claim. Start
//! from `Entries` and `Why`.
#![tactic(auto)]

mod entries;
mod lists;
mod taking;
mod why;

pub use entries::{Entries, derivations_derive, entries_are_reasoned};
pub use esto_chase_laws::{Chain, Claim, Entry, Reason};
pub use lists::{both, like, only, put_terms, union_of};
pub use taking::{made_fact, met_first, taken_term, taken_terms, terms_of};
pub use why::{Why, Whys};
