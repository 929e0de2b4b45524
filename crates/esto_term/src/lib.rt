//! Texts, bytes, terms, the lists that every other crate uses, and laws of sets of numbers. Contracts
//! see a list as the plain list of its items, a text and bytes as the list of their bytes, a term as
//! a tree, and a set of numbers as a list of truth values.
//! Start from `List`, `Text` and `Term`.
#![tactic(auto)]

mod list;
mod sets;
mod term;
mod text;
mod values;

pub use list::{List, OutOfMemory, Replicate, push};
pub use sets::{all_sets_are_listed, minimal_sets_cover, minimal_sets_tell, sets_are_ordered};
pub use term::{
    Term, TermRows, Terms, compare_terms, equal_terms, has_term, terms_are_finite,
    terms_are_ordered,
};
pub use text::{Bytes, Text, TextError, TextRow, TextRows};
pub use values::{Places, Values};
