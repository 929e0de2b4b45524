//! Reading is a total function: each text has tokens, one tree or one first fault of its grammar, and
//! one reading or one first fault; so it is with a catalogue; and each file has rows, documents or
//! facts, or a first fault. The definitions stand in `specs/`; the laws are the contracts of public
//! functions here. Begin with `reading_is_a_function`, `reading_a_catalogue_is_a_function` and
//! `files_are_total`.
#![tactic(auto)]

mod catalogue;
mod datasets;
mod files;
mod grammar;
mod readings;

pub use catalogue::{
    catalogues_are_total, graphs_have_ranks_or_a_cycle, reading_a_catalogue_is_a_function,
};
pub use datasets::facts_are_total;
pub use files::files_are_total;
pub use grammar::{texts_have_one_tree_or_fault, texts_have_tokens, tokens_have_trees_or_stops};
pub use readings::{reading_is_a_function, readings_are_total};
