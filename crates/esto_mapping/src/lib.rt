//! The catalogue as a value: which datasets, fragments and rules there are. Start from `Catalogue`.
#![tactic(auto)]

mod catalogue;
mod columns;
mod dataset;
mod laws;

pub use catalogue::{Catalogue, MAX_PATTERNS, MAX_WEIGHT};
pub use columns::{are_columns, are_distinct, is_name};
pub use dataset::{Dataset, Datasets, relation_count};
pub use esto_docmodel::{Shape, Store, Stores};
pub use laws::{catalogues_are_sound, catalogues_rank_their_rules};
