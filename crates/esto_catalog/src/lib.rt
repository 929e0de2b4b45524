//! The catalogue, read from the bytes of its file. Start from `read_catalogue` and `CatalogueError`; what
//! it gives is the `Catalogue` of `esto_mapping`.
#![tactic(auto)]

mod access;
mod constraint;
mod dataset;
mod fault;
mod fragment;
mod model;
mod row;
mod rules;
mod scope;
mod shape;
mod walk;
mod whole;

pub use esto_mapping::{
    Catalogue, Dataset, Datasets, MAX_PATTERNS, MAX_WEIGHT, Shape, Store, Stores,
    catalogues_are_sound, catalogues_rank_their_rules, relation_count,
};
pub use esto_status::{CatalogueFault, CatalogueKind, Section};
pub use esto_text::MAX_NAME;
pub use fault::CatalogueError;
pub use walk::{catalogues_are_determined, catalogues_keep_their_datasets, read_catalogue};
pub use whole::MAX_ENTRIES;
