//! JSON files of documents: read as trees or as facts, opened as rows of texts by a layout, and written; and the file
//! of a fragment, opened by the shape of its store. Start from `encode_file`, `encode_into`, `read_trees`,
//! `open_documents`, `write_documents`, `open_store` and `code_store`.
#![tactic(auto)]

mod coded_store;
mod document;
mod encode;
mod facts;
mod filling;
mod from_json;
mod holding;
pub mod laws;
mod matching;
mod parse;
mod rows;
mod store;
mod trees;
mod write;

pub use coded_store::code_store;
pub use encode::{encode_file, encode_into};
pub use esto_docmodel::Layout;
pub use rows::open_documents;
pub use store::open_store;
pub use trees::read_trees;
pub use write::write_documents;
