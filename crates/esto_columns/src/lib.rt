//! Codes of texts, rows of codes by columns, and what fragments give. Start from `Codes`, `Rows`
//! and `Fragment`.
#![tactic(auto)]

mod codes;
mod coding;
mod column;
mod finding;
mod fragment;
mod index;
mod laws;
mod picks;
mod rows;
mod stored;
mod table;
mod text_key;

pub use codes::Codes;
pub use coding::{code_rows, code_taken_rows};
pub use column::Column;
pub use fragment::{Fragment, Input, Inputs, Ways};
pub use index::Index;
pub use laws::coded_rows_stay_coded;
pub use picks::{Picks, select};
pub use rows::Rows;
pub use stored::StoredRows;
