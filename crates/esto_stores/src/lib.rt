//! CSV files and key files as rows of texts and as rows of codes. Start from `open_table`,
//! `open_keys`, `code_table`, `code_keys` and `write_table`.
#![tactic(auto)]

mod cells;
mod coded_keys;
mod coded_rows;
mod coded_table;
mod header;
mod key_text;
mod keys;
pub mod laws;
mod marks;
mod reader;
mod table;
mod table_text;

pub use coded_keys::code_keys;
pub use coded_table::code_table;
pub use key_text::write_keys;
pub use keys::open_keys;
pub use table::open_table;
pub use table_text::{write_lent_records, write_records, write_table};
