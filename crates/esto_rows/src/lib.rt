//! Rows of codes, whatever these stand for: whether two lists of rows are one set, whether the codes after the first
//! tell the first, the codes of those rows that are wanted, and rows as texts, sorted. Start from `hold_same`,
//! `are_told`, `wanted_codes`, `LentRows`, `sorted_rows`.
#![tactic(auto)]

mod code_set;
mod keys;
mod laws;
mod lent;
mod same;
mod sorted;
mod told;
mod wanted;

pub use code_set::CodeSet;
pub use keys::Keys;
pub use laws::rising_rows_are_one;
pub use lent::LentRows;
pub use same::{hold_same, is_part};
pub use sorted::{sorted_rows, sorted_texts};
pub use told::are_told;
pub use wanted::{Wanted, keys_of, wanted_codes};
