//! Sets of atom numbers, kept as 64-bit words, and products: families of such sets of which none is
//! a subset of another. Start from `RowBits` and `Products`.
#![tactic(auto)]

mod joins;
pub mod lanes;
mod packed;
mod pages;
mod products;
mod row_bits;
mod words;

pub use products::{Products, SetList, kept_sets_are_minimal, products_are_antichains};
pub use row_bits::RowBits;
