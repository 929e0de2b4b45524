//! Places that are found by terms, in tables and in buckets; and rows of terms in order. Start from `table_of`, `Buckets`
//! and `in_order`.
#![tactic(auto)]

mod buckets;
mod entry;
mod hash;
mod marks;
mod number;
mod places;
mod rows;
mod spread;
mod table;

pub use buckets::Buckets;
pub use entry::Entry;
pub use marks::Marks;
pub use number::{add_names, column_under, count_marked, key_of, number_of, put_in_order};
pub use places::places_from;
pub use rows::in_order;
pub use table::{Table, table_of};
