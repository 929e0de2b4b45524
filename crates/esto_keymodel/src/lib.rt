//! Key-value sets as facts: the facts of rows of a key, a field and a value, and which rows a key
//! file can hold. Start from `pair_facts` and `key_row_fault`.
#![tactic(auto)]

mod facts;
mod fault;

pub use facts::pair_facts;
pub use fault::key_row_fault;
