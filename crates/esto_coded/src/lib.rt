//! Facts as rows of codes, relation by relation, and what is asked of them: the answers of queries, whether they meet a
//! rule, and a small part of them that has what breaks a rule. Start from `CodedFacts`.
#![tactic(auto)]

mod answers;
mod coded;
mod facts;
mod indexes;
mod judging;
mod meets;
mod mirrored;
mod parted;
mod parts;
mod relations;
mod shown;
mod spread;
mod steps;
mod verdict;

pub use coded::{CodedFacts, FIRST_NODE, rows_in_order_stand_for_facts};
pub use relations::put_rows;
pub use shown::least_node;
pub use verdict::Verdict;
