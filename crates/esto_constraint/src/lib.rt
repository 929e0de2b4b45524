//! Rules, their active matches, whether facts meet them, and the graph of their relations with its ranks.
//! Start from `Constraint`, `make_tuple_rule`, `meets` and `Ranks`.
#![tactic(auto)]

mod encodings;
mod frontier;
mod make;
mod meeting;
mod ranks;
mod rule;

pub use encodings::{document_rules, document_rules_2, key_rules};
pub use frontier::frontier_of;
pub use make::{make_denial, make_equal_rule, make_tuple_rule, rules_are_sound};
pub use meeting::{
    Broken, active, active_in, body_of, least_active_matches_are_least, meets, value_of,
};
pub use ranks::{Cycle, Ranks, ranks_rise};
pub use rule::{Constraint, Denial, Egd, Rules, Tgd, copy_both};
