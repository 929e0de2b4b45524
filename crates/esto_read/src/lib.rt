//! The texts of queries, views, constraints and layouts, read. Start from `Vocabulary`,
//! `read_query` and `read_constraint`.
#![tactic(auto)]

mod body;
mod constant;
mod head;
mod layout;
mod make;
mod pattern;
mod read;
mod rule;
mod term;
mod unions;
mod words;

pub use esto_docmodel::{DataModel, Vocabulary, Word};
pub use esto_text::{ReadError, TextFault, TextKind, Token, TokenKind, Tokens, read_tokens};
pub use layout::{layout_readings_are_determined, read_layout};
pub use read::{
    NamedQuery, read_query, read_view, readings_are_determined, views_name_their_columns,
};
pub use rule::{constraint_readings_are_determined, read_constraint, read_constraint_2};
pub use unions::{
    NamedQueries, read_union, union_readings_are_determined, unions_of_one_are_queries,
};
