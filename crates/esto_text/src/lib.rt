//! The texts of queries, views, constraints and layouts: their tokens, and the trees of the
//! grammar. Start from `read_tokens`, `read_query_tree` and `read_constraint_tree`.
#![tactic(auto)]

mod fault;
mod groups;
mod layout;
mod lexeme;
mod parts;
mod paths;
mod reader;
mod rows;
mod rule;
mod scan;
mod stop;
mod syntax;
mod token;
mod tokens;
mod tree;
mod unions;
mod version;

pub use fault::{ReadError, TextFault, TextKind};
pub use groups::MAX_OPEN;
pub use parts::MAX_NAME;
pub use rows::MAX_NAMES;
pub use syntax::{
    read_constraint_tree, read_layout_tree, read_query_tree, read_union_tree, trees_are_determined,
    unions_are_determined,
};
pub use token::{Token, TokenKind, Tokens};
pub use tokens::{read_tokens, tokens_are_determined};
pub use tree::{ConstraintSyntax, EntrySyntax, HeadSyntax, ItemSyntax, QuerySyntax, StepSyntax};
pub use unions::MAX_QUERIES;
pub use version::Version;
