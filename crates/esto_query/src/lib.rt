//! Schemas, queries, matches and answers. Start from `Schema`, `make_query` and
//! `answers`.
#![tactic(auto)]

mod active;
mod answer;
mod body;
mod clashes;
mod columns;
mod index;
mod indexed;
mod least;
mod left;
mod make;
mod matches;
mod query;
mod schema;
mod search;
mod trail;

pub use active::{Conclusion, LentRule};
pub use answer::answers;
pub use body::{first_misfit, mentions, missing_variable};
pub use columns::Columns;
pub use esto_semantics::{Atom, Atoms, Facts};
pub use esto_table::in_order;
pub use indexed::IndexedFacts;
pub use make::{MAX_ATOMS, QueryFault, make_query};
pub use matches::{Found, first_match, matches_send, next_match};
pub use query::{Name, Names, Queries, Query, queries_are_sound};
pub use schema::{MAX_COLUMNS, MAX_RELATIONS, Relation, Schema, SchemaError};
