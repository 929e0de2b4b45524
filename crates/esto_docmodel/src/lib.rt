//! Documents and patterns of them: the facts of documents, the atoms of a pattern, and a pattern's
//! own meaning. Contracts see a tree by its shape and a pattern by its entries, as the definitions
//! in `specs/` have them. Start from `encode_document`, `encode_pattern` and `match_pattern`.
#![tactic(auto)]

mod documents;
mod encode;
mod fact_sink;
mod field;
mod fields;
mod file;
mod kept;
mod laws;
mod layout;
mod matches;
mod nodes;
mod pattern;
mod tree;
mod words;

pub use documents::{encode_document, encode_documents};
pub use encode::{Encoded, EncodedAtoms, LAST_BASE, after, encode_pattern};
pub use fact_sink::FactSink;
pub use field::FieldOf;
pub use file::{Layout, Shape, Store, Stores};
pub use kept::{Kept, KeptTexts};
pub use laws::{documents_meet_the_rules, encodings_mean_the_same, matches_rest_on_their_terms};
pub use layout::{MAX_LAYOUT_DEPTH, is_layout, path_of};
pub use matches::{AskedPattern, Valuations, ask_pattern, match_asked, match_pattern};
pub use nodes::{put_belows, put_field, put_item, put_root, put_value};
pub use pattern::{Entries, Entry, Path, Pattern, Step};
pub use tree::{Field, Fields, Tree, Trees};
pub use words::{DataModel, Vocabulary, Word};
