//! Datasets' files as facts, and what is asked of them: a fragment's file filled with its view's rows, a query's answers,
//! and whether the facts meet the rules and the fragments hold their views' rows. Start from `dataset_facts`, `fill`,
//! `answer` and `audit`.
#![tactic(auto)]

mod answering;
mod apart;
mod auditing;
mod datasets;
mod filled;
mod lawful;
mod laws;
mod loaded;
mod nodes;
mod part;
mod record;
mod rows;
mod trial;
mod tried;
mod views;
mod wanted;

pub use answering::answer;
pub use apart::apart_rows;
pub use auditing::{TextRowsList, audit};
pub use datasets::{DatasetBytes, KEY_CELLS, LoadError, LoadList, dataset_facts, load_dataset};
pub use esto_ports::Difference;
pub use filled::{FillError, fill, marked, text_of};
pub use laws::{
    answers_rest_on_their_datasets, answers_rest_on_wanted_facts, audits_are_over_files,
    documents_are_lawful, facts_stand_as_databases, loaded_facts_are_flat, outcomes_are_one,
};
pub use loaded::{Loaded, nothing_loaded};
pub use part::difference_in;
pub use rows::{AnswerError, node_at};
pub use trial::{Trial, trial_of};
pub use tried::is_law;
pub use views::audit_views;
pub use wanted::{Wanted, kept_for, wanted_by_body, wanted_by_queries};
