//! What the commands on data do over a catalogue that is read: `fill_named` gives the text of a fragment's file,
//! `answer_queries` answers a union of queries, and `audit_catalogue` compares, each over the facts of the datasets'
//! files, which are loaded as rows of codes.
#![tactic(auto)]

mod answering;
mod auditing;
mod coded_answering;
mod coded_audit;
mod coded_data;
mod coded_documents;
mod coded_filled;
mod coded_fragment;
mod coded_load;
mod coded_nodes;
mod coded_rule;
mod coded_store;
mod coded_views;
mod comparing;
mod datasets;
mod filling;
mod kept;
mod laws;
mod opened;
mod unions;

pub use answering::answer_queries;
pub use auditing::audit_catalogue;
pub use filling::fill_named;
pub use laws::{agreeing_answers_are_one, data_laws_hold};
