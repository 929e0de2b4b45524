//! The run of a rewriting: from the files of fragments, opened one after the other, to the text of a query's answers.
//! Start from `fragments_of_set`, `open_fragments` and `run_text`; for several sets together, from
//! `fragments_of_picks`, `open_fragments` and `text_of_picks`.
#![tactic(auto)]

mod answers;
mod fragment_laws;
mod fragments;
mod held;
mod laws;
mod opened;
mod picks;
mod run;
mod stored;
mod texts;
mod unions;
mod used;

pub use answers::answers_text;
pub use esto_rows::rising_rows_are_one;
pub use fragment_laws::{fragment_files_are_one, readable_fragments_are_opened};
pub use fragments::open_fragments;
pub use held::FragmentRows;
pub use laws::{
    answers_are_over_files, plans_are_runnable, rewritings_answer_queries,
    unions_answer_over_files, used_by_all_are_one, used_fragments_are_one,
};
pub use opened::{no_rows, open_fragment};
pub use picks::Pick;
pub use run::{rows_of_set, run_text};
pub use texts::union_rows_text;
pub use unions::text_of_picks;
pub use used::{fragments_of_picks, fragments_of_set};
