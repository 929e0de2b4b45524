//! Writing certificates: the derivation of a match of a query in the world of a set of a plan's atoms, from the entries
//! of the conditional chase. Start from `write_certificate`.
#![tactic(auto)]

mod certificate;
mod chains;
mod lines;
mod marking;
mod placing;
mod printing;
mod searching;
mod world;
mod writing;

pub use certificate::write_certificate;
pub use printing::written_lines_are_read_back;
