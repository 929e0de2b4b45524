//! Certificates: lines that derive, from the expanded facts of some of a plan's atoms, a match of a
//! query whose head is the plan's. A checker decides exactly which line is the first that does not
//! follow. Start from `check_certificate`, `Line` and `CertError`.
#![tactic(auto)]

mod check;
mod judging;
mod laws;
mod line;
mod linking;
mod matching;
mod naming;
mod reading;

pub use check::{CertError, check_certificate};
pub use judging::{body_of, made_at};
pub use laws::{
    accepted_certificates_derive, accepted_certificates_show, contained_sets_have_certificates,
    verdicts_are_moved, verdicts_are_one,
};
pub use line::{Line, Numbers};
pub use reading::parts_by_comma;
