//! Containment of queries under a catalogue's rules, and the minimal equivalent parts of a chased query. Start from
//! `contained` and `minimise`.
#![tactic(auto)]

mod containing;
mod ends;
mod laws;
mod minimising;

pub use containing::{Contain, contained};
pub use laws::{minimal_parts_are_determined, what_is_told_is_determined};
pub use minimising::{Minimal, minimise};
