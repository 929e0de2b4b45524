//! What the commands say that reason about queries alone, without data: `compared` tells whether one query is contained in
//! another, and `minimised` lists the minimal equivalent parts of a query's chase. Each is over a catalogue and queries that are
//! read, and returns a text.
#![tactic(auto)]

mod containing;
mod laws;
mod minimising;
mod printing;

pub use containing::compared;
pub use laws::reasoned_texts_are_one;
pub use minimising::minimised;
