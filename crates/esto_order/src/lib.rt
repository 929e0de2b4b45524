//! In which order gets are joined: what links lead to, in which order the fewest rows are made, and whether gets are
//! asked beforehand. Nothing rests on it but speed. Start from `JoinGraph`.
#![tactic(auto)]

mod graph;
mod order;
mod parts;
mod reach;
mod shared;

pub use graph::{Cell, Edge, JoinGraph, Node};
pub use order::{FanOut, Guesses, cheapest_order};
pub use parts::{asks_beforehand, led_back};
pub use reach::{candidates, candidates_towards};
