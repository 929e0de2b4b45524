//! Steps, what they mean, which are those of a query over fragments, and how one of their gets is joined, over rows
//! of codes. Start from `Steps`, `asked_rows` and `joined_firsts`.
#![tactic(auto)]

mod asked;
mod codes;
mod cost;
mod gained;
mod gather;
mod index;
mod join;
mod links;
mod pairs;
mod probe;
mod project;
mod reads;
mod sample;
mod seen;
mod steps;
mod terms;
mod whole;

pub use asked::asked_rows;
pub use cost::places_given;
pub use join::Join;
pub use links::{columns_of, sources_of};
pub use project::projected;
pub use reads::joined_firsts;
pub use sample::{place_in, read_key, scaled};
pub use steps::{Get, Gets, Link, Links, Source, Sources, Steps};
pub use terms::place_of;
pub use whole::Whole;
