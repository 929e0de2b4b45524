//! Entries that are known, in groups by their claims: a group is found by its claim, a fact's by the relation, and an
//! equality's by a term that is a side. With them what is live and what is new among entries, entries that are added
//! only where they are not covered, and ways to match that are kept. Start from `Known`, `Groups` and `Kept`.
#![tactic(auto)]

mod covered;
mod covering;
mod finding;
mod fresh;
mod group;
mod groups;
mod hashes;
mod kept;
mod keys;
mod known;
mod live;
mod places;
mod touching;
mod turns;
mod way;

pub use covered::telling;
pub use covering::{add, add_all, is_covered};
pub use esto_chase_laws::same;
pub use fresh::fresh_of;
pub use group::Group;
pub use groups::Groups;
pub use hashes::term_hash;
pub use kept::{Kept, hash_at, places_met, telling_places, term_at};
pub use known::Known;
pub use live::{facts_of, free_link, has_later, link_at, links_of};
pub use touching::{minimal_unions, touch_all};
pub use way::{Way, facts_with, is_new, support};
