//! How many rows there are about once a get is joined, by a look at some of the rows so far and of the fragment's, and
//! keys of rows so far, by which a join knows where a row may stand already. No contract rests on either, so nothing here
//! ensures anything: a poor guess costs time, and where a key is none, rows come twice. Start from `guessed_count`, and
//! from `Keyed`, `key_before`, `is_key_kept` and `key_after`.
#![tactic(auto)]

mod found;
mod guess;
mod kept;
mod key;
mod keys;
mod marks;

pub use guess::guessed_count;
pub use kept::{Keyed, is_key_kept};
pub use key::{key_after, key_before};
