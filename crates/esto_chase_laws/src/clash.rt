//! What a run clashes at.
use esto_term::Text;

/// What a run clashes at.
#[derive(Drop)]
pub enum Clash {
    /// Two different constants that an equality rule wants to be one, in rising order of bytes.
    Equal(Text, Text),
    /// A denial whose body has a match, by its number among the rules, counted from 0.
    Denied(usize),
}
