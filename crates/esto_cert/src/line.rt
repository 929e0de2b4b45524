//! Lines.
use esto_term::Values;

/// Numbers of lines, each counted from 1.
pub type Numbers = Values<u64>;

/// What a line of a certificate says. Lines, rules, atoms and places are counted from 1.
#[derive(Drop)]
pub enum Line {
    /// The expanded fact of an atom, by the atom's number, at a place of its view's body.
    Expanded(u64, u64),
    /// What the rule of that number makes at a place of its head, or 0 for the equality of its sides, from the facts and the
    /// equalities of these lines.
    Step(u64, u64, Numbers, Numbers),
    /// The facts of the lines match the query, with the equalities of these lines.
    Match(Numbers, Numbers),
}
