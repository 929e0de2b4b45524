//! A command's answer that is no refusal.
use esto_chase_laws::Clash;
use esto_term::Bytes;

/// A command's answer that is no refusal.
#[derive(Drop)]
pub enum Reply {
    /// The whole text of the command.
    Done(Bytes),
    /// The text of a query's answers, of which there are none: its chase ends with the clash.
    Unsatisfiable(Clash, Bytes),
}
