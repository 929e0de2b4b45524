//! Orders of a plan's atoms.

use esto_term::Places;

/// Numbers of a plan's atoms, counted from 0, in the order in which they are executed.
pub type Order = Places;
