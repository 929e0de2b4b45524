//! Laws of summaries.
ghost use Rattle.esto_bench.specs.Summary.{SummariesAreOne};

use esto_semantics::{listed_sets_are_minimal, picks_exist, weights_exist};
use esto_universal::runs_have_one_outcome;

/// A law: a query over a catalogue and over a database has at most one summary.
pub fn summaries_are_one()
    ensures { SummariesAreOne }
{
    runs_have_one_outcome();
    listed_sets_are_minimal();
    weights_exist();
    picks_exist();
}
