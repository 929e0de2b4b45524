//! Laws of what a chase ends with.
ghost use Rattle.esto_chase.specs.ChasedLaws.{ClashedIsUnsatisfiable};

use esto_chase_laws::{clashes_receive_nothing, finished_runs_decide, queries_have_starts};

/// A law: a query whose run clashes is not satisfiable.
pub fn clashed_queries_are_unsatisfiable()
    ensures { ClashedIsUnsatisfiable }
{
    queries_have_starts();
    finished_runs_decide();
    clashes_receive_nothing();
}
