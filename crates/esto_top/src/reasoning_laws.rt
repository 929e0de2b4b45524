//! Laws of the courses of the commands on queries.
ghost use Rattle.esto_top.specs.ReasoningLaws.{ContainsIsExact, ContainsIsOne, MinimiseIsExact, MinimiseIsOne};

use esto_chase_laws::{finished_runs_decide, queries_have_starts};
use esto_constraint::rules_are_sound;
use esto_contain::what_is_told_is_determined;
use esto_opening::openings_are_one;
use esto_query::queries_are_sound;
use esto_reasoning::reasoned_texts_are_one;
use esto_universal::{plans_tell_satisfiable_queries, runs_have_one_outcome};

/// A law: over the same files `contains` and `minimise` have one reply or one refusal each, where no fetch is at a fault.
pub fn reasoning_outcomes_are_one()
    ensures contains { ContainsIsOne }
    ensures minimise { MinimiseIsOne }
{
    openings_are_one();
    reasoned_texts_are_one();
}

/// A law: where the files say a catalogue and the queries over it, `contains` refuses exactly two heads of different
/// lengths, with these lengths, and else says yes exactly where the left query is contained in the right one, and no with a
/// counterexample where it is not. `minimise` refuses exactly a query that is not satisfiable, with the clash of its run,
/// and else prints the last facts of its run and exactly their minimal sets that are equivalent to the query.
pub fn reasoning_outcomes_are_exact()
    ensures contains { ContainsIsExact }
    ensures minimise { MinimiseIsExact }
{
    openings_are_one();
    rules_are_sound();
    queries_are_sound();
    what_is_told_is_determined();
    runs_have_one_outcome();
    plans_tell_satisfiable_queries();
    finished_runs_decide();
    queries_have_starts();
}
