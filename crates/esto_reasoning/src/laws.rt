//! Laws of the commands on queries.
ghost use Rattle.esto_reasoning.specs.Laws.{ComparedAlike, MinimisedAlike};

use esto_chase_laws::{finished_runs_decide, queries_have_starts};
use esto_constraint::rules_are_sound;
use esto_contain::{minimal_parts_are_determined, what_is_told_is_determined};
use esto_query::queries_are_sound;
use esto_semantics::equivalent_parts_have_minimal_sets;
use esto_universal::{plans_tell_satisfiable_queries, runs_have_one_outcome};
use esto_views::renamed_plans_are_one;

/// A law: over catalogues that say the same, what is told of the same two queries has one text, or one refusal; and so has
/// what the same query is minimised to.
pub fn reasoned_texts_are_one()
    ensures compared { ComparedAlike }
    ensures minimised { MinimisedAlike }
{
    rules_are_sound();
    queries_are_sound();
    what_is_told_is_determined();
    minimal_parts_are_determined();
    renamed_plans_are_one();
    runs_have_one_outcome();
    plans_tell_satisfiable_queries();
    finished_runs_decide();
    queries_have_starts();
    equivalent_parts_have_minimal_sets();
}
