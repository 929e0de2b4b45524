//! Laws of what is told of containment, and of the minimal equivalent parts of a chased query.
ghost use Rattle.esto_contain.specs.ContainedLaws.{ToldIsOne, NoIsShown};
ghost use Rattle.esto_contain.specs.MinimisedLaws.{MinimisedIsOne, RenamedPartsAreAlike};

use esto_chase_laws::{runs_have_one_end, states_are_universal};
use esto_semantics::{
    chosen_atoms_are_named, universal_instances_decide_containment,
    universal_instances_show_what_is_not_contained,
};
use esto_views::renamed_plans_are_one;

/// A law: one thing is told of two queries, a yes or one no; and the facts and the row of a no show that the one query is
/// not contained in the other.
pub fn what_is_told_is_determined()
    ensures one { ToldIsOne }
    ensures shown { NoIsShown }
{
    runs_have_one_end();
    states_are_universal();
    universal_instances_decide_containment();
    universal_instances_show_what_is_not_contained();
}

/// A law: a query has one list of facts with a head and names, and one family of sets, to which it is minimised. The sets
/// are those of the facts of the run's end, whatever names their terms have.
pub fn minimal_parts_are_determined()
    ensures one { MinimisedIsOne }
    ensures alike { RenamedPartsAreAlike }
{
    runs_have_one_end();
    renamed_plans_are_one();
    chosen_atoms_are_named();
}
