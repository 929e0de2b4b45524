//! Laws of sets of a plan's atoms.
ghost use Rattle.esto_views.specs.Contained.{MatchedSetsAreContained};

use esto_chase_laws::{matches_decide_containment, matches_rest_on_atoms};
use esto_semantics::{
    an_expansion_means_the_same, an_expansion_of_a_plan_expands_its_candidates,
    chosen_atoms_are_named,
};

/// A law: let entries be derived from a plan's expansion. A set of the plan's atoms whose sound world has a match of a query,
/// with its head one with the plan's, has a candidate, which is safe and contained in the query under the rules.
pub fn matched_sets_are_contained()
    ensures { MatchedSetsAreContained }
{
    matches_decide_containment();
    matches_rest_on_atoms();
    chosen_atoms_are_named();
    an_expansion_means_the_same();
    an_expansion_of_a_plan_expands_its_candidates();
}
