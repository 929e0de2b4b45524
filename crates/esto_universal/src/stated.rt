//! Laws of stated plans.
ghost use Rattle.esto_universal.specs.StatedLaws.{StatedPlanIsOne, StatedAtomsAreDistinct};
ghost use Rattle.esto_universal.specs.StatedLaws.{StatedPlanIsOfRows, StatedPlanReceivesUnions};
ghost use Rattle.esto_universal.specs.StatedLaws.{StatedPlanIsUniversal};

use esto_semantics::plans_receive_unions;

/// A law: there is one stated plan.
pub fn stated_plans_are_one()
    ensures { StatedPlanIsOne }
{}

/// A law: the atoms of a stated plan are distinct.
pub fn stated_plans_have_distinct_atoms()
    ensures { StatedAtomsAreDistinct }
{}

/// A law: a plan that is stated for an instance is a plan of its rows. Where the instance is universal for a query
/// under the rules, and meets the rules itself, the plan receives unions for the query, and so is universal for it.
pub fn stated_plans_are_universal()
    ensures rows { StatedPlanIsOfRows }
    ensures unions { StatedPlanReceivesUnions }
    ensures universal { StatedPlanIsUniversal }
{
    plans_receive_unions();
}
