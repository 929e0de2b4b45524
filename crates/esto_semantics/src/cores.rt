//! Laws of cores of plans.
ghost use Rattle.esto_semantics.specs.CoreLaws.{MapsCompose, UniversalAlike, LeftIsChosen, MapsToLeft, LeftMapsBack, LeftIsUniversal, LeftIsCore, LeftIsOne};
ghost use Rattle.esto_semantics.specs.CoreLaws.{CoreHasNoRetract, CoreIsDistinct, RenamedIsReached, RenamedMapsBack, RenamedIsCore, CoreIsOne};

/// A law: where a plan maps to another, head to head, and that one to a third, the first maps to the third.
pub fn maps_between_plans_compose()
    ensures { MapsCompose }
{}

/// A law: two plans that map to each other, head to head, are universal for the same queries.
pub fn plans_that_map_to_each_other_are_universal_alike()
    ensures { UniversalAlike }
{}

/// A law: what is left of a plan has some of the plan's atoms, in order, and maps to the plan and back, head to head. So it
/// is universal where the plan is. It is a core, and one list is left.
pub fn what_is_left_is_a_core()
    ensures part { LeftIsChosen }
    ensures there { MapsToLeft }
    ensures back { LeftMapsBack }
    ensures universal { LeftIsUniversal }
    ensures core { LeftIsCore }
    ensures one { LeftIsOne }
{}

/// A law: a plan is a core exactly where it retracts into no proper sublist of itself; and the atoms of a core are
/// distinct.
pub fn cores_have_no_retract()
    ensures same { CoreHasNoRetract }
    ensures distinct { CoreIsDistinct }
{}

/// A law: where a plan is renamed, and its atoms stand in whatever order, it maps to what it was and back, and it is a core
/// where it was one.
pub fn renamed_plans_are_alike()
    ensures there { RenamedIsReached }
    ensures back { RenamedMapsBack }
    ensures core { RenamedIsCore }
{}

/// A law: where a universal plan of a query is a core, is safe and has an atom, each universal plan of the query that is a
/// core is the plan under a renaming, but for the order of its atoms.
pub fn cores_are_one()
    ensures { CoreIsOne }
{}
