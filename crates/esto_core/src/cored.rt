//! The core of a plan.
ghost use Rattle.std.specs.Prelude.{◌≡◌, List, length, IfOk};
ghost use Rattle.esto_semantics.specs.Instances.{MapsTo};
ghost use Rattle.esto_semantics.specs.Plans.{IsUniversalPlan};
ghost use Rattle.esto_semantics.specs.Queries.{ConjunctiveQuery};
ghost use Rattle.esto_semantics.specs.Rules.{Rule};
ghost use Rattle.esto_semantics.specs.Unions.{ReceivesUnions};
ghost use Rattle.esto_semantics.specs.Cores.{IsCore, HasNoRetract};
ghost use Rattle.esto_views.specs.Plans.{plan_query, IsPlanOver};
ghost use Rattle.esto_views.specs.declared.fragments.FragmentDef.{FragmentDef};
ghost use Rattle.esto_core.specs.Cored.{IsCoredPlan, IsPart};
ghost use Rattle.esto_core.specs.CoredLaws.{CoredIsPart, CoredIsCore, CoredHasNoRetract};
ghost use Rattle.esto_core.specs.CoredLaws.{MapsToCored, CoredMapsBack, CoredIsOver};
ghost use Rattle.esto_core.specs.CoredLaws.{CoredIsUniversal, CoredReceivesUnions};
ghost use Rattle.esto_core.specs.CoredLaws.{CoredIsOne, CoredIsOneForAQuery};

use crate::left::left_of;
use esto_semantics::{
    cores_are_one, cores_have_no_retract, maps_between_plans_compose, plans_receive_unions,
    plans_that_map_to_each_other_are_universal_alike, renamed_plans_are_alike,
    what_is_left_is_a_core,
};
use esto_term::OutOfMemory;
use esto_views::{Plan, plan_facts, plans_are_sound, renamed_plan, renamed_plans_are_one};
use std::alloc::Global;

/// What is left of the plan's atoms, with the plan's head, under new names.
fn cored_plan(alloc: Global, plan: &Plan) -> Result<Plan, OutOfMemory>
    ensures { IfOk result (IsCoredPlan plan.now) }
{
    plans_are_sound();
    let facts = plan_facts(alloc, &plan.atoms)?;
    let left = left_of(alloc, &plan.head, &facts)?;
    let cored = renamed_plan(alloc, &left, &plan.head, &plan.names)?;
    Ok(cored)
}

/// The cored plan. The plan's atoms are gone through from the last to the first, and an atom is dropped where some map of
/// terms that keeps constants and each term of the head sends the atoms that are left into those without it. What is left
/// is renamed as a universal plan is: each term that is no constant becomes a variable, whose number is the place of its
/// first occurrence among those of the others, reading the atoms in order and then the head, and which keeps its name. The
/// plan maps to the cored plan and back, head to head, so the cored plan is universal for a query where the plan is; and no
/// map that keeps constants and its head sends it into a proper sublist of itself. Source: cores of relational structures
/// (Hell and Nešetřil 1992), and of universal solutions (Fagin, Kolaitis and Popa 2005).
pub fn core_of(alloc: Global, plan: &Plan) -> Result<Plan, OutOfMemory>
    // The plan is the cored plan.
    ensures cored { IfOk result (IsCoredPlan plan.now) }
    // It is some of the plan's atoms, in order, under new names.
    ensures part { IfOk result (IsPart plan.now) }
    ensures there { IfOk result (λ cored. MapsTo (plan_query plan.now) (plan_query cored)) }
    ensures back { IfOk result (λ cored. MapsTo (plan_query cored) (plan_query plan.now)) }
    ensures core { IfOk result (λ cored. IsCore (plan_query cored)) }
    ensures no_retract { IfOk result (λ cored. HasNoRetract (plan_query cored)) }
    ensures same_length { IfOk result (λ cored. length cored.head ≡ length plan.now.head) }
    ensures over { IfOk result (λ cored. (fragments : List FragmentDef)
        → IsPlanOver plan.now fragments → IsPlanOver cored fragments) }
    ensures universal { IfOk result (λ cored.
        (rules : List Rule) (views : List ConjunctiveQuery) (query : ConjunctiveQuery)
        → IsUniversalPlan rules views query (plan_query plan.now)
        → IsUniversalPlan rules views query (plan_query cored)) }
    ensures unions { IfOk result (λ cored.
        (rules : List Rule) (views : List ConjunctiveQuery) (query : ConjunctiveQuery)
        → ReceivesUnions rules views query (plan_query plan.now)
        → ReceivesUnions rules views query (plan_query cored)) }
{
    cored_plans_are_cores();
    cored_plans_are_universal();
    let cored = cored_plan(alloc, plan)?;
    Ok(cored)
}

/// A law: the cored plan is some of the plan's atoms under new names. It is a core: no map that keeps constants and its head
/// sends it into a proper sublist of itself.
pub fn cored_plans_are_cores()
    ensures part { CoredIsPart }
    ensures core { CoredIsCore }
    ensures no_retract { CoredHasNoRetract }
{
    what_is_left_is_a_core();
    renamed_plans_are_alike();
    renamed_plans_are_one();
    cores_have_no_retract();
}

/// A law: the plan maps to the cored plan and back, head to head. So the cored plan is over the fragments that the plan is
/// over, is universal for the queries that the plan is universal for, and receives unions for those that the plan does.
pub fn cored_plans_are_universal()
    ensures there { MapsToCored }
    ensures back { CoredMapsBack }
    ensures over { CoredIsOver }
    ensures universal { CoredIsUniversal }
    ensures unions { CoredReceivesUnions }
{
    what_is_left_is_a_core();
    renamed_plans_are_alike();
    renamed_plans_are_one();
    maps_between_plans_compose();
    plans_that_map_to_each_other_are_universal_alike();
    plans_receive_unions();
}

/// A law: a plan has one cored plan.
pub fn cored_plans_are_determined()
    ensures { CoredIsOne }
{
    what_is_left_is_a_core();
    renamed_plans_are_one();
}

/// A law: where the cored plan of a universal plan of a query is safe and has an atom, each universal plan of the query that
/// retracts into no proper sublist of itself is the cored plan under a renaming, but for the order of its atoms.
pub fn cored_plans_are_one_for_a_query()
    ensures { CoredIsOneForAQuery }
{
    plans_are_sound();
    cored_plans_are_cores();
    cored_plans_are_universal();
    cores_have_no_retract();
    cores_are_one();
}
