//! Laws of plans and lists.
ghost use Rattle.esto_rewriting.specs.Alike.{ChoiceIsOne, ClashIsMoved, EndIsOne, ItemsAreOne};
ghost use Rattle.esto_rewriting.specs.Alike.{ListIsMoved, ListIsOne, ListTextIsMoved, ListTextIsOne};
ghost use Rattle.esto_rewriting.specs.Alike.{ListingIsMoved, ListingIsOne, PlanIsMoved, PlanIsOne};
ghost use Rattle.esto_rewriting.specs.PlannedLaws.{ClashExcludesAnswers, CoreHasNoRetract, CoreIsOnly};
ghost use Rattle.esto_rewriting.specs.PlannedLaws.{ItemIsListed, PlaceIsWithin, PlanHasForm, PlanIsOver};
ghost use Rattle.esto_rewriting.specs.PlannedLaws.{PlanIsUniversal, PlanLaws, PlanReceivesUnions};
ghost use Rattle.esto_rewriting.specs.PlannedLaws.{PlanTellsAnswers};

use crate::printed::{
    printed_cores_are_one_for_a_query, printed_plans_are_one, printed_plans_are_over_fragments,
    printed_plans_are_universal, printed_plans_tell_satisfiable_queries,
};
use esto_constraint::rules_are_sound;
use esto_mapping::catalogues_are_sound;
use esto_query::queries_are_sound;
use esto_semantics::{
    listed_sets_are_minimal, picks_exist, queries_are_their_own_instances, stated_orders_exist,
    weights_exist,
};
use esto_universal::{plans_tell_satisfiable_queries, runs_have_one_outcome};
use esto_views::plans_are_sound;

/// A law: a printed plan is universal for its query and receives unions for it, and a cored plan is the only core; a query
/// that has a plan is satisfiable, and one whose run ends with a clash is not.
pub fn planned_plans_are_universal()
    ensures universal { PlanIsUniversal }
    ensures unions { PlanReceivesUnions }
    ensures core { CoreHasNoRetract }
    ensures only_core { CoreIsOnly }
    ensures satisfiable { PlanTellsAnswers }
    ensures unsatisfiable { ClashExcludesAnswers }
{
    queries_are_sound();
    rules_are_sound();
    plans_tell_satisfiable_queries();
    printed_plans_tell_satisfiable_queries();
    printed_plans_are_universal();
    printed_cores_are_one_for_a_query();
}

/// A law: a printed plan is over the catalogue's fragments, and its head is as long as the query's and made of its atoms.
pub fn planned_plans_have_their_form()
    ensures form { PlanHasForm }
    ensures over { PlanIsOver }
{
    planned_plans_are_universal();
    catalogues_are_sound();
    printed_plans_are_over_fragments();
    plans_are_sound();
    queries_are_their_own_instances();
}

/// A law: the place that is chosen is within the list, and an item of a plan's list has a listed set of the plan.
pub fn chosen_items_are_listed()
    ensures item { ItemIsListed }
    ensures place { PlaceIsWithin }
{}

/// A law: a printed plan, a clash, a list and its text over one of two catalogues that say the same are ones over the other.
pub fn plans_and_lists_are_moved()
    ensures plan { PlanIsMoved }
    ensures clash { ClashIsMoved }
    ensures list { ListIsMoved }
    ensures text { ListingIsMoved }
{}

// The laws by which plans, clashes and lists are one, together.
fn plan_laws_hold()
    ensures { PlanLaws }
{
    rules_are_sound();
    runs_have_one_outcome();
    printed_plans_are_one();
    listed_sets_are_minimal();
    stated_orders_exist();
    weights_exist();
    picks_exist();
}

/// A law: over catalogues that say the same, a query has one printed plan or one clash, a plan one list, the list one text,
/// and one item of it is chosen, or none in one way.
pub fn plans_and_lists_are_one()
    ensures end { EndIsOne }
    ensures plan { PlanIsOne }
    ensures list { ListIsOne }
    ensures text { ListingIsOne }
    ensures choice { ChoiceIsOne }
{
    plan_laws_hold();
    picks_exist();
}

/// A law: items of one plan with the same sets are the same, and over fragments of the same names they have one text, which
/// is theirs over either.
pub fn items_and_texts_are_one()
    ensures items { ItemsAreOne }
    ensures text { ListTextIsOne }
    ensures moved { ListTextIsMoved }
{
    stated_orders_exist();
    weights_exist();
    picks_exist();
}
