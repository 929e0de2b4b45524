//! The printed plan of a query, and its list.
ghost use Rattle.std.specs.Prelude.{IfOk};
ghost use Rattle.esto_chase_laws.specs.Derived.{AreNew};
ghost use Rattle.esto_chase_laws.specs.WorldSteps.{AreJoined};
ghost use Rattle.esto_condchase.specs.Evidence.{AreEntriesOf};
ghost use Rattle.esto_status.specs.Answers.{Answers};
ghost use Rattle.esto_rewriting.specs.Listing.{IsListOf, IsPlanned};
ghost use Rattle.esto_rewriting.specs.Planning.{plans_query};

use crate::planned_laws::{planned_plans_are_universal, planned_plans_have_their_form};
use crate::printed::{printed_plan, printed_plans_are_over_fragments};
use either::{Left, Right};
use esto_backchase::minimal_sets;
use esto_list::Listing;
use esto_mapping::Catalogue;
use esto_prov::Entries;
use esto_query::Query;
use esto_status::Status;
use esto_term::OutOfMemory;
use esto_views::Plan;
use std::alloc::Global;

/// The printed plan of the query, or the status of the clash at which its run ends.
pub fn plan_of(alloc: Global, query: &Query, catalogue: &Catalogue) -> Result<Plan, Status>
    ensures course { Answers (plans_query catalogue.now query.now) ⊥ result }
    ensures planned { IfOk result (IsPlanned catalogue.now query.now) }
{
    match printed_plan(alloc, query, catalogue)? {
        Left(plan) => Ok(plan),
        Right(clash) => Err(Status::Unsatisfiable(clash)),
    }
}

/// The list of a plan, and the entries of the conditional chase that it comes from.
#[derive(Drop)]
pub struct PlanList {
    pub listing: Listing,
    pub entries: Entries,
}

/// The list of the plan, with the entries that it comes from. Their links are joined, and none is covered by those before
/// it.
pub fn list_of(
    alloc: Global,
    plan: &Plan,
    query: &Query,
    catalogue: &Catalogue,
) -> Result<PlanList, OutOfMemory>
    requires { IsPlanned catalogue.now query.now plan.now }
    ensures list { IfOk result (λ it. IsListOf catalogue.now query.now plan.now it.listing) }
    ensures entries { IfOk result (λ it. AreEntriesOf catalogue.now.fragments catalogue.now.rules
        catalogue.now.ranks plan.now it.entries) }
    ensures new { IfOk result (λ it. AreNew it.entries) }
    ensures joined { IfOk result (λ it. AreJoined it.entries it.entries) }
{
    planned_plans_are_universal();
    planned_plans_have_their_form();
    printed_plans_are_over_fragments();
    let chased = minimal_sets(alloc, plan, query, catalogue)?;
    let listing = Listing::of(alloc, &chased.sets, plan, &catalogue.fragments)?;
    Ok(PlanList {
        listing,
        entries: chased.entries,
    })
}

/// The list of the plan.
pub fn listing_of(
    alloc: Global,
    plan: &Plan,
    query: &Query,
    catalogue: &Catalogue,
) -> Result<Listing, OutOfMemory>
    requires { IsPlanned catalogue.now query.now plan.now }
    ensures { IfOk result (IsListOf catalogue.now query.now plan.now) }
{
    let made = list_of(alloc, plan, query, catalogue)?;
    Ok(made.listing)
}
