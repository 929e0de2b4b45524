//! The command `explain`.
ghost use Rattle.std.specs.Prelude.{IfOk, None};
ghost use Rattle.esto_condchase.specs.Evidence.{AreEntriesOf};
ghost use Rattle.esto_status.specs.Answers.{Answers};
ghost use Rattle.esto_rewriting.specs.Choice.{IsItemOf};
ghost use Rattle.esto_rewriting.specs.Listing.{IsPlanned};
ghost use Rattle.esto_rewriting.specs.Explain.{explains_plan, explains_query};
ghost use Rattle.esto_rewriting.specs.Verify.{HasVerdict};

use crate::choice::choose;
use crate::planned_laws::{
    chosen_items_are_listed, planned_plans_are_universal, planned_plans_have_their_form,
};
use crate::planning::{list_of, plan_of};
use esto_derive::write_certificate;
use esto_list::Listed;
use esto_mapping::Catalogue;
use esto_prov::Entries;
use esto_query::Query;
use esto_status::Status;
use esto_term::{Bytes, OutOfMemory};
use esto_views::Plan;
use std::alloc::Global;

// A certificate for the item's set, from the entries that the list comes from.
fn certificate_of(
    alloc: Global,
    query: &Query,
    catalogue: &Catalogue,
    plan: &Plan,
    entries: &Entries,
    item: &Listed,
) -> Result<Bytes, OutOfMemory>
    requires planned { IsPlanned catalogue.now query.now plan.now }
    requires entries { AreEntriesOf catalogue.now.fragments catalogue.now.rules catalogue.now.ranks
        plan.now entries.now }
    requires item { IsItemOf catalogue.now query.now plan.now item.now }
    ensures { IfOk result
        (λ bytes. HasVerdict catalogue.now query.now plan.now item.now.set bytes None) }
{
    planned_plans_are_universal();
    planned_plans_have_their_form();
    write_certificate(alloc, &item.set, plan, query, entries, catalogue)
}

// Makes the list of the plan, and writes a certificate for the set of the number, counted from 1.
fn explain_plan(
    alloc: Global,
    query: &Query,
    catalogue: &Catalogue,
    plan: &Plan,
    number: u64,
) -> Result<Bytes, Status>
    requires { IsPlanned catalogue.now query.now plan.now }
    ensures { Answers (explains_plan catalogue.now query.now number plan.now) ⊥ result }
{
    chosen_items_are_listed();
    let made = list_of(alloc, plan, query, catalogue)?;
    let place = choose(&made.listing, Some(number))?;
    let item = made.listing.item(place);
    let text = certificate_of(alloc, query, catalogue, plan, &made.entries, item)?;
    Ok(text)
}

/// Makes the query's printed plan, and writes a certificate for the set of the number in its list, counted from 1.
/// Unsatisfiable comes where the query has no plan, and else what `choose` refuses.
pub fn explain_query(
    alloc: Global,
    query: &Query,
    catalogue: &Catalogue,
    number: u64,
) -> Result<Bytes, Status>
    ensures { Answers (explains_query number catalogue.now query.now) ⊥ result }
{
    let plan = plan_of(alloc, query, catalogue)?;
    explain_plan(alloc, query, catalogue, &plan, number)
}
