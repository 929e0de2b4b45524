//! The command `list`.
ghost use Rattle.std.specs.Prelude.{IfOk};
ghost use Rattle.esto_status.specs.Answers.{Answers};
ghost use Rattle.esto_query.specs.Unions.{FormUnion};
ghost use Rattle.esto_top.specs.List.{prints_list, lists_query, lists_queries, prints_queries};
ghost use Rattle.esto_rewriting.specs.Listing.{IsListing, IsPlanned};

use esto_mapping::Catalogue;
use esto_query::Query;
use esto_rewriting::{list_union, listing_of, plan_of};
use esto_status::{Reply, Status};
use esto_term::{Bytes, OutOfMemory};
use esto_views::Plan;
use std::alloc::Global;

// The text of the plan and of its list.
fn list_text(
    alloc: Global,
    plan: &Plan,
    query: &Query,
    catalogue: &Catalogue,
) -> Result<Bytes, OutOfMemory>
    requires { IsPlanned catalogue.now query.now plan.now }
    ensures { IfOk result (IsListing catalogue.now query.now plan.now) }
{
    let listing = listing_of(alloc, plan, query, catalogue)?;
    listing.text(alloc, plan, &catalogue.fragments)
}

// The text that the command prints of a plan.
fn text_of(
    alloc: Global,
    plan: &Plan,
    query: &Query,
    catalogue: &Catalogue,
) -> Result<Bytes, Status>
    requires { IsPlanned catalogue.now query.now plan.now }
    ensures { Answers (prints_list catalogue.now query.now plan.now) ⊥ result }
{
    let text = list_text(alloc, plan, query, catalogue)?;
    Ok(text)
}

// What the command prints, or the status of the clash at which the query's run ends.
#[tactic(auto, using(crate::proofs::Steps::steps))]
fn listed(alloc: Global, query: &Query, catalogue: &Catalogue) -> Result<Bytes, Status>
    ensures { Answers (lists_query catalogue.now query.now) ⊥ result }
{
    let plan = plan_of(alloc, query, catalogue)?;
    text_of(alloc, &plan, query, catalogue)
}

// What the command prints of one query, or of a union of more, or the status with which it refuses them.
fn listed_queries(alloc: Global, queries: &[Query], catalogue: &Catalogue) -> Result<Bytes, Status>
    requires { FormUnion queries.now }
    ensures { Answers (lists_queries catalogue.now queries.now) ⊥ result }
{
    match queries {
        [query] => listed(alloc, query, catalogue),
        _ => list_union(alloc, queries, catalogue),
    }
}

/// Prints the plan and the list of one query, or the plans and lists of a union of more.
#[tactic(auto, using(crate::proofs::Steps::steps))]
pub fn list(alloc: Global, queries: &[Query], catalogue: &Catalogue) -> Result<Reply, Status>
    requires { FormUnion queries.now }
    ensures { Answers (prints_queries catalogue.now queries.now) ⊥ result }
{
    let text = listed_queries(alloc, queries, catalogue)?;
    Ok(Reply::Done(text))
}
