//! The members of a union.
ghost use Rattle.std.specs.Prelude.{◌≡◌, ◌<◌, length, IfOk, Contains, MatchOption};
ghost use Rattle.esto_query.specs.Unions.{FormUnion};
ghost use Rattle.std.specs.List.{list_any};
ghost use Rattle.esto_rewriting.specs.Members.{AreMembersOf, ClashAt, HavePlan, IsListIn, IsMemberOf, IsPlannedForOne, has_plan};

use crate::planned_laws::{planned_plans_are_universal, planned_plans_have_their_form};
use crate::printed::{printed_plan, printed_plans_are_over_fragments};
use either::{Left, Right};
use esto_chase_laws::Clash;
use esto_list::Listing;
use esto_mapping::Catalogue;
use esto_query::Query;
use esto_term::{List, OutOfMemory, Replicate};
use esto_union::union_sets;
use esto_views::Plan;
use std::alloc::Global;

/// A query of a union with its end.
#[derive(Drop)]
pub enum Member {
    /// The query is satisfiable: its printed plan, with that plan's list in the union.
    Planned(Plan, Listing),
    /// It is not: the clash at which its run ends.
    Clashed(Clash),
}

/// The members of a union, in the order of its queries.
pub type Members = List<Member>;

impl Member {
    /// Whether it has a plan.
    pub fn has_plan(&self) -> bool
        ensures { result ≡ has_plan self.now }
    {
        match self {
            Member::Planned(_, _) => true,
            Member::Clashed(_) => false,
        }
    }
}

/// A copy of a clash.
pub fn copy_clash(alloc: Global, clash: &Clash) -> Result<Clash, OutOfMemory>
    ensures { IfOk result (λ it. it ≡ clash.now) }
{
    match clash {
        Clash::Equal(one, other) => {
            let one = one.copy(alloc)?;
            let other = other.copy(alloc)?;
            Ok(Clash::Equal(one, other))
        }
        Clash::Denied(rule) => Ok(Clash::Denied(*rule)),
    }
}

// The list of the plan in the union.
fn listing_in(
    alloc: Global,
    plan: &Plan,
    queries: &[Query],
    catalogue: &Catalogue,
) -> Result<Listing, OutOfMemory>
    requires union { FormUnion queries.now }
    requires planned { IsPlannedForOne catalogue.now queries.now plan.now }
    ensures { IfOk result (IsListIn catalogue.now queries.now plan.now) }
{
    planned_plans_are_universal();
    planned_plans_have_their_form();
    printed_plans_are_over_fragments();
    let sets = union_sets(alloc, plan, queries, catalogue)?;
    Listing::of(alloc, &sets, plan, &catalogue.fragments)
}

// The query with its end in the union.
fn member_of(
    alloc: Global,
    query: &Query,
    queries: &[Query],
    catalogue: &Catalogue,
) -> Result<Member, OutOfMemory>
    requires union { FormUnion queries.now }
    requires query { Contains queries.now query.now }
    ensures { IfOk result (IsMemberOf catalogue.now queries.now query.now) }
{
    match printed_plan(alloc, query, catalogue)? {
        Left(plan) => {
            let listing = listing_in(alloc, &plan, queries, catalogue)?;
            Ok(Member::Planned(plan, listing))
        }
        Right(clash) => Ok(Member::Clashed(clash)),
    }
}

/// The members of the union of the queries: for each query its printed plan with that plan's
/// list in the union, or the clash at which its run ends.
pub fn members_of(
    alloc: Global,
    queries: &[Query],
    catalogue: &Catalogue,
) -> Result<Members, OutOfMemory>
    requires { FormUnion queries.now }
    ensures { IfOk result (AreMembersOf catalogue.now queries.now) }
{
    let mut members = List::new(alloc);
    'queries: for query in queries {
        let member = member_of(alloc, query, queries, catalogue)?;
        members.push(member)?;
    }
    Ok(members)
}

// Whether some member has a plan.
fn have_plan(members: &[Member]) -> bool
    ensures { result ≡ list_any has_plan members.now }
{
    members.iter().any(|member| member.has_plan())
}

/// The clash of the first member, which comes exactly where no member has a plan.
pub fn clash_of(alloc: Global, members: &Members) -> Result<Option<Clash>, OutOfMemory>
    requires { 0 < length members.now }
    ensures { IfOk result (λ it. MatchOption it (HavePlan members.now) (ClashAt members.now)) }
{
    if have_plan(members.items()) {
        return Ok(None);
    }
    match members.item(0) {
        Member::Clashed(clash) => {
            let copy = copy_clash(alloc, clash)?;
            Ok(Some(copy))
        }
        Member::Planned(_, _) => unreachable!(),
    }
}
