//! The list of a query by both of its bodies, and the entries of the conditional chase that it comes from.
ghost use Rattle.std.specs.Prelude.{◌≡◌, ◌<◌, length, IfSome};
ghost use Rattle.esto_constraint.specs.Constraints.{rules_of};
ghost use Rattle.esto_query.specs.Making.{query_of};
ghost use Rattle.esto_semantics.specs.Containment.{IsSatisfiable};
ghost use Rattle.esto_semantics.specs.Plans.{IsUniversalPlan};
ghost use Rattle.esto_views.specs.Fragments.{views_of};
ghost use Rattle.esto_views.specs.Plans.{plan_query, IsPlanOver};

use crate::printing::{
    put_members, put_number, put_numbers, put_sets, put_sorted, put_term, put_terms,
};
use either::{Left, Right};
use esto_backchase::{minimal_sets, minimal_sets_plain};
use esto_bits::{Products, RowBits};
use esto_mapping::Catalogue;
use esto_prov::{Claim, Entries, Reason, Why};
use esto_query::Query;
use esto_rewriting::printed_plan;
use esto_script::{Refused, put, put_digits};
use esto_views::Plan;
use std::alloc::Global;

// Whether the sets are the same, in the same order.
fn are_same(sets: &[RowBits], others: &[RowBits]) -> bool {
    if sets.len() != others.len() {
        return false;
    }
    'sets: for (place, set) in sets.iter().enumerate() {
        if set.compare(&others[place]).is_ne() {
            return false;
        }
    }
    true
}

// The sets, and whether the others are the same.
fn put_alike(rt: &HostRuntime, sets: &[RowBits], others: &[RowBits]) {
    put_sets(rt, sets);
    put(rt, "the plain search finds ");
    if are_same(sets, others) {
        put(rt, "the same\n");
    } else {
        put(rt, "others\n");
    }
}

// The sets, sorted, and whether the others are the same.
fn put_compared(
    rt: &HostRuntime,
    alloc: Global,
    sets: &Products,
    others: &Products,
) -> Result<(), Refused> {
    let sets = sets.sorted(alloc)?;
    let others = others.sorted(alloc)?;
    put_alike(rt, sets.items(), others.items());
    Ok(())
}

// The sets, sorted, and whether the plain search over the plan finds the same ones.
fn put_searched(
    rt: &HostRuntime,
    alloc: Global,
    catalogue: &Catalogue,
    query: &Query,
    plan: &Plan,
    sets: &Products,
) -> Result<(), Refused>
    requires over { IsPlanOver plan.now catalogue.now.fragments }
    requires same_length { length plan.now.head ≡ length query.now.head }
    requires universal { IsUniversalPlan (rules_of catalogue.now.rules)
        (views_of catalogue.now.fragments) (query_of query.now) (plan_query plan.now) }
    requires satisfiable { IsSatisfiable (rules_of catalogue.now.rules) (query_of query.now) }
{
    let plain = minimal_sets_plain(alloc, plan, query, catalogue)?;
    put_compared(rt, alloc, sets, &plain)
}

// The sets of the query's list over the plan, sorted, and whether the plain search finds the same ones. The answer has the
// entries that the list comes from.
fn put_list(
    rt: &HostRuntime,
    alloc: Global,
    catalogue: &Catalogue,
    query: &Query,
    plan: &Plan,
) -> Result<Entries, Refused>
    requires over { IsPlanOver plan.now catalogue.now.fragments }
    requires same_length { length plan.now.head ≡ length query.now.head }
    requires universal { IsUniversalPlan (rules_of catalogue.now.rules)
        (views_of catalogue.now.fragments) (query_of query.now) (plan_query plan.now) }
    requires satisfiable { IsSatisfiable (rules_of catalogue.now.rules) (query_of query.now) }
{
    let list = minimal_sets(alloc, plan, query, catalogue)?;
    put_searched(rt, alloc, catalogue, query, plan, &list.sets)?;
    Ok(list.entries)
}

/// The sets of the query's list over its printed plan, sorted, and whether the plain search finds the same ones. The answer
/// has the entries that the list comes from. A query that is not satisfiable has none.
pub fn put_listed(
    rt: &HostRuntime,
    alloc: Global,
    catalogue: &Catalogue,
    query: &Query,
) -> Result<Entries, Refused> {
    match printed_plan(alloc, query, catalogue)? {
        Left(plan) => {
            if plan.head.len() != query.head.len() {
                return Err(Refused);
            }
            put_list(rt, alloc, catalogue, query, &plan)
        }
        Right(_) => Err(Refused),
    }
}

fn put_claim(rt: &HostRuntime, claim: &Claim) {
    match claim {
        Claim::Fact(fact) => {
            put(rt, "fact ");
            put_number(rt, fact.relation as u64);
            put(rt, ": ");
            put_terms(rt, fact.terms.items());
        }
        Claim::Same(left, right) => {
            put(rt, "same : ");
            put_term(rt, left);
            put_term(rt, right);
        }
    }
}

fn put_reason(rt: &HostRuntime, reason: &Reason) {
    match reason {
        Reason::Expanded(atom, place) => {
            put(rt, "expanded ");
            put_number(rt, *atom as u64);
            put_digits(rt, *place as u64);
            put(rt, "\n");
        }
        Reason::Step(number, places) => {
            put(rt, "step ");
            put_number(rt, *number as u64);
            put(rt, "by ");
            put_numbers(rt, places.items());
        }
        Reason::Equal(places) => {
            put(rt, "equal by ");
            put_numbers(rt, places.items());
        }
    }
}

/// The entries, one a line: the number, the claim, the numbers of the product, and the reason.
pub fn put_entries(rt: &HostRuntime, entries: &Entries) {
    'entries: for (number, entry) in entries.items().iter().enumerate() {
        put_number(rt, number as u64);
        put_claim(rt, &entry.claim);
        put(rt, ": ");
        put_members(rt, &entry.product);
        put(rt, ": ");
        put_reason(rt, &entry.reason);
    }
}

// The number of an entry that a word writes.
fn place_of(entries: &Entries, word: &str) -> Option<usize>
    ensures { IfSome result (λ place. place < length entries.now) }
{
    match word.parse::<usize>() {
        Ok(place) if place < entries.len() => Some(place),
        _ => None,
    }
}

#[cycle(why)]
fn put_why(rt: &HostRuntime, why: &Why) {
    match why {
        Why::Expanded(atom, place) => {
            put(rt, "expanded ");
            put_number(rt, *atom as u64);
            put_number(rt, *place as u64);
        }
        Why::Step(number, parts) => {
            put(rt, "step ");
            put_number(rt, *number as u64);
            put(rt, "( ");
            put_whys(rt, parts.items());
        }
        Why::Same(parts) => {
            put(rt, "equal ( ");
            put_whys(rt, parts.items());
        }
    }
}

#[cycle(why)]
fn put_whys(rt: &HostRuntime, parts: &[Why]) {
    'parts: for part in parts {
        put_why(rt, part);
    }
    put(rt, ") ");
}

/// The derivation of the entry of that number.
pub fn put_derivation(
    rt: &HostRuntime,
    alloc: Global,
    entries: &Entries,
    word: &str,
) -> Result<(), Refused> {
    let Some(place) = place_of(entries, word) else {
        return Err(Refused);
    };
    put_why(rt, &entries.why(alloc, place)?);
    put(rt, "\n");
    Ok(())
}

/// The minimal products of the claim of the entry of that number.
pub fn put_products_of(
    rt: &HostRuntime,
    alloc: Global,
    entries: &Entries,
    word: &str,
) -> Result<(), Refused> {
    let Some(place) = place_of(entries, word) else {
        return Err(Refused);
    };
    let products = entries.products_of(alloc, &entries.item(place).claim)?;
    put_sorted(rt, alloc, &products)
}
