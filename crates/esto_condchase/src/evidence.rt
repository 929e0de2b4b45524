//! The entries of a plan, and the products of queries' matches among them.
ghost use Rattle.std.specs.Prelude.{◌≡◌, ◌↔◌, ◌⊎◌, List, Bool, Contains, IfOk, OnOk, length};
ghost use Rattle.esto_bits.specs.Kept.{CoversEither};
ghost use Rattle.esto_term.specs.Sets.{Covers};
ghost use Rattle.esto_query.specs.declared.query.Query.{Query};
ghost use Rattle.esto_constraint.specs.Constraints.{rules_of};
ghost use Rattle.esto_constraint.specs.Graphs.{IsWithin, AreRanks};
ghost use Rattle.esto_constraint.specs.Relations.{IsEdge};
ghost use Rattle.esto_views.specs.Plans.{IsPlanOver};
ghost use Rattle.esto_chase_laws.specs.Derived.{AreNew};
ghost use Rattle.esto_chase_laws.specs.WorldSteps.{AreJoined};
ghost use Rattle.esto_chase_laws.specs.Worlds.{AreOfCount};
ghost use Rattle.esto_condchase.specs.Evidence.{AreEntriesOf, MatchesIn, OneMatchesIn};

use crate::chase::chase_with_products;
use crate::products::products_of_matches;
use esto_bits::Products;
use esto_constraint::{Ranks, Rules};
use esto_prov::Entries;
use esto_query::Query;
use esto_term::OutOfMemory;
use esto_views::{FragmentDefs, Plan, expand};
use std::alloc::Global;

/// The entries of the conditional chase of the plan's expansion over the fragments, under the rules, where the ranks
/// are those of the rules' relations. Their links are joined, and none is covered by those before it.
pub fn entries_of(
    alloc: Global,
    plan: &Plan,
    fragments: &FragmentDefs,
    rules: &Rules,
    ranks: &Ranks,
) -> Result<Entries, OutOfMemory>
    requires over { IsPlanOver plan.now fragments.now }
    requires within { IsWithin (length ranks.now) (IsEdge (rules_of rules.now)) }
    requires ranks { AreRanks (IsEdge (rules_of rules.now)) (length ranks.now) ranks.now }
    ensures entries { IfOk result (AreEntriesOf fragments.now rules.now ranks.now plan.now) }
    ensures new { IfOk result AreNew }
    ensures joined { IfOk result (λ entries. AreJoined entries entries) }
{
    let expanded = expand(alloc, plan, fragments)?;
    let entries = chase_with_products(alloc, &expanded, plan.atoms.len(), rules, ranks)?;
    Ok(entries)
}

/// Adds each set of the others to the products. Where there are no products, the others are taken
/// as they are.
fn add_others(alloc: Global, products: &mut Products, others: Products) -> Result<(), OutOfMemory>
    requires { others.count ≡ products.old.count }
    ensures count { products.new.count ≡ products.old.count }
    ensures covers { OnOk result (CoversEither products.old.sets others.sets products.new.sets) }
{
    if products.is_empty() {
        *products = others;
        return Ok(());
    }
    products.add_all(alloc, &others)
}

/// Adds to the products the minimal sets of the plan's atoms in whose worlds the query has a match, head to head with
/// the plan's head.
fn add_matching(
    alloc: Global,
    plan: &Plan,
    query: &Query,
    entries: &Entries,
    products: &mut Products,
) -> Result<(), OutOfMemory>
    requires same_length { length plan.now.head ≡ length query.now.head }
    requires counts { AreOfCount (length plan.now.atoms) entries.now }
    requires joined { AreJoined entries.now entries.now }
    requires count { products.old.count ≡ length plan.now.atoms }
    ensures count { products.new.count ≡ products.old.count }
    ensures covers { OnOk result ((set : List Bool) → Covers products.new.sets set
        ↔ (Covers products.old.sets set ⊎ MatchesIn query.now plan.now entries.now set)) }
{
    let own = products_of_matches(
        alloc,
        entries.items(),
        &query.head,
        query.body.items(),
        plan.head.items(),
        plan.atoms.len(),
    )?;
    add_others(alloc, products, own)
}

/// The minimal sets of the plan's atoms in whose worlds one of the queries has a match, head to head with the plan's
/// head: the world of a set has one exactly where one of these is a subset of the set.
pub fn matching_products(
    alloc: Global,
    plan: &Plan,
    queries: &[Query],
    entries: &Entries,
) -> Result<Products, OutOfMemory>
    requires same_lengths { (query : Query) → Contains queries.now query
        → length plan.now.head ≡ length query.head }
    requires counts { AreOfCount (length plan.now.atoms) entries.now }
    requires joined { AreJoined entries.now entries.now }
    ensures count { IfOk result (λ it. it.count ≡ length plan.now.atoms) }
    ensures tell { IfOk result (λ it. (set : List Bool) → Covers it.sets set
        ↔ OneMatchesIn queries.now plan.now entries.now set) }
{
    let mut found = Products::new(alloc, plan.atoms.len());
    'queries: for query in queries {
        add_matching(alloc, plan, query, entries, &mut found)?;
    }
    Ok(found)
}
