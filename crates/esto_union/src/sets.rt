//! The sets of a plan's atoms that are listed in a union.
ghost use Rattle.std.specs.Prelude.{◌≡◌, ◌↔◌, List, Bool, Contains, IfOk, length};
ghost use Rattle.esto_semantics.specs.Queries.{ConjunctiveQuery};
ghost use Rattle.esto_query.specs.declared.query.Query.{Query};
ghost use Rattle.esto_views.specs.Plans.{plan_query, IsPlanOver};
ghost use Rattle.esto_union.specs.Unions.{AreRewritingOf, IsListedIn, IsPlanOfOne, OneMapsOntoOne};

use esto_access::executable_products;
use esto_bits::Products;
use esto_condchase::{entries_decide_answers, entries_of, matching_products};
use esto_mapping::{Catalogue, catalogues_rank_their_rules};
use esto_query::Query;
use esto_semantics::{executable_unions_map_onto_sets, sets_listed_in_unions_are_executable};
use esto_term::OutOfMemory;
use esto_views::Plan;
use std::alloc::Global;

/// The sets of the plan's atoms that are listed in the union of the queries under the catalogue's rules: the minimal sets
/// that are safe and executable, and whose candidate is contained in the union. The plan receives unions for one of the
/// queries, which is satisfiable. Each union of queries over fragments that is an executable rewriting of the union has a
/// member that maps onto a superset of one of them. They are the minimal completions, by the atoms' access products, of the
/// products of the queries' matches among the entries of one conditional chase. Source: the backchase with provenance
/// (Ileana, Cautis, Deutsch and Katsis 2014), and containment of unions (Sagiv and Yannakakis 1980).
pub fn union_sets(
    alloc: Global,
    plan: &Plan,
    queries: &[Query],
    catalogue: &Catalogue,
) -> Result<Products, OutOfMemory>
    requires over { IsPlanOver plan.now catalogue.now.fragments }
    requires same_lengths { (query : Query) → Contains queries.now query
        → length plan.now.head ≡ length query.head }
    requires plan_of_one { IsPlanOfOne catalogue.now queries.now plan.now }
    ensures count { IfOk result (λ it. it.count ≡ length plan.now.atoms) }
    ensures listed { IfOk result (λ it. (set : List Bool) → Contains it.sets set
        ↔ IsListedIn catalogue.now queries.now plan.now set) }
    ensures complete { IfOk result (λ it. (others : List ConjunctiveQuery)
        → AreRewritingOf catalogue.now queries.now others
        → OneMapsOntoOne others (plan_query plan.now) it.sets) }
{
    catalogues_rank_their_rules();
    entries_decide_answers();
    sets_listed_in_unions_are_executable();
    executable_unions_map_onto_sets();
    let entries = entries_of(
        alloc,
        plan,
        &catalogue.fragments,
        &catalogue.rules,
        &catalogue.ranks,
    )?;
    let answering = matching_products(alloc, plan, queries, &entries)?;
    let sets = executable_products(alloc, plan, &catalogue.fragments, &answering)?;
    Ok(sets)
}
