//! The listed sets of a plan.
ghost use Rattle.std.specs.Prelude.{◌≡◌, ◌↔◌, List, Bool, Contains, IfOk, length};
ghost use Rattle.esto_semantics.specs.Containment.{IsSatisfiable};
ghost use Rattle.esto_semantics.specs.Listed.{IsListed, IsExecutableRewriting};
ghost use Rattle.esto_semantics.specs.Plans.{IsUniversalPlan};
ghost use Rattle.esto_semantics.specs.Queries.{ConjunctiveQuery};
ghost use Rattle.esto_term.specs.Sets.{IsMinimal};
ghost use Rattle.esto_constraint.specs.Constraints.{rules_of};
ghost use Rattle.esto_query.specs.Making.{query_of};
ghost use Rattle.esto_views.specs.Contained.{MapsOntoOne};
ghost use Rattle.esto_views.specs.Fragments.{views_of, patterns_of};
ghost use Rattle.esto_views.specs.Plans.{plan_query, IsPlanOver};
ghost use Rattle.esto_backchase.specs.Candidates.{Answers};

use crate::candidates::Search;
use esto_access::executable_products;
use esto_bits::{Products, products_are_antichains};
use esto_mapping::Catalogue;
use esto_query::Query;
use esto_semantics::{listed_sets_are_executable, rewritings_map_onto_sets};
use esto_term::OutOfMemory;
use esto_views::{Plan, expand, plans_are_sound};
use std::alloc::Global;

/// The minimal sets of the plan's atoms that answer the query, executable or not.
fn answering_sets(
    alloc: Global,
    plan: &Plan,
    query: &Query,
    catalogue: &Catalogue,
) -> Result<Products, OutOfMemory>
    requires over { IsPlanOver plan.now catalogue.now.fragments }
    requires same_length { length plan.now.head ≡ length query.now.head }
    requires universal { IsUniversalPlan (rules_of catalogue.now.rules)
        (views_of catalogue.now.fragments) (query_of query.now) (plan_query plan.now) }
    ensures count { IfOk result (λ it. it.count ≡ length plan.now.atoms) }
    ensures minimal { IfOk result (λ it. (set : List Bool) → Contains it.sets set
        ↔ IsMinimal (Answers catalogue.now query.now plan.now) set) }
{
    plans_are_sound();
    listed_sets_are_executable();
    let expanded = expand(alloc, plan, &catalogue.fragments)?;
    let search = Search {
        catalogue,
        query,
        plan,
        expanded: &expanded,
    };
    let mut found = Products::new(alloc, plan.atoms.len());
    search.visit_all(alloc, &mut found)?;
    products_are_antichains(&found);
    Ok(found)
}

/// The listed sets of the plan under the catalogue's rules: the minimal sets of its atoms that are executable, and whose
/// candidate is safe and equivalent to the query. Each query over fragments that is an executable rewriting maps onto a
/// superset of one of them. The sets that answer the query are searched for, each by a chase of what it asks of the
/// datasets, and then made executable. Source: the chase and backchase (Deutsch, Popa and Tannen 1999).
pub fn minimal_sets_plain(
    alloc: Global,
    plan: &Plan,
    query: &Query,
    catalogue: &Catalogue,
) -> Result<Products, OutOfMemory>
    requires over { IsPlanOver plan.now catalogue.now.fragments }
    requires same_length { length plan.now.head ≡ length query.now.head }
    requires universal { IsUniversalPlan (rules_of catalogue.now.rules)
        (views_of catalogue.now.fragments) (query_of query.now) (plan_query plan.now) }
    requires satisfiable { IsSatisfiable (rules_of catalogue.now.rules) (query_of query.now) }
    ensures count { IfOk result (λ it. it.count ≡ length plan.now.atoms) }
    ensures listed { IfOk result (λ it. (set : List Bool) → Contains it.sets set
        ↔ IsListed (rules_of catalogue.now.rules) (views_of catalogue.now.fragments)
        (patterns_of catalogue.now.fragments) (query_of query.now) (plan_query plan.now) set) }
    ensures complete { IfOk result (λ it. (other : ConjunctiveQuery)
        → IsExecutableRewriting (rules_of catalogue.now.rules) (views_of catalogue.now.fragments)
        (patterns_of catalogue.now.fragments) (query_of query.now) other
        → MapsOntoOne other (plan_query plan.now) it.sets) }
{
    plans_are_sound();
    listed_sets_are_executable();
    rewritings_map_onto_sets();
    let answering = answering_sets(alloc, plan, query, catalogue)?;
    executable_products(alloc, plan, &catalogue.fragments, &answering)
}
