//! The listed sets of a plan, from the products of one conditional chase.
ghost use Rattle.std.specs.Prelude.{◌≡◌, ◌↔◌, List, Bool, Contains, IfOk, length};
ghost use Rattle.esto_semantics.specs.Containment.{IsSatisfiable};
ghost use Rattle.esto_semantics.specs.Listed.{IsListed, IsExecutableRewriting};
ghost use Rattle.esto_semantics.specs.Plans.{IsUniversalPlan};
ghost use Rattle.esto_semantics.specs.Queries.{ConjunctiveQuery};
ghost use Rattle.esto_term.specs.Sets.{TellHolds};
ghost use Rattle.esto_semantics.specs.Unions.{ReceivesUnions};
ghost use Rattle.esto_constraint.specs.Constraints.{rules_of};
ghost use Rattle.esto_query.specs.Making.{query_of};
ghost use Rattle.esto_views.specs.Contained.{MapsOntoOne};
ghost use Rattle.esto_views.specs.Fragments.{views_of, patterns_of};
ghost use Rattle.esto_views.specs.Plans.{plan_query, IsPlanOver};
ghost use Rattle.esto_chase_laws.specs.Derived.{AreNew};
ghost use Rattle.esto_chase_laws.specs.WorldSteps.{AreJoined};
ghost use Rattle.esto_backchase.specs.Candidates.{Answers};
ghost use Rattle.esto_condchase.specs.Evidence.{AreConsistent, AreEntriesOf, DecideAnswers};
ghost use Rattle.esto_backchase.specs.Listing.{IsLeastOfParts};

use esto_access::executable_products;
use esto_bits::Products;
use esto_condchase::{entries_decide_answers, entries_of, matching_products};
use esto_mapping::{Catalogue, catalogues_rank_their_rules};
use esto_prov::Entries;
use esto_query::Query;
use esto_semantics::{listed_sets_are_executable, rewritings_map_onto_sets};
use esto_term::{List, OutOfMemory};
use esto_views::{Plan, plans_are_sound};
use std::alloc::Global;
use std::slice;

/// The listed sets of a plan, with the entries that they come from.
#[derive(Drop)]
pub struct Backchase {
    pub entries: Entries,
    pub sets: Products,
}

/// Sets of the plan's atoms that tell which of them answer the query: the products of the query's
/// matches.
fn answering_products(
    alloc: Global,
    plan: &Plan,
    query: &Query,
    catalogue: &Catalogue,
    entries: &Entries,
) -> Result<Products, OutOfMemory>
    requires same_length { length plan.now.head ≡ length query.now.head }
    requires universal { IsUniversalPlan (rules_of catalogue.now.rules)
        (views_of catalogue.now.fragments) (query_of query.now) (plan_query plan.now) }
    requires satisfiable { IsSatisfiable (rules_of catalogue.now.rules) (query_of query.now) }
    requires entries { AreEntriesOf catalogue.now.fragments catalogue.now.rules catalogue.now.ranks
        plan.now entries.now }
    requires joined { AreJoined entries.now entries.now }
    ensures count { IfOk result (λ it. it.count ≡ length plan.now.atoms) }
    ensures tell { IfOk result (λ it. TellHolds (length plan.now.atoms)
        (Answers catalogue.now query.now plan.now) it.sets) }
{
    entries_decide_answers();
    matching_products(alloc, plan, slice::from_ref(query), entries)
}

/// The listed sets of the plan: the minimal executable sets of its atoms that answer the query.
fn listed_products(
    alloc: Global,
    plan: &Plan,
    query: &Query,
    catalogue: &Catalogue,
    entries: &Entries,
) -> Result<Products, OutOfMemory>
    requires same_length { length plan.now.head ≡ length query.now.head }
    requires universal { IsUniversalPlan (rules_of catalogue.now.rules)
        (views_of catalogue.now.fragments) (query_of query.now) (plan_query plan.now) }
    requires satisfiable { IsSatisfiable (rules_of catalogue.now.rules) (query_of query.now) }
    requires entries { AreEntriesOf catalogue.now.fragments catalogue.now.rules catalogue.now.ranks
        plan.now entries.now }
    requires joined { AreJoined entries.now entries.now }
    ensures count { IfOk result (λ it. it.count ≡ length plan.now.atoms) }
    ensures listed { IfOk result (λ it. (set : List Bool) → Contains it.sets set
        ↔ IsListed (rules_of catalogue.now.rules) (views_of catalogue.now.fragments)
        (patterns_of catalogue.now.fragments) (query_of query.now) (plan_query plan.now) set) }
{
    listed_sets_are_executable();
    let answering = answering_products(alloc, plan, query, catalogue, entries)?;
    executable_products(alloc, plan, &catalogue.fragments, &answering)
}

/// The listed sets of the plan under the catalogue's rules: the minimal sets of its atoms that are executable, and whose
/// candidate is safe and equivalent to the query. Each query over fragments that is an executable rewriting maps onto a
/// superset of one of them. The entries are those of the conditional chase of the plan's expansion: they say of each set
/// of the plan's atoms what the catalogue's rules make of its part of the expansion. Their links are joined, and none is
/// covered by those before it. Source: the backchase with provenance (Ileana, Cautis, Deutsch and Katsis 2014).
pub fn minimal_sets(
    alloc: Global,
    plan: &Plan,
    query: &Query,
    catalogue: &Catalogue,
) -> Result<Backchase, OutOfMemory>
    requires over { IsPlanOver plan.now catalogue.now.fragments }
    requires same_length { length plan.now.head ≡ length query.now.head }
    requires universal { IsUniversalPlan (rules_of catalogue.now.rules)
        (views_of catalogue.now.fragments) (query_of query.now) (plan_query plan.now) }
    requires satisfiable { IsSatisfiable (rules_of catalogue.now.rules) (query_of query.now) }
    ensures entries { IfOk result (λ it. AreEntriesOf catalogue.now.fragments catalogue.now.rules
        catalogue.now.ranks plan.now it.entries) }
    ensures new { IfOk result (λ it. AreNew it.entries) }
    ensures joined { IfOk result (λ it. AreJoined it.entries it.entries) }
    ensures count { IfOk result (λ it. it.sets.count ≡ length plan.now.atoms) }
    ensures listed { IfOk result (λ it. (set : List Bool) → Contains it.sets.sets set
        ↔ IsListed (rules_of catalogue.now.rules) (views_of catalogue.now.fragments)
        (patterns_of catalogue.now.fragments) (query_of query.now) (plan_query plan.now) set) }
    ensures complete { IfOk result (λ it. (other : ConjunctiveQuery)
        → IsExecutableRewriting (rules_of catalogue.now.rules) (views_of catalogue.now.fragments)
        (patterns_of catalogue.now.fragments) (query_of query.now) other
        → MapsOntoOne other (plan_query plan.now) it.sets.sets) }
    ensures decided { IfOk result (λ it.
        DecideAnswers catalogue.now.fragments catalogue.now.rules query.now plan.now it.entries) }
    ensures of_parts { IfOk result (λ it. (set : List Bool) → Contains it.sets.sets set
        ↔ IsLeastOfParts catalogue.now query.now plan.now it.entries set) }
    ensures consistent { IfOk result (λ it. ReceivesUnions (rules_of catalogue.now.rules)
        (views_of catalogue.now.fragments) (query_of query.now) (plan_query plan.now)
        → AreConsistent (rules_of catalogue.now.rules) it.entries) }
{
    catalogues_rank_their_rules();
    plans_are_sound();
    listed_sets_are_executable();
    rewritings_map_onto_sets();
    entries_decide_answers();
    let entries = entries_of(
        alloc,
        plan,
        &catalogue.fragments,
        &catalogue.rules,
        &catalogue.ranks,
    )?;
    let sets = listed_products(alloc, plan, query, catalogue, &entries)?;
    Ok(Backchase { entries, sets })
}
