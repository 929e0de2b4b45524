//! The minimal equivalent parts of a chased query.
ghost use Rattle.std.specs.Prelude.{◌≡◌, ◌↔◌, ⊤, List, Bool, length, Contains, IfOk};
ghost use Rattle.either.specs.Either.{MatchEither};
ghost use Rattle.esto_chase.specs.Chased.{RunClashes};
ghost use Rattle.esto_chase_laws.specs.Runs.{start_of};
ghost use Rattle.esto_constraint.specs.Constraints.{rules_of};
ghost use Rattle.esto_contain.specs.Ends.{FinishesAt};
ghost use Rattle.esto_contain.specs.Minimised.{HasNames, IsMinimised};
ghost use Rattle.esto_contain.specs.Numbered.{AreNumbered};
ghost use Rattle.esto_instance.specs.Instances.{state_of};
ghost use Rattle.esto_semantics.specs.Cores.{with_head};
ghost use Rattle.esto_query.specs.Making.{query_of};
ghost use Rattle.esto_semantics.specs.Containment.{IsSatisfiable};
ghost use Rattle.esto_semantics.specs.Expansions.{IsOfQuery};
ghost use Rattle.esto_semantics.specs.Instances.{IsUniversalFor};
ghost use Rattle.esto_semantics.specs.Listed.{IsEquivalentPart};
ghost use Rattle.esto_semantics.specs.Maps.{IsFlat};
ghost use Rattle.esto_term.specs.Sets.{IsMinimal};
ghost use Rattle.esto_term.specs.declared.term.Term.{Term};

use crate::ends::end_of;
use either::{Either, Left, Right};
use esto_bits::{Products, products_are_antichains};
use esto_chase::clashed_queries_are_unsatisfiable;
use esto_chase_laws::{
    Clash, matches_decide_containment, matches_rest_on_atoms, states_are_universal,
};
use esto_condchase::{chase_with_products, products_of_matches};
use esto_constraint::rules_are_sound;
use esto_instance::Instance;
use esto_mapping::{Catalogue, catalogues_rank_their_rules};
use esto_query::{Atom, Facts, Names, Query, queries_are_sound};
use esto_semantics::{
    ExpandedFact, ExpandedFacts, chosen_atoms_are_named, maps_between_plans_compose,
    parts_of_an_instance_contain_the_query, renamed_plans_are_alike,
    universal_instances_satisfy_queries,
};
use esto_term::{List, OutOfMemory, Replicate, Terms};
use esto_views::{plan_facts, plans_are_sound, renamed_plan, renamed_plans_are_one};
use std::alloc::Global;

/// The last facts and the head of a query's run, under new names, and the minimal sets of these facts that are equivalent
/// to the query. The terms of the facts and of the head are constants or plain, and the name of the plain term of a number
/// stands at that place of the names. The numbers of the sets are places of the facts, counted from 0.
#[derive(Drop)]
pub struct Minimal {
    pub facts: Facts,
    pub head: Terms,
    pub names: Names,
    pub sets: Products,
}

/// The facts, each as what is expanded of an atom of its own, whose number is the fact's place.
fn numbered(alloc: Global, facts: &[Atom]) -> Result<ExpandedFacts, OutOfMemory>
    ensures { IfOk result (AreNumbered facts.now) }
{
    let mut expanded = List::new(alloc);
    'facts: for (number, fact) in facts.iter().enumerate() {
        expanded.push(ExpandedFact {
            atom: number,
            place: 0,
            fact: fact.copy(alloc)?,
        })?;
    }
    Ok(expanded)
}

/// The minimal sets of the facts that are safe and, with the head, equivalent to the query: the products of the query's
/// matches, head to head, in one conditional chase of the facts.
fn equivalent_parts(
    alloc: Global,
    facts: &Facts,
    head: &Terms,
    query: &Query,
    catalogue: &Catalogue,
) -> Result<Products, OutOfMemory>
    requires flat { (term : Term) → IsOfQuery (with_head head.now facts.now) term → IsFlat term }
    requires universal { IsUniversalFor (rules_of catalogue.now.rules) (query_of query.now)
        (with_head head.now facts.now) }
    requires satisfiable { IsSatisfiable (rules_of catalogue.now.rules) (query_of query.now) }
    ensures count { IfOk result (λ sets. sets.count ≡ length facts.now) }
    ensures exact { IfOk result (λ sets. (set : List Bool) → Contains sets.sets set
        ↔ IsMinimal (IsEquivalentPart (rules_of catalogue.now.rules) (query_of query.now)
        (with_head head.now facts.now)) set) }
{
    catalogues_rank_their_rules();
    rules_are_sound();
    queries_are_sound();
    chosen_atoms_are_named();
    parts_of_an_instance_contain_the_query();
    matches_decide_containment();
    matches_rest_on_atoms();
    let expanded = numbered(alloc, facts.items())?;
    let entries = chase_with_products(
        alloc,
        &expanded,
        facts.len(),
        &catalogue.rules,
        &catalogue.ranks,
    )?;
    let sets = products_of_matches(
        alloc,
        entries.items(),
        &query.head,
        query.body.items(),
        head.items(),
        facts.len(),
    )?;
    products_are_antichains(&sets);
    Ok(sets)
}

/// The facts and the head of the end of the query's run, under new names, with the sets.
fn minimised_at(
    alloc: Global,
    end: &Instance,
    query: &Query,
    catalogue: &Catalogue,
) -> Result<Minimal, OutOfMemory>
    requires { FinishesAt (rules_of catalogue.now.rules) (start_of (query_of query.now))
        (state_of end.now) }
    ensures minimised { IfOk result (IsMinimised (rules_of catalogue.now.rules) query.now.names
        (query_of query.now)) }
    ensures names { IfOk result HasNames }
{
    queries_are_sound();
    rules_are_sound();
    plans_are_sound();
    states_are_universal();
    universal_instances_satisfy_queries();
    renamed_plans_are_one();
    renamed_plans_are_alike();
    maps_between_plans_compose();
    let plan = renamed_plan(alloc, end.facts(), end.head(), &query.names)?;
    let facts = plan_facts(alloc, &plan.atoms)?;
    let sets = equivalent_parts(alloc, &facts, &plan.head, query, catalogue)?;
    Ok(Minimal {
        facts,
        head: plan.head,
        names: plan.names,
        sets,
    })
}

/// The minimal equivalent parts of the query's chase under the catalogue's rules. Right comes exactly where no database
/// that meets the rules gives the query an answer, with the clash at which its run ends. Left has the run's last facts, in
/// order, and its head. Each term of them that is no constant is renamed to a variable, whose number is the place of the
/// term's first occurrence among those of the others, reading the facts in order and then the head; it has the name that
/// the query gives the term, and else it is hidden. The sets are exactly the minimal sets of these facts that are safe and,
/// as queries over the datasets with this head, equivalent to the query under the rules. Source: the backchase (Deutsch,
/// Popa and Tannen 1999) with provenance (Ileana, Cautis, Deutsch and Katsis 2014).
pub fn minimise(
    alloc: Global,
    query: &Query,
    catalogue: &Catalogue,
) -> Result<Either<Minimal, Clash>, OutOfMemory>
    ensures run { IfOk result (λ it. MatchEither it
        (IsMinimised (rules_of catalogue.now.rules) query.now.names (query_of query.now))
        (RunClashes (rules_of catalogue.now.rules) (start_of (query_of query.now)))) }
    ensures names { IfOk result (λ it. MatchEither it HasNames (λ _. ⊤)) }
    ensures satisfiable { IfOk result (λ it. MatchEither it
        (λ _. IsSatisfiable (rules_of catalogue.now.rules) (query_of query.now))
        (λ _. ¬ (IsSatisfiable (rules_of catalogue.now.rules) (query_of query.now)))) }
{
    rules_are_sound();
    queries_are_sound();
    states_are_universal();
    universal_instances_satisfy_queries();
    clashed_queries_are_unsatisfiable();
    let outcome = end_of(alloc, query, catalogue)?;
    match outcome {
        Left(end) => {
            let minimal = minimised_at(alloc, &end, query, catalogue)?;
            Ok(Left(minimal))
        }
        Right(clash) => Ok(Right(clash)),
    }
}
