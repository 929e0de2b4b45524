//! Whether the candidate of a set of a plan's atoms is equivalent to the query.
ghost use Rattle.std.specs.Prelude.{◌≡◌, ◌↔◌, ◌<◌, [], Contains, IsTrue, IfOk, length, ⊤};
ghost use Rattle.either.specs.Either.{MatchEither};
ghost use Rattle.esto_semantics.specs.Containment.{IsContained};
ghost use Rattle.esto_semantics.specs.Instances.{MapsTo};
ghost use Rattle.esto_semantics.specs.Listed.{candidate};
ghost use Rattle.esto_semantics.specs.Queries.{IsAnswer};
ghost use Rattle.esto_semantics.specs.Views.{IsFragmentAnswer};
ghost use Rattle.esto_constraint.specs.Constraints.{rules_of};
ghost use Rattle.esto_query.specs.Making.{query_of};
ghost use Rattle.esto_views.specs.Expanded.{facts_chosen};
ghost use Rattle.esto_views.specs.Fragments.{views_of};
ghost use Rattle.esto_views.specs.Plans.{plan_query};
ghost use Rattle.esto_semantics.specs.declared.expanded.ExpandedFact.{ExpandedFact};
ghost use Rattle.esto_chase_laws.specs.Runs.{start_of};
ghost use Rattle.esto_instance.specs.Instances.{state_of, trace_of};
ghost use Rattle.esto_backchase.specs.Candidates.{IsSearch, Answers};

use crate::safety::is_safe;
use either::{Either, Left, Right};
use esto_bits::RowBits;
use esto_chase::{Chased, chase};
use esto_chase_laws::{Clash, queries_have_starts};
use esto_constraint::rules_are_sound;
use esto_instance::Instance;
use esto_mapping::{Catalogue, catalogues_are_sound};
use esto_query::{Facts, Query};
use esto_semantics::{
    ExpandedFact, ExpandedFacts, an_expansion_means_the_same,
    an_expansion_of_a_plan_expands_its_candidates, candidates_contain_the_query,
};
use esto_term::{List, OutOfMemory, Replicate};
use esto_views::{Plan, plans_are_sound};
use std::alloc::Global;

/// What is searched: the query and the plan over the catalogue, and the plan's expansion.
#[derive(Clone, Copy)]
pub struct Search<'a> {
    pub catalogue: &'a Catalogue,
    pub query: &'a Query,
    pub plan: &'a Plan,
    pub expanded: &'a ExpandedFacts,
}

/// The facts of the expansion that come from atoms of the set.
fn facts_chosen(
    alloc: Global,
    expanded: &[ExpandedFact],
    set: &RowBits,
) -> Result<Facts, OutOfMemory>
    requires { (fact : ExpandedFact) → Contains expanded.now fact → fact.atom < length set.now }
    ensures { IfOk result (λ facts. facts ≡ facts_chosen set.now expanded.now) }
{
    let mut facts = List::new(alloc);
    'facts: for part in expanded {
        if set.has(part.atom) {
            let fact = part.fact.copy(alloc)?;
            facts.push(fact)?;
        }
    }
    Ok(facts)
}

impl Search<'_> {
    /// The start of the chase of what the expansion has for the set, with the plan's head.
    fn start_for(&self, alloc: Global, set: &RowBits) -> Result<Instance, OutOfMemory>
        requires { (fact : ExpandedFact) → Contains self.now.expanded.now fact
            → fact.atom < length set.now }
        ensures state { IfOk result (λ it. state_of it ≡ start_of (record {
          head = self.now.plan.now.head;
          body = facts_chosen set.now self.now.expanded.now;
        })) }
        ensures trace { IfOk result (λ it. trace_of it ≡ []) }
    {
        let facts = facts_chosen(alloc, self.expanded.items(), set)?;
        Instance::of_facts(alloc, &facts, &self.plan.head)
    }

    /// Whether the query maps, head to head, to the end of a chase, or the chase clashes.
    fn is_received(
        &self,
        alloc: Global,
        outcome: &Either<Chased, Clash>,
    ) -> Result<bool, OutOfMemory>
        ensures { IfOk result (λ answer. IsTrue answer ↔ MatchEither outcome.now
            (λ chased. MapsTo (query_of self.now.query.now) (state_of chased.instance))
            (λ _. ⊤)) }
    {
        match outcome {
            Left(chased) => chased.instance.receives(alloc, self.query),
            Right(_) => Ok(true),
        }
    }

    /// Whether the set's candidate is contained in the query: the query maps, head to head, to the end of the chase of
    /// what the expansion has for the set. Where that chase clashes, the candidate has no answer.
    fn is_contained(&self, alloc: Global, set: &RowBits) -> Result<bool, OutOfMemory>
        requires search { IsSearch self.now.catalogue.now self.now.query.now self.now.plan.now
            self.now.expanded.now }
        requires count { length set.now ≡ length self.now.plan.now.atoms }
        ensures { IfOk result (λ answer. IsTrue answer ↔ IsContained
            (rules_of self.now.catalogue.now.rules)
            (IsFragmentAnswer (views_of self.now.catalogue.now.fragments)
            (candidate (plan_query self.now.plan.now) set.now))
            (IsAnswer (query_of self.now.query.now))) }
    {
        catalogues_are_sound();
        plans_are_sound();
        rules_are_sound();
        queries_have_starts();
        an_expansion_means_the_same();
        an_expansion_of_a_plan_expands_its_candidates();
        let start = self.start_for(alloc, set)?;
        let outcome = chase(alloc, start, &self.catalogue.rules, &self.catalogue.ranks)?;
        let answer = self.is_received(alloc, &outcome);
        drop(outcome);
        answer
    }

    /// Whether the set answers the query: it has an atom, is safe, and its candidate is contained in the query.
    pub fn answers(&self, alloc: Global, set: &RowBits) -> Result<bool, OutOfMemory>
        requires search { IsSearch self.now.catalogue.now self.now.query.now self.now.plan.now
            self.now.expanded.now }
        requires count { length set.now ≡ length self.now.plan.now.atoms }
        ensures { IfOk result (λ answer. IsTrue answer
            ↔ Answers self.now.catalogue.now self.now.query.now self.now.plan.now set.now) }
    {
        plans_are_sound();
        candidates_contain_the_query();
        if set.size() == 0 {
            return Ok(false);
        }
        if !is_safe(self.plan, set) {
            return Ok(false);
        }
        self.is_contained(alloc, set)
    }
}
