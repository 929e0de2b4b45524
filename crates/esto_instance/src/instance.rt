//! Instances and their traces.
ghost use Rattle.std.specs.Prelude.{◌≡◌, ◌↔◌, [], ◌∷◌, ◌++◌, map, IsTrue, IfOk, OnOk, OnErr};
ghost use Rattle.esto_term.specs.Order.{replaced};
ghost use Rattle.esto_semantics.specs.Instances.{MapsTo};
ghost use Rattle.esto_query.specs.Making.{query_of};
ghost use Rattle.esto_chase_laws.specs.Joined.{joined};
ghost use Rattle.esto_chase_laws.specs.Runs.{start_of, replaced_facts};
ghost use Rattle.esto_instance.specs.Instances.{state_of, trace_of};

use crate::fresh::{fresh_facts, once};
use crate::receiving::maps_into;
use crate::replacing::{replace_in_facts, replace_in_terms};
use esto_query::{Found, Query};
use esto_semantics::Facts;
use esto_term::{List, OutOfMemory, Replicate, Term, Terms};
use std::alloc::Global;

/// A step of the chase, with the number of the rule that was applied, counted from 0, and the match at which it was.
#[derive(Drop)]
pub enum ChaseStep {
    /// A tuple rule added facts.
    Added(usize, Found),
    /// An equality rule merged two terms: the first, which is gone, into the second.
    Merged(usize, Found, Term, Term),
}

/// The steps of a run, in order.
pub type Trace = List<ChaseStep>;

/// A copy of a step that merged two terms.
fn copied_merge(
    alloc: Global,
    rule: usize,
    found: &Found,
    from: &Term,
    to: &Term,
) -> Result<ChaseStep, OutOfMemory>
    ensures { IfOk result (λ it. it ≡ ChaseStep.Merged rule found.now from.now to.now) }
{
    let found = found.copy(alloc)?;
    let from = from.copy(alloc)?;
    let to = to.copy(alloc)?;
    Ok(ChaseStep::Merged(rule, found, from, to))
}

impl Replicate for ChaseStep {
    fn copy(&self, alloc: Global) -> Result<ChaseStep, OutOfMemory> {
        match self {
            ChaseStep::Added(rule, found) => {
                let found = found.copy(alloc)?;
                Ok(ChaseStep::Added(*rule, found))
            }
            ChaseStep::Merged(rule, found, from, to) => {
                copied_merge(alloc, *rule, found, from, to)
            }
        }
    }
}

/// Facts over terms with a head, and the trace of the steps that made them.
#[derive(Drop)]
pub struct Instance {
    facts: Facts,
    head: Terms,
    trace: Trace,
}

/// The facts with `to` in place of `from`, each once, where it stands first, and the head with `to` in place of `from`.
fn replaced(
    alloc: Global,
    facts: &Facts,
    head: &Terms,
    from: &Term,
    to: &Term,
) -> Result<(Facts, Terms), OutOfMemory>
    ensures { IfOk result (λ it. (it.0 ≡ replaced_facts from.now to.now facts.now)
        × (it.1 ≡ map (replaced from.now to.now) head.now)) }
{
    let images = replace_in_facts(alloc, facts.items(), from, to)?;
    let facts = once(alloc, images.items())?;
    let head = replace_in_terms(alloc, head.items(), from, to)?;
    Ok((facts, head))
}

impl Instance {
    /// The start of a chase of facts with a head: the facts, in order, a repeated one once, and the head.
    pub fn of_facts(alloc: Global, facts: &Facts, head: &Terms) -> Result<Instance, OutOfMemory>
        ensures state { IfOk result
            (λ it. state_of it ≡ start_of (record { head = head.now; body = facts.now })) }
        ensures trace { IfOk result (λ it. trace_of it ≡ []) }
    {
        let facts = once(alloc, facts.items())?;
        let head = head.copy(alloc)?;
        Ok(Instance {
            facts,
            head,
            trace: List::new(alloc),
        })
    }

    /// The start of a query's chase: the atoms of its body, in order, a repeated one once, and its head.
    pub fn of_query(alloc: Global, query: &Query) -> Result<Instance, OutOfMemory>
        ensures state { IfOk result (λ it. state_of it ≡ start_of (query_of query.now)) }
        ensures trace { IfOk result (λ it. trace_of it ≡ []) }
    {
        Instance::of_facts(alloc, &query.body, &query.head)
    }

    /// The facts, in order.
    pub fn facts(&self) -> &Facts
        ensures { result.now ≡ (state_of self.now).body }
    {
        &self.facts
    }

    /// The head.
    pub fn head(&self) -> &Terms
        ensures { result.now ≡ (state_of self.now).head }
    {
        &self.head
    }

    /// The steps, in order.
    pub fn trace(&self) -> &Trace
        ensures { result.now ≡ trace_of self.now }
    {
        &self.trace
    }

    /// Whether the query maps to the instance: some map of terms that keeps constants sends the query's body into the
    /// facts, and its head, term by term, to the head. It is a search for one match.
    pub fn receives(&self, alloc: Global, query: &Query) -> Result<bool, OutOfMemory>
        ensures { IfOk result
            (λ answer. IsTrue answer ↔ MapsTo (query_of query.now) (state_of self.now)) }
    {
        maps_into(alloc, query, &self.facts, &self.head)
    }

    /// Appends those of the facts that are not there, in their order and once, and a step of that rule at that match to
    /// the trace. A refused call leaves the instance.
    pub fn add(
        &mut self,
        alloc: Global,
        rule: usize,
        found: Found,
        facts: &Facts,
    ) -> Result<(), OutOfMemory>
        ensures facts { OnOk result
            ((state_of self.new).body ≡ joined (state_of self.old).body facts.now) }
        ensures head { OnOk result ((state_of self.new).head ≡ (state_of self.old).head) }
        ensures trace { OnOk result
            (trace_of self.new ≡ trace_of self.old ++ ChaseStep.Added rule found ∷ []) }
        ensures err { OnErr result (self.new ≡ self.old) }
    {
        let fresh = fresh_facts(alloc, self.facts.items(), facts.items())?;
        let steps = self.trace.len();
        self.trace.push(ChaseStep::Added(rule, found))?;
        match self.facts.append(fresh) {
            Ok(()) => Ok(()),
            Err(error) => {
                self.trace.truncate(steps);
                Err(error)
            }
        }
    }

    /// Puts the term `to` in place of the term `from` in every fact and in the head, drops each fact that now equals an
    /// earlier one, keeps the order of the rest, and appends a step of that rule at that match to the trace. Inside a made
    /// term nothing is replaced. A refused call leaves the instance.
    pub fn merge(
        &mut self,
        alloc: Global,
        rule: usize,
        found: Found,
        from: Term,
        to: Term,
    ) -> Result<(), OutOfMemory>
        ensures facts { OnOk result
            ((state_of self.new).body ≡ replaced_facts from to (state_of self.old).body) }
        ensures head { OnOk result
            ((state_of self.new).head ≡ map (replaced from to) (state_of self.old).head) }
        ensures trace { OnOk result
            (trace_of self.new ≡ trace_of self.old ++ ChaseStep.Merged rule found from to ∷ []) }
        ensures err { OnErr result (self.new ≡ self.old) }
    {
        let (facts, head) = replaced(alloc, &self.facts, &self.head, &from, &to)?;
        self.step_to(facts, head, ChaseStep::Merged(rule, found, from, to))
    }

    /// Appends the step to the trace, and has these facts and this head from then on. A refused call leaves the instance.
    fn step_to(&mut self, facts: Facts, head: Terms, step: ChaseStep) -> Result<(), OutOfMemory>
        ensures facts { OnOk result ((state_of self.new).body ≡ facts) }
        ensures head { OnOk result ((state_of self.new).head ≡ head) }
        ensures trace { OnOk result (trace_of self.new ≡ trace_of self.old ++ step ∷ []) }
        ensures err { OnErr result (self.new ≡ self.old) }
    {
        self.trace.push(step)?;
        self.facts = facts;
        self.head = head;
        Ok(())
    }
}
