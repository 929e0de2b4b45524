//! The answers of queries.
ghost use Rattle.std.specs.Prelude.{◌≡◌, ◌↔◌, ℕ, List, [], ◌∷◌, length, map, Contains, IsTrue, IfOk};
ghost use Rattle.esto_columns.specs.Interned.{Grows};
ghost use Rattle.esto_semantics.specs.Maps.{IsFixedBy};
ghost use Rattle.esto_semantics.specs.declared.fact.Fact.{Fact};
ghost use Rattle.esto_steps.specs.Meaning.{IsResult};
ghost use Rattle.esto_steps.specs.Rows.{IsRowOf, held_by};
ghost use Rattle.esto_steps.specs.declared.steps.Get.{Get};
ghost use Rattle.esto_term.specs.declared.term.Term.{Term};
ghost use Rattle.esto_term.specs.declared.term.Term.TheVariants.{Const};
ghost use Rattle.esto_coded.specs.Answered.{AreCodedAnswers};
ghost use Rattle.esto_coded.specs.Coded.{AreTelling, StandFor, StandInOrder, arities_of};
ghost use Rattle.esto_coded.specs.Relations.{AreWhole, coded_of};
ghost use Rattle.esto_coded.specs.Whole.{AreWholeSteps, TakeWhole, TellsOver, TellsAllOver};

use crate::coded::{CodedFacts, FIRST_NODE};
use crate::steps::steps_of;
use esto_columns::{Codes, Rows, StoredRows};
use esto_exec::run_plan;
use esto_semantics::Atom;
use esto_steps::{Steps, projected};
use esto_term::{OutOfMemory, Term};
use std::alloc::Global;

/// Whether the atom's relation is there, with as many columns as the atom has terms.
pub(crate) fn is_over(atom: &Atom, relations: &[StoredRows]) -> bool
    ensures { TellsOver relations.now atom.now result }
{
    match relations.get(atom.relation) {
        Some(relation) => relation.rows.arity() == atom.terms.len(),
        None => false,
    }
}

/// The same of each of the atoms.
fn are_over(body: &[Atom], relations: &[StoredRows]) -> bool
    ensures { TellsAllOver relations.now body.now result }
{
    'atoms: for atom in body {
        if !is_over(atom, relations) {
            return false;
        }
    }
    true
}

/// Whether the steps have one get alone, which filters nothing.
fn is_plain(steps: &Steps) -> bool
    ensures { IsTrue result → (get : Get) × (steps.now.gets ≡ get ∷ []) × (get.filters ≡ []) }
{
    steps.gets.len() == 1 && steps.gets.item(0).filters.is_empty()
}

/// The results of the steps over the relations. Of one get that filters nothing the rows are only projected, so that
/// the same row may come more than once.
fn results(alloc: Global, steps: &Steps, relations: &[StoredRows]) -> Result<Rows, OutOfMemory>
    requires { TakeWhole relations.now steps.now.gets }
    ensures arity { IfOk result (λ it. it.arity ≡ length steps.now.head) }
    ensures rows { IfOk result (λ it. (row : List ℕ) → Contains it.rows row
        ↔ IsResult (IsRowOf (held_by (map (λ stored. stored.rows.rows) relations.now)))
        steps.now row) }
{
    if !is_plain(steps) {
        return run_plan(alloc, steps, relations);
    }
    let number = steps.gets.item(0).fragment;
    projected(alloc, &steps.head, &relations[number].rows)
}

/// The answers of the query over the relations, by its steps. Where an atom is not over the relations there are none.
fn answers_by(
    alloc: Global,
    head: &[Term],
    body: &[Atom],
    steps: &Steps,
    codes: &Codes,
    relations: &[StoredRows],
) -> Result<Rows, OutOfMemory>
    requires whole { AreWhole relations.now }
    requires fixed { (term : Term) → Contains head.now term → IsFixedBy body.now term }
    requires steps { AreWholeSteps codes.now
        (record { head = head.now; body = body.now }) steps.now }
    ensures texts { IfOk result (λ _. AreTelling codes.now) }
    ensures arity { IfOk result (λ it. it.arity ≡ length head.now) }
    ensures rows { IfOk result (λ it. AreCodedAnswers (coded_of codes.now relations.now)
        (record { head = head.now; body = body.now }) it.rows) }
{
    if codes.len() > FIRST_NODE {
        return Err(OutOfMemory);
    }
    if !are_over(body, relations) {
        return Rows::new(alloc, head.len());
    }
    results(alloc, steps, relations)
}

/// The answers of the query over the relations. Constants of the query get codes.
fn answers_over(
    alloc: Global,
    head: &[Term],
    body: &[Atom],
    codes: &mut Codes,
    relations: &[StoredRows],
) -> Result<Rows, OutOfMemory>
    requires whole { AreWhole relations.now }
    requires fixed { (term : Term) → Contains head.now term → IsFixedBy body.now term }
    ensures grown { Grows codes.old codes.new }
    ensures texts { IfOk result (λ _. AreTelling codes.new) }
    ensures constants { IfOk result (λ _. (text : List ℕ) → Contains head.now (Const text)
        → Contains codes.new text) }
    ensures arity { IfOk result (λ it. it.arity ≡ length head.now) }
    ensures rows { IfOk result (λ it. AreCodedAnswers (coded_of codes.new relations.now)
        (record { head = head.now; body = body.now }) it.rows) }
{
    let steps = steps_of(alloc, head, body, codes)?;
    answers_by(alloc, head, body, &steps, codes, relations)
}

impl CodedFacts {
    /// The answers of the query of that head and body over the facts, as rows of codes, in no stated order, where the
    /// same row may come more than once. Constants of the query get codes. The executor joins the body's atoms in an
    /// order of its own. OutOfMemory comes too where more than 2^31 texts have codes.
    pub fn answers(
        &mut self,
        alloc: Global,
        head: &[Term],
        body: &[Atom],
    ) -> Result<Rows, OutOfMemory>
        requires { (term : Term) → Contains head.now term → IsFixedBy body.now term }
        ensures arities { arities_of self.new ≡ arities_of self.old }
        ensures facts { (facts : List (Fact Term))
            → StandFor self.old facts → StandFor self.new facts }
        ensures ordered { (facts : List (Fact Term)) → StandInOrder self.old facts
            → StandInOrder self.new facts }
        ensures grown { Grows self.old.texts self.new.texts }
        ensures texts { IfOk result (λ _. AreTelling self.new.texts) }
        ensures constants { IfOk result (λ _. (text : List ℕ) → Contains head.now (Const text)
            → Contains self.new.texts text) }
        ensures arity { IfOk result (λ it. it.arity ≡ length head.now) }
        ensures rows { IfOk result (λ it. AreCodedAnswers self.new
            (record { head = head.now; body = body.now }) it.rows) }
    {
        answers_over(
            alloc,
            head,
            body,
            &mut self.codes,
            self.relations.as_slice(),
        )
    }
}
