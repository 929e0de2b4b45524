//! Whether facts meet a tuple rule or a denial.
ghost use Rattle.std.specs.Prelude.{◌≡◌, ◌↔◌, ◌++◌, List, ℕ, length, Contains, IsTrue, IfOk, OnOk};
ghost use Rattle.esto_semantics.specs.Maps.{IsFixedBy};
ghost use Rattle.esto_semantics.specs.Rules.{IsTupleRule, tuple, denial};
ghost use Rattle.esto_semantics.specs.declared.fact.Fact.{Fact};
ghost use Rattle.esto_term.specs.declared.term.Term.{Term};
ghost use Rattle.esto_term.specs.declared.term.Term.TheVariants.{Const};
ghost use Rattle.esto_chase_laws.specs.Making.{frontier};
ghost use Rattle.esto_coded.specs.Answered.{AreCodedAnswers, IsCodedAnswer};
ghost use Rattle.esto_coded.specs.Coded.{AreTelling, StandFor};
ghost use Rattle.esto_coded.specs.Met.{StaysFor, AnswersWhether};

use crate::coded::CodedFacts;
use esto_columns::Rows;
use esto_constraint::frontier_of;
use esto_rows::is_part;
use esto_semantics::Atom;
use esto_term::{List, OutOfMemory, Replicate, Term};
use std::alloc::Global;

/// Puts copies of the atoms at the end of the list.
fn put_atoms(alloc: Global, atoms: &[Atom], into: &mut List<Atom>) -> Result<(), OutOfMemory>
    ensures { OnOk result (into.new ≡ into.old ++ atoms.now) }
{
    'atoms: for atom in atoms {
        let own = atom.copy(alloc)?;
        into.push(own)?;
    }
    Ok(())
}

/// The atoms of the one, and after them those of the other.
fn joined(alloc: Global, one: &[Atom], other: &[Atom]) -> Result<List<Atom>, OutOfMemory>
    ensures { IfOk result (λ it. it ≡ one.now ++ other.now) }
{
    let mut both = List::new(alloc);
    put_atoms(alloc, one, &mut both)?;
    put_atoms(alloc, other, &mut both)?;
    Ok(both)
}

impl CodedFacts {
    /// The answers of the query, where indexes are made before for the joins of its body: other rules join relations by
    /// the same columns.
    pub(crate) fn answers_by_indexes(
        &mut self,
        alloc: Global,
        head: &[Term],
        body: &[Atom],
    ) -> Result<Rows, OutOfMemory>
        requires { (term : Term) → Contains head.now term → IsFixedBy body.now term }
        ensures stays { StaysFor self.old self.new }
        ensures texts { IfOk result (λ _. AreTelling self.new.texts) }
        ensures constants { IfOk result (λ _. (text : List ℕ) → Contains head.now (Const text)
            → Contains self.new.texts text) }
        ensures arity { IfOk result (λ it. it.arity ≡ length head.now) }
        ensures rows { IfOk result (λ it. AreCodedAnswers self.new
            (record { head = head.now; body = body.now }) it.rows) }
    {
        self.index_joins(alloc, body)?;
        self.answers(alloc, head, body)
    }

    /// Whether the facts meet the denial of the body.
    pub(crate) fn meets_denial(&mut self, alloc: Global, body: &[Atom]) -> Result<bool, OutOfMemory>
        ensures stays { StaysFor self.old self.new }
        ensures met { IfOk result (AnswersWhether self.old (denial body.now)) }
    {
        let rows = self.answers_by_indexes(alloc, &[], body)?;
        Ok(rows.len() == 0)
    }

    /// Whether each of the rows stands for an answer of the query of that head and body.
    fn are_answers(
        &mut self,
        alloc: Global,
        head: &[Term],
        body: &[Atom],
        rows: &Rows,
    ) -> Result<bool, OutOfMemory>
        requires { (term : Term) → Contains head.now term → IsFixedBy body.now term }
        ensures stays { StaysFor self.old self.new }
        ensures texts { IfOk result (λ _. AreTelling self.new.texts) }
        ensures each { IfOk result (λ it. (facts : List (Fact Term)) → StandFor self.new facts
            → IsTrue it ↔ ((row : List ℕ) → Contains rows.now.rows row
            → IsCodedAnswer self.new (record { head = head.now; body = body.now }) facts row)) }
    {
        let answers = self.answers_by_indexes(alloc, head, body)?;
        is_part(alloc, rows, &answers)
    }

    /// The same of the query over the atoms of the body and of the head together. Atoms of the head that share
    /// variables with the body alone are linked by it. Nothing is asked of the head where there are no rows.
    fn go_on(
        &mut self,
        alloc: Global,
        shared: &[Term],
        body: &[Atom],
        head: &[Atom],
        rows: &Rows,
    ) -> Result<bool, OutOfMemory>
        requires fixed { (term : Term) → Contains shared.now term
            → IsFixedBy (body.now ++ head.now) term }
        requires texts { AreTelling self.old.texts }
        ensures stays { StaysFor self.old self.new }
        ensures texts { IfOk result (λ _. AreTelling self.new.texts) }
        ensures each { IfOk result (λ it. (facts : List (Fact Term)) → StandFor self.new facts
            → IsTrue it ↔ ((row : List ℕ) → Contains rows.now.rows row
            → IsCodedAnswer self.new
            (record { head = shared.now; body = body.now ++ head.now }) facts row)) }
    {
        if rows.len() == 0 {
            return Ok(true);
        }
        let both = joined(alloc, body, head)?;
        self.are_answers(alloc, shared, both.items(), rows)
    }

    /// Whether what the body gives of the terms that it shares with the head is given by body and head together too.
    fn meets_over(
        &mut self,
        alloc: Global,
        shared: &[Term],
        body: &[Atom],
        head: &[Atom],
    ) -> Result<bool, OutOfMemory>
        requires rule { IsTupleRule body.now head.now }
        requires shared { shared.now ≡ frontier body.now head.now }
        ensures stays { StaysFor self.old self.new }
        ensures met { IfOk result (AnswersWhether self.old (tuple body.now head.now)) }
    {
        let given = self.answers_by_indexes(alloc, shared, body)?;
        self.go_on(alloc, shared, body, head, &given)
    }

    /// Whether the facts meet the tuple rule of the body and the head.
    pub(crate) fn meets_tuple(
        &mut self,
        alloc: Global,
        body: &[Atom],
        head: &[Atom],
    ) -> Result<bool, OutOfMemory>
        requires { IsTupleRule body.now head.now }
        ensures stays { StaysFor self.old self.new }
        ensures met { IfOk result (AnswersWhether self.old (tuple body.now head.now)) }
    {
        let shared = frontier_of(alloc, body, head)?;
        self.meets_over(alloc, shared.items(), body, head)
    }
}
