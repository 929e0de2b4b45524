//! Whether facts meet a rule, and where an equality rule is broken, a small part of them that has what breaks it.
ghost use Rattle.std.specs.Prelude.{◌≡◌, ◌↔◌, ◌<◌, ◌≤◌, ◌∷◌, [], ◌++◌, List, ℕ, length, Contains, slice_index_or, IsTrue, IfOk, IfSome};
ghost use Rattle.esto_columns.specs.Interned.{Grows};
ghost use Rattle.esto_constraint.specs.Constraints.{rule_of};
ghost use Rattle.esto_relmodel.specs.Parts.{IsPartFor};
ghost use Rattle.esto_semantics.specs.Maps.{IsFixedBy};
ghost use Rattle.esto_semantics.specs.Rules.{IsEqualityRule, IsMet, equality};
ghost use Rattle.esto_semantics.specs.declared.fact.Fact.{Fact};
ghost use Rattle.esto_term.specs.declared.term.Term.{Term};
ghost use Rattle.esto_term.specs.declared.term.Term.TheVariants.{Const};
ghost use Rattle.esto_coded.specs.Answered.{AreCodedAnswers};
ghost use Rattle.esto_coded.specs.Coded.{AreTelling, Coded, StandFor, StandInOrder, arities_of};
ghost use Rattle.esto_coded.specs.Met.{StaysFor, Judges};
ghost use Rattle.esto_coded.specs.Mirrored.{IsMirrored};
ghost use Rattle.esto_coded.specs.Verdict.{Tells, given_part};

use crate::coded::CodedFacts;
use crate::mirrored::{are_mirrored, with_first};
use crate::steps::push_copy;
use crate::verdict::{Verdict, verdict_of};
use esto_columns::Rows;
use esto_constraint::{Constraint, frontier_of};
use esto_rows::are_told;
use esto_semantics::Atom;
use esto_term::{List, OutOfMemory, Term, Terms, has_term};
use std::alloc::Global;

/// Both terms, in order.
fn both_of(alloc: Global, left: &Term, right: &Term) -> Result<Terms, OutOfMemory>
    ensures { IfOk result (λ it. it ≡ left.now ∷ right.now ∷ []) }
{
    let mut both = List::new(alloc);
    push_copy(alloc, left, &mut both)?;
    push_copy(alloc, right, &mut both)?;
    Ok(both)
}

/// Whether each of the rows has the same code in its two columns.
fn agree(rows: &Rows) -> bool
    requires { rows.now.arity ≡ 2 }
    ensures { IsTrue result ↔ ((row : List ℕ) → Contains rows.now.rows row
        → slice_index_or row 0 0 ≡ slice_index_or row 1 0) }
{
    let left = rows.column(0);
    let right = rows.column(1);
    'rows: for at in 0..rows.len() {
        if left.item(at) != right.item(at) {
            return false;
        }
    }
    true
}

impl CodedFacts {
    /// The verdict on the equality rule of the body and two sides, by the rows that these stand for. The list has the
    /// sides alone.
    fn verdict_on_pairs(&self, alloc: Global, body: &[Atom], sides: &[Term], rows: &Rows) -> Verdict
        requires two { rows.now.arity ≡ 2 }
        requires fixed { (term : Term) → Contains sides.now term → IsFixedBy body.now term }
        requires texts { AreTelling self.now.texts }
        requires constants { (text : List ℕ) → Contains sides.now (Const text)
            → Contains self.now.texts text }
        requires rows { AreCodedAnswers self.now
            (record { head = sides.now; body = body.now }) rows.now.rows }
        ensures { (before : Coded) → StaysFor before self.now → (left right : Term)
            → sides.now ≡ left ∷ right ∷ []
            → Judges before (equality body.now left right) result }
    {
        if agree(rows) {
            return Verdict::Met;
        }
        Verdict::Broken(self.sides_part(alloc, sides, body, rows))
    }

    /// The verdict on the equality rule of the body and two sides, by all pairs of what these stand for. The list has
    /// the sides alone.
    fn judge_pairs(
        &mut self,
        alloc: Global,
        body: &[Atom],
        sides: &[Term],
    ) -> Result<Verdict, OutOfMemory>
        requires two { length sides.now ≡ 2 }
        requires fixed { (term : Term) → Contains sides.now term → IsFixedBy body.now term }
        ensures stays { StaysFor self.old self.new }
        ensures judged { IfOk result (λ it. (left right : Term) → sides.now ≡ left ∷ right ∷ []
            → Judges self.old (equality body.now left right) it) }
    {
        let rows = self.answers_by_indexes(alloc, sides, body)?;
        Ok(self.verdict_on_pairs(alloc, body, sides, &rows))
    }

    /// The verdict on the equality rule of the body and the two sides, by all pairs of what these stand for.
    fn judge_sides(
        &mut self,
        alloc: Global,
        body: &[Atom],
        left: &Term,
        right: &Term,
    ) -> Result<Verdict, OutOfMemory>
        requires left { IsFixedBy body.now left.now }
        requires right { IsFixedBy body.now right.now }
        ensures stays { StaysFor self.old self.new }
        ensures judged { IfOk result (Judges self.old (equality body.now left.now right.now)) }
    {
        let sides = both_of(alloc, left, right)?;
        self.judge_pairs(alloc, body, sides.items())
    }

    /// The verdict on each equality rule of the body, which is mirrored and begins with this half, by the rows that the
    /// head stands for in the half's matches. The head is the side, and then the shared terms.
    fn verdict_on_half(
        &self,
        alloc: Global,
        body: &[Atom],
        first: &[Atom],
        head: &[Term],
        rows: &Rows,
    ) -> Result<Verdict, OutOfMemory>
        requires some { 0 < length head.now }
        requires wide { length head.now ≤ rows.now.arity }
        requires texts { AreTelling self.now.texts }
        requires constants { (text : List ℕ) → Contains head.now (Const text)
            → Contains self.now.texts text }
        requires rows { AreCodedAnswers self.now
            (record { head = head.now; body = first.now }) rows.now.rows }
        ensures { IfOk result (λ it. (before : Coded) → StaysFor before self.now
            → (second : List (Fact Term)) (left right : Term) (shared : List Term)
            → head.now ≡ left ∷ shared → first.now ++ second ≡ body.now
            → IsMirrored first.now second left right shared
            → Judges before (equality body.now left right) it) }
    {
        if are_told(alloc, rows)? {
            return Ok(Verdict::Met);
        }
        Ok(Verdict::Broken(self.mirrored_part(alloc, head, first, body, rows)))
    }

    /// The verdict on each equality rule of the body, which is mirrored and begins with this half: it is met where those
    /// matches of the half that agree on the shared terms agree on the side. The head is the side, and then these.
    fn judge_half(
        &mut self,
        alloc: Global,
        body: &[Atom],
        first: &[Atom],
        head: &[Term],
    ) -> Result<Verdict, OutOfMemory>
        requires some { 0 < length head.now }
        requires fixed { (term : Term) → Contains head.now term → IsFixedBy first.now term }
        ensures stays { StaysFor self.old self.new }
        ensures judged { IfOk result (λ it. (second : List (Fact Term)) (left right : Term)
            (shared : List Term) → head.now ≡ left ∷ shared → first.now ++ second ≡ body.now
            → IsMirrored first.now second left right shared
            → Judges self.old (equality body.now left right) it) }
    {
        let rows = self.answers_by_indexes(alloc, head, first)?;
        self.verdict_on_half(alloc, body, first, head, &rows)
    }

    /// The same, where the side and the shared terms are given.
    fn judge_mirrored(
        &mut self,
        alloc: Global,
        body: &[Atom],
        first: &[Atom],
        left: &Term,
        shared: &Terms,
    ) -> Result<Verdict, OutOfMemory>
        requires { (term : Term)
            → Contains (left.now ∷ shared.now) term → IsFixedBy first.now term }
        ensures stays { StaysFor self.old self.new }
        ensures judged { IfOk result (λ it. (second : List (Fact Term)) (right : Term)
            → first.now ++ second ≡ body.now → IsMirrored first.now second left.now right shared.now
            → Judges self.old (equality body.now left.now right) it) }
    {
        let head = with_first(alloc, left, shared)?;
        self.judge_half(alloc, body, first, head.items())
    }

    /// The verdict on the equality rule of the body and the two sides. A mirrored body is asked for one half alone.
    fn judge_halves(
        &mut self,
        alloc: Global,
        body: &[Atom],
        left: &Term,
        right: &Term,
    ) -> Result<Verdict, OutOfMemory>
        requires { IsEqualityRule body.now left.now right.now }
        ensures stays { StaysFor self.old self.new }
        ensures judged { IfOk result (Judges self.old (equality body.now left.now right.now)) }
    {
        let (first, second) = body.split_at(body.len() / 2);
        let shared = frontier_of(alloc, first, second)?;
        if are_mirrored(alloc, first, second, left, right, shared.items())? {
            return self.judge_mirrored(alloc, body, first, left, &shared);
        }
        self.judge_sides(alloc, body, left, right)
    }

    /// The same, with the sides turned where the left one is not in the first half.
    fn judge_equality(
        &mut self,
        alloc: Global,
        body: &[Atom],
        left: &Term,
        right: &Term,
    ) -> Result<Verdict, OutOfMemory>
        requires { IsEqualityRule body.now left.now right.now }
        ensures stays { StaysFor self.old self.new }
        ensures judged { IfOk result (Judges self.old (equality body.now left.now right.now)) }
    {
        let (first, _) = body.split_at(body.len() / 2);
        let own = frontier_of(alloc, first, first)?;
        if has_term(own.items(), left) {
            return self.judge_halves(alloc, body, left, right);
        }
        self.judge_halves(alloc, body, right, left)
    }

    /// The verdict on the rule.
    fn judge_rule(&mut self, alloc: Global, rule: &Constraint) -> Result<Verdict, OutOfMemory>
        ensures stays { StaysFor self.old self.new }
        ensures judged { IfOk result (Judges self.old (rule_of rule.now)) }
    {
        match rule {
            Constraint::Tuple(rule) => {
                let met = self.meets_tuple(alloc, rule.body.items(), rule.head.items())?;
                Ok(verdict_of(met))
            }
            Constraint::Equal(rule) => {
                self.judge_equality(alloc, rule.body.items(), &rule.left, &rule.right)
            }
            Constraint::Never(rule) => {
                let met = self.meets_denial(alloc, rule.body.items())?;
                Ok(verdict_of(met))
            }
        }
    }

    /// Whether the facts meet the rule. With a broken equality rule comes a part of the facts that has those of its
    /// active matches, as facts over terms, relation by relation, in order: it has facts of the relations of the rule's
    /// body alone, and what is there more than once stays so. None comes with a tuple rule or a denial, nor where more
    /// than 65,536 codes come in, nor where memory is wanting for it. So codes are few in a part, and facts need not be.
    /// Constants of the rule get codes. Indexes are made of the relations that are joined for it, as by `index_joins`.
    /// OutOfMemory comes too where more than 2^31 texts have codes.
    pub fn judge(&mut self, alloc: Global, rule: &Constraint) -> Result<Verdict, OutOfMemory>
        ensures arities { arities_of self.new ≡ arities_of self.old }
        ensures facts { (facts : List (Fact Term))
            → StandFor self.old facts → StandFor self.new facts }
        ensures ordered { (facts : List (Fact Term)) → StandInOrder self.old facts
            → StandInOrder self.new facts }
        ensures grown { Grows self.old.texts self.new.texts }
        ensures met { IfOk result (λ it. (facts : List (Fact Term)) → StandFor self.old facts
            → Tells it (IsMet facts (rule_of rule.now))) }
        ensures part { IfOk result (λ it. IfSome (given_part it) (λ part. (all : List (Fact Term))
            → StandInOrder self.old all → IsPartFor (rule_of rule.now) all part)) }
    {
        self.judge_rule(alloc, rule)
    }
}
