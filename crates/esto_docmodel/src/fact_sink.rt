//! Where facts of documents are put.
ghost use Rattle.std.specs.Prelude.{◌≡◌, ℕ, [], ◌∷◌, List, Option, None, OnOk};
ghost use Rattle.esto_term.specs.declared.term.Term.{Term};
ghost use Rattle.esto_term.specs.declared.term.Term.TheVariants.{Const, Plain};
ghost use Rattle.esto_semantics.specs.declared.fact.Fact.{Fact};
ghost use Rattle.esto_docmodel.specs.Gaining.{Gains, HasRoom, fact_over};

use crate::encode::{put_named, put_one, put_two};
use esto_semantics::Facts;
use esto_term::{OutOfMemory, Term, Text};
use std::alloc::Global;

/// Where facts of documents are put, one after another. After an error the fact may be put or not.
pub trait FactSink {
    /// It holds these facts.
    ghost Holds: { Self → List (Fact Term) → Type 0 };

    /// How many columns each relation has, where that is told.
    ghost arities: { Self → Option (List ℕ) };

    /// Puts a fact over one node.
    fn put_one(&mut self, alloc: Global, relation: usize, node: u64) -> Result<(), OutOfMemory>
        requires { HasRoom (arities self.old) (fact_over relation (Plain node ∷ [])) }
        ensures { OnOk result (Gains Holds arities (fact_over relation (Plain node ∷ []) ∷ [])
            self.old self.new) };

    /// Puts a fact over a node and another.
    fn put_two(
        &mut self,
        alloc: Global,
        relation: usize,
        node: u64,
        other: u64,
    ) -> Result<(), OutOfMemory>
        requires { HasRoom (arities self.old) (fact_over relation (Plain node ∷ Plain other ∷ [])) }
        ensures { OnOk result (Gains Holds arities
            (fact_over relation (Plain node ∷ Plain other ∷ []) ∷ []) self.old self.new) };

    /// Puts a fact over a node and a text.
    fn put_text(
        &mut self,
        alloc: Global,
        relation: usize,
        node: u64,
        text: &str,
    ) -> Result<(), OutOfMemory>
        requires { HasRoom (arities self.old)
            (fact_over relation (Plain node ∷ Const text.now ∷ [])) }
        ensures { OnOk result (Gains Holds arities
            (fact_over relation (Plain node ∷ Const text.now ∷ []) ∷ []) self.old self.new) };

    /// Puts a fact over a node, a name and another node.
    fn put_named(
        &mut self,
        alloc: Global,
        relation: usize,
        node: u64,
        name: &str,
        other: u64,
    ) -> Result<(), OutOfMemory>
        requires { HasRoom (arities self.old)
            (fact_over relation (Plain node ∷ Const name.now ∷ Plain other ∷ [])) }
        ensures { OnOk result (Gains Holds arities
            (fact_over relation (Plain node ∷ Const name.now ∷ Plain other ∷ []) ∷ [])
            self.old self.new) };
}

/// A list holds its facts, each over any relation.
impl FactSink for Facts {
    ghost Holds = { λ it facts. it ≡ facts };

    ghost arities = { λ _. None };

    fn put_one(&mut self, alloc: Global, relation: usize, node: u64) -> Result<(), OutOfMemory> {
        put_one(alloc, self, relation, node)
    }

    fn put_two(
        &mut self,
        alloc: Global,
        relation: usize,
        node: u64,
        other: u64,
    ) -> Result<(), OutOfMemory> {
        put_two(alloc, self, relation, node, Term::Plain(other))
    }

    fn put_text(
        &mut self,
        alloc: Global,
        relation: usize,
        node: u64,
        text: &str,
    ) -> Result<(), OutOfMemory> {
        let text = Term::Const(Text::from_str(alloc, text)?);
        put_two(alloc, self, relation, node, text)
    }

    fn put_named(
        &mut self,
        alloc: Global,
        relation: usize,
        node: u64,
        name: &str,
        other: u64,
    ) -> Result<(), OutOfMemory> {
        put_named(alloc, self, relation, node, name, other)
    }
}
