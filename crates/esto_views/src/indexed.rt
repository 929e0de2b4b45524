//! Terms with their index.
ghost use Rattle.std.specs.Prelude.{◌≡◌, Contains, IfOk, MatchOption};
ghost use Rattle.esto_views.specs.Indexes.{IsFirstPlace};

use crate::index::{Entry, first_place, index_of};
use esto_term::{OutOfMemory, Term, Terms};
use std::alloc::Global;
use std::marker::Model;

/// A list of terms with its index, by which the first place of a term is found. Contracts see the list of terms.
#[derive(Drop)]
pub struct IndexedTerms<'a> {
    terms: &'a [Term],
    index: Vec<Entry<'a>>,
}

impl<'a> Model for IndexedTerms<'a> {
    ghost use Rattle.std.specs.Prelude.{List};
    ghost use Rattle.esto_term.specs.declared.term.Term.{Term};
    ghost use Rattle.esto_term.specs.contracts.term.Term as term;
    ghost use Rattle.std.specs.Coded.{codes};
    ghost use Rattle.esto_views.specs.Indexes.{IsIndex};

    ghost Value = { List Term };

    ghost coded = { Prim.hlevel (codes, term.the_row.coded) };

    ghost view = { λ it. it.terms.now };

    ghost invariant = { λ it. IsIndex it.terms.now it.index.items };
}

impl<'a> IndexedTerms<'a> {
    /// The terms with their index.
    pub fn of(alloc: Global, terms: &'a Terms) -> Result<IndexedTerms<'a>, OutOfMemory>
        ensures { IfOk result (λ indexed. indexed ≡ terms.now) }
    {
        let terms = terms.items();
        let index = index_of(alloc, terms)?;
        Ok(IndexedTerms { terms, index })
    }

    /// The terms, in order.
    pub fn items(&self) -> &'a [Term]
        ensures { result.now ≡ self.now }
    {
        self.terms
    }

    /// The first place of the term, or None where it is not among the terms.
    pub fn first(&self, term: &Term) -> Option<usize>
        ensures { MatchOption result
            (¬ (Contains self.now term.now)) (IsFirstPlace self.now term.now) }
    {
        first_place(&self.index, term)
    }
}
