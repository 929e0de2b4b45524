//! What the terms of a view stand for in an atom over its fragment.
ghost use Rattle.std.specs.Prelude.{◌≡◌, ◌+◌, ◌++◌, ◌∷◌, ℕ, List, [], length, map, IfOk, OnOk};
ghost use Rattle.std.specs.List.{range_with_len};
ghost use Rattle.esto_term.specs.declared.term.Term.TheVariants.{Plain};
ghost use Rattle.esto_semantics.specs.Facts.{image};
ghost use Rattle.esto_query.specs.Making.{query_of};
ghost use Rattle.esto_views.specs.Fragments.{IsFragment};
ghost use Rattle.esto_semantics.specs.Spreads.{AreInner, IsSpread, substituted};

use crate::fragments::FragmentDef;
use crate::inner::inner_variables;
use esto_query::{Atom, Query};
use esto_term::{List, OutOfMemory, Replicate, Term, Terms};
use std::alloc::Global;

/// Terms of a view and, at the same places, what they stand for. Every other term stands for itself.
#[derive(Drop)]
pub struct Spread {
    pub from: Terms,
    pub to: Terms,
    /// The first number after those of the new variables.
    pub next: u64,
}

/// A head's terms and, for them, an atom's; new variables, of which there are none yet, are
/// numbered from `first` on.
fn spread_of_head(
    alloc: Global,
    head: &Terms,
    terms: &Terms,
    first: u64,
) -> Result<Spread, OutOfMemory>
    ensures from { IfOk result (λ spread. spread.from ≡ head.now) }
    ensures to { IfOk result (λ spread. spread.to ≡ terms.now) }
    ensures next { IfOk result (λ spread. spread.next ≡ first) }
{
    let from = head.copy(alloc)?;
    let to = terms.copy(alloc)?;
    Ok(Spread {
        from,
        to,
        next: first,
    })
}

/// Puts a variable at the end of the terms, and the next new variable at the end of what they stand for.
fn push_variable(spread: &mut Spread, variable: u64) -> Result<(), OutOfMemory>
    ensures from { OnOk result (spread.new.from ≡ spread.old.from ++ Plain variable ∷ []) }
    ensures to { OnOk result (spread.new.to ≡ spread.old.to ++ Plain spread.old.next ∷ []) }
    ensures next { OnOk result (spread.new.next ≡ spread.old.next + 1) }
{
    spread.from.push(Term::Plain(variable))?;
    spread.to.push(Term::Plain(spread.next))?;
    let Some(next) = spread.next.checked_add(1) else {
        return Err(OutOfMemory);
    };
    spread.next = next;
    Ok(())
}

/// Puts the view's inner variables at the end of the terms, by rising number, and the next new variables at the end of
/// what they stand for.
fn push_inner(alloc: Global, view: &Query, spread: &mut Spread) -> Result<(), OutOfMemory>
    ensures { OnOk result ((inner : List ℕ) × AreInner (query_of view.now) inner
        × (spread.new.from ≡ spread.old.from ++ map Plain inner)
        × (spread.new.to
        ≡ spread.old.to ++ map Plain (range_with_len spread.old.next (length inner)))
        × (spread.new.next ≡ spread.old.next + length inner)) }
{
    let inner = inner_variables(alloc, view)?;
    'inner: for number in inner.items() {
        push_variable(spread, *number)?;
    }
    Ok(())
}

/// What the terms of the fragment's view stand for in an atom of these terms: those of its head for the atom's
/// terms, and its inner variables, by rising number, for new variables from a first number on.
pub fn spread_of(
    alloc: Global,
    fragment: &FragmentDef,
    terms: &Terms,
    first: u64,
) -> Result<Spread, OutOfMemory>
    requires fragment { IsFragment fragment.now }
    requires columns { length terms.now ≡ length fragment.now.view.head }
    ensures spread { IfOk result (λ spread.
        IsSpread (query_of fragment.now.view) terms.now first spread.next
        (substituted spread.from spread.to)) }
    ensures same_length { IfOk result (λ spread. length spread.from ≡ length spread.to) }
{
    let mut spread = spread_of_head(alloc, &fragment.view.head, terms, first)?;
    push_inner(alloc, &fragment.view, &mut spread)?;
    Ok(spread)
}

impl Spread {
    /// What the term stands for.
    fn term(&self, alloc: Global, term: &Term) -> Result<Term, OutOfMemory>
        requires { length self.now.from ≡ length self.now.to }
        ensures { IfOk result (λ target. target ≡ substituted self.now.from self.now.to term.now) }
    {
        'places: for place in 0..self.from.len() {
            if term.compare(self.from.item(place)).is_eq() {
                return self.to.item(place).copy(alloc);
            }
        }
        term.copy(alloc)
    }

    /// Puts what the term stands for at the end.
    fn push_term(&self, alloc: Global, term: &Term, terms: &mut Terms) -> Result<(), OutOfMemory>
        requires { length self.now.from ≡ length self.now.to }
        ensures { OnOk result (terms.new
            ≡ terms.old ++ substituted self.now.from self.now.to term.now ∷ []) }
    {
        let target = self.term(alloc, term)?;
        terms.push(target)
    }

    /// The atom with what each of its terms stands for.
    pub fn atom(&self, alloc: Global, atom: &Atom) -> Result<Atom, OutOfMemory>
        requires { length self.now.from ≡ length self.now.to }
        ensures { IfOk result (λ fact.
            fact ≡ image (substituted self.now.from self.now.to) atom.now) }
    {
        let mut terms = List::new(alloc);
        'terms: for term in atom.terms.items() {
            self.push_term(alloc, term, &mut terms)?;
        }
        Ok(Atom {
            relation: atom.relation,
            terms,
        })
    }
}
