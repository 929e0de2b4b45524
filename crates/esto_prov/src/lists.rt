//! Lists of terms, unions of products, and facts that are alike to an atom.
ghost use Rattle.std.specs.Prelude.{◌≡◌, ◌++◌, ◌∷◌, [], length, MatchOption, IfOk, IsOkAnd, OnOk};
ghost use Rattle.esto_term.specs.Sets.{united};
ghost use Rattle.esto_term.specs.declared.term.Term.{Term};
ghost use Rattle.esto_semantics.specs.declared.fact.Fact.{Fact};
ghost use Rattle.esto_chase_laws.specs.WorldMatches.{IsLike};
ghost use Rattle.esto_chase_laws.specs.declared.entry.Claim.TheVariants.{Fact as Stated};

use esto_bits::RowBits;
use esto_chase_laws::Claim;
use esto_semantics::Atom;
use esto_term::{List, OutOfMemory, Replicate, Term, Terms};
use std::alloc::Global;

/// Puts an item at the end, if it was made.
pub(crate) fn put_made<T: Drop>(
    items: &mut List<T>,
    made: Result<T, OutOfMemory>,
) -> Result<(), OutOfMemory>
    ensures { OnOk result (IsOkAnd made (λ item. items.new ≡ items.old ++ item ∷ [])) }
{
    match made {
        Ok(item) => items.push(item),
        Err(_) => Err(OutOfMemory),
    }
}

/// Puts copies of the terms at the end of the others.
pub fn put_terms(alloc: Global, more: &[Term], terms: &mut Terms) -> Result<(), OutOfMemory>
    ensures { OnOk result (terms.new ≡ terms.old ++ more.now) }
{
    'more: for term in more {
        let own = term.copy(alloc)?;
        terms.push(own)?;
    }
    Ok(())
}

/// Two lists of terms in one.
pub fn both(alloc: Global, to: &[Term], owns: &[Term]) -> Result<Terms, OutOfMemory>
    ensures { IfOk result (λ it. it ≡ to.now ++ owns.now) }
{
    let mut terms = List::new(alloc);
    put_terms(alloc, to, &mut terms)?;
    put_terms(alloc, owns, &mut terms)?;
    Ok(terms)
}

/// The list of the item alone.
pub fn only<T: Drop>(alloc: Global, item: T) -> Result<List<T>, OutOfMemory>
    ensures { IfOk result (λ it. it ≡ item ∷ []) }
{
    let mut items = List::new(alloc);
    items.push(item)?;
    Ok(items)
}

/// The union of two products.
pub fn union_of(alloc: Global, one: &RowBits, other: &RowBits) -> Result<RowBits, OutOfMemory>
    requires { length one.now ≡ length other.now }
    ensures { IfOk result (λ it. it ≡ united one.now other.now) }
{
    let mut product = one.copy(alloc)?;
    product.union(other);
    Ok(product)
}

/// The fact, if the claim is one that is alike to the atom.
pub fn like<'a>(claim: &'a Claim, atom: &Atom) -> Option<&'a Atom>
    ensures { MatchOption result
        ((fact : Fact Term) → claim.now ≡ Stated fact → ¬ (IsLike atom.now fact))
        (λ fact. (claim.now ≡ Stated fact.now) × IsLike atom.now fact.now) }
{
    match claim {
        Claim::Same(_, _) => None,
        Claim::Fact(fact) => {
            if fact.relation != atom.relation {
                return None;
            }
            if fact.terms.len() != atom.terms.len() {
                return None;
            }
            Some(fact)
        }
    }
}
