//! Entries: claims, each with the set of atoms that it rests on and with what it follows from.
ghost use Rattle.std.specs.Prelude.{◌≡◌, ◌⊎◌, ◌↔◌, IsTrue, IfOk};
ghost use Rattle.esto_chase_laws.specs.Claims.{AreSameClaim};
ghost use Rattle.esto_chase_laws.specs.Worlds.{SaysOne};
ghost use Rattle.esto_chase_laws.specs.declared.entry.Claim.TheVariants.{Same};

use esto_bits::RowBits;
use esto_semantics::Atom;
use esto_term::{OutOfMemory, Places, Replicate, Term, equal_terms};
use std::alloc::Global;

/// Places of entries, each counted from 0.
pub type Chain = Places;

/// What an entry claims: a fact, or that two terms are one.
#[derive(Drop)]
pub enum Claim {
    Fact(Atom),
    Same(Term, Term),
}

/// Why an entry's claim holds.
#[derive(Drop)]
pub enum Reason {
    /// It is the expanded fact of an atom, by the atom's number, at a place of its view's body.
    Expanded(usize, usize),
    /// The rule of that number asks for it at a match: the entries of the facts of its body, in order, and then those of
    /// the equalities that the match uses.
    Step(usize, Chain),
    /// The entries are a chain of equalities from the one term to the other.
    Equal(Chain),
}

/// A claim, the set of the atoms that it rests on, and its reason.
#[derive(Drop)]
pub struct Entry {
    pub claim: Claim,
    pub product: RowBits,
    pub reason: Reason,
}

/// The claim that the two terms are one.
pub fn same(alloc: Global, left: &Term, right: &Term) -> Result<Claim, OutOfMemory>
    ensures { IfOk result (λ it. it ≡ Same left.now right.now) }
{
    let left = left.copy(alloc)?;
    let right = right.copy(alloc)?;
    Ok(Claim::Same(left, right))
}

impl Replicate for Claim {
    fn copy(&self, alloc: Global) -> Result<Claim, OutOfMemory> {
        match self {
            Claim::Fact(fact) => Ok(Claim::Fact(fact.copy(alloc)?)),
            Claim::Same(left, right) => same(alloc, left, right),
        }
    }
}

impl Replicate for Reason {
    fn copy(&self, alloc: Global) -> Result<Reason, OutOfMemory> {
        match self {
            Reason::Expanded(atom, place) => Ok(Reason::Expanded(*atom, *place)),
            Reason::Step(number, places) => Ok(Reason::Step(*number, places.copy(alloc)?)),
            Reason::Equal(places) => Ok(Reason::Equal(places.copy(alloc)?)),
        }
    }
}

impl Replicate for Entry {
    fn copy(&self, alloc: Global) -> Result<Entry, OutOfMemory> {
        let product = self.product.copy(alloc)?;
        let reason = self.reason.copy(alloc)?;
        let claim = self.claim.copy(alloc)?;
        Ok(Entry {
            claim,
            product,
            reason,
        })
    }
}

/// Whether both are the same fact.
fn is_same_fact(fact: &Atom, other: &Atom) -> bool
    ensures { IsTrue result ↔ (fact.now ≡ other.now) }
{
    fact.relation == other.relation && equal_terms(fact.terms.items(), other.terms.items())
}

/// Whether both are the same two terms, in either order.
fn is_same_pair(left: &Term, right: &Term, other_left: &Term, other_right: &Term) -> bool
    ensures { IsTrue result ↔ (((left.now ≡ other_left.now) × (right.now ≡ other_right.now))
        ⊎ ((left.now ≡ other_right.now) × (right.now ≡ other_left.now))) }
{
    if left.equal(other_left) && right.equal(other_right) {
        return true;
    }
    left.equal(other_right) && right.equal(other_left)
}

impl Claim {
    /// Whether the claim says that the two terms are one, in either order.
    pub fn says_one(&self, term: &Term, other: &Term) -> bool
        ensures { IsTrue result ↔ SaysOne self.now term.now other.now }
    {
        match self {
            Claim::Fact(_) => false,
            Claim::Same(left, right) => is_same_pair(left, right, term, other),
        }
    }

    /// Whether the two are one claim: the same fact, or an equality of the same two terms, in either order.
    pub fn is_same(&self, other: &Claim) -> bool
        ensures { IsTrue result ↔ AreSameClaim self.now other.now }
    {
        match self {
            Claim::Fact(fact) => match other {
                Claim::Fact(other_fact) => is_same_fact(fact, other_fact),
                Claim::Same(_, _) => false,
            },
            Claim::Same(left, right) => match other {
                Claim::Fact(_) => false,
                Claim::Same(other_left, other_right) => {
                    is_same_pair(left, right, other_left, other_right)
                }
            },
        }
    }
}
