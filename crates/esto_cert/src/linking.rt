//! Terms that named equalities link.
ghost use Rattle.std.specs.Prelude.{◌≡◌, ◌↔◌, List, IsTrue, IfOk};
ghost use Rattle.std.specs.List.{AllZip};
ghost use Rattle.esto_term.specs.declared.term.Term.{Term};
ghost use Rattle.esto_semantics.specs.declared.fact.Fact.{Fact};
ghost use Rattle.esto_cert.specs.Linking.{IsAmong, standing, Tells, StandsAsOne};

use esto_term::{List, OutOfMemory, Replicate, Term};
use std::alloc::Global;

/// Two terms that are one; or that the right one stands for the left one.
#[derive(Drop)]
pub struct Equality {
    pub left: Term,
    pub right: Term,
}

/// A list of equalities.
pub type Equalities = List<Equality>;

/// The equality of the two terms, copied.
pub fn equality_of(alloc: Global, left: &Term, right: &Term) -> Result<Equality, OutOfMemory>
    ensures { IfOk result (λ it. it ≡ record { left = left.now; right = right.now }) }
{
    let left = left.copy(alloc)?;
    let right = right.copy(alloc)?;
    Ok(Equality { left, right })
}

/// The term that stands for a term.
fn standing<'a>(renamings: &'a [Equality], term: &'a Term) -> &'a Term
    ensures { result.now ≡ standing renamings.now term.now }
{
    let mut stands = term;
    'renamings: for renaming in renamings {
        if stands.compare(&renaming.left).is_eq() {
            stands = &renaming.right;
        }
    }
    stands
}

/// Whether one term stands for both.
pub fn stands_as_one(renamings: &[Equality], term: &Term, other: &Term) -> bool
    ensures { IsTrue result ↔ StandsAsOne renamings.now term.now other.now }
{
    standing(renamings, term).equal(standing(renamings, other))
}

/// Whether one term stands for both terms at each place.
pub fn stand_as_one(renamings: &[Equality], terms: &[Term], others: &[Term]) -> bool
    ensures { IsTrue result ↔ AllZip (StandsAsOne renamings.now) terms.now others.now }
{
    if terms.len() != others.len() {
        return false;
    }
    'places: for place in 0..terms.len() {
        if !stands_as_one(renamings, &terms[place], &others[place]) {
            return false;
        }
    }
    true
}

/// What stands for the sides of an equality: the one is to stand for the other.
fn renaming_of(
    alloc: Global,
    renamings: &[Equality],
    equality: &Equality,
) -> Result<Equality, OutOfMemory>
    ensures { IfOk result (λ it. it ≡ record {
      left = standing renamings.now equality.now.left;
      right = standing renamings.now equality.now.right;
    }) }
{
    let left = standing(renamings, &equality.left);
    let right = standing(renamings, &equality.right);
    equality_of(alloc, left, right)
}

/// Renamings under which one term stands for two exactly where the equalities link them.
pub fn renamings_of(alloc: Global, equalities: &[Equality]) -> Result<Equalities, OutOfMemory>
    ensures { IfOk result (λ it.
        (facts : List (Fact Term)) → Tells it (IsAmong facts equalities.now)) }
{
    let mut renamings = List::new(alloc);
    'equalities: for equality in equalities {
        let renaming = renaming_of(alloc, renamings.items(), equality)?;
        renamings.push(renaming)?;
    }
    Ok(renamings)
}
