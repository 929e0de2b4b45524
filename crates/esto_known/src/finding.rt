//! Groups found by what they claim.
ghost use Rattle.std.specs.Prelude.{◌≡◌, ◌↔◌, Contains, Some, slice_get, IsTrue, MatchOption};
ghost use Rattle.esto_chase_laws.specs.Claims.{AreSameClaim};
ghost use Rattle.esto_chase_laws.specs.Worlds.{SaysOne};
ghost use Rattle.esto_chase_laws.specs.declared.entry.Claim.TheVariants.{Fact as Stated};
ghost use Rattle.esto_known.specs.Indexes.{AreKeysOf};
ghost use Rattle.esto_known.specs.Groups.{claims_of, StatesAt, LinksAt};
ghost use Rattle.esto_known.specs.declared.group.Group.{Group};

use crate::group::Group;
use crate::hashes::{fact_hash, pair_hash, term_hash};
use crate::keys::Keys;
use esto_chase_laws::Claim;
use esto_semantics::Atom;
use esto_term::{Term, equal_terms};

/// Whether the claim is the fact.
fn states(claim: &Claim, fact: &Atom) -> bool
    ensures { IsTrue result ↔ (claim.now ≡ Stated fact.now) }
{
    match claim {
        Claim::Fact(own) => {
            own.relation == fact.relation && equal_terms(own.terms.items(), fact.terms.items())
        }
        Claim::Same(_, _) => false,
    }
}

/// Whether the group at the place is that of the fact.
fn states_at(groups: &[Group], place: usize, fact: &Atom) -> bool
    ensures { IsTrue result ↔ StatesAt groups.now fact.now place }
{
    match groups.get(place) {
        None => false,
        Some(group) => states(&group.claim, fact),
    }
}

/// The place of the fact's group.
pub(crate) fn place_stating(groups: &[Group], keys: &Keys, fact: &Atom) -> Option<usize>
    requires { AreKeysOf keys.now (claims_of groups.now) }
    ensures { MatchOption result
        ((group : Group) → Contains groups.now group → ¬ (group.claim ≡ Stated fact.now))
        (StatesAt groups.now fact.now) }
{
    let mut next = keys.by_claim.last_of(&[fact_hash(fact)]);
    'places: while next > 0 {
        let place = next - 1;
        if states_at(groups, place, fact) {
            return Some(place);
        }
        next = keys.by_claim.before(place);
    }
    None
}

/// Whether the group at the place is that of an equality of the two terms.
fn links_at(groups: &[Group], place: usize, term: &Term, other: &Term) -> bool
    ensures { IsTrue result ↔ LinksAt groups.now term.now other.now place }
{
    match groups.get(place) {
        None => false,
        Some(group) => group.claim.says_one(term, other),
    }
}

/// The place of the group of the equality of the two terms, in either order.
pub(crate) fn place_linking(
    groups: &[Group],
    keys: &Keys,
    term: &Term,
    other: &Term,
) -> Option<usize>
    requires { AreKeysOf keys.now (claims_of groups.now) }
    ensures { MatchOption result
        ((group : Group) → Contains groups.now group → ¬ (SaysOne group.claim term.now other.now))
        (LinksAt groups.now term.now other.now) }
{
    let key = [pair_hash(term_hash(term), term_hash(other))];
    let mut next = keys.by_claim.last_of(&key);
    'places: while next > 0 {
        let place = next - 1;
        if links_at(groups, place, term, other) {
            return Some(place);
        }
        next = keys.by_claim.before(place);
    }
    None
}

/// The place of the claim's group.
pub(crate) fn place_of(groups: &[Group], keys: &Keys, claim: &Claim) -> Option<usize>
    requires { AreKeysOf keys.now (claims_of groups.now) }
    ensures { MatchOption result
        ((group : Group) → Contains groups.now group → ¬ (AreSameClaim claim.now group.claim))
        (λ place. (group : Group) × (slice_get groups.now place ≡ Some group)
        × AreSameClaim claim.now group.claim) }
{
    match claim {
        Claim::Fact(fact) => place_stating(groups, keys, fact),
        Claim::Same(left, right) => place_linking(groups, keys, left, right),
    }
}
