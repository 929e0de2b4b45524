//! Entries that a match may use: those of a relation, and those that say that two terms are one.
ghost use Rattle.std.specs.Prelude.{◌≡◌, ℕ, Some, Contains, length, slice_get, IfOk, IfSome, OnOk, MatchOption, IsTrue, false};
ghost use Rattle.esto_known.specs.declared.group.Group.{Group};
ghost use Rattle.esto_chase_laws.specs.Worlds.{AreOfCount, SaysOne};
ghost use Rattle.esto_chase_laws.specs.declared.entry.Entry.{Entry};
ghost use Rattle.esto_known.specs.Live.{AreAllLive, AreAllFacts, AreOld, IsFreeLink};

use crate::group::Group;
use crate::known::Known;
use crate::places::put_all;
use esto_bits::RowBits;
use esto_chase_laws::Entry;
use esto_term::{OutOfMemory, Places, Term, Values};
use std::alloc::Global;

/// The group at the place, if there is one.
pub fn group_at(groups: &[Group], at: usize) -> Option<&Group>
    ensures { MatchOption result ((group : Group) → ¬ (slice_get groups.now at ≡ Some group))
        (λ group. slice_get groups.now at ≡ Some group.now) }
{
    groups.get(at)
}

/// Puts in the places of a group.
fn put_group(groups: &[Group], at: usize, places: &mut Places) -> Result<(), OutOfMemory>
    ensures kept { OnOk result ((place : ℕ)
        → Contains places.old place → Contains places.new place) }
    ensures there { OnOk result ((group : Group) → slice_get groups.now at ≡ Some group
        → (place : ℕ) → Contains group.places place → Contains places.new place) }
{
    match group_at(groups, at) {
        None => Ok(()),
        Some(group) => put_all(group.places.items(), places),
    }
}

/// Puts in the places of the groups that are found.
fn put_groups(groups: &[Group], found: &[usize], places: &mut Places) -> Result<(), OutOfMemory>
    ensures { OnOk result ((at : ℕ) → Contains found.now at → (group : Group)
        → slice_get groups.now at ≡ Some group → (place : ℕ) → Contains group.places place
        → Contains places.new place) }
{
    'found: for at in found {
        put_group(groups, *at, places)?;
    }
    Ok(())
}

/// The places of entries, among which is one for each fact of the relation.
pub fn facts_of(alloc: Global, known: &Known, relation: usize) -> Result<Places, OutOfMemory>
    ensures { IfOk result (λ it. AreAllFacts known.now relation it) }
{
    let groups = known.groups();
    let found = groups.of_relation(alloc, relation)?;
    let mut places = Values::new(alloc);
    put_groups(groups.items(), found.items(), &mut places).and(Ok(places))
}

/// The places of entries, among which is one for each equality of the two terms.
pub fn links_of<'a>(known: &'a Known, own: &Term, goal: &Term) -> &'a [usize]
    ensures { AreAllLive known.now result.now (λ claim. SaysOne claim own.now goal.now) }
{
    match known.groups().linking(own, goal) {
        None => &[],
        Some(group) => group.places.items(),
    }
}

/// The entry at the place, if it says that the two terms are one.
pub fn link_at<'a>(known: &'a Known, own: &Term, goal: &Term, place: usize) -> Option<&'a Entry>
    ensures { MatchOption result
        ((entry : Entry) → slice_get known.now place ≡ Some entry
        → ¬ (SaysOne entry.claim own.now goal.now))
        (λ entry. (slice_get known.now place ≡ Some entry.now)
        × SaysOne entry.now.claim own.now goal.now) }
{
    match known.items().get(place) {
        None => None,
        Some(entry) => {
            if entry.claim.says_one(own, goal) {
                return Some(entry);
            }
            None
        }
    }
}

/// Whether the entry at the place says that the two terms are one, from a place on, and rests on no atom beyond the
/// set.
fn is_free(
    known: &Known,
    own: &Term,
    goal: &Term,
    floor: usize,
    product: &RowBits,
    place: usize,
) -> bool
    requires { AreOfCount (length product.now) known.now }
    ensures { IsTrue result → IsFreeLink known.now floor own.now goal.now product.now place }
{
    if place < floor {
        return false;
    }
    match link_at(known, own, goal, place) {
        None => false,
        Some(entry) => entry.product.within(product),
    }
}

/// The place of an equality of the two terms, from a place on, that rests on no atom beyond the set, if there is one.
pub fn free_link(
    known: &Known,
    own: &Term,
    goal: &Term,
    floor: usize,
    product: &RowBits,
    links: &[usize],
) -> Option<usize>
    requires { AreOfCount (length product.now) known.now }
    ensures { IfSome result (λ at. IsFreeLink known.now floor own.now goal.now product.now at) }
{
    'links: for place in links {
        if is_free(known, own, goal, floor, product, *place) {
            return Some(*place);
        }
    }
    None
}

/// Whether one of the places is none of the first few.
pub fn has_later(places: &[usize], since: usize) -> bool
    ensures new { IsTrue result → ¬ (AreOld since places.now) }
    ensures old { result ≡ false → AreOld since places.now }
{
    'places: for place in places {
        if *place >= since {
            return true;
        }
    }
    false
}
