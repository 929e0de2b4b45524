//! How a fact goes on from a way: the equalities by which its terms are one with what they have to meet.
ghost use Rattle.std.specs.Prelude.{◌≡◌, ◌++◌, ◌∷◌, ◌<◌, ◌≤◌, ◌⊎◌, [], List, Some, Bool, Contains, length, slice_get, IsTrue, IfOk, OnOk, ◌==◌, false, take};
ghost use Rattle.esto_term.specs.Sets.{Within};
ghost use Rattle.esto_chase_laws.specs.Worlds.{AreOfCount, SaysOne};
ghost use Rattle.esto_chase_laws.specs.declared.entry.Entry.{Entry};
ghost use Rattle.esto_condchase.specs.declared.passing.Support.{Support};
ghost use Rattle.esto_condchase.specs.Ways.{AreOneAt, Grown, IsTold, HasSupport, IsLonger, IsLinkedFrom, IsPassedAt, PassesIn, AreLonger, AreSupports, floor_of, meets};
ghost use Rattle.esto_known.specs.KeptWays.{AreCounted};
ghost use Rattle.esto_known.specs.Live.{AreAllLive};

use esto_bits::RowBits;
use esto_chase_laws::Entry;
use esto_known::{Kept, Known, free_link, has_later, link_at, links_of, term_at};
use esto_prov::{met_first, only, union_of};
use esto_term::{List, OutOfMemory, Places, Replicate, Term};
use std::alloc::Global;

/// The equalities that a way uses, and the union of all products that it rests on.
#[derive(Drop)]
pub struct Support {
    pub links: Places,
    pub product: RowBits,
}

/// A fact that goes on from a way: `from` are the terms of the atoms so far, which meet `to`; `terms` and `owns` are
/// those of the next atom and of the fact. What stands at the places tells all that is asked for later, and has this
/// key. Nothing is owed where what stands at the two sides' places is one already.
#[derive(Clone, Copy)]
pub struct Step<'a> {
    pub known: &'a Known,
    pub from: &'a [Term],
    pub terms: &'a [Term],
    pub to: &'a [Term],
    pub owns: &'a [Term],
    pub sides: Option<(usize, usize)>,
    pub places: &'a [usize],
    pub key: u64,
}

/// Whether what stands at the two sides' places is one already, by an entry whose product is within the set if not by
/// itself.
fn are_one(step: &Step, product: &RowBits) -> bool
    requires { AreOfCount (length product.now) step.now.known.now }
    ensures { IsTrue result → AreOneAt step.now.known.now step.now.sides
        (step.now.to.now ++ step.now.owns.now) product.now }
{
    let Some((left, right)) = step.sides else {
        return false;
    };
    let Some(own) = term_at(left, step.to, step.owns) else {
        return false;
    };
    let Some(other) = term_at(right, step.to, step.owns) else {
        return false;
    };
    own.equal(other) || step.known.says_one(own, other, product)
}

/// Whether a kept way tells the same as the step, with a product within the set, or nothing is owed in the set's world.
pub fn is_settled(step: &Step, product: &RowBits, kept: &Kept) -> bool
    requires counts { AreOfCount (length product.now) step.now.known.now }
    requires counted { AreCounted (length product.now) kept.now }
    ensures { IsTrue result → IsTold step.now.known.now step.now.sides step.now.places.now kept.now
        (step.now.to.now ++ step.now.owns.now) product.now }
{
    if are_one(step, product) {
        return true;
    }
    kept.covers(step.key, product, step.places, step.to, step.owns)
}

/// The support with the equality of an entry more, which has that product.
fn with_link(
    alloc: Global,
    before: &Support,
    place: usize,
    product: RowBits,
) -> Result<Support, OutOfMemory>
    ensures { IfOk result (λ it. it ≡ record {
      links = before.now.links ++ place ∷ [];
      product = product;
    }) }
{
    let mut links = before.links.copy(alloc)?;
    links.push(place).and(Ok(Support { links, product }))
}

/// Adds the support with an equality more, unless a kept way tells the same with a product within its own, or nothing
/// is owed.
fn add_longer(
    alloc: Global,
    step: &Step,
    before: &Support,
    place: usize,
    entry: &Entry,
    kept: &Kept,
    next: &mut List<Support>,
) -> Result<(), OutOfMemory>
    requires at { slice_get step.now.known.now place ≡ Some entry.now }
    requires counts { AreOfCount (length before.now.product) step.now.known.now }
    requires counted { AreCounted (length before.now.product) kept.now }
    ensures grown { OnOk result ((own goal : Term) → SaysOne entry.now.claim own goal
        → Grown (IsLonger step.now.known.now own goal before.now) next.old next.new) }
    ensures goes { OnOk result ((set : List Bool) → Within before.now.product set
        → Within entry.now.product set → HasSupport next.new set
        ⊎ IsTold step.now.known.now step.now.sides step.now.places.now kept.now
        (step.now.to.now ++ step.now.owns.now) set) }
{
    let product = union_of(alloc, &before.product, &entry.product)?;
    if is_settled(step, &product, kept) {
        return Ok(());
    }
    let longer = with_link(alloc, before, place, product)?;
    next.push(longer)
}

/// Adds the support with the equality of the entry at the place more, if it is one of the two terms, from a place on.
fn longer_at(
    alloc: Global,
    step: &Step,
    own: &Term,
    goal: &Term,
    floor: usize,
    before: &Support,
    place: usize,
    kept: &Kept,
    next: &mut List<Support>,
) -> Result<(), OutOfMemory>
    requires counts { AreOfCount (length before.now.product) step.now.known.now }
    requires counted { AreCounted (length before.now.product) kept.now }
    ensures grown { OnOk result
        (Grown (IsLonger step.now.known.now own.now goal.now before.now) next.old next.new) }
    ensures goes { OnOk result ((set : List Bool) (entry : Entry) → floor ≤ place
        → slice_get step.now.known.now place ≡ Some entry → SaysOne entry.claim own.now goal.now
        → Within before.now.product set → Within entry.product set → HasSupport next.new set
        ⊎ IsTold step.now.known.now step.now.sides step.now.places.now kept.now
        (step.now.to.now ++ step.now.owns.now) set) }
{
    if place < floor {
        return Ok(());
    }
    match link_at(step.known, own, goal, place) {
        None => Ok(()),
        Some(entry) => add_longer(alloc, step, before, place, entry, kept, next),
    }
}

/// Adds the support with one of the equalities of the two terms more. One that rests on no atom beyond those of the
/// support is enough; else each is tried.
fn longer(
    alloc: Global,
    step: &Step,
    own: &Term,
    goal: &Term,
    floor: usize,
    before: &Support,
    links: &[usize],
    kept: &Kept,
    next: &mut List<Support>,
) -> Result<(), OutOfMemory>
    requires links { AreAllLive step.now.known.now links.now
        (λ claim. SaysOne claim own.now goal.now) }
    requires counts { AreOfCount (length before.now.product) step.now.known.now }
    requires counted { AreCounted (length before.now.product) kept.now }
    ensures grown { OnOk result
        (Grown (IsLonger step.now.known.now own.now goal.now before.now) next.old next.new) }
    ensures goes { OnOk result ((set : List Bool) → Within before.now.product set
        → IsLinkedFrom step.now.known.now floor set own.now goal.now → HasSupport next.new set
        ⊎ IsTold step.now.known.now step.now.sides step.now.places.now kept.now
        (step.now.to.now ++ step.now.owns.now) set) }
{
    if let Some(place) = free_link(step.known, own, goal, floor, &before.product, links) {
        return longer_at(alloc, step, own, goal, floor, before, place, kept, next);
    }
    'links: for place in links {
        longer_at(alloc, step, own, goal, floor, before, *place, kept, next)?;
    }
    Ok(())
}

/// All of the given supports, each with one of the equalities of the two terms more.
fn all_longer(
    alloc: Global,
    step: &Step,
    own: &Term,
    goal: &Term,
    floor: usize,
    given: &[Support],
    kept: &Kept,
    count: usize,
) -> Result<List<Support>, OutOfMemory>
    requires apart { ¬ (own.now ≡ goal.now) }
    requires given { (support : Support) → Contains given.now support
        → length support.product ≡ count }
    requires counts { AreOfCount count step.now.known.now }
    requires counted { AreCounted count kept.now }
    ensures { IfOk result (AreLonger step.now.known.now own.now goal.now floor
        (IsTold step.now.known.now step.now.sides step.now.places.now kept.now
        (step.now.to.now ++ step.now.owns.now)) given.now) }
{
    let links = links_of(step.known, own, goal);
    let mut next = List::new(alloc);
    'given: for before in given {
        longer(
            alloc, step, own, goal, floor, before, links, kept, &mut next,
        )?;
    }
    Ok(next)
}

/// Goes on by one of the fact's terms.
fn pass_term(
    alloc: Global,
    step: &Step,
    index: usize,
    floor: usize,
    kept: &Kept,
    count: usize,
    supports: &mut List<Support>,
) -> Result<(), OutOfMemory>
    requires lengths { length step.now.from.now ≡ length step.now.to.now }
    requires owns { index < length step.now.owns.now }
    requires terms { index < length step.now.terms.now }
    requires given { (support : Support) → Contains supports.old support
        → length support.product ≡ count }
    requires counts { AreOfCount count step.now.known.now }
    requires counted { AreCounted count kept.now }
    ensures { OnOk result ((own term : Term) → slice_get step.now.owns.now index ≡ Some own
        → slice_get step.now.terms.now index ≡ Some term
        → AreLonger step.now.known.now own (meets step.now.from.now step.now.terms.now
        step.now.to.now step.now.owns.now term) floor
        (IsTold step.now.known.now step.now.sides step.now.places.now kept.now
        (step.now.to.now ++ step.now.owns.now))
        supports.old supports.new) }
{
    let own = &step.owns[index];
    let goal = met_first(
        step.from,
        step.to,
        step.terms,
        step.owns,
        &step.terms[index],
    );
    if own.equal(goal) {
        return Ok(());
    }
    *supports = all_longer(alloc, step, own, goal, floor, supports.items(), kept, count)?;
    Ok(())
}

/// Whether no equality makes the term at a place of the row one with what it has to meet: true comes only where the
/// row passes in no world.
fn is_stuck_at(step: &Step, at: usize) -> bool
    requires lengths { length step.now.from.now ≡ length step.now.to.now }
    requires rows { length step.now.owns.now ≡ length step.now.terms.now }
    requires at { at < length step.now.owns.now }
    ensures { IsTrue result → (set : List Bool) → ¬ (PassesIn step.now.known.now (meets
        step.now.from.now step.now.terms.now step.now.to.now step.now.owns.now) step.now.terms.now
        step.now.owns.now set) }
{
    let own = &step.owns[at];
    let goal = met_first(step.from, step.to, step.terms, step.owns, &step.terms[at]);
    if own.equal(goal) {
        return false;
    }
    links_of(step.known, own, goal).is_empty()
}

/// Whether some term of the row is so: true comes only where the row passes in no world.
fn is_stuck(step: &Step) -> bool
    requires lengths { length step.now.from.now ≡ length step.now.to.now }
    requires rows { length step.now.owns.now ≡ length step.now.terms.now }
    ensures { IsTrue result → (set : List Bool) → ¬ (PassesIn step.now.known.now (meets
        step.now.from.now step.now.terms.now step.now.to.now step.now.owns.now) step.now.terms.now
        step.now.owns.now set) }
{
    'row: for at in 0..step.owns.len() {
        if is_stuck_at(step, at) {
            return true;
        }
    }
    false
}

/// Whether the term at a place of the row may be one with what it has to meet by an equality from a place on.
fn is_linked_at(step: &Step, at: usize, floor: usize) -> bool
    requires lengths { length step.now.from.now ≡ length step.now.to.now }
    requires rows { length step.now.owns.now ≡ length step.now.terms.now }
    requires at { at < length step.now.owns.now }
    ensures { result ≡ false → IsPassedAt step.now.known.now (meets step.now.from.now
        step.now.terms.now step.now.to.now step.now.owns.now) step.now.terms.now step.now.owns.now
        floor [] (λ _. ⊥) at }
{
    let own = &step.owns[at];
    let goal = met_first(step.from, step.to, step.terms, step.owns, &step.terms[at]);
    if own.equal(goal) {
        return false;
    }
    has_later(links_of(step.known, own, goal), floor)
}

/// Whether some term of the row may be so.
fn is_linked_anew(step: &Step, floor: usize) -> bool
    requires lengths { length step.now.from.now ≡ length step.now.to.now }
    requires rows { length step.now.owns.now ≡ length step.now.terms.now }
    ensures { result ≡ false → (set : List Bool) → PassesIn step.now.known.now (meets
        step.now.from.now step.now.terms.now step.now.to.now step.now.owns.now) step.now.terms.now
        step.now.owns.now set → PassesIn (take floor step.now.known.now) (meets step.now.from.now
        step.now.terms.now step.now.to.now step.now.owns.now) step.now.terms.now
        step.now.owns.now set }
{
    'row: for at in 0..step.owns.len() {
        if is_linked_at(step, at, floor) {
            return true;
        }
    }
    false
}

/// Whether the row passes in no world, or a floor is given and no equality from there on lets it pass: true comes
/// only where the entries before a floor let it pass wherever it does.
pub fn is_old(step: &Step, floor: usize) -> bool
    requires lengths { length step.now.from.now ≡ length step.now.to.now }
    requires rows { length step.now.owns.now ≡ length step.now.terms.now }
    ensures { IsTrue result → (set : List Bool) → PassesIn step.now.known.now (meets
        step.now.from.now step.now.terms.now step.now.to.now step.now.owns.now) step.now.terms.now
        step.now.owns.now set → (0 < floor) × PassesIn (take floor step.now.known.now) (meets
        step.now.from.now step.now.terms.now step.now.to.now step.now.owns.now) step.now.terms.now
        step.now.owns.now set }
{
    if is_stuck(step) {
        return true;
    }
    if floor == 0 {
        return false;
    }
    !is_linked_anew(step, floor)
}

/// At one place of a row a least place is asked for, else none.
fn floor_of(at: usize, floor: usize, index: usize) -> usize
    ensures { result ≡ floor_of at floor index }
{
    if index == at { floor } else { 0 }
}

/// What goes on from the start by all of the fact's terms; at one of them by an equality from a place on.
pub fn through_row(
    alloc: Global,
    step: &Step,
    at: usize,
    floor: usize,
    start: Support,
    kept: &Kept,
    count: usize,
) -> Result<List<Support>, OutOfMemory>
    requires lengths { length step.now.from.now ≡ length step.now.to.now }
    requires rows { length step.now.owns.now ≡ length step.now.terms.now }
    requires count { length start.product ≡ count }
    requires counts { AreOfCount count step.now.known.now }
    requires counted { AreCounted count kept.now }
    ensures { IfOk result (AreSupports step.now.known.now (meets step.now.from.now
        step.now.terms.now step.now.to.now step.now.owns.now) step.now.terms.now
        step.now.owns.now at floor
        (IsTold step.now.known.now step.now.sides step.now.places.now kept.now
        (step.now.to.now ++ step.now.owns.now)) start
        (length step.now.owns.now)) }
{
    let mut supports = only(alloc, start)?;
    'row: for index in 0..step.owns.len() {
        pass_term(
            alloc,
            step,
            index,
            floor_of(at, floor, index),
            kept,
            count,
            &mut supports,
        )?;
    }
    Ok(supports)
}
