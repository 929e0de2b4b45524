//! Goes on from ways by one atom, with each fact that is alike to it. A way is made only where no kept way tells the
//! same.
ghost use Rattle.std.specs.Prelude.{◌≡◌, ◌++◌, [], ◌⊎◌, ◌<◌, ℕ, List, Bool, true, false, MatchOption, Some, Contains, length, slice_get, take, IsTrue, IfOk, OnOk};
ghost use Rattle.esto_term.specs.declared.term.Term.{Term};
ghost use Rattle.esto_term.specs.Sets.{Within, united};
ghost use Rattle.esto_semantics.specs.declared.fact.Fact.{Fact};
ghost use Rattle.esto_chase_laws.specs.WorldMatches.{IsLike};
ghost use Rattle.esto_chase_laws.specs.Worlds.{AreOfCount};
ghost use Rattle.esto_chase_laws.specs.declared.entry.Claim.TheVariants.{Fact as Stated};
ghost use Rattle.esto_chase_laws.specs.declared.entry.Entry.{Entry};
ghost use Rattle.esto_condchase.specs.declared.passing.Support.{Support};
ghost use Rattle.esto_known.specs.declared.way.Way.{Way};
ghost use Rattle.esto_condchase.specs.Ways.{Grown, IsTold, extended, meets, PassesTo, PassesIn, IsPassedAt, ComesBy, Comes, GoesOn};
ghost use Rattle.esto_known.specs.KeptWays.{AreCounted, HasWay};
ghost use Rattle.esto_known.specs.Live.{AreAllFacts, AreFresh};

use crate::passing::{Step, Support, is_old, is_settled, through_row};
use esto_bits::RowBits;
use esto_chase_laws::Entry;
use esto_known::{Kept, Known, Way, facts_with, has_later, hash_at, is_new};
use esto_prov::{both, like, met_first, union_of};
use esto_semantics::Atom;
use esto_term::{List, OutOfMemory, Places, Replicate, Term};
use std::alloc::Global;

/// A support of these equalities and this product.
fn support_of(alloc: Global, links: &Places, product: &RowBits) -> Result<Support, OutOfMemory>
    ensures { IfOk result (λ it. it ≡ record { links = links.now; product = product.now }) }
{
    let links = links.copy(alloc)?;
    let product = product.copy(alloc)?;
    Ok(Support { links, product })
}

/// The way with a fact more, of the entry at a place, whose terms go through with a support.
fn extended(
    alloc: Global,
    step: &Step,
    before: &Way,
    place: usize,
    support: &Support,
) -> Result<Way, OutOfMemory>
    requires { step.now.to.now ≡ before.now.to }
    ensures { IfOk result (λ it. it ≡ extended before.now place step.now.owns.now support.now) }
{
    let facts = facts_with(alloc, before, place)?;
    let to = both(alloc, step.to, step.owns)?;
    let Support { links, product } = support_of(alloc, &support.links, &support.product)?;
    Ok(Way {
        facts,
        links,
        product,
        to,
    })
}

/// Keeps the way that goes on with a support, unless a kept one tells the same, or nothing is owed.
fn keep(
    alloc: Global,
    step: &Step,
    before: &Way,
    place: usize,
    support: &Support,
    kept: &mut Kept,
) -> Result<(), OutOfMemory>
    requires to { step.now.to.now ≡ before.now.to }
    requires counts { AreOfCount (length support.now.product) step.now.known.now }
    requires counted { AreCounted (length support.now.product) kept.old }
    ensures grown { OnOk result (Grown
        (λ way. way ≡ extended before.now place step.now.owns.now support.now)
        kept.old kept.new) }
    ensures there { OnOk result (IsTold step.now.known.now step.now.sides step.now.places.now
        kept.new (step.now.to.now ++ step.now.owns.now) support.now.product) }
{
    if is_settled(step, &support.product, kept) {
        return Ok(());
    }
    let way = extended(alloc, step, before, place, support)?;
    kept.push(alloc, step.key, way)
}

/// Keeps the ways that go on with the supports.
fn keep_all(
    alloc: Global,
    step: &Step,
    before: &Way,
    place: usize,
    supports: &[Support],
    count: usize,
    kept: &mut Kept,
) -> Result<(), OutOfMemory>
    requires to { step.now.to.now ≡ before.now.to }
    requires supports { (support : Support) → Contains supports.now support
        → length support.product ≡ count }
    requires counts { AreOfCount count step.now.known.now }
    requires counted { AreCounted count kept.old }
    ensures grown { OnOk result (Grown
        (λ way. (support : Support) × Contains supports.now support
        × (way ≡ extended before.now place step.now.owns.now support))
        kept.old kept.new) }
    ensures there { OnOk result ((support : Support) → Contains supports.now support
        → IsTold step.now.known.now step.now.sides step.now.places.now kept.new
        (step.now.to.now ++ step.now.owns.now) support.product) }
{
    'supports: for support in supports {
        keep(alloc, step, before, place, support, kept)?;
    }
    Ok(())
}

/// Keeps the ways that go on with the fact of the entry at a place; at one of its terms by an equality from a place on.
fn pass(
    alloc: Global,
    step: &Step,
    before: &Way,
    place: usize,
    at: usize,
    floor: usize,
    product: &RowBits,
    count: usize,
    kept: &mut Kept,
) -> Result<(), OutOfMemory>
    requires to { step.now.to.now ≡ before.now.to }
    requires lengths { length step.now.from.now ≡ length step.now.to.now }
    requires rows { length step.now.owns.now ≡ length step.now.terms.now }
    requires product { (entry : Entry) × (slice_get step.now.known.now place ≡ Some entry)
        × (product.now ≡ united before.now.product entry.product) }
    requires count { length product.now ≡ count }
    requires counts { AreOfCount count step.now.known.now }
    requires counted { AreCounted count kept.old }
    ensures grown { OnOk result (Grown (ComesBy step.now.known.now step.now.from.now
        step.now.terms.now before.now place step.now.owns.now) kept.old kept.new) }
    ensures there { OnOk result ((set : List Bool) → Within product.now set
        → PassesTo step.now.known.now (meets step.now.from.now step.now.terms.now
        step.now.to.now step.now.owns.now) step.now.terms.now step.now.owns.now at floor set
        (length step.now.owns.now)
        → IsTold step.now.known.now step.now.sides step.now.places.now kept.new
        (step.now.to.now ++ step.now.owns.now) set) }
    ensures counted { OnOk result (AreCounted count kept.new) }
{
    let start = support_of(alloc, &before.links, product)?;
    let supports = through_row(alloc, step, at, floor, start, kept, count)?;
    keep_all(alloc, step, before, place, supports.items(), count, kept)
}

/// The same by an equality from a place on at one of the terms, unless this term is what it has to meet.
fn pass_at(
    alloc: Global,
    step: &Step,
    before: &Way,
    place: usize,
    at: usize,
    floor: usize,
    product: &RowBits,
    count: usize,
    kept: &mut Kept,
) -> Result<(), OutOfMemory>
    requires to { step.now.to.now ≡ before.now.to }
    requires lengths { length step.now.from.now ≡ length step.now.to.now }
    requires rows { length step.now.owns.now ≡ length step.now.terms.now }
    requires at { at < length step.now.owns.now }
    requires product { (entry : Entry) × (slice_get step.now.known.now place ≡ Some entry)
        × (product.now ≡ united before.now.product entry.product) }
    requires count { length product.now ≡ count }
    requires counts { AreOfCount count step.now.known.now }
    requires counted { AreCounted count kept.old }
    ensures grown { OnOk result (Grown (ComesBy step.now.known.now step.now.from.now
        step.now.terms.now before.now place step.now.owns.now) kept.old kept.new) }
    ensures there { OnOk result (IsPassedAt step.now.known.now (meets step.now.from.now
        step.now.terms.now step.now.to.now step.now.owns.now) step.now.terms.now step.now.owns.now
        floor product.now
        (IsTold step.now.known.now step.now.sides step.now.places.now kept.new
        (step.now.to.now ++ step.now.owns.now)) at) }
    ensures counted { OnOk result (AreCounted count kept.new) }
{
    let goal = met_first(step.from, step.to, step.terms, step.owns, &step.terms[at]);
    if step.owns[at].equal(goal) {
        return Ok(());
    }
    pass(alloc, step, before, place, at, floor, product, count, kept)
}

/// Keeps the ways that go on with the fact of the entry at a place, at some of its terms by an equality from a place
/// on.
fn pass_anew(
    alloc: Global,
    step: &Step,
    before: &Way,
    place: usize,
    floor: usize,
    product: &RowBits,
    count: usize,
    kept: &mut Kept,
) -> Result<(), OutOfMemory>
    requires to { step.now.to.now ≡ before.now.to }
    requires lengths { length step.now.from.now ≡ length step.now.to.now }
    requires rows { length step.now.owns.now ≡ length step.now.terms.now }
    requires product { (entry : Entry) × (slice_get step.now.known.now place ≡ Some entry)
        × (product.now ≡ united before.now.product entry.product) }
    requires count { length product.now ≡ count }
    requires counts { AreOfCount count step.now.known.now }
    requires counted { AreCounted count kept.old }
    ensures grown { OnOk result (Grown (ComesBy step.now.known.now step.now.from.now
        step.now.terms.now before.now place step.now.owns.now) kept.old kept.new) }
    ensures there { OnOk result ((at : ℕ) → at < length step.now.owns.now
        → IsPassedAt step.now.known.now (meets step.now.from.now
        step.now.terms.now step.now.to.now step.now.owns.now) step.now.terms.now step.now.owns.now
        floor product.now
        (IsTold step.now.known.now step.now.sides step.now.places.now kept.new
        (step.now.to.now ++ step.now.owns.now)) at) }
    ensures counted { OnOk result (AreCounted count kept.new) }
{
    'row: for at in 0..step.owns.len() {
        pass_at(alloc, step, before, place, at, floor, product, count, kept)?;
    }
    Ok(())
}

/// Keeps the ways that go on with the fact of the entry at a place, with a product, but where a floor is given for
/// those that use no equality from there on.
fn pass_within(
    alloc: Global,
    step: &Step,
    before: &Way,
    place: usize,
    floor: usize,
    product: &RowBits,
    count: usize,
    kept: &mut Kept,
) -> Result<(), OutOfMemory>
    requires to { step.now.to.now ≡ before.now.to }
    requires lengths { length step.now.from.now ≡ length step.now.to.now }
    requires rows { length step.now.owns.now ≡ length step.now.terms.now }
    requires product { (entry : Entry) × (slice_get step.now.known.now place ≡ Some entry)
        × (product.now ≡ united before.now.product entry.product) }
    requires count { length product.now ≡ count }
    requires counts { AreOfCount count step.now.known.now }
    requires counted { AreCounted count kept.old }
    ensures grown { OnOk result (Grown (ComesBy step.now.known.now step.now.from.now
        step.now.terms.now before.now place step.now.owns.now) kept.old kept.new) }
    ensures there { OnOk result ((set : List Bool) → Within product.now set
        → PassesIn step.now.known.now (meets step.now.from.now step.now.terms.now
        step.now.to.now step.now.owns.now) step.now.terms.now step.now.owns.now set
        → IsTold step.now.known.now step.now.sides step.now.places.now kept.new
        (step.now.to.now ++ step.now.owns.now) set
        ⊎ ((0 < floor) × PassesIn (take floor step.now.known.now) (meets step.now.from.now
        step.now.terms.now step.now.to.now step.now.owns.now) step.now.terms.now
        step.now.owns.now set)) }
    ensures counted { OnOk result (AreCounted count kept.new) }
{
    if is_settled(step, product, kept) {
        return Ok(());
    }
    if floor == 0 {
        let all = step.owns.len();
        return pass(alloc, step, before, place, all, 0, product, count, kept);
    }
    pass_anew(alloc, step, before, place, floor, product, count, kept)
}

/// The same with the product of the way and the entry, unless the row passes in no world, or with no equality from the
/// floor on.
fn pass_from(
    alloc: Global,
    step: &Step,
    before: &Way,
    place: usize,
    entry: &Entry,
    floor: usize,
    count: usize,
    kept: &mut Kept,
) -> Result<(), OutOfMemory>
    requires at { slice_get step.now.known.now place ≡ Some entry.now }
    requires to { step.now.to.now ≡ before.now.to }
    requires lengths { length step.now.from.now ≡ length step.now.to.now }
    requires rows { length step.now.owns.now ≡ length step.now.terms.now }
    requires count { length before.now.product ≡ count }
    requires counts { AreOfCount count step.now.known.now }
    requires counted { AreCounted count kept.old }
    ensures grown { OnOk result (Grown (ComesBy step.now.known.now step.now.from.now
        step.now.terms.now before.now place step.now.owns.now) kept.old kept.new) }
    ensures there { OnOk result ((set : List Bool) → Within before.now.product set
        → Within entry.now.product set
        → PassesIn step.now.known.now (meets step.now.from.now step.now.terms.now
        step.now.to.now step.now.owns.now) step.now.terms.now step.now.owns.now set
        → IsTold step.now.known.now step.now.sides step.now.places.now kept.new
        (step.now.to.now ++ step.now.owns.now) set
        ⊎ ((0 < floor) × PassesIn (take floor step.now.known.now) (meets step.now.from.now
        step.now.terms.now step.now.to.now step.now.owns.now) step.now.terms.now
        step.now.owns.now set)) }
    ensures counted { OnOk result (AreCounted count kept.new) }
{
    if is_old(step, floor) {
        return Ok(());
    }
    let product = union_of(alloc, &before.product, &entry.product)?;
    pass_within(alloc, step, before, place, floor, &product, count, kept)
}

/// What a search goes on by: the entries, the terms of the atoms so far, the next atom, the places of the two sides,
/// and those of what tells all that is asked for later. A way that uses nothing from a place on is not looked for,
/// unless that is 0, and neither is one by which what stands at the two sides' places is one already.
#[derive(Clone, Copy)]
pub struct Level<'a> {
    pub known: &'a Known,
    pub since: usize,
    pub from: &'a [Term],
    pub atom: &'a Atom,
    pub sides: Option<(usize, usize)>,
    pub places: &'a [usize],
}

/// The entry at the place and its fact, if it has one that is alike to the atom.
fn fact_at<'a>(known: &'a Known, atom: &Atom, place: usize) -> Option<(&'a Entry, &'a Atom)>
    ensures { MatchOption result
        ((entry : Entry) (fact : Fact Term) → slice_get known.now place ≡ Some entry
        → entry.claim ≡ Stated fact → ¬ (IsLike atom.now fact))
        (λ it. (slice_get known.now place ≡ Some it.0.now) × (it.0.now.claim ≡ Stated it.1.now)
        × IsLike atom.now it.1.now) }
{
    let Some(entry) = known.items().get(place) else {
        return None;
    };
    let Some(fact) = like(&entry.claim, atom) else {
        return None;
    };
    Some((entry, fact))
}

/// Keeps the ways that go on with the entry at a place, if it is a fact that is alike to the atom.
fn match_entry(
    alloc: Global,
    level: &Level,
    before: &Way,
    key: u64,
    place: usize,
    floor: usize,
    count: usize,
    kept: &mut Kept,
) -> Result<(), OutOfMemory>
    requires lengths { length level.now.from.now ≡ length before.now.to }
    requires count { length before.now.product ≡ count }
    requires counts { AreOfCount count level.now.known.now }
    requires counted { AreCounted count kept.old }
    ensures grown { OnOk result (Grown (Comes level.now.known.now level.now.from.now
        level.now.atom.now before.now) kept.old kept.new) }
    ensures goes { OnOk result ((entry : Entry) (fact : Fact Term) (set : List Bool)
        → slice_get level.now.known.now place ≡ Some entry → entry.claim ≡ Stated fact
        → IsLike level.now.atom.now fact → Within before.now.product set
        → Within entry.product set
        → PassesIn level.now.known.now (meets level.now.from.now level.now.atom.now.terms
        before.now.to fact.terms) level.now.atom.now.terms fact.terms set
        → IsTold level.now.known.now level.now.sides level.now.places.now kept.new
        (before.now.to ++ fact.terms) set
        ⊎ ((0 < floor) × PassesIn (take floor level.now.known.now) (meets level.now.from.now
        level.now.atom.now.terms before.now.to fact.terms) level.now.atom.now.terms fact.terms
        set)) }
    ensures counted { OnOk result (AreCounted count kept.new) }
{
    match fact_at(level.known, level.atom, place) {
        None => Ok(()),
        Some((entry, fact)) => {
            let step = Step {
                known: level.known,
                from: level.from,
                terms: level.atom.terms.items(),
                to: before.to.items(),
                owns: fact.terms.items(),
                sides: level.sides,
                places: level.places,
                key: key ^ hash_at(level.places, level.from.len(), fact.terms.items()),
            };
            pass_from(alloc, &step, before, place, entry, floor, count, kept)
        }
    }
}

/// The place from on which an equality is asked for: none, where the way or the entry is new.
fn floor_for(new: bool, place: usize, since: usize) -> usize
    ensures { 0 < result → (new ≡ false) × (place < since) × (result ≡ since) }
{
    if new || place >= since { 0 } else { since }
}

/// Whether a kept way tells all that any way which goes on from this one can tell, with a product within this one's:
/// true comes only where one does.
fn tells_all(level: &Level, before: &Way, key: u64, kept: &Kept) -> bool
    requires lengths { length level.now.from.now ≡ length before.now.to }
    requires counted { AreCounted (length before.now.product) kept.now }
    ensures { IsTrue result → (owns : List Term)
        → HasWay level.now.places.now kept.now (before.now.to ++ owns) before.now.product }
{
    if has_later(level.places, level.from.len()) {
        return false;
    }
    kept.covers(key, &before.product, level.places, before.to.items(), &[])
}

/// The facts to be tried: all with a new way, and with an old one those that may make something new of it.
fn tried_of<'a>(new: bool, facts: &'a [usize], fresh: &'a [usize]) -> &'a [usize]
    ensures { ((new ≡ true) × (result.now ≡ facts.now))
        ⊎ ((new ≡ false) × (result.now ≡ fresh.now)) }
{
    if new { facts } else { fresh }
}

/// Keeps the ways that go on from one with any of the facts, each of which is tried.
fn match_way(
    alloc: Global,
    level: &Level,
    before: &Way,
    facts: &[usize],
    fresh: &[usize],
    count: usize,
    kept: &mut Kept,
) -> Result<(), OutOfMemory>
    requires facts { AreAllFacts level.now.known.now
        level.now.atom.now.relation facts.now }
    requires fresh { AreFresh level.now.known.now level.now.since facts.now fresh.now }
    requires lengths { length level.now.from.now ≡ length before.now.to }
    requires count { length before.now.product ≡ count }
    requires counts { AreOfCount count level.now.known.now }
    requires counted { AreCounted count kept.old }
    ensures grown { OnOk result (Grown (Comes level.now.known.now level.now.from.now
        level.now.atom.now before.now) kept.old kept.new) }
    ensures goes { OnOk result (GoesOn level.now.known.now level.now.since level.now.from.now
        level.now.atom.now level.now.sides level.now.places.now before.now kept.new) }
    ensures counted { OnOk result (AreCounted count kept.new) }
{
    let new = is_new(before, level.since);
    let key = hash_at(level.places, 0, before.to.items());
    if tells_all(level, before, key, kept) {
        return Ok(());
    }
    'facts: for place in tried_of(new, facts, fresh) {
        let floor = floor_for(new, *place, level.since);
        match_entry(alloc, level, before, key, *place, floor, count, kept)?;
    }
    Ok(())
}

/// Keeps the ways that go on from all of the given ones.
pub fn match_all(
    alloc: Global,
    level: &Level,
    given: &[Way],
    facts: &[usize],
    fresh: &[usize],
    count: usize,
    kept: &mut Kept,
) -> Result<(), OutOfMemory>
    requires facts { AreAllFacts level.now.known.now
        level.now.atom.now.relation facts.now }
    requires fresh { AreFresh level.now.known.now level.now.since facts.now fresh.now }
    requires lengths { (way : Way) → Contains given.now way
        → length level.now.from.now ≡ length way.to }
    requires given { AreCounted count given.now }
    requires counts { AreOfCount count level.now.known.now }
    requires counted { AreCounted count kept.old }
    ensures grown { OnOk result (Grown (λ way. (before : Way) × Contains given.now before
        × Comes level.now.known.now level.now.from.now level.now.atom.now before way)
        kept.old kept.new) }
    ensures goes { OnOk result ((before : Way) → Contains given.now before
        → GoesOn level.now.known.now level.now.since level.now.from.now level.now.atom.now
        level.now.sides level.now.places.now before kept.new) }
    ensures counted { OnOk result (AreCounted count kept.new) }
{
    'given: for before in given {
        match_way(alloc, level, before, facts, fresh, count, kept)?;
    }
    Ok(())
}
