//! Ways to match a body among entries, modulo equalities.
ghost use Rattle.std.specs.Prelude.{◌≡◌, ◌++◌, ◌∷◌, [], ◌<◌, length, Contains, IfOk, IfSome, OnOk};
ghost use Rattle.esto_semantics.specs.Facts.{terms_of};
ghost use Rattle.esto_chase_laws.specs.Worlds.{AreOfCount};
ghost use Rattle.esto_condchase.specs.Ways.{empty_way, Comes, GoesOn, Grown, AreNext, AreFound};
ghost use Rattle.esto_known.specs.KeptWays.{AreCounted};
ghost use Rattle.esto_known.specs.Told.{AreMetAt, TellsOne};
ghost use Rattle.esto_known.specs.declared.way.Way.{Way};

use crate::steps::{Level, match_all};
use esto_bits::RowBits;
use esto_known::{Kept, Known, Way, facts_of, fresh_of, places_met, telling_places};
use esto_prov::{both, only, put_terms, terms_of};
use esto_semantics::Atom;
use esto_term::{List, OutOfMemory, Places, Replicate, Term, Terms, Values};
use std::alloc::Global;

/// The list of the way that has matched nothing.
fn begun(alloc: Global, count: usize) -> Result<List<Way>, OutOfMemory>
    ensures { IfOk result (λ it. it ≡ empty_way count ∷ []) }
{
    let product = RowBits::new(alloc, count)?;
    let way = Way {
        to: List::new(alloc),
        facts: Values::new(alloc),
        links: Values::new(alloc),
        product,
    };
    only(alloc, way)
}

/// Keeps the ways that go on from the given ones with any fact of the next atom's relation.
fn match_facts(
    alloc: Global,
    level: &Level,
    given: &[Way],
    count: usize,
    kept: &mut Kept,
) -> Result<(), OutOfMemory>
    requires lengths { (way : Way) → Contains given.now way
        → length level.now.from.now ≡ length way.to }
    requires given { AreCounted count given.now }
    requires counts { AreOfCount count level.now.known.now }
    requires counted { AreCounted count kept.old }
    ensures grown { OnOk result (Grown (λ way. (before : Way) × Contains given.now before
        × Comes level.now.known.now level.now.from.now level.now.atom.now before way)
        kept.old kept.new) }
    ensures goes { OnOk result ((before : Way) → Contains given.now before
        → GoesOn level.now.known.now level.now.since level.now.from.now level.now.atom.now
        level.now.sides level.now.places.now before kept.new) }
    ensures counted { OnOk result (AreCounted count kept.new) }
{
    let facts = facts_of(alloc, level.known, level.atom.relation)?;
    let fresh = fresh_of(alloc, level.known, facts.items(), level.since)?;
    match_all(
        alloc,
        level,
        given,
        facts.items(),
        fresh.items(),
        count,
        kept,
    )
}

/// The ways that go on from the given ones by the next atom.
fn kept_of(
    alloc: Global,
    level: &Level,
    given: &[Way],
    count: usize,
) -> Result<List<Way>, OutOfMemory>
    requires lengths { (way : Way) → Contains given.now way
        → length level.now.from.now ≡ length way.to }
    requires given { AreCounted count given.now }
    requires counts { AreOfCount count level.now.known.now }
    ensures come { IfOk result (λ ways. (way : Way) → Contains ways way
        → (before : Way) × Contains given.now before
        × Comes level.now.known.now level.now.from.now level.now.atom.now before way) }
    ensures goes { IfOk result (λ ways. (before : Way) → Contains given.now before
        → GoesOn level.now.known.now level.now.since level.now.from.now level.now.atom.now
        level.now.sides level.now.places.now before ways) }
    ensures counted { IfOk result (AreCounted count) }
{
    let mut kept = Kept::new(alloc, given.len().max(64))?;
    let matched = match_facts(alloc, level, given, count, &mut kept);
    matched.and(Ok(kept.into_list()))
}

/// The places among the terms so far and those of the atom that tell what the two sides meet, if there are two, and
/// what the live terms meet.
fn places_for(
    alloc: Global,
    from: &Terms,
    atom: &Atom,
    live: &[Term],
    sides: &[Term],
) -> Result<(Option<(usize, usize)>, Places), OutOfMemory>
    ensures met { IfOk result (λ it. IfSome it.0
        (AreMetAt (from.now ++ atom.now.terms) sides.now)) }
    ensures tells { IfOk result (λ it. (term : Term) → Contains live.now term
        → TellsOne (from.now ++ atom.now.terms) it.1 term) }
{
    let terms = both(alloc, from.items(), atom.terms.items())?;
    let places = telling_places(alloc, terms.items(), live)?;
    Ok((places_met(terms.items(), sides), places))
}

/// The ways that go on from the given ones by one atom, as far as they tell what the live terms meet: the terms of
/// the atoms that are still to come, and those that are asked for in the end. Those that use nothing from a place on
/// are left out, unless that is 0, and so are those by which the two sides are one already.
pub fn match_next(
    alloc: Global,
    known: &Known,
    since: usize,
    from: &Terms,
    atom: &Atom,
    live: &[Term],
    sides: &[Term],
    given: &[Way],
    count: usize,
) -> Result<List<Way>, OutOfMemory>
    requires lengths { (way : Way) → Contains given.now way → length from.now ≡ length way.to }
    requires given { AreCounted count given.now }
    requires counts { AreOfCount count known.now }
    ensures next { IfOk result
        (AreNext known.now since from.now atom.now live.now sides.now given.now) }
    ensures counted { IfOk result (AreCounted count) }
{
    let (sides, places) = places_for(alloc, from, atom, live, sides)?;
    let level = Level {
        known,
        since,
        from: from.items(),
        atom,
        sides,
        places: places.items(),
    };
    kept_of(alloc, &level, given, count)
}

/// The terms of the atoms, and then those that are asked for.
fn live_terms(alloc: Global, atoms: &[Atom], asked: &[Term]) -> Result<Terms, OutOfMemory>
    ensures { IfOk result (λ it. it ≡ terms_of atoms.now ++ asked.now) }
{
    let terms = terms_of(alloc, atoms)?;
    both(alloc, terms.items(), asked)
}

/// Goes on by one atom, before the rest, from the terms of those before it and the ways that match them.
fn go_on(
    alloc: Global,
    known: &Known,
    atom: &Atom,
    rest: &[Atom],
    asked: &[Term],
    sides: &[Term],
    count: usize,
    from: &mut Terms,
    ways: &mut List<Way>,
) -> Result<(), OutOfMemory>
    requires lengths { (way : Way) → Contains ways.old way → length from.old ≡ length way.to }
    requires counted { AreCounted count ways.old }
    requires counts { AreOfCount count known.now }
    ensures next { OnOk result
        (AreNext known.now 0 from.old atom.now (terms_of rest.now ++ asked.now) sides.now
        ways.old ways.new) }
    ensures counted { OnOk result (AreCounted count ways.new) }
    ensures from { OnOk result (from.new ≡ from.old ++ atom.now.terms) }
{
    let live = live_terms(alloc, rest, asked)?;
    *ways = match_next(
        alloc,
        known,
        0,
        from,
        atom,
        live.items(),
        sides,
        ways.items(),
        count,
    )?;
    put_terms(alloc, atom.terms.items(), from)
}

/// The direct matches of a body among the entries, each with what it uses, as far as they tell what the terms meet
/// that are asked for: in each world, each direct match agrees on these with one of them, whose product is within the
/// world's set, or the two sides meet terms that are one already.
pub fn matches_of(
    alloc: Global,
    known: &Known,
    body: &[Atom],
    asked: &[Term],
    sides: &[Term],
    count: usize,
) -> Result<List<Way>, OutOfMemory>
    requires among { (term : Term) → Contains sides.now term → Contains asked.now term }
    requires counts { AreOfCount count known.now }
    ensures found { IfOk result (λ ways. AreFound known.now body.now asked.now sides.now ways) }
    ensures counted { IfOk result (λ ways. AreCounted count ways) }
{
    let mut ways = begun(alloc, count)?;
    let mut from = List::new(alloc);
    'atoms: for (place, atom) in body.iter().enumerate() {
        go_on(
            alloc,
            known,
            atom,
            &body[place + 1..],
            asked,
            sides,
            count,
            &mut from,
            &mut ways,
        )?;
    }
    Ok(ways)
}
