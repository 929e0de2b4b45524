//! What links ask for: two that meet in one term link the terms at their ends.
ghost use Rattle.std.specs.Prelude.{◌≡◌, ◌++◌, ◌∷◌, [], ◌<◌, ◌⊎◌, ℕ, List, Some, Contains, length, slice_get, take, IsTrue, IfOk, OnOk};
ghost use Rattle.esto_semantics.specs.Rules.{Rule};
ghost use Rattle.esto_term.specs.Sets.{Covers};
ghost use Rattle.esto_term.specs.declared.term.Term.{Term};
ghost use Rattle.esto_chase_laws.specs.Worlds.{AreOfCount, SaysOne};
ghost use Rattle.esto_chase_laws.specs.WorldSteps.{AreJoined};
ghost use Rattle.esto_chase_laws.specs.declared.entry.Claim.TheVariants.{Same};
ghost use Rattle.esto_chase_laws.specs.declared.entry.Entry.{Entry};
ghost use Rattle.esto_chase_laws.specs.declared.entry.Reason.TheVariants.{Equal};
ghost use Rattle.esto_known.specs.Groups.{AreGroups, IsGroup};
ghost use Rattle.esto_known.specs.Indexes.{HasSide};
ghost use Rattle.esto_known.specs.declared.group.Group.{Group};
ghost use Rattle.esto_condchase.specs.Rounds.{AsksMore, AreOpen, IsEndMet, IsMetWithAll, IsSideMet, IsUnionMet, MeetAt, MeetBy, TellOne};
ghost use Rattle.esto_known.specs.Live.{AreOld};

use esto_bits::{Products, RowBits};
use esto_chase_laws::{Claim, Entry, Reason};
use esto_known::{Group, Groups, Known, has_later, same};
use esto_prov::union_of;
use esto_term::{List, OutOfMemory, Places, Replicate, Term, Values};
use std::alloc::Global;

/// The sets in whose worlds the entries say that the two terms are one.
fn known_sets(
    alloc: Global,
    groups: &Groups,
    term: &Term,
    other: &Term,
    count: usize,
) -> Result<Products, OutOfMemory>
    ensures count { IfOk result (λ it. (entries : List Entry) → AreGroups entries groups.now
        → AreOfCount count entries → it.count ≡ count) }
    ensures tell { IfOk result (λ it. (entries : List Entry) → AreGroups entries groups.now
        → TellOne entries it.sets term.now other.now) }
{
    match groups.linking(term, other) {
        None => Ok(Products::new(alloc, count)),
        Some(group) => group.by.copy(alloc),
    }
}

/// Whether the sets cover the product of the entry at the place, if there is one.
fn is_closed(entries: &[Entry], place: usize, sets: &Products) -> bool
    requires { AreOfCount sets.now.count entries.now }
    ensures { IsTrue result → (entry : Entry) → slice_get entries.now place ≡ Some entry
        → Covers sets.now.sets entry.product }
{
    match entries.get(place) {
        None => true,
        Some(entry) => sets.covered(&entry.product),
    }
}

/// The places but for those of entries whose products the sets cover.
fn open_places(
    alloc: Global,
    entries: &[Entry],
    places: &[usize],
    sets: &Products,
) -> Result<Places, OutOfMemory>
    requires { AreOfCount sets.now.count entries.now }
    ensures { IfOk result (AreOpen entries.now sets.now.sets places.now) }
{
    let mut open = Values::new(alloc);
    'places: for place in places {
        if !is_closed(entries, *place, sets) {
            open.push(*place)?;
        }
    }
    Ok(open)
}

/// The entry that says that the two terms are one since the entries at two places do.
fn linked(
    alloc: Global,
    term: &Term,
    other: &Term,
    product: &RowBits,
    places: &[usize],
) -> Result<Entry, OutOfMemory>
    ensures claim { IfOk result (λ it. it.claim ≡ Same term.now other.now) }
    ensures product { IfOk result (λ it. it.product ≡ product.now) }
    ensures reason { IfOk result (λ it. it.reason ≡ Equal places.now) }
{
    let places = Values::from_slice(alloc, places)?;
    let product = product.copy(alloc)?;
    let claim = same(alloc, term, other)?;
    Ok(Entry {
        claim,
        product,
        reason: Reason::Equal(places),
    })
}

/// Asks for the two terms to be one with a product, by the entries at the places, unless the sets cover the product.
fn link(
    alloc: Global,
    entries: &[Entry],
    places: &[usize],
    from: &Term,
    to: &Term,
    product: &RowBits,
    sets: &mut Products,
    more: &mut List<Entry>,
) -> Result<(), OutOfMemory>
    requires same_count { length product.now ≡ sets.old.count }
    requires tell { TellOne (entries.now ++ more.old) sets.old.sets from.now to.now }
    ensures count { sets.new.count ≡ sets.old.count }
    ensures covers { OnOk result (Covers sets.new.sets product.now) }
    ensures tell { OnOk result (TellOne (entries.now ++ more.new) sets.new.sets from.now to.now) }
    ensures asks { OnOk result ((more.new ≡ more.old)
        ⊎ (more.new ≡ more.old ++ (record {
          claim = Same from.now to.now;
          product = product.now;
          reason = Equal places.now;
        }) ∷ [])) }
{
    if !sets.add(alloc, product)? {
        return Ok(());
    }
    let entry = linked(alloc, from, to, product, places)?;
    more.push(entry)
}

/// Asks for the two terms to be one by the entries at two places, unless both are among the first few entries, or the
/// sets cover the union of their products.
fn join_two(
    alloc: Global,
    entries: &[Entry],
    since: usize,
    first: usize,
    second: usize,
    from: &Term,
    to: &Term,
    sets: &mut Products,
    more: &mut List<Entry>,
) -> Result<(), OutOfMemory>
    requires meet { MeetAt entries.now first second from.now to.now }
    requires counts { AreOfCount sets.old.count entries.now }
    requires tell { TellOne (entries.now ++ more.old) sets.old.sets from.now to.now }
    ensures count { sets.new.count ≡ sets.old.count }
    ensures tell { OnOk result (TellOne (entries.now ++ more.new) sets.new.sets from.now to.now) }
    ensures asks { OnOk result
        ((rules : List Rule) → AsksMore rules sets.old.count entries.now more.old more.new) }
    ensures met { OnOk result
        (IsUnionMet entries.now since (entries.now ++ more.new) first second from.now to.now) }
{
    if first < since && second < since {
        return Ok(());
    }
    let Some(one) = entries.get(first) else {
        return Ok(());
    };
    let Some(two) = entries.get(second) else {
        return Ok(());
    };
    let product = union_of(alloc, &one.product, &two.product)?;
    link(
        alloc,
        entries,
        &[first, second],
        from,
        to,
        &product,
        sets,
        more,
    )
}

/// The same for one place and each of others.
fn join_one(
    alloc: Global,
    entries: &[Entry],
    since: usize,
    first: usize,
    seconds: &[usize],
    from: &Term,
    to: &Term,
    sets: &mut Products,
    more: &mut List<Entry>,
) -> Result<(), OutOfMemory>
    requires meet { (second : ℕ) → Contains seconds.now second
        → MeetAt entries.now first second from.now to.now }
    requires counts { AreOfCount sets.old.count entries.now }
    requires tell { TellOne (entries.now ++ more.old) sets.old.sets from.now to.now }
    ensures count { sets.new.count ≡ sets.old.count }
    ensures tell { OnOk result (TellOne (entries.now ++ more.new) sets.new.sets from.now to.now) }
    ensures asks { OnOk result
        ((rules : List Rule) → AsksMore rules sets.old.count entries.now more.old more.new) }
    ensures met { OnOk result ((second : ℕ) → Contains seconds.now second
        → IsUnionMet entries.now since (entries.now ++ more.new) first second from.now to.now) }
{
    'seconds: for second in seconds {
        join_two(alloc, entries, since, first, *second, from, to, sets, more)?;
    }
    Ok(())
}

/// The same for each of some places and each of others.
fn join_each(
    alloc: Global,
    entries: &[Entry],
    since: usize,
    firsts: &[usize],
    seconds: &[usize],
    from: &Term,
    to: &Term,
    sets: &mut Products,
    more: &mut List<Entry>,
) -> Result<(), OutOfMemory>
    requires meet { (first second : ℕ) → Contains firsts.now first → Contains seconds.now second
        → MeetAt entries.now first second from.now to.now }
    requires counts { AreOfCount sets.old.count entries.now }
    requires tell { TellOne (entries.now ++ more.old) sets.old.sets from.now to.now }
    ensures asks { OnOk result
        ((rules : List Rule) → AsksMore rules sets.old.count entries.now more.old more.new) }
    ensures met { OnOk result ((first second : ℕ)
        → Contains firsts.now first → Contains seconds.now second
        → IsUnionMet entries.now since (entries.now ++ more.new) first second from.now to.now) }
{
    'firsts: for first in firsts {
        join_one(alloc, entries, since, *first, seconds, from, to, sets, more)?;
    }
    Ok(())
}

/// The same for the entries of two groups that the sets leave open, where those of the first are given.
fn join_given(
    alloc: Global,
    entries: &[Entry],
    since: usize,
    first: &Group,
    second: &Group,
    firsts: &[usize],
    from: &Term,
    to: &Term,
    sets: &mut Products,
    more: &mut List<Entry>,
) -> Result<(), OutOfMemory>
    requires first { IsGroup entries.now first.now }
    requires second { IsGroup entries.now second.now }
    requires open { AreOpen entries.now sets.old.sets first.now.places firsts.now }
    requires meet { MeetBy first.now.claim second.now.claim from.now to.now }
    requires before { AreJoined (take since entries.now) entries.now }
    requires counts { AreOfCount sets.old.count entries.now }
    requires tell { TellOne entries.now sets.old.sets from.now to.now }
    ensures asks { OnOk result
        ((rules : List Rule) → AsksMore rules sets.old.count entries.now more.old more.new) }
    ensures met { OnOk result (IsEndMet entries.now (entries.now ++ more.new)
        first.now.claim second.now.claim from.now to.now) }
{
    let seconds = open_places(alloc, entries, second.places.items(), sets)?;
    if !has_later(firsts, since) && !has_later(seconds.items(), since) {
        return Ok(());
    }
    join_each(
        alloc,
        entries,
        since,
        firsts,
        seconds.items(),
        from,
        to,
        sets,
        more,
    )
}

/// The same for the entries of two groups that the sets leave open.
fn join_open(
    alloc: Global,
    entries: &[Entry],
    since: usize,
    first: &Group,
    second: &Group,
    from: &Term,
    to: &Term,
    sets: &mut Products,
    more: &mut List<Entry>,
) -> Result<(), OutOfMemory>
    requires first { IsGroup entries.now first.now }
    requires second { IsGroup entries.now second.now }
    requires meet { MeetBy first.now.claim second.now.claim from.now to.now }
    requires before { AreJoined (take since entries.now) entries.now }
    requires counts { AreOfCount sets.old.count entries.now }
    requires tell { TellOne entries.now sets.old.sets from.now to.now }
    ensures asks { OnOk result
        ((rules : List Rule) → AsksMore rules sets.old.count entries.now more.old more.new) }
    ensures met { OnOk result (IsEndMet entries.now (entries.now ++ more.new)
        first.now.claim second.now.claim from.now to.now) }
{
    let firsts = open_places(alloc, entries, first.places.items(), sets)?;
    join_given(
        alloc,
        entries,
        since,
        first,
        second,
        firsts.items(),
        from,
        to,
        sets,
        more,
    )
}

/// Asks for the two terms to be one in the worlds of the entries of two groups that link them one after the other.
fn join_ends(
    alloc: Global,
    entries: &[Entry],
    groups: &Groups,
    since: usize,
    first: &Group,
    second: &Group,
    from: &Term,
    to: &Term,
    count: usize,
    more: &mut List<Entry>,
) -> Result<(), OutOfMemory>
    requires groups { AreGroups entries.now groups.now }
    requires first { Contains groups.now first.now }
    requires second { Contains groups.now second.now }
    requires meet { MeetBy first.now.claim second.now.claim from.now to.now }
    requires before { AreJoined (take since entries.now) entries.now }
    requires counts { AreOfCount count entries.now }
    ensures asks { OnOk result
        ((rules : List Rule) → AsksMore rules count entries.now more.old more.new) }
    ensures met { OnOk result (IsEndMet entries.now (entries.now ++ more.new)
        first.now.claim second.now.claim from.now to.now) }
{
    if from.equal(to) {
        return Ok(());
    }
    let mut sets = known_sets(alloc, groups, from, to, count)?;
    join_open(
        alloc, entries, since, first, second, from, to, &mut sets, more,
    )
}

/// The same, if the one ends where the other begins.
fn join_met(
    alloc: Global,
    entries: &[Entry],
    groups: &Groups,
    since: usize,
    first: &Group,
    second: &Group,
    from: &Term,
    via: &Term,
    begin: &Term,
    to: &Term,
    count: usize,
    more: &mut List<Entry>,
) -> Result<(), OutOfMemory>
    requires groups { AreGroups entries.now groups.now }
    requires first { Contains groups.now first.now }
    requires second { Contains groups.now second.now }
    requires says { SaysOne first.now.claim from.now via.now }
    requires says_on { SaysOne second.now.claim begin.now to.now }
    requires before { AreJoined (take since entries.now) entries.now }
    requires counts { AreOfCount count entries.now }
    ensures asks { OnOk result
        ((rules : List Rule) → AsksMore rules count entries.now more.old more.new) }
    ensures met { OnOk result (via.now ≡ begin.now → IsEndMet entries.now (entries.now ++ more.new)
        first.now.claim second.now.claim from.now to.now) }
{
    if !via.equal(begin) {
        return Ok(());
    }
    join_ends(
        alloc, entries, groups, since, first, second, from, to, count, more,
    )
}

/// The same for a group and the one at the place, from either of its sides, unless the latter has something new and
/// comes before the former.
fn join_at(
    alloc: Global,
    entries: &[Entry],
    groups: &Groups,
    since: usize,
    number: usize,
    first: &Group,
    place: usize,
    from: &Term,
    via: &Term,
    count: usize,
    more: &mut List<Entry>,
) -> Result<(), OutOfMemory>
    requires groups { AreGroups entries.now groups.now }
    requires first { Contains groups.now first.now }
    requires says { SaysOne first.now.claim from.now via.now }
    requires before { AreJoined (take since entries.now) entries.now }
    requires counts { AreOfCount count entries.now }
    ensures asks { OnOk result
        ((rules : List Rule) → AsksMore rules count entries.now more.old more.new) }
    ensures met { OnOk result ((other : Group) → slice_get groups.now place ≡ Some other
        → IsSideMet entries.now since (entries.now ++ more.new) number
        first.now.claim place other from.now via.now) }
{
    let Some(second) = groups.items().get(place) else {
        return Ok(());
    };
    if place < number && has_later(second.places.items(), since) {
        return Ok(());
    }
    let Claim::Same(left, right) = &second.claim else {
        return Ok(());
    };
    join_met(
        alloc, entries, groups, since, first, second, from, via, left, right, count, more,
    )?;
    join_met(
        alloc, entries, groups, since, first, second, from, via, right, left, count, more,
    )
}

/// The same for a group and each that shares the one of its sides.
fn join_side(
    alloc: Global,
    entries: &[Entry],
    groups: &Groups,
    since: usize,
    number: usize,
    first: &Group,
    from: &Term,
    via: &Term,
    count: usize,
    more: &mut List<Entry>,
) -> Result<(), OutOfMemory>
    requires groups { AreGroups entries.now groups.now }
    requires first { Contains groups.now first.now }
    requires says { SaysOne first.now.claim from.now via.now }
    requires before { AreJoined (take since entries.now) entries.now }
    requires counts { AreOfCount count entries.now }
    ensures asks { OnOk result
        ((rules : List Rule) → AsksMore rules count entries.now more.old more.new) }
    ensures met { OnOk result ((place : ℕ) (other : Group)
        → slice_get groups.now place ≡ Some other → HasSide other.claim via.now
        → IsSideMet entries.now since (entries.now ++ more.new) number
        first.now.claim place other from.now via.now) }
{
    let places = groups.with_side(alloc, via)?;
    'places: for place in places.items() {
        join_at(
            alloc, entries, groups, since, number, first, *place, from, via, count, more,
        )?;
    }
    Ok(())
}

/// The same for a group and each other, if the group has something new.
fn join_group(
    alloc: Global,
    entries: &[Entry],
    groups: &Groups,
    since: usize,
    number: usize,
    first: &Group,
    count: usize,
    more: &mut List<Entry>,
) -> Result<(), OutOfMemory>
    requires groups { AreGroups entries.now groups.now }
    requires first { Contains groups.now first.now }
    requires before { AreJoined (take since entries.now) entries.now }
    requires counts { AreOfCount count entries.now }
    ensures asks { OnOk result
        ((rules : List Rule) → AsksMore rules count entries.now more.old more.new) }
    ensures met { OnOk result (AreOld since first.now.places
        ⊎ IsMetWithAll entries.now groups.now since (entries.now ++ more.new) number
        first.now.claim) }
{
    if !has_later(first.places.items(), since) {
        return Ok(());
    }
    let Claim::Same(left, right) = &first.claim else {
        return Ok(());
    };
    join_side(
        alloc, entries, groups, since, number, first, left, right, count, more,
    )?;
    join_side(
        alloc, entries, groups, since, number, first, right, left, count, more,
    )
}

/// The same for all groups.
fn join_groups(
    alloc: Global,
    entries: &[Entry],
    groups: &Groups,
    since: usize,
    count: usize,
    more: &mut List<Entry>,
) -> Result<(), OutOfMemory>
    requires groups { AreGroups entries.now groups.now }
    requires before { AreJoined (take since entries.now) entries.now }
    requires counts { AreOfCount count entries.now }
    ensures asks { OnOk result
        ((rules : List Rule) → AsksMore rules count entries.now more.old more.new) }
    ensures joined { OnOk result (AreJoined entries.now (entries.now ++ more.new)) }
{
    'firsts: for (number, first) in groups.items().iter().enumerate() {
        join_group(alloc, entries, groups, since, number, first, count, more)?;
    }
    Ok(())
}

/// Asks for what every two links that meet in one term link, where what those of the first few entries link is there.
pub fn join(
    alloc: Global,
    known: &Known,
    since: usize,
    count: usize,
    more: &mut List<Entry>,
) -> Result<(), OutOfMemory>
    requires before { AreJoined (take since known.now) known.now }
    requires counts { AreOfCount count known.now }
    ensures asks { OnOk result
        ((rules : List Rule) → AsksMore rules count known.now more.old more.new) }
    ensures joined { OnOk result (AreJoined known.now (known.now ++ more.new)) }
{
    join_groups(alloc, known.items(), known.groups(), since, count, more)
}
