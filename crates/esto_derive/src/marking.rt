//! The entries that a match uses, directly or through reasons.
ghost use Rattle.std.specs.Prelude.{◌≡◌, ◌⊎◌, ◌↔◌, ◌<◌, ℕ, List, Contains, length, OnOk};
ghost use Rattle.esto_term.specs.Sets.{Has};
ghost use Rattle.esto_chase_laws.specs.WorldLaws.{AreReasoned};
ghost use Rattle.esto_derive.specs.Marking.{named_by, AddsNamed, AreUsed, Closes};

use esto_bits::RowBits;
use esto_prov::{Entry, Reason};
use esto_term::OutOfMemory;
use std::alloc::Global;

/// Puts places into the set.
fn put_all(alloc: Global, used: &mut RowBits, places: &[usize]) -> Result<(), OutOfMemory>
    requires { (place : ℕ) → Contains places.now place → place < length used.old }
    ensures count { length used.new ≡ length used.old }
    ensures has { OnOk result ((place : ℕ) → Has used.new place
        ↔ (Has used.old place ⊎ Contains places.now place)) }
{
    let named = RowBits::of(alloc, used.count(), places)?;
    used.union(&named);
    Ok(())
}

/// Puts the entries that the reason names into the set.
fn put_named(alloc: Global, used: &mut RowBits, reason: &Reason) -> Result<(), OutOfMemory>
    requires { (place : ℕ) → Contains (named_by reason.now) place → place < length used.old }
    ensures count { length used.new ≡ length used.old }
    ensures has { OnOk result ((place : ℕ) → Has used.new place
        ↔ (Has used.old place ⊎ Contains (named_by reason.now) place)) }
{
    match reason {
        Reason::Expanded(_, _) => Ok(()),
        Reason::Step(_, places) => put_all(alloc, used, places.items()),
        Reason::Equal(places) => put_all(alloc, used, places.items()),
    }
}

/// Puts what the entry names into the set, where the set has the entry's place.
fn put_behind(
    alloc: Global,
    used: &mut RowBits,
    place: usize,
    entry: &Entry,
) -> Result<(), OutOfMemory>
    requires place { place < length used.old }
    requires named { (named : ℕ) → Contains (named_by entry.now.reason) named
        → named < length used.old }
    ensures count { length used.new ≡ length used.old }
    ensures adds { OnOk result (AddsNamed place entry.now used.old used.new) }
{
    if used.has(place) {
        return put_named(alloc, used, &entry.reason);
    }
    Ok(())
}

/// Adds to the places those of all entries that their entries follow from, directly or through others.
fn close(alloc: Global, entries: &[Entry], used: &mut RowBits) -> Result<(), OutOfMemory>
    requires count { length used.old ≡ length entries.now }
    requires reasoned { AreReasoned entries.now }
    ensures count { length used.new ≡ length used.old }
    ensures closes { OnOk result (Closes entries.now used.old used.new) }
{
    'entries: for place in (0..entries.len()).rev() {
        put_behind(alloc, used, place, &entries[place])?;
    }
    Ok(())
}

/// Adds to the places those of links, and those of all entries that the entries at the places follow from, directly or
/// through others.
pub fn close_with(
    alloc: Global,
    entries: &[Entry],
    links: &[usize],
    used: &mut RowBits,
) -> Result<(), OutOfMemory>
    requires count { length used.old ≡ length entries.now }
    requires links { (place : ℕ) → Contains links.now place → place < length entries.now }
    requires reasoned { AreReasoned entries.now }
    ensures count { length used.new ≡ length used.old }
    ensures used { OnOk result ((facts : List ℕ)
        → ((place : ℕ) → Has used.old place ↔ Contains facts place)
        → AreUsed entries.now facts links.now used.new) }
{
    put_all(alloc, used, links)?;
    close(alloc, entries, used)
}
