//! Groups of entries.
ghost use Rattle.std.specs.Prelude.{◌≡◌, ◌++◌, ◌∷◌, [], length, Some, slice_get, IsTrue, IfOk, OnOk};
ghost use Rattle.esto_term.specs.Sets.{Within};
ghost use Rattle.esto_chase_laws.specs.Claims.{AreSameClaim};
ghost use Rattle.esto_chase_laws.specs.Worlds.{AreOfCount};
ghost use Rattle.esto_chase_laws.specs.declared.entry.Entry.{Entry};
ghost use Rattle.esto_known.specs.Groups.{IsGroup, AreLeft, IsOfOne};

use esto_bits::{Products, RowBits};
use esto_chase_laws::{Claim, Entry};
use esto_term::{OutOfMemory, Places, Replicate, Values};
use std::alloc::Global;

/// What is known of one claim: the claim, the places of its live entries, of which no later one covers an earlier, and
/// the minimal ones of its entries' products.
#[derive(Drop)]
pub struct Group {
    pub claim: Claim,
    pub places: Places,
    pub by: Products,
}

/// Whether the entry at the place rests on all of the set.
fn is_covered_at(entries: &[Entry], place: usize, product: &RowBits) -> bool
    requires { AreOfCount (length product.now) entries.now }
    ensures { IsTrue result → (entry : Entry)
        → slice_get entries.now place ≡ Some entry → Within product.now entry.product }
{
    match entries.get(place) {
        None => false,
        Some(entry) => product.within(&entry.product),
    }
}

/// The places but for those of entries that rest on all of the set.
fn left_of(
    alloc: Global,
    entries: &[Entry],
    product: &RowBits,
    places: &[usize],
) -> Result<Places, OutOfMemory>
    requires { AreOfCount (length product.now) entries.now }
    ensures { IfOk result (AreLeft entries.now product.now places.now) }
{
    let mut left = Values::new(alloc);
    'places: for place in places {
        if !is_covered_at(entries, *place, product) {
            left.push(*place)?;
        }
    }
    Ok(left)
}

/// Drops the places of entries that rest on all of the set, if there may be some.
fn leave(
    alloc: Global,
    entries: &[Entry],
    product: &RowBits,
    may_drop: bool,
    places: &mut Places,
) -> Result<(), OutOfMemory>
    requires { AreOfCount (length product.now) entries.now }
    ensures { OnOk result (AreLeft entries.now product.now places.old places.new) }
{
    if !may_drop {
        return Ok(());
    }
    *places = left_of(alloc, entries, product, places.items())?;
    Ok(())
}

/// Puts the entry that comes after the entries into the group of its claim.
pub(crate) fn add_entry(
    alloc: Global,
    entries: &[Entry],
    entry: &Entry,
    group: &mut Group,
) -> Result<(), OutOfMemory>
    requires same { AreSameClaim entry.now.claim group.old.claim }
    requires group { IsGroup entries.now group.old }
    requires counts { AreOfCount (length entry.now.product) entries.now }
    ensures { OnOk result ((group.new.claim ≡ group.old.claim)
        × IsGroup (entries.now ++ entry.now ∷ []) group.new) }
{
    let before = group.by.len();
    group.by.add(alloc, &entry.product)?;
    let may_drop = group.by.len() <= before;
    leave(alloc, entries, &entry.product, may_drop, &mut group.places)?;
    group.places.push(entries.len())
}

/// The group of one entry, at the place.
pub(crate) fn begun(alloc: Global, place: usize, entry: &Entry) -> Result<Group, OutOfMemory>
    ensures { IfOk result (IsOfOne place entry.now) }
{
    let places = Values::from_slice(alloc, &[place])?;
    let claim = entry.claim.copy(alloc)?;
    let mut by = Products::new(alloc, entry.product.count());
    by.add(alloc, &entry.product)
        .and(Ok(Group { claim, places, by }))
}
