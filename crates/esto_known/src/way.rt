//! Ways to match a body among entries.
ghost use Rattle.std.specs.Prelude.{◌≡◌, ◌++◌, ◌∷◌, [], false, IfOk};
ghost use Rattle.esto_known.specs.KeptWays.{IsOldWay};

use crate::live::has_later;
use esto_bits::RowBits;
use esto_term::{OutOfMemory, Places, Replicate, Terms};
use std::alloc::Global;

/// A way to match the first atoms of a body: the terms that theirs meet, the entries of the facts and of the
/// equalities that it uses, and the union of their products.
#[derive(Drop)]
pub struct Way {
    pub to: Terms,
    pub facts: Places,
    pub links: Places,
    pub product: RowBits,
}

/// Whether the way uses an entry from a place on.
pub fn is_new(way: &Way, since: usize) -> bool
    ensures { result ≡ false → IsOldWay since way.now }
{
    has_later(way.facts.items(), since) || has_later(way.links.items(), since)
}

/// The places of the way's facts, and one more.
pub fn facts_with(alloc: Global, before: &Way, place: usize) -> Result<Places, OutOfMemory>
    ensures { IfOk result (λ it. it ≡ before.now.facts ++ place ∷ []) }
{
    let mut facts = before.facts.copy(alloc)?;
    facts.push(place).and(Ok(facts))
}

/// The entries that a way uses, those of its facts first.
fn places_of(alloc: Global, way: &Way) -> Result<Places, OutOfMemory>
    ensures { IfOk result (λ it. it ≡ way.now.facts ++ way.now.links) }
{
    let mut places = way.facts.copy(alloc)?;
    'links: for place in way.links.items() {
        places.push(*place)?;
    }
    Ok(places)
}

/// The way's product, and the entries that it uses.
pub fn support(alloc: Global, way: &Way) -> Result<(RowBits, Places), OutOfMemory>
    ensures { IfOk result (λ it.
        (it.0 ≡ way.now.product) × (it.1 ≡ way.now.facts ++ way.now.links)) }
{
    let product = way.product.copy(alloc)?;
    let places = places_of(alloc, way)?;
    Ok((product, places))
}
