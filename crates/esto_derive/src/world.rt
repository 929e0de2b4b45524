//! The world of a set, and the equalities in it.
ghost use Rattle.std.specs.Prelude.{◌≡◌, ◌↔◌, length, IsTrue, IfOk};
ghost use Rattle.esto_chase_laws.specs.Worlds.{AreOfCount};
ghost use Rattle.esto_derive.specs.Searching.{AreAllLinks, IsEqualityIn};

use esto_bits::RowBits;
use esto_prov::{Claim, Entry};
use esto_term::{List, OutOfMemory};
use std::alloc::Global;

/// The world of a set: what the entries claim whose products are within it, and the places of its equalities.
#[derive(Clone, Copy)]
pub struct World<'a> {
    pub entries: &'a [Entry],
    pub set: &'a RowBits,
    pub links: &'a [usize],
}

/// Whether the entry is of an equality, and in the world of the set.
fn is_link(entry: &Entry, set: &RowBits) -> bool
    requires { length entry.now.product ≡ length set.now }
    ensures { IsTrue result ↔ IsEqualityIn set.now entry.now }
{
    match &entry.claim {
        Claim::Fact(_) => false,
        Claim::Same(_, _) => entry.product.within(set),
    }
}

/// The places of all equalities in the world of the set.
pub fn all_links(
    alloc: Global,
    entries: &[Entry],
    set: &RowBits,
) -> Result<List<usize>, OutOfMemory>
    requires { AreOfCount (length set.now) entries.now }
    ensures { IfOk result (AreAllLinks entries.now set.now) }
{
    let mut links = List::new(alloc);
    'entries: for (place, entry) in entries.iter().enumerate() {
        if is_link(entry, set) {
            links.push(place)?;
        }
    }
    Ok(links)
}
