//! Derivations, written out as trees.
ghost use Rattle.std.specs.Prelude.{ℕ, ◌≡◌, ◌<◌, ◌≤◌, length, Contains, IfOk};
ghost use Rattle.esto_chase_laws.specs.WorldLaws.{AreReasoned};
ghost use Rattle.esto_prov.specs.Derivations.{IsWhy, AreWhys};

use crate::lists::put_made;
use esto_chase_laws::{Entry, Reason};
use esto_term::{List, OutOfMemory, Replicate};
use std::alloc::Global;

/// A derivation: the tree of a reason, in which each entry that the reason names stands with its own derivation.
/// Contracts see it as a tree.
#[derive(Drop)]
pub enum Why {
    /// The expanded fact of an atom, by the atom's number, at a place of its view's body.
    Expanded(usize, usize),
    /// A step of the rule of that number, with the derivations of the facts of its body, in order, and then those of
    /// the equalities that its match uses.
    Step(usize, Whys),
    /// A chain of equalities, with their derivations.
    Same(Whys),
}

/// A list of derivations.
pub type Whys = List<Why>;

/// A copy of the derivation.
#[cycle(copy)]
fn copied(alloc: Global, why: &Why) -> Result<Why, OutOfMemory>
    ensures { IfOk result (λ it. it ≡ why.now) }
{
    match why {
        Why::Expanded(atom, place) => Ok(Why::Expanded(*atom, *place)),
        Why::Step(number, parts) => {
            let own = copied_all(alloc, parts.items())?;
            Ok(Why::Step(*number, own))
        }
        Why::Same(parts) => {
            let own = copied_all(alloc, parts.items())?;
            Ok(Why::Same(own))
        }
    }
}

/// Copies of the derivations, in order.
#[cycle(copy)]
fn copied_all(alloc: Global, whys: &[Why]) -> Result<Whys, OutOfMemory>
    ensures { IfOk result (λ it. it ≡ whys.now) }
{
    let mut own = List::new(alloc);
    'whys: for why in whys {
        let copy = copied(alloc, why);
        put_made(&mut own, copy)?;
    }
    Ok(own)
}

impl Replicate for Why {
    fn copy(&self, alloc: Global) -> Result<Why, OutOfMemory> {
        copied(alloc, self)
    }
}

/// The derivation of the entry at a place.
#[cycle(why)]
pub fn why_of(alloc: Global, entries: &[Entry], at: usize) -> Result<Why, OutOfMemory>
    requires within { at < length entries.now }
    requires reasoned { AreReasoned entries.now }
    ensures { IfOk result (IsWhy entries.now at) }
{
    match &entries[at].reason {
        Reason::Expanded(atom, place) => Ok(Why::Expanded(*atom, *place)),
        Reason::Step(number, places) => {
            let parts = whys_of(alloc, entries, places.items(), at)?;
            Ok(Why::Step(*number, parts))
        }
        Reason::Equal(places) => {
            let parts = whys_of(alloc, entries, places.items(), at)?;
            Ok(Why::Same(parts))
        }
    }
}

/// The derivations of the entries at places that are below a bound.
#[cycle(why)]
fn whys_of(
    alloc: Global,
    entries: &[Entry],
    places: &[usize],
    bound: usize,
) -> Result<Whys, OutOfMemory>
    requires below { (place : ℕ) → Contains places.now place → place < bound }
    requires within { bound ≤ length entries.now }
    requires reasoned { AreReasoned entries.now }
    ensures { IfOk result (AreWhys entries.now places.now) }
{
    let mut whys = List::new(alloc);
    'places: for place in places {
        let why = why_of(alloc, entries, *place);
        put_made(&mut whys, why)?;
    }
    Ok(whys)
}
