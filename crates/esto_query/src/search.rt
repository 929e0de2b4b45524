//! The search for the least match.
ghost use Rattle.std.specs.Prelude.{◌≡◌, IfOk};
ghost use Rattle.esto_semantics.specs.Maps.{AreFlat};
ghost use Rattle.esto_query.specs.Searches.{Searched, first_from, rest_from};

use crate::indexed::{IndexedFacts, bind_place, candidates};
use crate::trail::Binding;
use esto_semantics::{Atom, Valuation};
use esto_table::places_from;
use esto_term::{OutOfMemory, Places};

/// The least place of the first atom in a list of places that is at or after the given one.
fn least_first(from: &[usize]) -> usize
    ensures { result ≡ first_from from.now }
{
    match from {
        [] => 0,
        [first, ..] => *first,
    }
}

/// What the places of the other atoms are to be at or after, where the first atom's place is taken.
fn from_after(from: &[usize], place: usize) -> &[usize]
    ensures { result.now ≡ rest_from from.now place }
{
    match from {
        [first, rest @ ..] if *first == place => rest,
        _ => &[],
    }
}

/// Finds the least match from the given places on, and appends its places. Where there is none,
/// trail and places stay.
pub fn search<'a>(
    start: &Valuation,
    body: &[Atom],
    facts: &IndexedFacts<'a>,
    from: &[usize],
    trail: &mut Vec<Binding<'a>>,
    places: &mut Places,
) -> Result<bool, OutOfMemory>
    requires { AreFlat body.now }
    ensures { IfOk result (λ is_found. Searched start.now body.now facts.now from.now
        trail.old.items trail.new.items places.old places.new is_found) }
{
    let Some((atom, rest)) = body.split_first() else {
        return Ok(from.is_empty());
    };
    let mark = trail.len();
    let depth = places.len();
    let found = candidates(start, facts, trail, atom);
    let left = places_from(found, least_first(from));
    'places: for place in left {
        match bind_place(start, facts, trail, atom, *place) {
            Ok(true) => {}
            Ok(false) => continue,
            Err(error) => return Err(error),
        }
        places.push(*place)?;
        match search(start, rest, facts, from_after(from, *place), trail, places) {
            Ok(true) => return Ok(true),
            Ok(false) => {}
            Err(error) => return Err(error),
        }
        places.truncate(depth);
        trail.truncate(mark);
    }
    Ok(false)
}
