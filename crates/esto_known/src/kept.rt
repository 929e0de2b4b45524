//! Ways that are kept, which are found by what they tell.
ghost use Rattle.std.specs.Prelude.{◌≡◌, ◌<◌, ◌++◌, ◌∷◌, [], length, slice_get, Contains, IsTrue, IfOk, IfSome, OnOk, MatchOption, ℕ};
ghost use Rattle.esto_term.specs.declared.term.Term.{Term};
ghost use Rattle.esto_known.specs.KeptWays.{AreCounted, HasWay};
ghost use Rattle.esto_known.specs.Told.{AreMetAt, AgreeAt, IsFirstAt, IsMetAt, TellsOne};

use crate::hashes::term_hash;
use crate::way::Way;
use esto_bits::{Products, RowBits};
use esto_columns::Index;
use esto_term::{List, OutOfMemory, Places, Term, Values, push};
use std::alloc::Global;
use std::marker::Model;

/// By what a hash is multiplied before a number is added to it.
const FACTOR: u64 = 0x9E37_79B9_7F4A_7C15;

/// The first place of the term, if it has one.
fn first_place(from: &[Term], term: &Term) -> Option<usize>
    ensures { MatchOption result (¬ (Contains from.now term.now))
        (λ place. IsFirstAt from.now term.now place) }
{
    'places: for (place, other) in from.iter().enumerate() {
        if term.equal(other) {
            return Some(place);
        }
    }
    None
}

/// Whether the place is among the places.
fn has_place(places: &[usize], place: usize) -> bool
    ensures { IsTrue result → Contains places.now place }
{
    'places: for other in places {
        if *other == place {
            return true;
        }
    }
    false
}

/// Puts in the place that tells what the term meets first, if there is one.
fn put_place(from: &[Term], term: &Term, places: &mut Places) -> Result<(), OutOfMemory>
    ensures kept { OnOk result ((place : ℕ)
        → Contains places.old place → Contains places.new place) }
    ensures told { OnOk result (TellsOne from.now places.new term.now) }
{
    if term.is_constant() {
        return Ok(());
    }
    match first_place(from, term) {
        None => Ok(()),
        Some(place) => {
            if has_place(places.items(), place) {
                return Ok(());
            }
            places.push(place)
        }
    }
}

/// The places that tell what the terms meet first.
pub fn telling_places(alloc: Global, from: &[Term], terms: &[Term]) -> Result<Places, OutOfMemory>
    ensures { IfOk result (λ it. (term : Term) → Contains terms.now term
        → TellsOne from.now it term) }
{
    let mut places = Values::new(alloc);
    'terms: for term in terms {
        put_place(from, term, &mut places)?;
    }
    Ok(places)
}

/// The place at which stands what the term meets first, if it is no constant and has one.
fn place_met(from: &[Term], term: &Term) -> Option<usize>
    ensures { IfSome result (λ place. IsMetAt from.now term.now place) }
{
    if term.is_constant() {
        return None;
    }
    first_place(from, term)
}

/// The places at which stands what the two sides meet first, if there are two and both have one.
pub fn places_met(from: &[Term], sides: &[Term]) -> Option<(usize, usize)>
    ensures { IfSome result (λ places. AreMetAt from.now sides.now places) }
{
    if sides.len() != 2 {
        return None;
    }
    let left = place_met(from, &sides[0])?;
    let right = place_met(from, &sides[1])?;
    Some((left, right))
}

/// A hash of what stands at those of the places that are of a row which begins at an offset.
pub fn hash_at(places: &[usize], offset: usize, row: &[Term]) -> u64 {
    let mut hash: u64 = 0;
    'places: for place in places {
        let own = match row.get(place.wrapping_sub(offset)) {
            Some(term) => term_hash(term),
            None => 0,
        };
        hash = hash.wrapping_mul(FACTOR).wrapping_add(own);
    }
    hash
}

/// What stands at the place of the one row and the other behind it.
pub fn term_at<'a>(place: usize, to: &'a [Term], owns: &'a [Term]) -> Option<&'a Term>
    ensures { IfSome result (λ it. slice_get (to.now ++ owns.now) place ≡ Some it.now) }
{
    if place < to.len() {
        return Some(&to[place]);
    }
    owns.get(place - to.len())
}

/// Whether a row has at the place what stands there in the one row and the other behind it.
fn same_at(place: usize, row: &[Term], to: &[Term], owns: &[Term]) -> bool
    ensures { IsTrue result → slice_get row.now place ≡ slice_get (to.now ++ owns.now) place }
{
    let Some(own) = row.get(place) else {
        return false;
    };
    let Some(other) = term_at(place, to, owns) else {
        return false;
    };
    own.equal(other)
}

/// Whether a row has at the places what stands there in the one row and the other behind it.
fn agree_at(places: &[usize], row: &[Term], to: &[Term], owns: &[Term]) -> bool
    ensures { IsTrue result → AgreeAt places.now row.now (to.now ++ owns.now) }
{
    'places: for place in places {
        if !same_at(*place, row, to, owns) {
            return false;
        }
    }
    true
}

/// Kept ways of one key: their places, in the order in which they came, and the minimal ones of their products.
#[derive(Drop)]
struct Group {
    key: u64,
    places: Places,
    by: Products,
}

/// The place of the group of the key, if there is one. The index leads to the groups.
fn group_of(groups: &[Group], index: &Index, key: u64) -> Option<usize>
    ensures { IfSome result (λ at. at < length groups.now) }
{
    let mut next = index.last_of(&[key]);
    'groups: while next > 0 {
        let at = next - 1;
        if at < groups.len() && groups[at].key == key {
            return Some(at);
        }
        next = index.before(at);
    }
    None
}

/// Puts a way into its group.
fn put_way(
    alloc: Global,
    place: usize,
    product: &RowBits,
    group: &mut Group,
) -> Result<(), OutOfMemory> {
    group.places.push(place)?;
    if group.by.count() == product.count() {
        group.by.add(alloc, product)?;
    }
    Ok(())
}

/// The group of no ways yet.
fn new_group(alloc: Global, key: u64, count: usize) -> Group {
    Group {
        key,
        places: Values::new(alloc),
        by: Products::new(alloc, count),
    }
}

/// The group of one way.
fn begun(alloc: Global, key: u64, place: usize, product: &RowBits) -> Result<Group, OutOfMemory> {
    let mut group = new_group(alloc, key, product.count());
    put_way(alloc, place, product, &mut group).and(Ok(group))
}

/// Puts a way into the group of its key, which begins with it where there is none.
fn group_way(
    alloc: Global,
    key: u64,
    place: usize,
    product: &RowBits,
    groups: &mut Vec<Group>,
    index: &mut Index,
) -> Result<(), OutOfMemory> {
    if let Some(at) = group_of(groups.as_slice(), index, key) {
        let group = &mut groups[at];
        return put_way(alloc, place, product, group);
    }
    index.add(&[key])?;
    let group = begun(alloc, key, place, product)?;
    push(groups, group)
}

/// Whether the products of a group tell at once that none of them is within the set.
fn rules_out(group: &Group, product: &RowBits) -> bool {
    group.by.count() == product.count() && !group.by.covered(product)
}

/// Whether the way at the place has at these places what stands in the one row and the other behind it, with a product
/// within the set.
fn covers_at(
    ways: &[Way],
    at: usize,
    product: &RowBits,
    places: &[usize],
    to: &[Term],
    owns: &[Term],
) -> bool
    requires { AreCounted (length product.now) ways.now }
    ensures { IsTrue result → HasWay places.now ways.now (to.now ++ owns.now) product.now }
{
    match ways.get(at) {
        None => false,
        Some(way) => way.product.within(product) && agree_at(places, way.to.items(), to, owns),
    }
}

/// Whether a way of the group has at these places what stands in the one row and the other behind it, with a product
/// within the set: true comes only where one has.
fn covers_in(
    ways: &[Way],
    group: &Group,
    product: &RowBits,
    places: &[usize],
    to: &[Term],
    owns: &[Term],
) -> bool
    requires { AreCounted (length product.now) ways.now }
    ensures { IsTrue result → HasWay places.now ways.now (to.now ++ owns.now) product.now }
{
    if rules_out(group, product) {
        return false;
    }
    'ways: for at in group.places.items() {
        if covers_at(ways, *at, product, places, to, owns) {
            return true;
        }
    }
    false
}

/// Ways that are kept, in groups by a hash of what they tell. Contracts see the list of the ways: that a way is found
/// wherever one tells the same is not promised.
#[derive(Drop)]
pub struct Kept {
    ways: List<Way>,
    groups: Vec<Group>,
    index: Index,
}

impl Model for Kept {
    ghost use Rattle.std.specs.Prelude.{List};
    ghost use Rattle.std.specs.Coded.{coded_list};
    ghost use Rattle.esto_known.specs.contracts.way.Way as way;
    ghost use Rattle.esto_known.specs.declared.way.Way.{Way};

    ghost coded = { coded_list way.the_row.coded };

    ghost Value = { List Way };

    ghost view = { λ it. it.ways };
}

impl Kept {
    /// No ways, with room to find so many groups fast.
    pub fn new(alloc: Global, count: usize) -> Result<Kept, OutOfMemory>
        ensures { IfOk result (λ it. it ≡ []) }
    {
        let index = Index::new(alloc, count)?;
        Ok(Kept {
            ways: List::new(alloc),
            groups: Vec::new(alloc),
            index,
        })
    }

    /// The ways alone.
    pub fn into_list(self) -> List<Way>
        ensures { result ≡ self }
    {
        drop(self.groups);
        drop(self.index);
        self.ways
    }

    /// Whether a kept way of this key has at these places what stands in the one row and the other behind it, with a
    /// product within the set: true comes only where one has.
    pub fn covers(
        &self,
        key: u64,
        product: &RowBits,
        places: &[usize],
        to: &[Term],
        owns: &[Term],
    ) -> bool
        requires { AreCounted (length product.now) self.now }
        ensures { IsTrue result
            → HasWay places.now self.now (to.now ++ owns.now) product.now }
    {
        match group_of(self.groups.as_slice(), &self.index, key) {
            None => false,
            Some(at) => {
                let group = &self.groups[at];
                covers_in(self.ways.items(), group, product, places, to, owns)
            }
        }
    }

    /// Puts a way of this key at the end.
    pub fn push(&mut self, alloc: Global, key: u64, way: Way) -> Result<(), OutOfMemory>
        ensures { OnOk result (self.new ≡ self.old ++ way ∷ []) }
    {
        let place = self.ways.len();
        self.ways.push(way)?;
        let product = &self.ways.item(place).product;
        let grouped = group_way(
            alloc,
            key,
            place,
            product,
            &mut self.groups,
            &mut self.index,
        );
        if grouped.is_err() {
            self.ways.truncate(place);
        }
        grouped
    }
}
