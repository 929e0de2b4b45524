//! Indexes of keys, which find the places of a key without a look at most of the others.
ghost use Rattle.std.specs.Prelude.{◌≡◌, ◌++◌, ◌∷◌, [], ◌<◌, ◌≤◌, List, ℕ, length, reverse, slice_index_or, IfOk, OnOk, OnErr};
ghost use Rattle.esto_columns.specs.Indexed.{IsIndexOf, LeadsOn, LeadBefore, mixed, hash_from, bucket_of, with_place, AreAmongPlaces};
ghost use Rattle.esto_columns.specs.Picked.{places_of};

use esto_term::{OutOfMemory, Places, Values};
use std::alloc::Global;
use std::marker::Model;

/// By what a hash is multiplied before a code is added to it.
const FACTOR: u64 = 0x9E37_79B9_7F4A_7C15;

/// An index of a list of keys, which are rows of codes: one key for each place, counted from 0. The places of each
/// bucket of keys are a chain, from the last one to the first. A place stands here as one more than it is, and 0 ends a
/// chain. `last` has for each bucket its last place, and `before` for each place the one before it. Each takes four bytes,
/// so an index has places for 4,294,967,295 keys at most, which take tens of gigabytes.
#[derive(Drop)]
pub struct Index {
    last: Values<u32>,
    before: Values<u32>,
}

impl Model for Index {
    ghost use Rattle.std.specs.Prelude.{◌<◌, length};
    ghost use Rattle.esto_columns.specs.Indexed.{Index};

    ghost Value = { Index };

    ghost view = { λ it. record { last = it.last; before = it.before } };

    ghost invariant = { λ it. 0 < length it.last };
}

/// The hash with the code taken into it.
pub(crate) fn mixed(hash: u64, code: u64) -> u64
    ensures { result ≡ mixed hash code }
{
    hash.wrapping_mul(FACTOR).wrapping_add(code)
}

/// The hash of the key.
fn hash_of(key: &[u64]) -> u64
    ensures { result ≡ hash_from 0 key.now }
{
    let mut hash: u64 = 0;
    'codes: for code in key {
        hash = mixed(hash, *code);
    }
    hash
}

/// The bucket of the key among so many.
fn bucket_of(key: &[u64], count: usize) -> usize
    requires { 0 < count }
    ensures value { result ≡ bucket_of count key.now }
    ensures within { result < count }
{
    (hash_of(key) % count as u64) as usize
}

/// What stands at the place, or 0 past the end.
fn item_at(places: &Values<u32>, at: usize) -> u32
    ensures { result ≡ slice_index_or places.now at 0 }
{
    match places.items().get(at) {
        Some(place) => *place,
        None => 0,
    }
}

/// So many zeros.
fn zeros(alloc: Global, count: usize) -> Result<Values<u32>, OutOfMemory>
    ensures long { IfOk result (λ it. length it ≡ count) }
    ensures zero { IfOk result (λ it. (at : ℕ) → slice_index_or it at 0 ≡ 0) }
{
    let mut zeros = Values::with_room(alloc, count)?;
    'places: for _place in 0..count {
        zeros.push(0)?;
    }
    Ok(zeros)
}

/// One more than the place before this one on its chain, or 0.
fn place_before(before: &Values<u32>, place: usize) -> usize
    ensures within { result ≤ place }
    ensures value { slice_index_or before.now place 0 ≤ place
        → result ≡ slice_index_or before.now place 0 }
{
    (item_at(before, place) as usize).min(place)
}

/// Puts the next place on the chain of the bucket, as far as it can be counted.
fn put(last: &mut Values<u32>, before: &mut Values<u32>, bucket: usize) -> Result<(), OutOfMemory>
    requires { bucket < length last.old }
    ensures long { length last.new ≡ length last.old }
    ensures ok { OnOk result (record { last = last.new; before = before.new }
        ≡ with_place (record { last = last.old; before = before.old }) bucket) }
    ensures last { OnErr result (last.new ≡ last.old) }
    ensures before { OnErr result (before.new ≡ before.old) }
{
    let count = before.len();
    if count >= u32::MAX as usize {
        return Err(OutOfMemory);
    }
    before.push(item_at(last, bucket))?;
    last.set(bucket, (count + 1) as u32);
    Ok(())
}

/// The places of a chain, from the last one, to which one leads that is one more, to the first.
fn chain_of(alloc: Global, before: &Values<u32>, last: usize) -> Result<Vec<usize>, OutOfMemory>
    ensures { IfOk result (λ it. (buckets : List ℕ) (bucket : ℕ)
        → LeadBefore before.now buckets → LeadsOn buckets bucket (length buckets) last
        → reverse it.items ≡ places_of 0 bucket buckets) }
{
    let mut places = Vec::new(alloc);
    let mut next = last;
    'places: while next > 0 {
        let place = next - 1;
        let Ok(()) = places.push(place) else {
            return Err(OutOfMemory);
        };
        next = place_before(before, place);
    }
    Ok(places)
}

impl Index {
    /// The index of no keys. Places are found fast as long as there are not many more of them than there is room for.
    ///
    /// The count of buckets is odd: where it is even, codes that come at an even step, such as every second one, leave half
    /// of the buckets empty.
    pub fn new(alloc: Global, room: usize) -> Result<Index, OutOfMemory>
        ensures { IfOk result (λ it. IsIndexOf it []) }
    {
        let last = zeros(alloc, room | 1)?;
        Ok(Index {
            last,
            before: Values::new(alloc),
        })
    }

    /// Puts the key at the next place.
    pub fn add(&mut self, key: &[u64]) -> Result<(), OutOfMemory>
        ensures ok { OnOk result ((listed : List (List ℕ))
            → IsIndexOf self.old listed → IsIndexOf self.new (listed ++ key.now ∷ [])) }
        ensures err { OnErr result (self.new ≡ self.old) }
    {
        let bucket = bucket_of(key, self.last.len());
        put(&mut self.last, &mut self.before, bucket)
    }

    /// One more than the last place of the key's bucket, or 0.
    pub fn last_of(&self, key: &[u64]) -> usize
        ensures { result ≡ slice_index_or self.now.last
            (bucket_of (length self.now.last) key.now) 0 }
    {
        let bucket = bucket_of(key, self.last.len());
        item_at(&self.last, bucket) as usize
    }

    /// One more than the place before this one in its bucket, or 0.
    pub fn before(&self, place: usize) -> usize
        ensures within { result ≤ place }
        ensures value { slice_index_or self.now.before place 0 ≤ place
            → result ≡ slice_index_or self.now.before place 0 }
    {
        place_before(&self.before, place)
    }

    /// Places in rising order, among which are all of the key.
    pub fn places(&self, alloc: Global, key: &[u64]) -> Result<Vec<usize>, OutOfMemory>
        ensures { IfOk result (λ it. (listed : List (List ℕ))
            → IsIndexOf self.now listed → AreAmongPlaces key.now listed it.items) }
    {
        let last = self.last_of(key);
        let mut places = chain_of(alloc, &self.before, last)?;
        places.reverse();
        Ok(places)
    }
}

/// An index of rows by some of their columns.
#[derive(Drop)]
pub(crate) struct RowIndex {
    pub(crate) columns: Places,
    pub(crate) index: Index,
}
