//! Buckets of places.
ghost use Rattle.std.specs.Prelude.{◌≡◌, ◌<◌, ◌%◌, length, IfOk, OnOk};
ghost use Rattle.esto_table.specs.Buckets.{places_at, with_place, AreRising};

use esto_term::{OutOfMemory, Places, Values, push};
use std::alloc::Global;
use std::marker::Model;

/// Lists of places, one for each bucket, where the bucket of a hash is its remainder by their number. Contracts see the
/// list of the lists. There is at least one bucket.
#[derive(Drop)]
pub struct Buckets {
    lists: Vec<Places>,
}

impl Model for Buckets {
    ghost use Rattle.std.specs.Prelude.{◌<◌, ℕ, List, length};

    ghost Value = { List (List ℕ) };

    ghost view = { λ it. it.lists.items };

    ghost invariant = { λ it. 0 < length it.lists.items };
}

/// So many empty lists.
fn empty_lists(alloc: Global, count: usize) -> Result<Vec<Places>, OutOfMemory>
    ensures long { IfOk result (λ it. length it.items ≡ count) }
    ensures rising { IfOk result (λ it. AreRising it.items 0) }
{
    let mut lists = Vec::new(alloc);
    'lists: for _list in 0..count {
        push(&mut lists, Values::new(alloc))?;
    }
    Ok(lists)
}

/// The bucket of the hash among so many.
fn bucket_of(hash: u64, count: usize) -> usize
    requires { 0 < count }
    ensures value { result ≡ hash % count }
    ensures within { result < count }
{
    (hash % count as u64) as usize
}

/// Puts the place at the end of the list of the hash.
fn put_in(lists: &mut Vec<Places>, hash: u64, place: usize) -> Result<(), OutOfMemory>
    requires { 0 < length lists.old.items }
    ensures ok { OnOk result (lists.new.items ≡ with_place lists.old.items hash place) }
    ensures long { length lists.new.items ≡ length lists.old.items }
{
    let at = bucket_of(hash, lists.len());
    lists[at].push(place)
}

impl Buckets {
    /// So many empty buckets, but at least one.
    pub fn new(alloc: Global, count: usize) -> Result<Buckets, OutOfMemory>
        ensures { IfOk result (λ it. AreRising it 0) }
    {
        let lists = empty_lists(alloc, count.max(1))?;
        Ok(Buckets { lists })
    }

    /// Puts the place at the end of the bucket of the hash.
    pub fn put(&mut self, hash: u64, place: usize) -> Result<(), OutOfMemory>
        ensures ok { OnOk result (self.new ≡ with_place self.old hash place) }
        ensures some { 0 < length self.old }
    {
        put_in(&mut self.lists, hash, place)
    }

    /// The places in the bucket of the hash.
    pub fn at(&self, hash: u64) -> &[usize]
        ensures { result.now ≡ places_at self.now hash }
    {
        self.lists[bucket_of(hash, self.lists.len())].items()
    }
}
