//! Antichains: families of sets of which none is a subset of another.
ghost use Rattle.std.specs.Prelude.{◌≡◌, ◌↔◌, ◌<◌, ◌++◌, List, Bool, Some, [], false, length, slice_get, IsTrue, IfOk, IfSome, OnOk, OnErr, Contains};
ghost use Rattle.esto_term.specs.Sets.{AreInOrder, Covers, united};
ghost use Rattle.esto_bits.specs.Kept.{AreOver, IsAntichain, with_set, CoversAlso, OneMoreIsMinimal, KeptAreMinimal};
ghost use Rattle.esto_bits.specs.Words.{AreWordsBelow, set_of};

use crate::packed::PackedSets;
use crate::row_bits::RowBits;
use esto_term::{List, OutOfMemory, Replicate, push};
use std::alloc::Global;
use std::marker::Model;

/// A list of sets.
pub type SetList = List<RowBits>;

/// Sets of one count, none of which is a subset of another. Contracts see the count and the list of the sets.
#[derive(Drop)]
pub struct Products {
    packed: PackedSets,
}

impl Model for Products {
    ghost use Rattle.esto_bits.specs.Kept.{Kept, AreOver, IsAntichain};

    ghost Value = { Kept };

    ghost view = { λ it. it.packed };

    ghost invariant = { λ it. AreOver it.packed.count it.packed.sets × IsAntichain it.packed.sets };
}

impl Products {
    /// No set yet, where sets are to have numbers below `atoms`.
    pub fn new(alloc: Global, atoms: usize) -> Products
        ensures count { result.count ≡ atoms }
        ensures empty { result.sets ≡ [] }
    {
        Products {
            packed: PackedSets::new(alloc, atoms),
        }
    }

    /// The count that each number of each set is below.
    pub fn count(&self) -> usize
        ensures { result ≡ self.now.count }
    {
        self.packed.count()
    }

    /// How many sets are kept.
    pub fn len(&self) -> usize
        ensures { result ≡ length self.now.sets }
    {
        self.packed.len()
    }

    /// Whether no set is kept.
    pub fn is_empty(&self) -> bool
        ensures { IsTrue result ↔ (length self.now.sets ≡ 0) }
    {
        self.packed.len() == 0
    }

    /// A copy of the kept set at a place, counted from 0, in the order in which they came.
    pub fn copy_of(&self, alloc: Global, at: usize) -> Result<RowBits, OutOfMemory>
        requires { at < length self.now.sets }
        ensures { IfOk result (λ it. slice_get self.now.sets at ≡ Some it) }
    {
        RowBits::from_words(alloc, self.packed.count(), self.packed.words_at(at))
    }

    /// Whether some kept set is a subset of this one.
    pub fn covered(&self, set: &RowBits) -> bool
        requires { length set.now ≡ self.now.count }
        ensures { IsTrue result ↔ Covers self.now.sets set.now }
    {
        self.packed.covers(set.words())
    }

    /// Whether each kept set of the others is covered here.
    pub fn covers_all(&self, others: &Products) -> bool
        requires { others.now.count ≡ self.now.count }
        ensures { IsTrue result ↔ ((set : List Bool) → Covers others.now.sets set
            → Covers self.now.sets set) }
    {
        'sets: for at in 0..others.len() {
            if !self.covers_one(others, at) {
                return false;
            }
        }
        true
    }

    /// Whether the kept set of the others at a place is covered here.
    pub(crate) fn covers_one(&self, others: &Products, at: usize) -> bool
        requires same_count { others.now.count ≡ self.now.count }
        requires in_range { at < length others.now.sets }
        ensures { IfSome (slice_get others.now.sets at)
            (λ set. IsTrue result ↔ Covers self.now.sets set) }
    {
        self.packed.covers(others.packed.words_at(at))
    }

    /// Keeps a set that isn't covered, and drops the kept sets of which it is a subset. Answers false, and changes
    /// nothing, exactly where it is covered.
    pub fn add(&mut self, alloc: Global, set: &RowBits) -> Result<bool, OutOfMemory>
        requires { length set.now ≡ self.old.count }
        ensures answer { IfOk result (λ added. (added ≡ false) ↔ Covers self.old.sets set.now) }
        ensures count { self.new.count ≡ self.old.count }
        ensures ok { OnOk result (self.new.sets ≡ with_set self.old.sets set.now) }
        ensures covers { OnOk result (CoversAlso self.old.sets set.now self.new.sets) }
        ensures err { OnErr result (self.new ≡ self.old) }
    {
        self.add_words(alloc, set.words())
    }

    /// Keeps the kept set of the others at a place in the same way.
    pub(crate) fn add_at(
        &mut self,
        alloc: Global,
        others: &Products,
        at: usize,
    ) -> Result<bool, OutOfMemory>
        requires same_count { others.now.count ≡ self.old.count }
        requires in_range { at < length others.now.sets }
        ensures count { self.new.count ≡ self.old.count }
        ensures ok { OnOk result ((set : List Bool) → slice_get others.now.sets at ≡ Some set
            → self.new.sets ≡ with_set self.old.sets set) }
        ensures err { OnErr result (self.new ≡ self.old) }
    {
        self.add_words(alloc, others.packed.words_at(at))
    }

    /// Keeps the set that the words keep in the same way.
    fn add_words(&mut self, alloc: Global, words: &[u64]) -> Result<bool, OutOfMemory>
        requires { AreWordsBelow words.now self.old.count }
        ensures answer { IfOk result (λ added. (added ≡ false)
            ↔ Covers self.old.sets (set_of words.now self.old.count)) }
        ensures count { self.new.count ≡ self.old.count }
        ensures ok { OnOk result
            (self.new.sets ≡ with_set self.old.sets (set_of words.now self.old.count)) }
        ensures err { OnErr result (self.new ≡ self.old) }
    {
        if self.packed.covers(words) {
            return Ok(false);
        }
        self.packed.put_for_supersets(alloc, words)?;
        Ok(true)
    }

    /// Puts the numbers of the kept set at a place, counted from 0, into a set.
    pub fn union_into(&self, at: usize, set: &mut RowBits)
        requires in_range { at < length self.now.sets }
        requires same_count { length set.old ≡ self.now.count }
        ensures value { IfSome (slice_get self.now.sets at) (λ it. set.new ≡ united set.old it) }
        ensures count { length set.new ≡ length set.old }
    {
        set.union_words(self.packed.words_at(at));
    }

    /// The kept sets by size, then by their rising lists of numbers, compared as lists.
    pub fn sorted(&self, alloc: Global) -> Result<SetList, OutOfMemory>
        ensures members { IfOk result
            (λ it. (set : List Bool) → Contains it set ↔ Contains self.now.sets set) }
        ensures in_order { IfOk result AreInOrder }
    {
        products_are_antichains(self);
        let mut sets = Vec::new(alloc);
        put_copies(alloc, self, &mut sets)?;
        sets.sort_by(|set, other| set.compare(other))?;
        Ok(List::from_vec(sets))
    }
}

/// Puts copies of the kept sets at the end, in their order.
fn put_copies(
    alloc: Global,
    products: &Products,
    copies: &mut Vec<RowBits>,
) -> Result<(), OutOfMemory>
    ensures { OnOk result (copies.new.items ≡ copies.old.items ++ products.now.sets) }
{
    'sets: for at in 0..products.len() {
        let set = products.copy_of(alloc, at)?;
        push(copies, set)?;
    }
    Ok(())
}

impl Replicate for Products {
    fn copy(&self, alloc: Global) -> Result<Products, OutOfMemory> {
        products_are_antichains(self);
        let packed = self.packed.copy(alloc)?;
        Ok(Products { packed })
    }
}

/// A law: each kept set has the count, and none is a subset of another.
pub fn products_are_antichains(products: &Products)
    ensures over { AreOver products.now.count products.now.sets }
    ensures antichain { IsAntichain products.now.sets }
{
    let _count = products.packed.count();
}

/// A law: after a list of sets of one count is added to new products, what is kept are exactly the minimal ones of
/// them, each once; and one set more keeps it so.
pub fn kept_sets_are_minimal()
    ensures one_more { OneMoreIsMinimal }
    ensures all { KeptAreMinimal }
{}
