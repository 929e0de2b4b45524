//! Sets of one count in one vector of words.
ghost use Rattle.std.specs.Prelude.{◌≡◌, ◌↔◌, ◌<◌, ◌++◌, ◌∷◌, [], Some, length, slice_get, IsTrue, IfOk, IfSome, OnOk, OnErr};
ghost use Rattle.esto_term.specs.Sets.{Covers};
ghost use Rattle.esto_bits.specs.Kept.{HasSuperset, in_place_of_supersets, kept, unless_superset};
ghost use Rattle.esto_bits.specs.Words.{AreWordsBelow, set_of};

use crate::lanes::row_within;
use crate::pages::{Page, any_around_by, any_within_by, note_page};
use crate::words::{part, words_for};
use esto_term::{OutOfMemory, Replicate};
use std::alloc::Global;
use std::marker::Model;

/// Sets of numbers below one count, in the order in which they came, in one vector of words: each set has equally many of
/// them, and at least one. Whole pages of them are noted beside. Contracts see the count and the list of the sets.
#[derive(Drop)]
pub struct PackedSets {
    count: usize,
    many: usize,
    words: Vec<u64>,
    pages: Vec<Page>,
}

impl Model for PackedSets {
    ghost use Rattle.esto_bits.specs.Kept.{Kept, kept};
    ghost use Rattle.esto_bits.specs.Pages.{ArePaged};
    ghost use Rattle.esto_bits.specs.Words.{sets_of};

    ghost Value = { Kept };

    ghost view = { λ it. kept it.count (sets_of it.words.items it.count it.many) };

    ghost invariant = { λ it. ArePaged it.words.items it.count it.many it.pages.items };
}

impl PackedSets {
    /// No set yet, which takes no memory.
    pub fn new(alloc: Global, count: usize) -> PackedSets
        ensures { result ≡ kept count [] }
    {
        PackedSets {
            count,
            many: 0,
            words: Vec::new(alloc),
            pages: Vec::new(alloc),
        }
    }

    /// The count that each number of each set is below.
    pub fn count(&self) -> usize
        ensures { result ≡ self.now.count }
    {
        self.count
    }

    /// How many sets there are.
    pub fn len(&self) -> usize
        ensures { result ≡ length self.now.sets }
    {
        self.many
    }

    /// The words of the set at a place, counted from 0.
    pub fn words_at(&self, at: usize) -> &[u64]
        requires { at < length self.now.sets }
        ensures below { AreWordsBelow result.now self.now.count }
        ensures set { slice_get self.now.sets at ≡ Some (set_of result.now self.now.count) }
    {
        part(self.words.as_slice(), at, words_for(self.count))
    }

    /// Whether some set is a subset of the one that the words keep.
    pub fn covers(&self, row: &[u64]) -> bool
        requires { AreWordsBelow row.now self.now.count }
        ensures { IsTrue result ↔ Covers self.now.sets (set_of row.now self.now.count) }
    {
        any_within_by(
            self.words.as_slice(),
            words_for(self.count),
            self.pages.as_slice(),
            row,
        )
    }

    /// Whether some set is a superset of the one that the words keep.
    fn has_superset(&self, row: &[u64]) -> bool
        requires { AreWordsBelow row.now self.now.count }
        ensures { IsTrue result ↔ HasSuperset self.now.sets (set_of row.now self.now.count) }
    {
        any_around_by(
            self.words.as_slice(),
            words_for(self.count),
            self.pages.as_slice(),
            row,
        )
    }

    /// Puts the set that the words keep at the end.
    fn push(&mut self, row: &[u64]) -> Result<(), OutOfMemory>
        requires { AreWordsBelow row.now self.old.count }
        ensures ok { OnOk result (self.new
            ≡ kept self.old.count (self.old.sets ++ set_of row.now self.old.count ∷ [])) }
        ensures err { OnErr result (self.new ≡ self.old) }
    {
        match self.words.extend_from_slice(row) {
            Ok(()) => {
                self.many += 1;
                note_page(
                    self.words.as_slice(),
                    words_for(self.count),
                    self.many,
                    &mut self.pages,
                );
                Ok(())
            }
            Err(_) => Err(OutOfMemory),
        }
    }

    /// Puts the set at a place of the others at the end, unless it is a superset of the one that the words keep.
    fn push_unless_superset(
        &mut self,
        others: &PackedSets,
        at: usize,
        row: &[u64],
    ) -> Result<(), OutOfMemory>
        requires row { AreWordsBelow row.now self.old.count }
        requires same_count { others.now.count ≡ self.old.count }
        requires in_range { at < length others.now.sets }
        ensures { OnOk result (IfSome (slice_get others.now.sets at) (λ set. self.new ≡ kept
            self.old.count
            (unless_superset (set_of row.now self.old.count) self.old.sets set))) }
    {
        let words = others.words_at(at);
        if row_within(row, words) {
            return Ok(());
        }
        self.push(words)
    }

    /// Puts those of the others that are no supersets of the set that the words keep at the end, where none is yet, and
    /// that set behind them.
    fn push_for_supersets(&mut self, others: &PackedSets, row: &[u64]) -> Result<(), OutOfMemory>
        requires row { AreWordsBelow row.now others.now.count }
        requires none { self.old ≡ kept others.now.count [] }
        ensures { OnOk result (self.new ≡ kept others.now.count
            (in_place_of_supersets others.now.sets (set_of row.now others.now.count))) }
    {
        'sets: for at in 0..others.len() {
            self.push_unless_superset(others, at, row)?;
        }
        self.push(row)
    }

    /// Puts the set that the words keep at the end, in place of its supersets. An error changes nothing.
    pub fn put_for_supersets(&mut self, alloc: Global, row: &[u64]) -> Result<(), OutOfMemory>
        requires { AreWordsBelow row.now self.old.count }
        ensures ok { OnOk result (self.new ≡ kept self.old.count
            (in_place_of_supersets self.old.sets (set_of row.now self.old.count))) }
        ensures err { OnErr result (self.new ≡ self.old) }
    {
        if !self.has_superset(row) {
            return self.push(row);
        }
        let mut rest = PackedSets::new(alloc, self.count());
        rest.push_for_supersets(self, row)?;
        *self = rest;
        Ok(())
    }
}

/// A copy of the pages.
fn copied(alloc: Global, pages: &[Page]) -> Result<Vec<Page>, OutOfMemory>
    ensures { IfOk result (λ it. it.items ≡ pages.now) }
{
    match Vec::from_slice(alloc, pages) {
        Ok(own) => Ok(own),
        Err(_) => Err(OutOfMemory),
    }
}

impl Replicate for PackedSets {
    fn copy(&self, alloc: Global) -> Result<PackedSets, OutOfMemory> {
        let pages = copied(alloc, self.pages.as_slice())?;
        match Vec::from_slice(alloc, self.words.as_slice()) {
            Ok(words) => Ok(PackedSets {
                count: self.count,
                many: self.many,
                words,
                pages,
            }),
            Err(_) => Err(OutOfMemory),
        }
    }
}
