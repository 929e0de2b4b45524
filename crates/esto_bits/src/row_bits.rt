//! Sets of atom numbers below a count.
ghost use Rattle.std.specs.Prelude.{ℕ, ◌≡◌, ◌↔◌, ◌⊎◌, ◌<◌, false, true, length, replicate, slice_set, All, Contains, IsTrue, IfOk};
ghost use Rattle.esto_term.specs.Sets.{Has, Within, numbers, set_cmp, united};
ghost use Rattle.esto_bits.specs.Words.{AreWordsBelow, set_of};

use crate::lanes::row_within;
use crate::words::{add_bits, bits_in, words_for};
use esto_term::{OutOfMemory, Places, Replicate, Values};
use std::alloc::Global;
use std::cmp::Ordering;
use std::marker::Model;

/// A set of atom numbers below a count. Contracts see the list of the answers to "is it in?", one for each
/// number below the count, so two sets of one count are equal exactly where they have the same numbers.
#[derive(Drop)]
pub struct RowBits {
    count: usize,
    words: Vec<u64>,
}

impl Model for RowBits {
    ghost use Rattle.std.specs.Prelude.{List, Bool};
    ghost use Rattle.esto_bits.specs.Words.{set_of, AreWordsBelow};

    ghost Value = { List Bool };

    ghost view = { λ it. set_of it.words.items it.count };

    ghost invariant = { λ it. AreWordsBelow it.words.items it.count };
}

impl RowBits {
    /// The empty set of numbers below `atoms`.
    pub fn new(alloc: Global, atoms: usize) -> Result<RowBits, OutOfMemory>
        ensures { IfOk result (λ it. it ≡ replicate atoms false) }
    {
        match vec![in alloc; 0u64; words_for(atoms)] {
            Ok(words) => Ok(RowBits {
                count: atoms,
                words,
            }),
            Err(_) => Err(OutOfMemory),
        }
    }

    /// The set of these numbers below `atoms`.
    pub fn of(alloc: Global, atoms: usize, numbers: &[usize]) -> Result<RowBits, OutOfMemory>
        requires { All (λ number. number < atoms) numbers.now }
        ensures count { IfOk result (λ it. length it ≡ atoms) }
        ensures has { IfOk result
            (λ it. (number : ℕ) → Has it number ↔ Contains numbers.now number) }
    {
        let mut set = RowBits::new(alloc, atoms)?;
        set.insert_all(numbers);
        Ok(set)
    }

    /// The count that each number of the set is below.
    pub fn count(&self) -> usize
        ensures { result ≡ length self.now }
    {
        self.count
    }

    /// How many numbers the set has.
    pub fn size(&self) -> usize
        ensures { result ≡ length (numbers self.now) }
    {
        // the count is read so that it is known to fit
        let _count = self.count;
        bits_in(self.words.as_slice())
    }

    /// Whether the set has the number.
    pub fn has(&self, atom: usize) -> bool
        requires { atom < length self.now }
        ensures { IsTrue result ↔ Has self.now atom }
    {
        (self.words[atom / 64] >> (atom % 64)) & 1 == 1
    }

    /// Puts a number into the set.
    pub fn insert(&mut self, atom: usize)
        requires { atom < length self.old }
        ensures value { self.new ≡ slice_set self.old atom true }
        ensures has { (number : ℕ) → Has self.new number ↔ ((number ≡ atom) ⊎ Has self.old number) }
    {
        self.words[atom / 64] |= 1u64 << (atom % 64);
    }

    /// Whether the set is a subset of the other, which has the same count.
    pub fn within(&self, other: &RowBits) -> bool
        requires { length self.now ≡ length other.now }
        ensures { IsTrue result ↔ Within self.now other.now }
    {
        row_within(self.words.as_slice(), other.words.as_slice())
    }

    /// Puts the numbers of the other set, which has the same count, into this one.
    pub fn union(&mut self, other: &RowBits)
        requires { length self.old ≡ length other.now }
        ensures value { self.new ≡ united self.old other.now }
        ensures has { (number : ℕ) → Has self.new number
            ↔ (Has self.old number ⊎ Has other.now number) }
        ensures count { length self.new ≡ length self.old }
    {
        self.union_words(other.words());
    }

    /// The order of sets: by size, then by their rising lists of numbers, compared as lists. Of sets of one count only
    /// equal ones are `Equal`.
    pub fn compare(&self, other: &RowBits) -> Ordering
        ensures { result ≡ set_cmp self.now other.now }
    {
        let order = self.size().cmp(&other.size());
        if order.is_ne() {
            return order;
        }
        'numbers: for number in 0..self.count().max(other.count()) {
            let here = self.has_at(number);
            if here != other.has_at(number) {
                return if here {
                    Ordering::Less
                } else {
                    Ordering::Greater
                };
            }
        }
        Ordering::Equal
    }

    /// The numbers of the set, rising.
    pub fn numbers(&self, alloc: Global) -> Result<Places, OutOfMemory>
        ensures { IfOk result (λ it. it ≡ numbers self.now) }
    {
        let mut numbers = Values::new(alloc);
        'numbers: for number in 0..self.count() {
            if self.has(number) {
                numbers.push(number)?;
            }
        }
        Ok(numbers)
    }

    /// The words that keep the set.
    pub(crate) fn words(&self) -> &[u64]
        ensures below { AreWordsBelow result.now (length self.now) }
        ensures set { set_of result.now (length self.now) ≡ self.now }
    {
        self.words.as_slice()
    }

    /// The set that the words keep.
    pub(crate) fn from_words(
        alloc: Global,
        count: usize,
        words: &[u64],
    ) -> Result<RowBits, OutOfMemory>
        requires { AreWordsBelow words.now count }
        ensures { IfOk result (λ it. it ≡ set_of words.now count) }
    {
        match Vec::from_slice(alloc, words) {
            Ok(words) => Ok(RowBits { count, words }),
            Err(_) => Err(OutOfMemory),
        }
    }

    /// Puts the numbers of the set that the words keep into this one.
    pub(crate) fn union_words(&mut self, words: &[u64])
        requires { AreWordsBelow words.now (length self.old) }
        ensures value { self.new ≡ united self.old (set_of words.now (length self.old)) }
        ensures count { length self.new ≡ length self.old }
    {
        add_bits(&mut self.words, words);
    }

    /// Puts numbers into the set.
    fn insert_all(&mut self, numbers: &[usize])
        requires { All (λ number. number < length self.old) numbers.now }
        ensures count { length self.new ≡ length self.old }
        ensures has { (number : ℕ) → Has self.new number
            ↔ (Contains numbers.now number ⊎ Has self.old number) }
    {
        'numbers: for number in numbers {
            self.insert(*number);
        }
    }

    /// Whether the set has the number, which may be beyond the count.
    fn has_at(&self, number: usize) -> bool
        ensures { IsTrue result ↔ Has self.now number }
    {
        number < self.count() && self.has(number)
    }
}

impl Replicate for RowBits {
    fn copy(&self, alloc: Global) -> Result<RowBits, OutOfMemory> {
        match Vec::from_slice(alloc, self.words.as_slice()) {
            Ok(words) => Ok(RowBits {
                count: self.count,
                words,
            }),
            Err(_) => Err(OutOfMemory),
        }
    }
}
