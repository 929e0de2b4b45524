//! Comparison of words, several at a time.
ghost use Rattle.std.specs.Prelude.{ℕ, ◌≡◌, ◌↔◌, ◌<◌, ◌≤◌, ◌+◌, ◌%◌, ◌^◌, length, slice_index_or, IsTrue};
ghost use Rattle.esto_bits.specs.Words.{LackNoBit, LacksNone, LackNoneFrom, SomeWithin, SomeAround, IsWordWithin, IsWordAround, SomePlaceFrom, OneOfEight};

use std::simd::prelude::*;

/// How many words are compared at a time.
const LANES: usize = 8;

/// Whether no word of a block has a bit that the same word of `large` lacks.
fn block_within(small: &[u64], large: &[u64], at: usize) -> bool
    requires small { at + 8 ≤ length small.now }
    requires large { at + 8 ≤ length large.now }
    ensures { IsTrue result
        ↔ ((lane : ℕ) → lane < 8 → LacksNone small.now large.now (at + lane)) }
{
    let inner = u64x8::from_slice(&small[at..]);
    let outer = u64x8::from_slice(&large[at..]);
    (inner & outer).simd_ne(inner).to_bitmask() == 0
}

/// Whether no word from a place on has a bit that the same word of `large` lacks, one word after the other.
fn rest_within(small: &[u64], large: &[u64], from: usize) -> bool
    requires { length small.now ≡ length large.now }
    ensures { IsTrue result ↔ LackNoneFrom small.now large.now from }
{
    'words: for place in from..small.len() {
        if small[place] & large[place] != small[place] {
            return false;
        }
    }
    true
}

/// Whether no word of `small` has a bit that the same word of `large` lacks. The slices have one length. It takes no
/// memory.
pub fn row_within(small: &[u64], large: &[u64]) -> bool
    requires { length small.now ≡ length large.now }
    ensures fits { (place : ℕ) → slice_index_or small.now place 0 < 2 ^ 64 }
    ensures within { IsTrue result ↔ LackNoBit small.now large.now }
{
    let mut at = 0;
    'blocks: while small.len() - at >= LANES {
        if !block_within(small, large, at) {
            return false;
        }
        at += LANES;
    }
    rest_within(small, large, at)
}

/// Whether one of eight words from a place on has no bit that this word lacks.
fn block_has_within(words: &[u64], at: usize, word: u64) -> bool
    requires { at + 8 ≤ length words.now }
    ensures { IsTrue result ↔ OneOfEight at (IsWordWithin words.now word) }
{
    let block = u64x8::from_slice(&words[at..]);
    (block & u64x8::splat(word)).simd_eq(block).to_bitmask() != 0
}

/// Whether one of eight words from a place on has each bit of this word.
fn block_has_around(words: &[u64], at: usize, word: u64) -> bool
    requires { at + 8 ≤ length words.now }
    ensures { IsTrue result ↔ OneOfEight at (IsWordAround words.now word) }
{
    let block = u64x8::from_slice(&words[at..]);
    let each = u64x8::splat(word);
    (each & block).simd_eq(each).to_bitmask() != 0
}

/// Whether a word from a place on has no bit that this word lacks, one word after the other.
fn rest_has_within(words: &[u64], from: usize, word: u64) -> bool
    ensures { IsTrue result ↔ SomePlaceFrom from words.now (IsWordWithin words.now word) }
{
    'words: for place in from..words.len() {
        if words[place] & word == words[place] {
            return true;
        }
    }
    false
}

/// Whether a word from a place on has each bit of this word, one word after the other.
fn rest_has_around(words: &[u64], from: usize, word: u64) -> bool
    ensures { IsTrue result ↔ SomePlaceFrom from words.now (IsWordAround words.now word) }
{
    'words: for place in from..words.len() {
        if word & words[place] == word {
            return true;
        }
    }
    false
}

/// Whether some word has no bit that this word lacks.
fn has_within(words: &[u64], word: u64) -> bool
    ensures { IsTrue result ↔ SomePlaceFrom 0 words.now (IsWordWithin words.now word) }
{
    let mut at = 0;
    'blocks: while words.len() - at >= LANES {
        if block_has_within(words, at, word) {
            return true;
        }
        at += LANES;
    }
    rest_has_within(words, at, word)
}

/// Whether some word has each bit of this word.
fn has_around(words: &[u64], word: u64) -> bool
    ensures { IsTrue result ↔ SomePlaceFrom 0 words.now (IsWordAround words.now word) }
{
    let mut at = 0;
    'blocks: while words.len() - at >= LANES {
        if block_has_around(words, at, word) {
            return true;
        }
        at += LANES;
    }
    rest_has_around(words, at, word)
}

/// Whether some group of `width` words, from a multiple of `width` on, is within the row: no word of the group has a bit
/// that the same word of the row lacks. There is at least one word in a row, and the groups fill the words. Groups of one
/// word are compared several at a time. It takes no memory.
pub fn any_within(rows: &[u64], width: usize, row: &[u64]) -> bool
    requires width { 1 ≤ width }
    requires row { length row.now ≡ width }
    requires whole { length rows.now % width ≡ 0 }
    ensures fits { (place : ℕ) → slice_index_or rows.now place 0 < 2 ^ 64 }
    ensures within { IsTrue result ↔ SomeWithin rows.now width row.now }
{
    if width == 1 {
        return has_within(rows, row[0]);
    }
    'groups: for group in 0..rows.len() / width {
        let at = group * width;
        if row_within(&rows[at..at + width], row) {
            return true;
        }
    }
    false
}

/// Whether the row is within some group of `width` words, from a multiple of `width` on. What it asks of the words and the
/// row is the same.
pub fn any_around(rows: &[u64], width: usize, row: &[u64]) -> bool
    requires width { 1 ≤ width }
    requires row { length row.now ≡ width }
    requires whole { length rows.now % width ≡ 0 }
    ensures fits { (place : ℕ) → slice_index_or row.now place 0 < 2 ^ 64 }
    ensures around { IsTrue result ↔ SomeAround rows.now width row.now }
{
    if width == 1 {
        return has_around(rows, row[0]);
    }
    'groups: for group in 0..rows.len() / width {
        let at = group * width;
        if row_within(row, &rows[at..at + width]) {
            return true;
        }
    }
    false
}
