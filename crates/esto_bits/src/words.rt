//! Plain loops over 64-bit words.
ghost use Rattle.std.specs.Prelude.{ℕ, ◌≡◌, ◌<◌, ◌≤◌, ◌+◌, ◌*◌, ◌^◌, count_ones, length, min, slice_index_or, slice_range, sum_by};
ghost use Rattle.esto_bits.specs.Words.{HaveBitsOf, words_for};

/// How many words a set of numbers below the count has: at least one.
pub fn words_for(count: usize) -> usize
    ensures { result ≡ words_for count }
{
    if count == 0 { 1 } else { count.div_ceil(64) }
}

/// Adds the bits of each word of `other` to the same word of `words`.
pub fn add_bits(words: &mut Vec<u64>, other: &[u64])
    requires { length words.old.items ≡ length other.now }
    ensures length { length words.new.items ≡ length words.old.items }
    ensures bits { HaveBitsOf words.new.items words.old.items other.now }
{
    'words: for place in 0..other.len() {
        words[place] |= other[place];
    }
}

/// How many bits of the words are 1, or the greatest `usize` where there are more.
pub fn bits_in(words: &[u64]) -> usize
    ensures fits { (place : ℕ) → slice_index_or words.now place 0 < 2 ^ 64 }
    ensures value { result ≡ min (sum_by count_ones words.now) usize.MAX }
{
    let mut bits: usize = 0;
    'words: for word in words {
        bits = bits.saturating_add(word.count_ones() as usize);
    }
    bits
}

/// So many words, from a multiple of their number on.
pub fn part(words: &[u64], at: usize, width: usize) -> &[u64]
    requires { at * width + width ≤ length words.now }
    ensures { result.now ≡ slice_range words.now (at * width) (at * width + width) }
{
    // the length is read so that it is known to fit
    let _length = words.len();
    let from = at * width;
    &words[from..from + width]
}
