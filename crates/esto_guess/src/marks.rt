//! Marks of codes.
ghost use Rattle.std.specs.Prelude.{◌≤◌, length};

use esto_columns::Column;
use esto_term::{OutOfMemory, Values};
use std::alloc::Global;

/// How many words of marks there may be beside one for each row.
const BESIDE: u64 = 1 << 12;

/// How many codes are tried before all are.
const TRIED: usize = 1 << 10;

/// The codes from the least to the largest; none where the least is more.
#[derive(Clone, Copy)]
struct Range {
    least: u64,
    largest: u64,
}

/// The range of the first codes of the column, so many.
fn range_of(column: &Column, count: usize) -> Range
    requires { count ≤ length column.now }
{
    let mut range = Range {
        least: u64::MAX,
        largest: 0,
    };
    'codes: for at in 0..count {
        let code = column.item(at);
        range.least = range.least.min(code);
        range.largest = range.largest.max(code);
    }
    range
}

/// A mark for each code of a range, as a bit of a word.
#[derive(Drop)]
struct Marks {
    least: u64,
    words: Values<u64>,
}

impl Marks {
    /// No marks, with so many words for the codes from the least on.
    fn new(alloc: Global, least: u64, count: usize) -> Result<Marks, OutOfMemory> {
        let mut words = Values::with_room(alloc, count)?;
        'words: for _word in 0..count {
            words.push(0)?;
        }
        Ok(Marks { least, words })
    }

    /// Puts the bit into the word at the place, and tells whether it was not there. A word that is not there has each bit.
    fn put(&mut self, at: usize, bit: u64) -> bool {
        if at >= self.words.len() {
            return false;
        }
        let word = self.words.item(at);
        self.words.set(at, word | bit);
        word & bit == 0
    }

    /// Marks the code, and tells whether it had no mark. A code out of the range counts as one that had.
    fn mark(&mut self, code: u64) -> bool {
        let Some(number) = code.checked_sub(self.least) else {
            return false;
        };
        self.put((number / 64) as usize, 1u64 << (number % 64))
    }

    /// Marks the first codes of the column, so many, up to the first that had a mark, and tells whether none had.
    fn mark_all(&mut self, column: &Column, count: usize) -> bool
        requires { count ≤ length column.now }
    {
        'codes: for at in 0..count {
            if !self.mark(column.item(at)) {
                return false;
            }
        }
        true
    }
}

/// Whether no two of the first codes, so many, are the same; none where that isn't looked into, since their range has far
/// more codes.
fn firsts_differ(alloc: Global, column: &Column, count: usize) -> Result<Option<bool>, OutOfMemory>
    requires { count ≤ length column.now }
{
    let range = range_of(column, count);
    let codes = range.largest.saturating_sub(range.least);
    let words = codes / 64 + 1;
    if words > (count as u64).saturating_add(BESIDE) {
        return Ok(None);
    }
    let mut marks = Marks::new(alloc, range.least, words as usize)?;
    Ok(Some(marks.mark_all(column, count)))
}

/// Whether no two of the codes are the same; false too where their range has far more codes than there are. The first ones
/// are tried before all.
pub(crate) fn all_differ(alloc: Global, column: &Column) -> Result<bool, OutOfMemory> {
    let count = column.len();
    if count > TRIED && firsts_differ(alloc, column, TRIED)? == Some(false) {
        return Ok(false);
    }
    Ok(firsts_differ(alloc, column, count)? == Some(true))
}
