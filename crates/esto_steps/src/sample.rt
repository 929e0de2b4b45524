//! Some of many rows, which stand for all where these are counted. Nothing rests on it but speed, so nothing here has a
//! contract.
use crate::codes::name_codes;
use crate::steps::Sources;
use esto_columns::Rows;
use esto_term::{OutOfMemory, Values};

/// By what the number of a stretch is multiplied to scatter the places that are looked at.
const FACTOR: u64 = 0x9E37_79B9_7F4A_7C15;

/// How many there are among all, where so many were counted among some of them; too few where the product with the
/// number of all is more than a word holds.
pub fn scaled(count: usize, looked: usize, all: usize) -> usize {
    count.saturating_mul(all) / looked.max(1)
}

/// One of the places of a stretch, where stretches have a length. Which one it is looks like chance, so that rows which
/// come again at a step are not met by the same step.
pub fn place_in(stretch: usize, length: usize) -> usize {
    let mixed = (stretch as u64).wrapping_mul(FACTOR) >> 32;
    let within = (mixed % length.max(1) as u64) as usize;
    stretch.saturating_mul(length).saturating_add(within)
}

/// Reads the key of the row at the place: its codes in the columns. Tells whether the row is there and has them.
pub fn read_key(
    rows: &Rows,
    at: usize,
    columns: &Sources,
    key: &mut Values<u64>,
) -> Result<bool, OutOfMemory> {
    if at >= rows.len() {
        return Ok(false);
    }
    name_codes(rows, at, columns, key)
}
