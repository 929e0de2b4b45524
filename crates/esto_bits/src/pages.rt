//! Pages of 64 sets each: what the first words of the sets of a page have in common, and what some of them has. By these most
//! sets that don't fit are passed over.
ghost use Rattle.std.specs.Prelude.{ℕ, ◌≡◌, ◌↔◌, ◌<◌, ◌≤◌, ◌+◌, ◌*◌, ◌%◌, ◌^◌, length, slice_index_or, slice_range, IsTrue};
ghost use Rattle.esto_bits.specs.Pages.{ArePagesOf, HasWithin, HasAround, IsPageOf, SomeOnPage};
ghost use Rattle.esto_bits.specs.Words.{SomeAround, SomeWithin};

use crate::lanes::{any_around, any_within};
use crate::words::part;

/// How many sets a page has.
pub const PAGE: usize = 64;

/// Bits of the first words of a page's sets: those that all of them have, and those that some of them has.
#[derive(Clone, Copy, Drop)]
pub struct Page {
    pub all: u64,
    pub any: u64,
}

/// The page at a place, of sets that have so many words each.
pub fn page_of(rows: &[u64], width: usize, place: usize) -> Page
    requires width { 1 ≤ width }
    requires room { (place * 64 + 64) * width ≤ length rows.now }
    ensures { IsPageOf rows.now width place result }
{
    let from = place * PAGE;
    let mut all = u64::MAX;
    let mut any = 0;
    'sets: for at in from..from + PAGE {
        let word = rows[at * width];
        all &= word;
        any |= word;
    }
    Page { all, any }
}

/// Notes the next page, where so many sets have come that it is whole. Where memory is wanting it is left out: its sets are
/// looked through like those behind the last page.
pub fn note_page(rows: &[u64], width: usize, many: usize, pages: &mut Vec<Page>)
    requires width { 1 ≤ width }
    requires many { many * width ≤ length rows.now }
    requires within { length pages.old.items * 64 ≤ many }
    requires pages { ArePagesOf rows.now width pages.old.items }
    ensures within { length pages.new.items * 64 ≤ many }
    ensures pages { ArePagesOf rows.now width pages.new.items }
{
    let place = pages.len();
    if many - place * PAGE < PAGE {
        return;
    }
    match pages.push(page_of(rows, width, place)) {
        Ok(()) => {}
        Err(_) => {}
    }
}

/// Whether some set of a page is within the row.
fn page_has_within(rows: &[u64], width: usize, place: usize, row: &[u64]) -> bool
    requires width { 1 ≤ width }
    requires row { length row.now ≡ width }
    requires room { (place * 64 + 64) * width ≤ length rows.now }
    ensures { IsTrue result ↔ SomeOnPage rows.now width place (HasWithin row.now) }
{
    any_within(part(rows, place, PAGE * width), width, row)
}

/// Whether the row is within some set of a page.
fn page_has_around(rows: &[u64], width: usize, place: usize, row: &[u64]) -> bool
    requires width { 1 ≤ width }
    requires row { length row.now ≡ width }
    requires room { (place * 64 + 64) * width ≤ length rows.now }
    ensures { IsTrue result ↔ SomeOnPage rows.now width place (HasAround row.now) }
{
    any_around(part(rows, place, PAGE * width), width, row)
}

/// The words of the sets behind so many pages.
fn behind(rows: &[u64], width: usize, pages: usize) -> &[u64]
    requires width { 1 ≤ width }
    requires room { pages * 64 * width ≤ length rows.now }
    ensures { result.now ≡ slice_range rows.now (pages * 64 * width) (length rows.now) }
{
    &rows[pages * PAGE * width..]
}

/// Whether some group of `width` words, from a multiple of `width` on, is within the row. What is asked of the words and the
/// row is what `any_within` asks. Pages whose sets have a bit in common that the row lacks are passed over.
pub fn any_within_by(rows: &[u64], width: usize, pages: &[Page], row: &[u64]) -> bool
    requires width { 1 ≤ width }
    requires row { length row.now ≡ width }
    requires whole { length rows.now % width ≡ 0 }
    requires pages { ArePagesOf rows.now width pages.now }
    ensures fits { (place : ℕ) → slice_index_or rows.now place 0 < 2 ^ 64 }
    ensures within { IsTrue result ↔ SomeWithin rows.now width row.now }
{
    'pages: for (place, page) in pages.iter().enumerate() {
        if page.all & row[0] != page.all {
            continue;
        }
        if page_has_within(rows, width, place, row) {
            return true;
        }
    }
    any_within(behind(rows, width, pages.len()), width, row)
}

/// Whether the row is within some group of `width` words, from a multiple of `width` on. What is asked of the words and the
/// row is the same. Pages where the row has a bit that no set has are passed over.
pub fn any_around_by(rows: &[u64], width: usize, pages: &[Page], row: &[u64]) -> bool
    requires width { 1 ≤ width }
    requires row { length row.now ≡ width }
    requires whole { length rows.now % width ≡ 0 }
    requires pages { ArePagesOf rows.now width pages.now }
    ensures fits { (place : ℕ) → slice_index_or row.now place 0 < 2 ^ 64 }
    ensures around { IsTrue result ↔ SomeAround rows.now width row.now }
{
    'pages: for (place, page) in pages.iter().enumerate() {
        if row[0] & page.any != row[0] {
            continue;
        }
        if page_has_around(rows, width, place, row) {
            return true;
        }
    }
    any_around(behind(rows, width, pages.len()), width, row)
}
