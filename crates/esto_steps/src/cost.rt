//! How many rows a join looks at, about. Nothing rests on it but speed.
ghost use Rattle.std.specs.Prelude.{Contains, IfOk};
ghost use Rattle.esto_steps.specs.declared.steps.Link.{Link};

use crate::codes::code_at;
use crate::sample::{place_in, scaled};
use crate::steps::{Link, Links};
use esto_columns::{Index, Rows};
use esto_term::{List, OutOfMemory};
use std::alloc::Global;

/// How many of the rows so far are tried, at most.
const TRIED: usize = 16;

/// A join of rows that are read whole gives up only where what it gained so many times is less than what it looked at.
const GAINED: usize = 8;

/// When a join by an index that is made for it gives up: once it looked at more places than the most, and at more than what
/// it gained so many times.
#[derive(Clone, Copy)]
pub struct Patience {
    pub most: usize,
    pub times: usize,
}

/// How many rows a join may look at and be cheap.
fn most_cheap(so_far: &Rows, rows: &Rows) -> usize {
    so_far.len().saturating_add(rows.len()).saturating_mul(2)
}

/// When the join of these rows by an index gives up. Of rows that are read whole few can be made to stand for all only
/// where the same ones stand there again and again.
pub(crate) fn patience_for(so_far: &Rows, rows: &Rows, whole: bool) -> Patience {
    Patience {
        most: most_cheap(so_far, rows),
        times: if whole { GAINED } else { 0 },
    }
}

/// How many rows a join by an index that they have may look at before it gives up; any number for one row so far.
pub(crate) fn most_looks(so_far: &Rows, rows: &Rows) -> usize {
    if so_far.len() > 1 {
        most_cheap(so_far, rows)
    } else {
        usize::MAX
    }
}

/// How many places are on the key's chain; one more than so many where there are more.
fn chain_length(index: &Index, key: &[u64], most: usize) -> usize {
    let mut next = index.last_of(key);
    let mut count: usize = 0;
    'places: while next > 0 {
        if count > most {
            return count;
        }
        next = index.before(next - 1);
        count = count.saturating_add(1);
    }
    count
}

/// How many places the index by the column gives for the code; one more than so many where there are more, and as many
/// as can be where there is no index.
pub fn places_given(rows: &Rows, column: usize, code: u64, most: usize) -> usize {
    match rows.index_by(&[column]) {
        Some(index) => chain_length(index, &[code], most),
        None => usize::MAX,
    }
}

/// How many places the link gives for the row so far at the place; one more than so many where there are more, and as
/// many as can be where the rows have no index by the link's column.
fn count_met(so_far: &Rows, at: usize, rows: &Rows, link: &Link, most: usize) -> usize {
    if at >= so_far.len() {
        return 0;
    }
    match code_at(so_far, at, &link.source) {
        Some(code) => places_given(rows, link.column, code, most),
        None => 0,
    }
}

/// How many places the link gives for all rows so far, about, by a look at one of each stretch of them; no more than so
/// many are counted.
fn met_cost(so_far: &Rows, rows: &Rows, link: &Link, most: usize) -> usize {
    let step = so_far.len() / TRIED + 1;
    let tried = so_far.len() / step;
    let mut found: usize = 0;
    'rows: for turn in 0..tried {
        let at = place_in(turn, step);
        found = found.saturating_add(count_met(so_far, at, rows, link, most));
        if scaled(found, tried, so_far.len()) >= most {
            return most;
        }
    }
    scaled(found, tried, so_far.len())
}

/// The number of the link that gives about the fewest places, or how many links there are where none seems cheap.
fn cheapest(so_far: &Rows, rows: &Rows, links: &Links) -> usize {
    let mut least = most_cheap(so_far, rows);
    let mut best = links.len();
    'links: for number in 0..links.len() {
        let cost = met_cost(so_far, rows, links.item(number), least);
        if cost < least {
            least = cost;
            best = number;
        }
    }
    best
}

/// The link of the number alone, or none past the end.
fn link_alone(alloc: Global, links: &Links, number: usize) -> Result<Links, OutOfMemory>
    ensures { IfOk result (λ it. (link : Link) → Contains it link → Contains links.now link) }
{
    let mut alone = List::new(alloc);
    if number >= links.len() {
        return Ok(alone);
    }
    alone.push(*links.item(number))?;
    Ok(alone)
}

/// The one of the links by which the rows are found with about the fewest looks, as some of the rows so far tell, where
/// they have an index by its column and it seems cheap; else none.
pub(crate) fn cheap_links(
    alloc: Global,
    so_far: &Rows,
    rows: &Rows,
    links: &Links,
) -> Result<Links, OutOfMemory>
    ensures { IfOk result (λ it. (link : Link) → Contains it link → Contains links.now link) }
{
    let best = cheapest(so_far, rows, links);
    link_alone(alloc, links, best)
}
