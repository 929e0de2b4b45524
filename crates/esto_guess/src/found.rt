//! How many followers rows of a sample have in a table.
ghost use Rattle.std.specs.Prelude.{◌<◌, length};

use crate::keys::Keys;
use esto_columns::Rows;
use esto_steps::{Links, Sources, columns_of, place_in, places_given, read_key, scaled};
use esto_term::{OutOfMemory, Values};
use std::alloc::Global;

/// How many of the table's rows are looked at, where no index serves.
const LOOKED: usize = 4_096;

/// How many places an index gives for all keys, at most, where it serves.
const MOST: usize = 65_536;

/// How many of the places that an index gives for a key are looked at.
const PER_KEY: usize = 512;

/// How many followers were counted, how many places were found for the keys, how many rows of the sample have the key
/// that is looked for, and two keys that are read anew: this one, and that of a row.
#[derive(Drop)]
struct Counts {
    followers: usize,
    places: usize,
    having: usize,
    key: Values<u64>,
    own: Values<u64>,
}

impl Counts {
    /// Nothing is counted at first.
    fn new(alloc: Global) -> Counts {
        Counts {
            followers: 0,
            places: 0,
            having: 0,
            key: Values::new(alloc),
            own: Values::new(alloc),
        }
    }
}

/// The place that stands there in the list; past its end a place that no row has.
fn place_at(places: &[usize], at: usize) -> usize {
    match places.get(at) {
        Some(place) => *place,
        None => usize::MAX,
    }
}

/// How many followers the sample with the keys has among the rows, by their columns and a look at one of each stretch
/// of them. Their keys are read into the list.
fn count_some(
    rows: &Rows,
    columns: &Sources,
    keys: &Keys,
    key: &mut Values<u64>,
) -> Result<usize, OutOfMemory> {
    let step = rows.len() / LOOKED + 1;
    let looked = rows.len() / step;
    let mut followers: usize = 0;
    'rows: for turn in 0..looked {
        if read_key(rows, place_in(turn, step), columns, key)? {
            followers = followers.saturating_add(keys.count_of(key.items()));
        }
    }
    Ok(scaled(followers, looked, rows.len()))
}

/// How many of the rows at the places have the key in the columns, by a look at one of each stretch of them.
fn count_key(
    rows: &Rows,
    places: &[usize],
    columns: &Sources,
    key: &[u64],
    own: &mut Values<u64>,
) -> Result<usize, OutOfMemory> {
    let step = places.len() / PER_KEY + 1;
    let looked = places.len() / step;
    let mut count: usize = 0;
    'places: for turn in 0..looked {
        let place = place_at(places, place_in(turn, step));
        let named = read_key(rows, place, columns, own)?;
        if named && own.items() == key {
            count = count.saturating_add(1);
        }
    }
    Ok(scaled(count, looked, places.len()))
}

/// The places that the index by the column gives for the code of the number in the key at the place, if there are such
/// ones and not too many. The key is read into the list.
fn places_of(
    alloc: Global,
    rows: &Rows,
    column: usize,
    number: usize,
    keys: &Rows,
    at: usize,
    key: &mut Values<u64>,
) -> Result<Option<Vec<usize>>, OutOfMemory>
    requires { at < length keys.now.rows }
{
    keys.read_row(at, key)?;
    let Some(code) = key.items().get(number) else {
        return Ok(None);
    };
    if places_given(rows, column, *code, MOST) > MOST {
        return Ok(None);
    }
    rows.places(alloc, &[column], &[*code])
}

/// Counts those of the rows at the places that have the key in the columns, for each row of the sample that has it, and
/// the places. Tells whether so many serve so far: too many are not looked at.
fn count_places(
    rows: &Rows,
    places: &[usize],
    columns: &Sources,
    counts: &mut Counts,
) -> Result<bool, OutOfMemory> {
    counts.places = counts.places.saturating_add(places.len());
    if counts.places > MOST {
        return Ok(false);
    }
    let count = count_key(rows, places, columns, counts.key.items(), &mut counts.own)?;
    let followers = count.saturating_mul(counts.having);
    counts.followers = counts.followers.saturating_add(followers);
    Ok(true)
}

/// Counts the rows that have the key at the place in the columns, for each row of the sample that has it, by the index
/// by the column of the number, and the places that it gives for the key. Tells whether it serves so far.
fn count_key_by(
    alloc: Global,
    rows: &Rows,
    column: usize,
    number: usize,
    columns: &Sources,
    keys: &Rows,
    at: usize,
    counts: &mut Counts,
) -> Result<bool, OutOfMemory>
    requires { at < length keys.now.rows }
{
    match places_of(alloc, rows, column, number, keys, at, &mut counts.key)? {
        Some(places) => count_places(rows, places.as_slice(), columns, counts),
        None => Ok(false),
    }
}

/// How many followers the sample with the keys has among the rows, by their columns and the index by the one of the
/// number, where these counts are gone on with; none where it gives too many places.
fn count_each_by(
    alloc: Global,
    rows: &Rows,
    column: usize,
    number: usize,
    columns: &Sources,
    keys: &Keys,
    counts: &mut Counts,
) -> Result<Option<usize>, OutOfMemory> {
    let different = keys.rows();
    'keys: for at in 0..different.len() {
        counts.having = keys.count_at(at);
        if !count_key_by(alloc, rows, column, number, columns, different, at, counts)? {
            return Ok(None);
        }
    }
    Ok(Some(counts.followers))
}

/// The same, where nothing is counted at first.
fn count_by(
    alloc: Global,
    rows: &Rows,
    column: usize,
    number: usize,
    columns: &Sources,
    keys: &Keys,
) -> Result<Option<usize>, OutOfMemory> {
    let mut counts = Counts::new(alloc);
    count_each_by(alloc, rows, column, number, columns, keys, &mut counts)
}

/// How many places the index by the column gives for the first key, as far as they are counted; more than there are
/// where there is no index. The key is read into the list.
fn first_count(
    rows: &Rows,
    column: usize,
    number: usize,
    keys: &Rows,
    key: &mut Values<u64>,
) -> Result<usize, OutOfMemory> {
    if keys.len() == 0 {
        return Ok(0);
    }
    keys.read_row(0, key)?;
    match key.items().get(number) {
        Some(code) => Ok(places_given(rows, column, *code, MOST)),
        None => Ok(usize::MAX),
    }
}

/// The number of the link whose index gives the fewest places for the first key, or how many links there are where no
/// index serves. The key is read into the list.
fn best_link(
    links: &Links,
    rows: &Rows,
    keys: &Rows,
    key: &mut Values<u64>,
) -> Result<usize, OutOfMemory> {
    let mut least = MOST;
    let mut best = links.len();
    'links: for number in 0..links.len() {
        let count = first_count(rows, links.item(number).column, number, keys, key)?;
        if count < least {
            least = count;
            best = number;
        }
    }
    Ok(best)
}

/// How many followers the sample with the keys has among the table's rows, about, by the columns, which are those of the
/// links. Keys are read into the list.
fn count_in(
    alloc: Global,
    links: &Links,
    table: &Rows,
    columns: &Sources,
    keys: &Keys,
    key: &mut Values<u64>,
) -> Result<usize, OutOfMemory> {
    let best = best_link(links, table, keys.rows(), key)?;
    if best < links.len() {
        let column = links.item(best).column;
        if let Some(count) = count_by(alloc, table, column, best, columns, keys)? {
            return Ok(count);
        }
    }
    count_some(table, columns, keys, key)
}

/// How many followers the sample with the keys has among the table's rows by the links, about: by an index by one of
/// their columns where it serves, and else by a look at some of the rows.
pub(crate) fn count_found(
    alloc: Global,
    links: &Links,
    table: &Rows,
    keys: &Keys,
) -> Result<usize, OutOfMemory> {
    let columns = columns_of(alloc, links)?;
    let mut key = Values::new(alloc);
    count_in(alloc, links, table, &columns, keys, &mut key)
}
