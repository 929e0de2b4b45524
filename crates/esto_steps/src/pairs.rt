//! Pairs of rows so far and rows of a fragment, and what is kept of them.
ghost use Rattle.std.specs.Prelude.{◌≡◌, OnOk, IsTrue, Contains};
ghost use Rattle.esto_steps.specs.declared.steps.Source.{Source};
ghost use Rattle.esto_steps.specs.Paired.{code_in, code_or_zero, kept_of, kept_rows};

use crate::codes::code_in;
use crate::steps::{Source, Sources};
use esto_columns::Rows;
use esto_term::{List, OutOfMemory, Values};

/// A row so far and a row of a fragment, by their places, each counted from 0.
#[derive(Clone, Copy)]
pub struct Pair {
    pub left: usize,
    pub right: usize,
}

/// The same as `are_same`, without a contract: by a look from the last source back, which finds a difference sooner, since
/// the first sources likely name cells of one row so far.
fn seem_same(kept: &Sources, so_far: &Rows, rows: &Rows, pair: Pair, other: Pair) -> bool {
    'sources: for back in 0..kept.len() {
        let source = kept.item(kept.len() - 1 - back);
        if code_in(so_far, rows, pair, source) != code_in(so_far, rows, other, source) {
            return false;
        }
    }
    true
}

/// Whether each of the sources names the same in the two pairs.
fn are_same(kept: &Sources, so_far: &Rows, rows: &Rows, pair: Pair, other: Pair) -> bool
    ensures { IsTrue result → (source : Source) → Contains kept.now source
        → code_in so_far.now rows.now pair source ≡ code_in so_far.now rows.now other source }
{
    'sources: for source in kept.items() {
        if code_in(so_far, rows, pair, source) != code_in(so_far, rows, other, source) {
            return false;
        }
    }
    true
}

/// Whether what is kept of the pair at the place is the same as what is kept of this pair.
pub(crate) fn is_same_at(
    pairs: &List<Pair>,
    at: usize,
    kept: &Sources,
    so_far: &Rows,
    rows: &Rows,
    pair: Pair,
) -> bool
    ensures { IsTrue result → Contains (kept_rows kept.now so_far.now rows.now pairs.now)
        (kept_of kept.now so_far.now rows.now pair) }
{
    if at >= pairs.len() {
        return false;
    }
    let other = *pairs.item(at);
    seem_same(kept, so_far, rows, other, pair) && are_same(kept, so_far, rows, other, pair)
}

/// The code that is kept of the pair by the source; 0 where it names none.
fn code_kept(so_far: &Rows, rows: &Rows, pair: Pair, source: &Source) -> u64
    ensures { result ≡ code_or_zero (code_in so_far.now rows.now pair source.now) }
{
    match code_in(so_far, rows, pair, source) {
        Some(code) => code,
        None => 0,
    }
}

/// Makes the codes those that are kept of the pair.
pub(crate) fn read_kept(
    kept: &Sources,
    so_far: &Rows,
    rows: &Rows,
    pair: Pair,
    codes: &mut Values<u64>,
) -> Result<(), OutOfMemory>
    ensures { OnOk result (codes.new ≡ kept_of kept.now so_far.now rows.now pair) }
{
    codes.truncate(0);
    'sources: for source in kept.items() {
        codes.push(code_kept(so_far, rows, pair, source))?;
    }
    Ok(())
}
