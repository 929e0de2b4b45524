//! What a join gains: rows, of which no two are the same where its stretches are truly told.
ghost use Rattle.std.specs.Prelude.{◌≡◌, ◌↔◌, [], ◌∷◌, ◌++◌, List, ℕ, length, Contains, IfOk, OnOk, IsTrue};
ghost use Rattle.esto_columns.specs.CodedRows.{CodedRows};
ghost use Rattle.esto_steps.specs.Joined.{GainsOnly};
ghost use Rattle.esto_steps.specs.Paired.{Gained, kept_of, kept_rows, gained_rows};

use crate::gather::gathered;
use crate::pairs::{Pair, is_same_at, read_kept};
use crate::seen::BUCKETS;
use crate::steps::Sources;
use esto_columns::{Index, Rows};
use esto_term::{List, OutOfMemory, Values};
use std::alloc::Global;
use std::marker::Model;

/// How many pairs of a stretch are looked at one by one, at most.
const MOST_NEAR: usize = 32;

/// What a join gained so far: rows of its own, and pairs of which what is kept isn't put together yet. What comes is in
/// stretches: what is kept of the pairs of one differs from what is kept of those of another, so a pair is looked for in its
/// own alone. Pairs of a short stretch are looked through one by one. Those of a long one become rows, which an index finds,
/// and so does all where there is but one stretch. The index is made anew when it is full, and for the next long stretch.
/// The stretch begins at `first` among the pairs, and where it is indexed, at `indexed` among the rows, from where the index
/// counts. There is room in it for so many rows. The codes are filled anew for each pair.
#[derive(Drop)]
pub(crate) struct Gained {
    own: Rows,
    pairs: List<Pair>,
    in_stretches: bool,
    first: usize,
    is_indexed: bool,
    index: Index,
    indexed: usize,
    room: usize,
    codes: Values<u64>,
}

impl Model for Gained {
    ghost use Rattle.esto_steps.specs.Paired.{Gained};

    ghost Value = { Gained };

    ghost view = { λ it. record { own = it.own; pairs = it.pairs } };
}

/// An index of the rows from the place on, each of which is its own key, with room for so many. It counts them from the
/// place.
fn index_from(alloc: Global, rows: &Rows, first: usize, room: usize) -> Result<Index, OutOfMemory> {
    let mut index = Index::new(alloc, room.saturating_mul(BUCKETS))?;
    let mut row = Values::new(alloc);
    'rows: for at in first..rows.len() {
        rows.read_row(at, &mut row)?;
        index.add(row.items())?;
    }
    Ok(index)
}

impl Gained {
    /// Nothing yet of what is one stretch of rows of the arity, with memory for so many.
    pub(crate) fn new(alloc: Global, arity: usize, room: usize) -> Result<Gained, OutOfMemory>
        ensures { IfOk result (λ it. it ≡ record {
          own = record { arity = arity; rows = [] };
          pairs = [];
        }) }
    {
        let own = Rows::with_room(alloc, arity, room)?;
        let index = Index::new(alloc, room.saturating_mul(BUCKETS))?;
        Ok(Gained {
            own,
            pairs: List::new(alloc),
            in_stretches: false,
            first: 0,
            is_indexed: true,
            index,
            indexed: 0,
            room,
            codes: Values::new(alloc),
        })
    }

    /// Nothing yet of what comes in stretches, with memory for so many pairs.
    pub(crate) fn in_stretches(
        alloc: Global,
        arity: usize,
        room: usize,
    ) -> Result<Gained, OutOfMemory>
        ensures { IfOk result (λ it. it ≡ record {
          own = record { arity = arity; rows = [] };
          pairs = [];
        }) }
    {
        let own = Rows::new(alloc, arity)?;
        let pairs = List::with_room(alloc, room)?;
        let index = Index::new(alloc, 0)?;
        Ok(Gained {
            own,
            pairs,
            in_stretches: true,
            first: 0,
            is_indexed: false,
            index,
            indexed: 0,
            room: 0,
            codes: Values::new(alloc),
        })
    }

    /// How many rows and pairs there are.
    pub(crate) fn count(&self) -> usize {
        self.own.len().saturating_add(self.pairs.len())
    }

    /// Begins the next stretch, unless all are one.
    pub(crate) fn begin(&mut self)
        ensures { self.new ≡ self.old }
    {
        if self.in_stretches {
            self.first = self.pairs.len();
            self.is_indexed = false;
        }
    }

    /// Whether a pair of the stretch is the same in what is kept, by a look at each.
    fn has_near(&self, kept: &Sources, so_far: &Rows, rows: &Rows, pair: Pair) -> bool
        ensures { IsTrue result → Contains (kept_rows kept.now so_far.now rows.now self.now.pairs)
            (kept_of kept.now so_far.now rows.now pair) }
    {
        'pairs: for at in self.first..self.pairs.len() {
            if is_same_at(&self.pairs, at, kept, so_far, rows, pair) {
                return true;
            }
        }
        false
    }

    /// Whether the row is one of its own, by a look at those of the stretch in the row's bucket.
    fn has_row(&self, row: &[u64]) -> bool
        ensures { IsTrue result → Contains self.now.own.rows row.now }
    {
        let mut next = self.index.last_of(row);
        'places: while next > 0 {
            let at = self.indexed.saturating_add(next - 1);
            if self.own.is_at(at, row) {
                return true;
            }
            next = self.index.before(next - 1);
        }
        false
    }

    /// Sees to it that the last row, whose codes were read, is found by the index.
    fn note(&mut self, alloc: Global) -> Result<(), OutOfMemory>
        ensures { OnOk result (self.new ≡ self.old) }
    {
        let count = self.own.len().saturating_sub(self.indexed);
        if count <= self.room {
            return self.index.add(self.codes.items());
        }
        self.room = count.saturating_mul(2);
        self.index = index_from(alloc, &self.own, self.indexed, self.room)?;
        Ok(())
    }

    /// Puts what is kept of the pair at the end of the rows, unless a row of the stretch is the same.
    fn put_row(
        &mut self,
        alloc: Global,
        kept: &Sources,
        so_far: &Rows,
        rows: &Rows,
        pair: Pair,
    ) -> Result<(), OutOfMemory>
        requires { self.old.own.arity ≡ length kept.now }
        ensures arity { OnOk result (self.new.own.arity ≡ self.old.own.arity) }
        ensures rows { OnOk result (GainsOnly (gained_rows kept.now so_far.now rows.now self.old)
            (gained_rows kept.now so_far.now rows.now self.new)
            (λ it. kept_of kept.now so_far.now rows.now pair ≡ it)) }
    {
        read_kept(kept, so_far, rows, pair, &mut self.codes)?;
        if self.has_row(self.codes.items()) {
            return Ok(());
        }
        self.own.add(self.codes.items())?;
        self.note(alloc)
    }

    /// Makes the last pair a row.
    fn move_last(
        &mut self,
        alloc: Global,
        kept: &Sources,
        so_far: &Rows,
        rows: &Rows,
    ) -> Result<(), OutOfMemory>
        requires { self.old.own.arity ≡ length kept.now }
        ensures arity { OnOk result (self.new.own.arity ≡ self.old.own.arity) }
        ensures rows { OnOk result ((row : List ℕ)
            → Contains (gained_rows kept.now so_far.now rows.now self.new) row
            ↔ Contains (gained_rows kept.now so_far.now rows.now self.old) row) }
    {
        let count = self.pairs.len();
        if count == 0 {
            return Ok(());
        }
        let last = count - 1;
        read_kept(kept, so_far, rows, *self.pairs.item(last), &mut self.codes)?;
        self.own.add(self.codes.items())?;
        self.pairs.truncate(last);
        self.note(alloc)
    }

    /// Makes each pair of the stretch a row.
    fn move_stretch(
        &mut self,
        alloc: Global,
        kept: &Sources,
        so_far: &Rows,
        rows: &Rows,
    ) -> Result<(), OutOfMemory>
        requires { self.old.own.arity ≡ length kept.now }
        ensures arity { OnOk result (self.new.own.arity ≡ self.old.own.arity) }
        ensures rows { OnOk result ((row : List ℕ)
            → Contains (gained_rows kept.now so_far.now rows.now self.new) row
            ↔ Contains (gained_rows kept.now so_far.now rows.now self.old) row) }
    {
        'pairs: for _pair in self.first..self.pairs.len() {
            self.move_last(alloc, kept, so_far, rows)?;
        }
        Ok(())
    }

    /// Where the pairs of the stretch are many, makes them rows, which an index made for them finds.
    fn settle(
        &mut self,
        alloc: Global,
        kept: &Sources,
        so_far: &Rows,
        rows: &Rows,
    ) -> Result<(), OutOfMemory>
        requires { self.old.own.arity ≡ length kept.now }
        ensures arity { OnOk result (self.new.own.arity ≡ self.old.own.arity) }
        ensures rows { OnOk result ((row : List ℕ)
            → Contains (gained_rows kept.now so_far.now rows.now self.new) row
            ↔ Contains (gained_rows kept.now so_far.now rows.now self.old) row) }
    {
        let count = self.pairs.len().saturating_sub(self.first);
        if count <= MOST_NEAR {
            return Ok(());
        }
        self.is_indexed = true;
        self.indexed = self.own.len();
        self.room = count.saturating_mul(2);
        self.index = Index::new(alloc, self.room.saturating_mul(BUCKETS))?;
        self.move_stretch(alloc, kept, so_far, rows)
    }

    /// Puts the pair at the end, unless one of the stretch is the same in what is kept. Pairs that are many then become
    /// rows.
    fn put_pair(
        &mut self,
        alloc: Global,
        kept: &Sources,
        so_far: &Rows,
        rows: &Rows,
        pair: Pair,
    ) -> Result<(), OutOfMemory>
        requires { self.old.own.arity ≡ length kept.now }
        ensures arity { OnOk result (self.new.own.arity ≡ self.old.own.arity) }
        ensures rows { OnOk result (GainsOnly (gained_rows kept.now so_far.now rows.now self.old)
            (gained_rows kept.now so_far.now rows.now self.new)
            (λ it. kept_of kept.now so_far.now rows.now pair ≡ it)) }
    {
        if self.has_near(kept, so_far, rows, pair) {
            return Ok(());
        }
        self.pairs.push(pair)?;
        self.settle(alloc, kept, so_far, rows)
    }
}

/// Puts what is kept of the pair at the end, unless the stretch has it.
pub(crate) fn put_unseen(
    alloc: Global,
    kept: &Sources,
    so_far: &Rows,
    rows: &Rows,
    pair: Pair,
    into: &mut Gained,
) -> Result<(), OutOfMemory>
    requires { into.old.own.arity ≡ length kept.now }
    ensures arity { OnOk result (into.new.own.arity ≡ into.old.own.arity) }
    ensures rows { OnOk result (GainsOnly (gained_rows kept.now so_far.now rows.now into.old)
        (gained_rows kept.now so_far.now rows.now into.new)
        (λ it. kept_of kept.now so_far.now rows.now pair ≡ it)) }
{
    if into.is_indexed {
        return into.put_row(alloc, kept, so_far, rows, pair);
    }
    into.put_pair(alloc, kept, so_far, rows, pair)
}

/// The rows that are gained: its own and what is kept of the pairs, the fewer after the others. What comes of a stretch stands
/// side by side, since all of it is in the one or in the other; keys of joined rows rest on that.
pub(crate) fn into_rows(
    alloc: Global,
    kept: &Sources,
    so_far: &Rows,
    rows: &Rows,
    gained: Gained,
) -> Result<Rows, OutOfMemory>
    requires { gained.own.arity ≡ length kept.now }
    ensures { IfOk result (λ it. (row : List ℕ) → Contains it.rows row
        ↔ Contains (gained_rows kept.now so_far.now rows.now gained) row) }
{
    let mut more = gathered(alloc, kept, so_far, rows, &gained.pairs)?;
    let mut own = gained.own;
    if own.len() < more.len() {
        more.add_all(alloc, &own)?;
        return Ok(more);
    }
    own.add_all(alloc, &more)?;
    Ok(own)
}
