//! Small parts of the facts in which the least active match of an equality rule is that of all facts.
ghost use Rattle.std.specs.Prelude.{◌<◌, ◌≤◌, List, ℕ, length, IfOk, IfSome};
ghost use Rattle.esto_rows.specs.Wanted.{HaveApart, HaveWanted};
ghost use Rattle.esto_rows.specs.declared.wanted.Wanted.TheVariants.{Unequal};
ghost use Rattle.esto_coded.specs.Parted.{ArePart, IsSpreadPart};
ghost use Rattle.esto_coded.specs.Spread.{Spreads};

use crate::coded::CodedFacts;
use crate::parted::part_of;
use crate::spread::spread_codes;
use esto_columns::Rows;
use esto_rows::{CodeSet, Wanted, keys_of, wanted_codes};
use esto_semantics::{Atom, Facts};
use esto_term::{OutOfMemory, Term};
use std::alloc::Global;

/// The codes of those rows of matches of one half that agree with another on the codes among the first so many but for
/// the first, and differ from it in the first.
fn apart_codes(alloc: Global, rows: &Rows, width: usize) -> Result<CodeSet, OutOfMemory>
    requires some { 0 < width }
    requires wide { width ≤ rows.now.arity }
    ensures { IfOk result (HaveApart width rows.now.rows) }
{
    let keys = keys_of(alloc, rows, width)?;
    wanted_codes(alloc, &Wanted::Apart(width, keys), rows)
}

impl CodedFacts {
    /// The codes that come from those of the leading terms, by the atoms in order. None as soon as they are not few.
    fn spread(
        &self,
        alloc: Global,
        lead: &[Term],
        atoms: &[Atom],
        seed: CodeSet,
    ) -> Result<Option<CodeSet>, OutOfMemory>
        ensures { IfOk result (λ it. IfSome it (Spreads self.now lead.now atoms.now seed)) }
    {
        spread_codes(alloc, lead, atoms, self.relations.as_slice(), seed)
    }

    /// The part that has these codes.
    fn part_from(&self, alloc: Global, body: &[Atom], set: &CodeSet) -> Result<Facts, OutOfMemory>
        ensures { IfOk result (ArePart self.now body.now set.now) }
    {
        part_of(alloc, body, &self.codes, self.relations.as_slice(), set)
    }

    /// The part for the body that has the codes which come from those of the leading terms, by the atoms over which they
    /// spread. None where they are not few, or memory is wanting.
    fn spread_part(
        &self,
        alloc: Global,
        lead: &[Term],
        over: &[Atom],
        body: &[Atom],
        seed: CodeSet,
    ) -> Option<Facts>
        ensures { IfSome result (IsSpreadPart self.now lead.now over.now body.now seed) }
    {
        let Ok(Some(set)) = self.spread(alloc, lead, over, seed) else {
            return None;
        };
        self.part_from(alloc, body, &set).ok()
    }

    /// The part for an equality rule of the body, from the rows that the sides stand for: codes spread from those where
    /// this is not the same. None where they are not few, or memory is wanting.
    pub(crate) fn sides_part(
        &self,
        alloc: Global,
        sides: &[Term],
        body: &[Atom],
        rows: &Rows,
    ) -> Option<Facts>
        ensures { IfSome result (λ part. (seed : List ℕ) × HaveWanted Unequal rows.now.rows seed
            × IsSpreadPart self.now sides.now body.now body.now seed part) }
    {
        let Ok(seed) = wanted_codes(alloc, &Wanted::Unequal, rows) else {
            return None;
        };
        self.spread_part(alloc, sides, body, body, seed)
    }

    /// The part for an equality rule of the mirrored body, from the rows that the side and the shared terms stand for in
    /// the matches of its first half: codes spread from those that agree with another on the shared terms, and not on the
    /// side. None where they are not few, or memory is wanting.
    pub(crate) fn mirrored_part(
        &self,
        alloc: Global,
        head: &[Term],
        first: &[Atom],
        body: &[Atom],
        rows: &Rows,
    ) -> Option<Facts>
        requires some { 0 < length head.now }
        requires wide { length head.now ≤ rows.now.arity }
        ensures { IfSome result (λ part. (seed : List ℕ)
            × HaveApart (length head.now) rows.now.rows seed
            × IsSpreadPart self.now head.now first.now body.now seed part) }
    {
        let Ok(seed) = apart_codes(alloc, rows, head.len()) else {
            return None;
        };
        self.spread_part(alloc, head, first, body, seed)
    }
}
