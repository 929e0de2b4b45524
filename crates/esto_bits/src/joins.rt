//! Products put together.
ghost use Rattle.std.specs.Prelude.{◌≡◌, ◌↔◌, ◌⊎◌, ◌<◌, [], ◌∷◌, List, Bool, Some, length, map, slice_get, IfOk, OnOk, OnErr};
ghost use Rattle.esto_term.specs.Sets.{Covers, Within, united};
ghost use Rattle.esto_bits.specs.Kept.{kept, with_set, with_sets, unions, AddsOfBoth, CoverAlikeBeside, CoversAlsoBeside, CoversBoth, CoversEither, HasFirst};

use crate::products::{Products, products_are_antichains};
use crate::row_bits::RowBits;
use esto_term::{OutOfMemory, Replicate};
use std::alloc::Global;

impl Products {
    /// The products of one set alone.
    pub fn only(alloc: Global, set: &RowBits) -> Result<Products, OutOfMemory>
        ensures value { IfOk result (λ it. it ≡ kept (length set.now) (set.now ∷ [])) }
        ensures covers { IfOk result
            (λ it. (other : List Bool) → Covers it.sets other ↔ Within set.now other) }
    {
        let mut found = Products::new(alloc, set.count());
        found.add(alloc, set)?;
        Ok(found)
    }

    /// Adds each set of the others. An error leaves the first few of them added.
    pub fn add_all(&mut self, alloc: Global, others: &Products) -> Result<(), OutOfMemory>
        requires { others.now.count ≡ self.old.count }
        ensures count { self.new.count ≡ self.old.count }
        ensures ok { OnOk result (self.new.sets ≡ with_sets self.old.sets others.now.sets) }
        ensures covers { OnOk result
            (CoversEither self.old.sets others.now.sets self.new.sets) }
        ensures err { OnErr result (HasFirst self.old.sets others.now.sets self.new.sets) }
    {
        products_are_antichains(others);
        if self.is_empty() {
            *self = others.copy(alloc)?;
            return Ok(());
        }
        'sets: for at in 0..others.len() {
            self.add_at(alloc, others, at)?;
        }
        Ok(())
    }

    /// The unions of a kept set and one of the others, in every combination, as far as they are minimal.
    pub fn joined(&self, alloc: Global, others: &Products) -> Result<Products, OutOfMemory>
        requires { others.now.count ≡ self.now.count }
        ensures count { IfOk result (λ it. it.count ≡ self.now.count) }
        ensures value { IfOk result
            (λ it. it.sets ≡ with_sets [] (unions self.now.sets others.now.sets)) }
        ensures covers { IfOk result
            (λ it. CoversBoth self.now.sets others.now.sets it.sets) }
    {
        let mut found = Products::new(alloc, self.count());
        found.add_unions(alloc, self, others)?;
        Ok(found)
    }

    /// Adds the unions of a set of the one family and one of the other, in every combination.
    fn add_unions(
        &mut self,
        alloc: Global,
        sets: &Products,
        others: &Products,
    ) -> Result<(), OutOfMemory>
        requires sets { sets.now.count ≡ self.old.count }
        requires others { others.now.count ≡ self.old.count }
        ensures count { self.new.count ≡ self.old.count }
        ensures ok { OnOk result
            (self.new.sets ≡ with_sets self.old.sets (unions sets.now.sets others.now.sets)) }
    {
        'sets: for at in 0..sets.len() {
            self.add_united(alloc, sets, at, others)?;
        }
        Ok(())
    }

    /// Adds the union of the set at a place of the sets and each of the others.
    fn add_united(
        &mut self,
        alloc: Global,
        sets: &Products,
        at: usize,
        others: &Products,
    ) -> Result<(), OutOfMemory>
        requires sets { sets.now.count ≡ self.old.count }
        requires others { others.now.count ≡ self.old.count }
        requires at { at < length sets.now.sets }
        ensures count { self.new.count ≡ self.old.count }
        ensures ok { OnOk result ((set : List Bool) → slice_get sets.now.sets at ≡ Some set
            → self.new.sets ≡ with_sets self.old.sets (map (united set) others.now.sets)) }
    {
        'places: for place in 0..others.len() {
            self.add_union_at(alloc, sets, at, others, place)?;
        }
        Ok(())
    }

    /// Adds the union of the set at a place of the sets and the one at a place of the others. Answers whether it came.
    fn add_union_at(
        &mut self,
        alloc: Global,
        sets: &Products,
        at: usize,
        others: &Products,
        place: usize,
    ) -> Result<bool, OutOfMemory>
        requires sets { sets.now.count ≡ self.old.count }
        requires others { others.now.count ≡ self.old.count }
        requires at { at < length sets.now.sets }
        requires place { place < length others.now.sets }
        ensures count { self.new.count ≡ self.old.count }
        ensures ok { OnOk result ((set other : List Bool) → slice_get sets.now.sets at ≡ Some set
            → slice_get others.now.sets place ≡ Some other
            → self.new.sets ≡ with_set self.old.sets (united set other)) }
    {
        products_are_antichains(sets);
        let mut row = sets.copy_of(alloc, at)?;
        others.union_into(place, &mut row);
        self.add(alloc, &row)
    }

    /// Adds the set at a place of the sets, if it covers one of the others. Answers whether it came.
    fn add_covered_at(
        &mut self,
        alloc: Global,
        sets: &Products,
        at: usize,
        others: &Products,
    ) -> Result<bool, OutOfMemory>
        requires sets { sets.now.count ≡ self.old.count }
        requires others { others.now.count ≡ self.old.count }
        requires at { at < length sets.now.sets }
        ensures count { self.new.count ≡ self.old.count }
        ensures covers { OnOk result
            (AddsOfBoth self.old.sets sets.now.sets others.now.sets self.new.sets) }
    {
        if !others.covers_one(sets, at) {
            return Ok(false);
        }
        self.add_at(alloc, sets, at)
    }

    /// Adds those of the sets that cover one of the others.
    fn add_covered(
        &mut self,
        alloc: Global,
        sets: &Products,
        others: &Products,
    ) -> Result<(), OutOfMemory>
        requires sets { sets.now.count ≡ self.old.count }
        requires others { others.now.count ≡ self.old.count }
        ensures count { self.new.count ≡ self.old.count }
        ensures covers { OnOk result
            (AddsOfBoth self.old.sets sets.now.sets others.now.sets self.new.sets) }
    {
        'sets: for at in 0..sets.len() {
            self.add_covered_at(alloc, sets, at, others)?;
        }
        Ok(())
    }

    /// Adds the set at a place of the sets, unless it covers one of the others. Answers whether it came.
    fn add_uncovered_at(
        &mut self,
        alloc: Global,
        sets: &Products,
        at: usize,
        others: &Products,
    ) -> Result<bool, OutOfMemory>
        requires sets { sets.now.count ≡ self.old.count }
        requires others { others.now.count ≡ self.old.count }
        requires at { at < length sets.now.sets }
        ensures count { self.new.count ≡ self.old.count }
        ensures covers { OnOk result ((set : List Bool)
            × (slice_get sets.now.sets at ≡ Some set)
            × CoversAlsoBeside others.now.sets self.old.sets set self.new.sets) }
    {
        if others.covers_one(sets, at) {
            return Ok(false);
        }
        self.add_at(alloc, sets, at)
    }

    /// Those of the kept sets that cover none of the others.
    fn left_by(&self, alloc: Global, others: &Products) -> Result<Products, OutOfMemory>
        requires { others.now.count ≡ self.now.count }
        ensures count { IfOk result (λ it. it.count ≡ self.now.count) }
        ensures covers { IfOk result
            (λ it. CoverAlikeBeside others.now.sets self.now.sets it.sets) }
    {
        let mut left = Products::new(alloc, self.count());
        'sets: for at in 0..self.len() {
            left.add_uncovered_at(alloc, self, at, others)?;
        }
        Ok(left)
    }

    /// Adds the unions of a set of the one family and one of the other that are covered by neither family alone.
    fn add_rest(
        &mut self,
        alloc: Global,
        sets: &Products,
        others: &Products,
    ) -> Result<(), OutOfMemory>
        requires sets { sets.now.count ≡ self.old.count }
        requires others { others.now.count ≡ self.old.count }
        ensures count { self.new.count ≡ self.old.count }
        ensures covers { OnOk result ((set : List Bool) → Covers self.new.sets set
            ↔ (Covers self.old.sets set
            ⊎ (Covers sets.now.sets set × Covers others.now.sets set))) }
    {
        let ones = sets.left_by(alloc, self)?;
        self.add_unions_left(alloc, &ones, others)
    }

    /// Adds the unions of one of the sets and one of the others that is not covered.
    fn add_unions_left(
        &mut self,
        alloc: Global,
        sets: &Products,
        others: &Products,
    ) -> Result<(), OutOfMemory>
        requires sets { sets.now.count ≡ self.old.count }
        requires others { others.now.count ≡ self.old.count }
        ensures count { self.new.count ≡ self.old.count }
        ensures covers { OnOk result ((set : List Bool) → Covers self.new.sets set
            ↔ (Covers self.old.sets set
            ⊎ (Covers sets.now.sets set × Covers others.now.sets set))) }
    {
        let rest = others.left_by(alloc, self)?;
        self.add_unions(alloc, sets, &rest)
    }

    /// Adds the unions of a set of the one family and one of the other, in every combination, as far as they are minimal. A
    /// set of either that covers one of the other is added alone, and first, since its unions with the rest are no less: then
    /// few sets are added that others take the place of.
    pub fn add_both(
        &mut self,
        alloc: Global,
        sets: &Products,
        others: &Products,
    ) -> Result<(), OutOfMemory>
        requires sets { sets.now.count ≡ self.old.count }
        requires others { others.now.count ≡ self.old.count }
        ensures count { self.new.count ≡ self.old.count }
        ensures covers { OnOk result ((set : List Bool) → Covers self.new.sets set
            ↔ (Covers self.old.sets set
            ⊎ (Covers sets.now.sets set × Covers others.now.sets set))) }
    {
        self.add_covered(alloc, sets, others)?;
        self.add_covered(alloc, others, sets)?;
        self.add_rest(alloc, sets, others)
    }
}
