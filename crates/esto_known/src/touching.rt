//! In which worlds terms touch what they are to meet.
ghost use Rattle.std.specs.Prelude.{◌≡◌, ◌↔◌, List, Bool, length, IfOk, OnOk};
ghost use Rattle.std.specs.List.{AllZip};
ghost use Rattle.esto_term.specs.Sets.{Covers};
ghost use Rattle.esto_bits.specs.Kept.{CoversBoth};
ghost use Rattle.esto_known.specs.Touching.{AreGroupsOf, AreLinked, AreTouching};

use crate::groups::Groups;
use esto_bits::Products;
use esto_term::{OutOfMemory, Replicate, Term};
use std::alloc::Global;

/// The minimal unions of one of the sets and one of the others.
pub fn minimal_unions(
    alloc: Global,
    sets: &Products,
    others: &Products,
) -> Result<Products, OutOfMemory>
    requires { others.now.count ≡ sets.now.count }
    ensures count { IfOk result (λ it. it.count ≡ sets.now.count) }
    ensures covers { IfOk result (λ it. CoversBoth sets.now.sets others.now.sets it.sets) }
{
    let mut found = Products::new(alloc, sets.count());
    found.add_both(alloc, sets, others).and(Ok(found))
}

/// Those of the sets in whose worlds an equality of the two terms is known, as far as they are minimal.
fn linked(
    alloc: Global,
    groups: &Groups,
    term: &Term,
    other: &Term,
    sets: &Products,
) -> Result<Products, OutOfMemory>
    requires { AreGroupsOf sets.now.count groups.now }
    ensures count { IfOk result (λ it. it.count ≡ sets.now.count) }
    ensures covers { IfOk result (λ it. (set : List Bool) → Covers it.sets set
        ↔ (Covers sets.now.sets set × AreLinked groups.now set term.now other.now)) }
{
    let Some(group) = groups.linking(term, other) else {
        return Ok(Products::new(alloc, sets.count()));
    };
    minimal_unions(alloc, sets, &group.by)
}

/// Keeps of the sets those in whose worlds the two terms touch.
fn touch(
    alloc: Global,
    groups: &Groups,
    term: &Term,
    other: &Term,
    count: usize,
    sets: &mut Products,
) -> Result<(), OutOfMemory>
    requires groups { AreGroupsOf count groups.now }
    requires count { sets.old.count ≡ count }
    ensures count { OnOk result (sets.new.count ≡ count) }
    ensures covers { OnOk result ((set : List Bool) → Covers sets.new.sets set
        ↔ (Covers sets.old.sets set × AreTouching groups.now set term.now other.now)) }
{
    if term.equal(other) {
        return Ok(());
    }
    if sets.is_empty() {
        return Ok(());
    }
    *sets = linked(alloc, groups, term, other, sets)?;
    Ok(())
}

/// Keeps of the sets those in whose worlds the terms touch the others, place by place.
fn touch_each(
    alloc: Global,
    groups: &Groups,
    terms: &[Term],
    others: &[Term],
    count: usize,
    sets: &mut Products,
) -> Result<(), OutOfMemory>
    requires groups { AreGroupsOf count groups.now }
    requires rows { length terms.now ≡ length others.now }
    requires count { sets.old.count ≡ count }
    ensures count { OnOk result (sets.new.count ≡ count) }
    ensures covers { OnOk result ((set : List Bool) → Covers sets.new.sets set
        ↔ (Covers sets.old.sets set
        × AllZip (AreTouching groups.now set) terms.now others.now)) }
{
    'terms: for (place, term) in terms.iter().enumerate() {
        touch(alloc, groups, term, &others[place], count, sets)?;
    }
    Ok(())
}

/// Those of the sets in whose worlds the terms touch the others, place by place.
pub fn touch_all(
    alloc: Global,
    groups: &Groups,
    terms: &[Term],
    others: &[Term],
    count: usize,
    start: &Products,
) -> Result<Products, OutOfMemory>
    requires groups { AreGroupsOf count groups.now }
    requires rows { length terms.now ≡ length others.now }
    requires count { start.now.count ≡ count }
    ensures count { IfOk result (λ it. it.count ≡ count) }
    ensures covers { IfOk result (λ it. (set : List Bool) → Covers it.sets set
        ↔ (Covers start.now.sets set
        × AllZip (AreTouching groups.now set) terms.now others.now)) }
{
    let mut sets = start.copy(alloc)?;
    touch_each(alloc, groups, terms, others, count, &mut sets).and(Ok(sets))
}
