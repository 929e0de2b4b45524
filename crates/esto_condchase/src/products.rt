//! The products of a query's matches: atom by atom, for the worlds of all sets at once.
ghost use Rattle.std.specs.Prelude.{◌≡◌, ◌↔◌, List, Bool, length, map, IfOk, OnOk};
ghost use Rattle.std.specs.List.{AllZip};
ghost use Rattle.esto_semantics.specs.Facts.{terms_of};
ghost use Rattle.esto_term.specs.Sets.{Covers};
ghost use Rattle.esto_chase_laws.specs.WorldLaws.{HasMatch};
ghost use Rattle.esto_chase_laws.specs.WorldMatches.{taken};
ghost use Rattle.esto_chase_laws.specs.WorldSteps.{AreJoined};
ghost use Rattle.esto_chase_laws.specs.Worlds.{InWorld, AreOfCount};
ghost use Rattle.esto_known.specs.Groups.{AreGroups};
ghost use Rattle.esto_chase_laws.specs.declared.entry.Entry.{Entry};
ghost use Rattle.esto_condchase.specs.Products.{AreReachedOf, IsNext, IsFirst};
ghost use Rattle.esto_known.specs.Told.{Tell};
ghost use Rattle.esto_known.specs.Touching.{AreGroupsOf, AreTouching};

use crate::reached::{Reached, next, sets_of_all, touching};
use esto_bits::{Products, RowBits};
use esto_chase_laws::Entry;
use esto_known::{Groups, telling};
use esto_prov::{only, put_terms, terms_of};
use esto_semantics::Atom;
use esto_term::{List, OutOfMemory, Replicate, Term, Terms};
use std::alloc::Global;

/// A copy of the terms.
fn copied(alloc: Global, terms: &[Term]) -> Result<Terms, OutOfMemory>
    ensures { IfOk result (λ it. it ≡ terms.now) }
{
    let mut own = List::new(alloc);
    put_terms(alloc, terms, &mut own).and(Ok(own))
}

/// The minimal sets in whose worlds the targets touch what the head meets first.
fn touched(
    alloc: Global,
    groups: &Groups,
    head: &[Term],
    targets: &[Term],
    count: usize,
) -> Result<Products, OutOfMemory>
    requires heads { length targets.now ≡ length head.now }
    requires groups { AreGroupsOf count groups.now }
    ensures count { IfOk result (λ it. it.count ≡ count) }
    ensures covers { IfOk result (λ it. (set : List Bool) → Covers it.sets set
        ↔ AllZip (AreTouching groups.now set) targets.now
        (map (taken head.now targets.now) head.now)) }
{
    let none = RowBits::new(alloc, count)?;
    let start = Products::only(alloc, &none)?;
    touching(alloc, groups, head, targets, head, targets, &start, count)
}

/// The targets, which the head is to meet, by the minimal sets in whose worlds it does.
fn first(
    alloc: Global,
    groups: &Groups,
    head: &[Term],
    targets: &[Term],
    count: usize,
) -> Result<List<Reached>, OutOfMemory>
    requires heads { length targets.now ≡ length head.now }
    requires groups { AreGroupsOf count groups.now }
    ensures counted { IfOk result (AreReachedOf count) }
    ensures first { IfOk result (IsFirst groups.now head.now targets.now) }
{
    let to = copied(alloc, targets)?;
    let by = touched(alloc, groups, head, targets, count)?;
    only(alloc, Reached { to, by })
}

/// Those of the terms that stand in the atoms, each once.
fn asked_for(alloc: Global, from: &[Term], atoms: &[Atom]) -> Result<Terms, OutOfMemory>
    ensures { IfOk result (Tell from.now (terms_of atoms.now)) }
{
    let terms = terms_of(alloc, atoms)?;
    telling(alloc, from, terms.items())
}

/// Goes on by one atom, before the rest: of the terms so far those are kept that stand in the rest.
fn go_on(
    alloc: Global,
    groups: &Groups,
    atom: &Atom,
    rest: &[Atom],
    count: usize,
    from: &mut Terms,
    ones: &mut List<Reached>,
) -> Result<(), OutOfMemory>
    requires groups { AreGroupsOf count groups.now }
    requires ones { AreReachedOf count ones.old }
    ensures counted { OnOk result (AreReachedOf count ones.new) }
    ensures next { OnOk result
        (IsNext groups.now atom.now rest.now from.old ones.old from.new ones.new) }
{
    put_terms(alloc, atom.terms.items(), from)?;
    let these = asked_for(alloc, from.items(), rest)?;
    *ones = next(
        alloc,
        groups,
        from.items(),
        these.items(),
        atom,
        ones.items(),
        count,
    )?;
    *from = these;
    Ok(())
}

/// The minimal sets of atoms in whose worlds the body has a match that makes the head one with the targets, where the
/// groups are those of the entries.
fn products_among(
    alloc: Global,
    groups: &Groups,
    head: &Terms,
    body: &[Atom],
    targets: &[Term],
    count: usize,
) -> Result<Products, OutOfMemory>
    requires heads { length targets.now ≡ length head.now }
    requires groups { AreGroupsOf count groups.now }
    ensures count { IfOk result (λ it. it.count ≡ count) }
    ensures tell { IfOk result (λ it. (entries : List Entry) → AreGroups entries groups.now
        → AreJoined entries entries → (set : List Bool) → Covers it.sets set
        ↔ HasMatch (InWorld entries set) head.now body.now targets.now) }
{
    let mut ones = first(alloc, groups, head.items(), targets, count)?;
    let mut from = head.copy(alloc)?;
    'atoms: for (place, atom) in body.iter().enumerate() {
        let rest = &body[place + 1..];
        go_on(alloc, groups, atom, rest, count, &mut from, &mut ones)?;
    }
    sets_of_all(alloc, ones.items(), count)
}

/// The minimal sets of atoms in whose worlds the body has a match that makes the head, place by place, one with the
/// targets: the world of a set has such a match exactly where one of them is a subset of the set. The links of the
/// entries are joined.
pub fn products_of_matches(
    alloc: Global,
    entries: &[Entry],
    head: &Terms,
    body: &[Atom],
    targets: &[Term],
    count: usize,
) -> Result<Products, OutOfMemory>
    requires heads { length targets.now ≡ length head.now }
    requires counts { AreOfCount count entries.now }
    requires joined { AreJoined entries.now entries.now }
    ensures count { IfOk result (λ it. it.count ≡ count) }
    ensures tell { IfOk result (λ it. (set : List Bool) → Covers it.sets set
        ↔ HasMatch (InWorld entries.now set) head.now body.now targets.now) }
{
    let groups = Groups::of(alloc, entries, count)?;
    let products = products_among(alloc, &groups, head, body, targets, count);
    drop(groups);
    products
}
