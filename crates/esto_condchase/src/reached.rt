//! The terms that the first atoms of a body reach in the worlds of sets.
ghost use Rattle.std.specs.Prelude.{◌≡◌, ◌↔◌, ◌⊎◌, ◌<◌, List, Bool, Some, length, slice_get, map, Contains, IfOk, IfSome, OnOk};
ghost use Rattle.std.specs.List.{AllZip};
ghost use Rattle.esto_term.specs.declared.term.Term.{Term};
ghost use Rattle.esto_term.specs.Sets.{Covers};
ghost use Rattle.esto_chase_laws.specs.WorldMatches.{taken};
ghost use Rattle.esto_condchase.specs.Products.{AreReachedOf, IsReachedBy, Reach, StepsBy, StepsWith, StepsFrom, Steps};
ghost use Rattle.esto_known.specs.Touching.{AreGroupsOf, AreTouching};
ghost use Rattle.esto_condchase.specs.declared.reached.Reached.{Reached};

use esto_bits::Products;
use esto_chase_laws::Claim;
use esto_known::{Group, Groups, minimal_unions, touch_all};
use esto_prov::{both, taken_terms};
use esto_semantics::Atom;
use esto_term::{List, OutOfMemory, Term, Terms, equal_terms, push};
use std::alloc::Global;

/// Terms that are reached, and the minimal sets in whose worlds they are.
#[derive(Drop)]
pub struct Reached {
    pub to: Terms,
    pub by: Products,
}

/// The place of one that has reached the terms, if there is one.
fn place_of(ones: &[Reached], to: &[Term]) -> Option<usize>
    ensures { IfSome result (λ place. (one : Reached) × (slice_get ones.now place ≡ Some one)
        × (one.to ≡ to.now)) }
{
    'ones: for (place, one) in ones.iter().enumerate() {
        if equal_terms(one.to.items(), to) {
            return Some(place);
        }
    }
    None
}

/// Adds to what the one at a place is reached by the unions of one of the sets and one of the others.
fn add_at(
    alloc: Global,
    place: usize,
    sets: &Products,
    others: &Products,
    count: usize,
    ones: &mut Vec<Reached>,
) -> Result<(), OutOfMemory>
    requires place { place < length ones.old.items }
    requires sets { sets.now.count ≡ count }
    requires others { others.now.count ≡ count }
    requires counted { AreReachedOf count ones.old.items }
    ensures counted { OnOk result (AreReachedOf count ones.new.items) }
    ensures reach { OnOk result ((one : Reached) × (slice_get ones.old.items place ≡ Some one)
        × ((own : List Term) (set : List Bool) → Reach ones.new.items own set
        ↔ (Reach ones.old.items own set
        ⊎ IsReachedBy one.to sets.now.sets others.now.sets own set))) }
{
    ones[place].by.add_both(alloc, sets, others)
}

/// Adds what has reached the terms by the unions of one of the sets and one of the others.
fn add_new(
    alloc: Global,
    to: Terms,
    sets: &Products,
    others: &Products,
    count: usize,
    ones: &mut Vec<Reached>,
) -> Result<(), OutOfMemory>
    requires sets { sets.now.count ≡ count }
    requires others { others.now.count ≡ count }
    requires counted { AreReachedOf count ones.old.items }
    ensures counted { OnOk result (AreReachedOf count ones.new.items) }
    ensures reach { OnOk result ((own : List Term) (set : List Bool) → Reach ones.new.items own set
        ↔ (Reach ones.old.items own set ⊎ IsReachedBy to sets.now.sets others.now.sets own set)) }
{
    let by = minimal_unions(alloc, sets, others)?;
    push(ones, Reached { to, by })
}

/// Adds that the terms are reached by the unions of one of the sets and one of the others.
fn add(
    alloc: Global,
    to: Terms,
    sets: &Products,
    others: &Products,
    count: usize,
    ones: &mut Vec<Reached>,
) -> Result<(), OutOfMemory>
    requires sets { sets.now.count ≡ count }
    requires others { others.now.count ≡ count }
    requires counted { AreReachedOf count ones.old.items }
    ensures counted { OnOk result (AreReachedOf count ones.new.items) }
    ensures reach { OnOk result ((own : List Term) (set : List Bool) → Reach ones.new.items own set
        ↔ (Reach ones.old.items own set ⊎ IsReachedBy to sets.now.sets others.now.sets own set)) }
{
    let Some(place) = place_of(ones.as_slice(), to.items()) else {
        return add_new(alloc, to, sets, others, count, ones);
    };
    add_at(alloc, place, sets, others, count, ones)
}

/// Adds that what these terms meet first is reached by the unions of one of the sets and one of the others.
fn add_told(
    alloc: Global,
    from: &[Term],
    to: &[Term],
    these: &[Term],
    sets: &Products,
    others: &Products,
    count: usize,
    ones: &mut Vec<Reached>,
) -> Result<(), OutOfMemory>
    requires sets { sets.now.count ≡ count }
    requires others { others.now.count ≡ count }
    requires counted { AreReachedOf count ones.old.items }
    ensures counted { OnOk result (AreReachedOf count ones.new.items) }
    ensures reach { OnOk result ((own : List Term) (set : List Bool) → Reach ones.new.items own set
        ↔ (Reach ones.old.items own set ⊎ IsReachedBy (map (taken from.now to.now) these.now)
        sets.now.sets others.now.sets own set)) }
{
    if others.is_empty() {
        return Ok(());
    }
    let told = taken_terms(alloc, from, to, these)?;
    add(alloc, told, sets, others, count, ones)
}

/// Keeps of the sets those in whose worlds the others touch what the terms meet first, place by place.
pub fn touching(
    alloc: Global,
    groups: &Groups,
    from: &[Term],
    to: &[Term],
    terms: &[Term],
    others: &[Term],
    sets: &Products,
    count: usize,
) -> Result<Products, OutOfMemory>
    requires groups { AreGroupsOf count groups.now }
    requires rows { length others.now ≡ length terms.now }
    requires sets { sets.now.count ≡ count }
    ensures count { IfOk result (λ it. it.count ≡ count) }
    ensures covers { IfOk result (λ it. (set : List Bool) → Covers it.sets set
        ↔ (Covers sets.now.sets set × AllZip (AreTouching groups.now set) others.now
        (map (taken from.now to.now) terms.now))) }
{
    let goals = taken_terms(alloc, from, to, terms)?;
    touch_all(alloc, groups, others, goals.items(), count, sets)
}

/// Adds what is reached from one by a fact.
fn step_by(
    alloc: Global,
    groups: &Groups,
    from: &[Term],
    these: &[Term],
    atom: &Atom,
    one: &Reached,
    by: &Products,
    fact: &Atom,
    count: usize,
    later: &mut Vec<Reached>,
) -> Result<(), OutOfMemory>
    requires groups { AreGroupsOf count groups.now }
    requires like { length fact.now.terms ≡ length atom.now.terms }
    requires one { one.now.by.count ≡ count }
    requires by { by.now.count ≡ count }
    requires counted { AreReachedOf count later.old.items }
    ensures counted { OnOk result (AreReachedOf count later.new.items) }
    ensures reach { OnOk result ((to : List Term) (set : List Bool) → Reach later.new.items to set
        ↔ (Reach later.old.items to set
        ⊎ StepsBy groups.now from.now these.now atom.now one.now by.now.sets fact.now to set)) }
{
    let to = both(alloc, one.to.items(), fact.terms.items())?;
    let needs = touching(
        alloc,
        groups,
        from,
        to.items(),
        atom.terms.items(),
        fact.terms.items(),
        by,
        count,
    )?;
    add_told(
        alloc,
        from,
        to.items(),
        these,
        &one.by,
        &needs,
        count,
        later,
    )
}

/// Adds what is reached from one by what is known, if it is a fact that is alike to the atom.
fn step_with(
    alloc: Global,
    groups: &Groups,
    from: &[Term],
    these: &[Term],
    atom: &Atom,
    one: &Reached,
    group: &Group,
    count: usize,
    later: &mut Vec<Reached>,
) -> Result<(), OutOfMemory>
    requires groups { AreGroupsOf count groups.now }
    requires one { one.now.by.count ≡ count }
    requires by { group.now.by.count ≡ count }
    requires counted { AreReachedOf count later.old.items }
    ensures counted { OnOk result (AreReachedOf count later.new.items) }
    ensures reach { OnOk result ((to : List Term) (set : List Bool) → Reach later.new.items to set
        ↔ (Reach later.old.items to set
        ⊎ StepsWith groups.now from.now these.now atom.now one.now group.now to set)) }
{
    match &group.claim {
        Claim::Same(_, _) => Ok(()),
        Claim::Fact(fact) => {
            if fact.relation != atom.relation || fact.terms.len() != atom.terms.len() {
                return Ok(());
            }
            step_by(
                alloc, groups, from, these, atom, one, &group.by, fact, count, later,
            )
        }
    }
}

/// Adds what is reached from one.
fn steps_from(
    alloc: Global,
    groups: &Groups,
    from: &[Term],
    these: &[Term],
    atom: &Atom,
    one: &Reached,
    count: usize,
    later: &mut Vec<Reached>,
) -> Result<(), OutOfMemory>
    requires groups { AreGroupsOf count groups.now }
    requires one { one.now.by.count ≡ count }
    requires counted { AreReachedOf count later.old.items }
    ensures counted { OnOk result (AreReachedOf count later.new.items) }
    ensures reach { OnOk result ((to : List Term) (set : List Bool) → Reach later.new.items to set
        ↔ (Reach later.old.items to set
        ⊎ StepsFrom groups.now from.now these.now atom.now one.now to set)) }
{
    'groups: for group in groups.items() {
        step_with(alloc, groups, from, these, atom, one, group, count, later)?;
    }
    Ok(())
}

/// What is reached with one atom more, whose terms are the last of `from`, on these terms.
pub fn next(
    alloc: Global,
    groups: &Groups,
    from: &[Term],
    these: &[Term],
    atom: &Atom,
    ones: &[Reached],
    count: usize,
) -> Result<List<Reached>, OutOfMemory>
    requires groups { AreGroupsOf count groups.now }
    requires ones { AreReachedOf count ones.now }
    ensures counted { IfOk result (AreReachedOf count) }
    ensures reach { IfOk result (λ later. (to : List Term) (set : List Bool)
        → Reach later to set
        ↔ Steps groups.now from.now these.now atom.now ones.now to set) }
{
    let mut later = Vec::new(alloc);
    'ones: for one in ones {
        steps_from(alloc, groups, from, these, atom, one, count, &mut later)?;
    }
    Ok(List::from_vec(later))
}

/// The minimal sets in whose worlds something is reached.
pub fn sets_of_all(alloc: Global, ones: &[Reached], count: usize) -> Result<Products, OutOfMemory>
    requires { AreReachedOf count ones.now }
    ensures count { IfOk result (λ it. it.count ≡ count) }
    ensures exact { IfOk result (λ it. (set : List Bool) → Covers it.sets set
        ↔ ((one : Reached) × Contains ones.now one × Covers one.by.sets set)) }
{
    let mut sets = Products::new(alloc, count);
    'ones: for one in ones {
        sets.add_all(alloc, &one.by)?;
    }
    Ok(sets)
}
