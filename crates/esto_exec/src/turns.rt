//! Turns: one get after another is joined, in an order of our own.
ghost use Rattle.std.specs.Prelude.{◌≡◌, ◌↔◌, ◌<◌, ◌+◌, ◌++◌, ◌∷◌, [], List, ℕ, length, map, flat_map, take, slice_get, Some, Contains, IfOk, OnOk, IsTrue};
ghost use Rattle.esto_steps.specs.declared.steps.Get.{Get};
ghost use Rattle.esto_steps.specs.declared.steps.Link.{Link};
ghost use Rattle.esto_steps.specs.Rows.{IsRowOf, held_by};
ghost use Rattle.esto_columns.specs.Asked.{IsAllowed};
ghost use Rattle.esto_steps.specs.Joined.{IsJoin, IsKept};
ghost use Rattle.esto_exec.specs.declared.slots.Side.TheVariants.{Held};
ghost use Rattle.esto_exec.specs.Runnable.{AreRunnable};
ghost use Rattle.esto_exec.specs.Slots.{side_of, IsKnown};
ghost use Rattle.esto_exec.specs.SoFar.{IsSoFar};
ghost use Rattle.esto_exec.specs.Turns.{source_in, link_in, links_of, slots_from, IsReady, AreArities, kept_slots, needed_slots};

use crate::order::next_get;
use crate::slots::{
    Equation, Equations, Side, Slot, Slots, first_of, is_in, is_known, kept_slots, needed_slots,
    side_of, source_in,
};
use esto_columns::Rows;
use esto_guess::{Keyed, is_key_kept, key_after, key_before};
use esto_steps::{Get, Gets, Join, Link, Links, Sources, Whole, asked_rows, joined_firsts};
use esto_term::{List, OutOfMemory, Places, Values};
use std::alloc::Global;

/// The links of a get, after gets with these arities in the stated order, as rows so far have them.
pub(crate) fn links_in(
    alloc: Global,
    places: &Slots,
    arities: &[usize],
    links: &Links,
) -> Result<Links, OutOfMemory>
    ensures { IfOk result (λ it. it ≡ map (link_in places.now arities.now) links.now) }
{
    let mut own = List::new(alloc);
    'links: for link in links.items() {
        own.push(Link {
            column: link.column,
            source: source_in(places, &side_of(arities, &link.source)),
        })?;
    }
    Ok(own)
}

/// Puts the equation at the end as a link of the get, where one of its sides is the get's own and the other one is
/// known.
fn push_link(
    links: &mut Links,
    number: usize,
    done: &Places,
    places: &Slots,
    equation: &Equation,
) -> Result<(), OutOfMemory>
    ensures { OnOk result
        (links.new ≡ links.old ++ links_of number done.now places.now equation.now) }
{
    if equation.slot.get == number {
        if !is_known(done, &equation.side) {
            return Ok(());
        }
        return links.push(Link {
            column: equation.slot.column,
            source: source_in(places, &equation.side),
        });
    }
    match &equation.side {
        Side::Constant(_) => Ok(()),
        Side::Nothing => Ok(()),
        Side::Held(other) => {
            if !(other.get == number && is_in(done, equation.slot.get)) {
                return Ok(());
            }
            links.push(Link {
                column: other.column,
                source: source_in(places, &Side::Held(equation.slot)),
            })
        }
    }
}

/// The equations that the get decides, as its links.
pub(crate) fn links_at(
    alloc: Global,
    number: usize,
    done: &Places,
    places: &Slots,
    equations: &Equations,
) -> Result<Links, OutOfMemory>
    ensures { IfOk result (λ it. it
        ≡ flat_map (links_of number done.now places.now) equations.now) }
{
    let mut links = List::new(alloc);
    'equations: for equation in equations.items() {
        push_link(&mut links, number, done, places, equation)?;
    }
    Ok(links)
}

/// Puts the slots of the columns of a get's row at the end.
fn push_slots(places: &mut Slots, number: usize, arity: usize) -> Result<(), OutOfMemory>
    ensures { OnOk result (places.new ≡ places.old ++ slots_from number 0 arity) }
{
    'columns: for column in 0..arity {
        places.push(Slot {
            get: number,
            column,
        })?;
    }
    Ok(())
}

/// Whether the sides of the links are known.
pub(crate) fn each_known(done: &Places, arities: &[usize], links: &Links) -> bool
    ensures { IsTrue result → (link : Link) → Contains links.now link
        → IsKnown done.now (side_of arities.now link.source) }
{
    'links: for link in links.items() {
        if !is_known(done, &side_of(arities, &link.source)) {
            return false;
        }
    }
    true
}

/// The arities of the rows that the gets give.
pub(crate) fn arities_of<F: Whole>(
    alloc: Global,
    gets: &Gets,
    fragments: &[F],
) -> Result<Places, OutOfMemory>
    requires { AreRunnable (map F.shape fragments.now) gets.now }
    ensures { IfOk result (AreArities (IsRowOf (held_by (map F.rows fragments.now))) gets.now) }
{
    let mut arities = Values::new(alloc);
    'gets: for get in gets.items() {
        arities.push(fragments[get.fragment].arity())?;
    }
    Ok(arities)
}

/// What names the codes of the slots in rows whose cells are those of the places.
fn slot_sources(alloc: Global, places: &Slots, slots: &Slots) -> Result<Sources, OutOfMemory>
    ensures { IfOk result (λ it. it ≡ map (λ slot. source_in places.now (Held slot)) slots.now) }
{
    let mut sources = List::new(alloc);
    'slots: for slot in slots.items() {
        sources.push(source_in(places, &Side::Held(*slot)))?;
    }
    Ok(sources)
}

/// What names the head's codes in rows whose cells are those of the slots.
pub(crate) fn head_in(
    alloc: Global,
    places: &Slots,
    arities: &Places,
    head: &Sources,
) -> Result<Sources, OutOfMemory>
    ensures { IfOk result (λ it.
        it ≡ map (λ source. source_in places.now (side_of arities.now source)) head.now) }
{
    let mut sources = List::new(alloc);
    'sources: for source in head.items() {
        sources.push(source_in(places, &side_of(arities.items(), source)))?;
    }
    Ok(sources)
}

/// What is kept of the rows so far joined with those of the fragment; these are read where they stand if the get has no
/// inputs.
fn joined_fragment<F: Whole>(
    alloc: Global,
    join: &Join,
    fragment: &F,
    so_far: &Rows,
) -> Result<Rows, OutOfMemory>
    requires { IsAllowed (F.shape fragment.now)
        (map (λ link. link.column) join.now.get.now.inputs) }
    ensures { IfOk result (λ it. (row : List ℕ) → Contains it.rows row
        ↔ IsKept join.now.kept.now
        (IsJoin join.now.get.now so_far.now.rows (F.rows fragment.now)) row) }
{
    if join.get.inputs.is_empty() {
        return joined_firsts(alloc, join, so_far, fragment.whole());
    }
    let asked = asked_rows(alloc, join.get, fragment, so_far)?;
    joined_firsts(alloc, join, so_far, &asked)
}

/// Joins the rows so far with those of the fragment, and gives a key of what is kept.
fn join_rows<F: Whole>(
    alloc: Global,
    keyed: &Keyed,
    fragment: &F,
    so_far: &mut Rows,
) -> Result<Places, OutOfMemory>
    requires { IsAllowed (F.shape fragment.now)
        (map (λ link. link.column) keyed.now.get.now.inputs) }
    ensures { OnOk result ((row : List ℕ) → Contains so_far.new.rows row
        ↔ IsKept keyed.now.kept.now
        (IsJoin keyed.now.get.now so_far.old.rows (F.rows fragment.now)) row) }
{
    let width = so_far.arity();
    let join = Join {
        get: keyed.get,
        kept: keyed.kept,
        in_stretches: is_key_kept(keyed, width),
    };
    let joined = joined_fragment(alloc, &join, fragment, so_far)?;
    let key = key_after(alloc, keyed, width, &joined)?;
    *so_far = joined;
    Ok(key)
}

/// Joins the rows so far with those of the fragment, and keeps the codes of the kept slots, where the cells are those of
/// the slots at the places. The key is one of the rows so far, and becomes one of what is kept.
fn join_slots<F: Whole>(
    alloc: Global,
    get: &Get,
    fragment: &F,
    places: &Slots,
    kept: &Slots,
    key: &mut Places,
    so_far: &mut Rows,
) -> Result<(), OutOfMemory>
    requires { IsAllowed (F.shape fragment.now) (map (λ link. link.column) get.now.inputs) }
    ensures { OnOk result ((row : List ℕ) → Contains so_far.new.rows row
        ↔ IsKept (map (λ slot. source_in places.now (Held slot)) kept.now)
        (IsJoin get.now so_far.old.rows (F.rows fragment.now)) row) }
{
    let sources = slot_sources(alloc, places, kept)?;
    let carried = Keyed {
        get,
        kept: &sources,
        key: &*key,
    };
    let own_key = key_before(alloc, &carried, so_far)?;
    let keyed = Keyed {
        get,
        kept: &sources,
        key: &own_key,
    };
    *key = join_rows(alloc, &keyed, fragment, so_far)?;
    Ok(())
}

/// Joins the rows so far with those of the fragment, and keeps of their slots those that are needed. The key is one of the
/// rows so far, and becomes one of what is kept.
fn follow<F: Whole>(
    alloc: Global,
    get: &Get,
    fragment: &F,
    needed: &Slots,
    places: &mut Slots,
    key: &mut Places,
    so_far: &mut Rows,
) -> Result<(), OutOfMemory>
    requires { IsAllowed (F.shape fragment.now) (map (λ link. link.column) get.now.inputs) }
    ensures { OnOk result ((places.new ≡ kept_slots needed.now places.old)
        × ((row : List ℕ) → Contains so_far.new.rows row
        ↔ IsKept (map (λ slot. source_in places.old (Held slot)) places.new)
        (IsJoin get.now so_far.old.rows (F.rows fragment.now)) row)) }
{
    let kept = kept_slots(alloc, needed, places)?;
    join_slots(alloc, get, fragment, places, &kept, key, so_far)?;
    *places = kept;
    Ok(())
}

/// Steps, with what joins in any order rest on: the arities of the rows that the gets give, and equations that say what
/// their filters do. The get of the number `first`, if there is one, is the first to be joined.
#[derive(Clone, Copy)]
pub(crate) struct Prepared<'a> {
    pub gets: &'a Gets,
    pub head: &'a Sources,
    pub arities: &'a Places,
    pub equations: &'a Equations,
    pub first: Option<usize>,
}

/// Rows so far: the numbers of the gets that are done, the slots of the cells, a key, that is, cells such that no two of
/// the rows have the same codes in all of them, and the rows.
#[derive(Drop)]
pub(crate) struct SoFar {
    pub done: Places,
    pub places: Slots,
    pub key: Places,
    pub rows: Rows,
}

/// Nothing done: one empty row.
pub(crate) fn nothing_done(alloc: Global) -> Result<SoFar, OutOfMemory>
    ensures { IfOk result (λ it. (it.done ≡ []) × (it.places ≡ []) × (it.rows.rows ≡ [] ∷ [])) }
{
    let mut rows = Rows::new(alloc, 0)?;
    rows.add(&[])?;
    Ok(SoFar {
        done: Values::new(alloc),
        places: List::new(alloc),
        key: Values::new(alloc),
        rows,
    })
}

/// Puts the get of the number and the slots of its row after those that are done.
fn push_done(
    steps: &Prepared,
    number: usize,
    done: &mut Places,
    places: &mut Slots,
) -> Result<(), OutOfMemory>
    requires { number < length steps.now.arities.now }
    ensures done { OnOk result (done.new ≡ done.old ++ number ∷ []) }
    ensures places { OnOk result ((arity : ℕ)
        × (slice_get steps.now.arities.now number ≡ Some arity)
        × (places.new ≡ places.old ++ slots_from number 0 arity)) }
{
    done.push(number)?;
    push_slots(places, number, steps.arities.item(number))
}

/// The get of the number as rows so far have it, which is done then: its inputs are told by the slots so far, its
/// filters are the equations that it decides, and the slots of its row are put after those so far.
fn own_get(
    alloc: Global,
    steps: &Prepared,
    number: usize,
    get: &Get,
    done: &mut Places,
    places: &mut Slots,
) -> Result<Get, OutOfMemory>
    requires { number < length steps.now.arities.now }
    ensures done { OnOk result (done.new ≡ done.old ++ number ∷ []) }
    ensures places { OnOk result ((arity : ℕ)
        × (slice_get steps.now.arities.now number ≡ Some arity)
        × (places.new ≡ places.old ++ slots_from number 0 arity)) }
    ensures inputs { IfOk result (λ it. it.inputs
        ≡ map (link_in places.old (take number steps.now.arities.now)) get.now.inputs) }
    ensures filters { IfOk result (λ it. it.filters
        ≡ flat_map (links_of number done.new places.new) steps.now.equations.now) }
{
    let inputs = links_in(alloc, places, first_of(steps.arities, number), &get.inputs)?;
    push_done(steps, number, done, places)?;
    let filters = links_at(alloc, number, done, places, steps.equations)?;
    Ok(Get {
        fragment: get.fragment,
        inputs,
        filters,
    })
}

/// Joins the rows so far with those of the fragment, and keeps of their slots those that the steps still need.
fn follow_on<F: Whole>(
    alloc: Global,
    steps: &Prepared,
    get: &Get,
    fragment: &F,
    so_far: &mut SoFar,
) -> Result<(), OutOfMemory>
    requires { IsAllowed (F.shape fragment.now) (map (λ link. link.column) get.now.inputs) }
    ensures done { so_far.new.done ≡ so_far.old.done }
    ensures rows { OnOk result ((so_far.new.places
        ≡ kept_slots (needed_slots steps.now.arities.now steps.now.gets.now steps.now.equations.now
        steps.now.head.now so_far.old.done) so_far.old.places)
        × ((row : List ℕ) → Contains so_far.new.rows.rows row
        ↔ IsKept (map (λ slot. source_in so_far.old.places (Held slot)) so_far.new.places)
        (IsJoin get.now so_far.old.rows.rows (F.rows fragment.now)) row)) }
{
    let needed = needed_slots(
        alloc,
        steps.arities,
        steps.gets,
        steps.equations,
        steps.head,
        &so_far.done,
    )?;
    follow(
        alloc,
        get,
        fragment,
        &needed,
        &mut so_far.places,
        &mut so_far.key,
        &mut so_far.rows,
    )
}

/// Joins the get of the number, which is not done and whose inputs are known.
fn take_turn<F: Whole>(
    alloc: Global,
    steps: &Prepared,
    fragments: &[F],
    number: usize,
    so_far: &mut SoFar,
) -> Result<(), OutOfMemory>
    requires runnable { AreRunnable (map F.shape fragments.now) steps.now.gets.now }
    requires arities { AreArities (IsRowOf (held_by (map F.rows fragments.now))) steps.now.gets.now
        steps.now.arities.now }
    requires there { number < length steps.now.gets.now }
    requires fresh { ¬ (Contains so_far.old.done number) }
    requires ready { (get : Get) → slice_get steps.now.gets.now number ≡ Some get
        → IsReady steps.now.arities.now so_far.old.done get number }
    requires under_way { IsSoFar (IsRowOf (held_by (map F.rows fragments.now)))
        steps.now so_far.old }
    ensures done { OnOk result (so_far.new.done ≡ so_far.old.done ++ number ∷ []) }
    ensures under_way { OnOk result (IsSoFar (IsRowOf (held_by (map F.rows fragments.now)))
        steps.now so_far.new) }
{
    let get = steps.gets.item(number);
    let own = own_get(
        alloc,
        steps,
        number,
        get,
        &mut so_far.done,
        &mut so_far.places,
    )?;
    follow_on(alloc, steps, &own, &fragments[get.fragment], so_far)
}

/// Joins the get of the number, if there is one that is not done and whose inputs are known.
pub(crate) fn take_if_ready<F: Whole>(
    alloc: Global,
    steps: &Prepared,
    fragments: &[F],
    number: usize,
    so_far: &mut SoFar,
) -> Result<(), OutOfMemory>
    requires runnable { AreRunnable (map F.shape fragments.now) steps.now.gets.now }
    requires arities { AreArities (IsRowOf (held_by (map F.rows fragments.now))) steps.now.gets.now
        steps.now.arities.now }
    requires under_way { IsSoFar (IsRowOf (held_by (map F.rows fragments.now)))
        steps.now so_far.old }
    ensures { OnOk result (IsSoFar (IsRowOf (held_by (map F.rows fragments.now)))
        steps.now so_far.new) }
{
    if number >= steps.gets.len() || is_in(&so_far.done, number) {
        return Ok(());
    }
    if !each_known(
        &so_far.done,
        first_of(steps.arities, number),
        &steps.gets.item(number).inputs,
    ) {
        return Ok(());
    }
    take_turn(alloc, steps, fragments, number, so_far)
}

/// Joins the get that seems best, if there is one that is not done and whose inputs are known.
fn take_best<F: Whole>(
    alloc: Global,
    steps: &Prepared,
    fragments: &[F],
    so_far: &mut SoFar,
) -> Result<(), OutOfMemory>
    requires runnable { AreRunnable (map F.shape fragments.now) steps.now.gets.now }
    requires arities { AreArities (IsRowOf (held_by (map F.rows fragments.now))) steps.now.gets.now
        steps.now.arities.now }
    requires under_way { IsSoFar (IsRowOf (held_by (map F.rows fragments.now)))
        steps.now so_far.old }
    ensures { OnOk result (IsSoFar (IsRowOf (held_by (map F.rows fragments.now)))
        steps.now so_far.new) }
{
    match next_get(alloc, steps, fragments, so_far)? {
        Some(number) => take_if_ready(alloc, steps, fragments, number, so_far),
        None => Ok(()),
    }
}

/// Joins the get of the number, if it is not done, where all before it in the stated order are.
fn take_next<F: Whole>(
    alloc: Global,
    steps: &Prepared,
    fragments: &[F],
    number: usize,
    so_far: &mut SoFar,
) -> Result<(), OutOfMemory>
    requires runnable { AreRunnable (map F.shape fragments.now) steps.now.gets.now }
    requires arities { AreArities (IsRowOf (held_by (map F.rows fragments.now))) steps.now.gets.now
        steps.now.arities.now }
    requires there { number < length steps.now.gets.now }
    requires before { (other : ℕ) → other < number → Contains so_far.old.done other }
    requires under_way { IsSoFar (IsRowOf (held_by (map F.rows fragments.now)))
        steps.now so_far.old }
    ensures before { OnOk result ((other : ℕ)
        → other < number + 1 → Contains so_far.new.done other) }
    ensures under_way { OnOk result (IsSoFar (IsRowOf (held_by (map F.rows fragments.now)))
        steps.now so_far.new) }
{
    if is_in(&so_far.done, number) {
        return Ok(());
    }
    take_turn(alloc, steps, fragments, number, so_far)
}

/// Joins the gets, each time the one that seems best, and then all that are left in the stated order.
pub(crate) fn take_all<F: Whole>(
    alloc: Global,
    steps: &Prepared,
    fragments: &[F],
    so_far: &mut SoFar,
) -> Result<(), OutOfMemory>
    requires runnable { AreRunnable (map F.shape fragments.now) steps.now.gets.now }
    requires arities { AreArities (IsRowOf (held_by (map F.rows fragments.now))) steps.now.gets.now
        steps.now.arities.now }
    requires under_way { IsSoFar (IsRowOf (held_by (map F.rows fragments.now)))
        steps.now so_far.old }
    ensures all { OnOk result ((number : ℕ)
        → number < length steps.now.gets.now → Contains so_far.new.done number) }
    ensures under_way { OnOk result (IsSoFar (IsRowOf (held_by (map F.rows fragments.now)))
        steps.now so_far.new) }
{
    'turns: for _turn in 0..steps.gets.len() {
        take_best(alloc, steps, fragments, so_far)?;
    }
    'gets: for number in 0..steps.gets.len() {
        take_next(alloc, steps, fragments, number, so_far)?;
    }
    Ok(())
}
