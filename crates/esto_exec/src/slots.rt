//! Cells of the rows that gets give, and what links say of them, whatever order the gets are taken in.
ghost use Rattle.std.specs.Prelude.{◌≡◌, ◌++◌, ◌∷◌, [], length, flat_map, take, cond, IfOk, OnOk};
ghost use Rattle.esto_exec.specs.Slots.{side_from, side_of, equations_by, equations_from};
ghost use Rattle.esto_exec.specs.Turns.{place_in, is_in, is_known, is_decided, source_in, side_slots, input_slots, equation_slots};
ghost use Rattle.esto_exec.specs.Turns.{head_slots, needed_slots, is_among, kept_slots};

use esto_steps::{Gets, Links, Source, Sources};
use esto_term::{List, OutOfMemory, Places};
use std::alloc::Global;

/// A cell of the row that a get gives: the number of the get in the stated order, and the column.
#[derive(Clone, Copy)]
pub(crate) struct Slot {
    pub get: usize,
    pub column: usize,
}

/// A list of slots.
pub(crate) type Slots = List<Slot>;

/// Where a code comes from.
#[derive(Clone, Copy)]
pub(crate) enum Side {
    /// The code itself.
    Constant(u64),
    /// What the slot holds.
    Held(Slot),
    /// Nowhere.
    Nothing,
}

/// The slot has to hold the code of the side.
#[derive(Clone, Copy)]
pub(crate) struct Equation {
    pub slot: Slot,
    pub side: Side,
}

/// A list of equations.
pub(crate) type Equations = List<Equation>;

/// The cell at the place of the rows of gets with these arities, which stand one after another.
fn side_at(arities: &[usize], place: usize) -> Side
    ensures { result ≡ side_from 0 arities.now place }
{
    let mut column = place;
    'gets: for (number, arity) in arities.iter().enumerate() {
        if column < *arity {
            return Side::Held(Slot {
                get: number,
                column,
            });
        }
        column -= *arity;
    }
    Side::Nothing
}

/// What the source names where the rows of gets with these arities stand one after another.
pub(crate) fn side_of(arities: &[usize], source: &Source) -> Side
    ensures { result ≡ side_of arities.now source.now }
{
    match source {
        Source::Code(code) => Side::Constant(*code),
        Source::Cell(place) => side_at(arities, *place),
    }
}

/// The first numbers of the list, so many.
pub(crate) fn first_of(numbers: &Places, count: usize) -> &[usize]
    ensures { result.now ≡ take count numbers.now }
{
    let numbers = numbers.items();
    if count < numbers.len() {
        &numbers[..count]
    } else {
        numbers
    }
}

/// Puts the equation of each of the filters of a get of the number at the end.
fn push_equations(
    equations: &mut Equations,
    arities: &[usize],
    number: usize,
    links: &Links,
) -> Result<(), OutOfMemory>
    ensures { OnOk result (equations.new
        ≡ equations.old ++ equations_by arities.now number links.now) }
{
    'links: for link in links.items() {
        equations.push(Equation {
            slot: Slot {
                get: number,
                column: link.column,
            },
            side: side_of(arities, &link.source),
        })?;
    }
    Ok(())
}

/// The equations of the filters of the gets.
pub(crate) fn equations_of(
    alloc: Global,
    arities: &Places,
    gets: &Gets,
) -> Result<Equations, OutOfMemory>
    requires { length gets.now ≡ length arities.now }
    ensures { IfOk result (λ it. it ≡ equations_from arities.now 0 gets.now) }
{
    let mut equations = List::new(alloc);
    'gets: for (number, get) in gets.items().iter().enumerate() {
        let known = first_of(arities, number + 1);
        push_equations(&mut equations, known, number, &get.filters)?;
    }
    Ok(equations)
}

/// Puts the slot of the side at the end, where it is one.
fn push_side(slots: &mut Slots, side: &Side) -> Result<(), OutOfMemory>
    ensures { OnOk result (slots.new ≡ slots.old ++ side_slots side.now) }
{
    match side {
        Side::Constant(_) => Ok(()),
        Side::Held(slot) => slots.push(*slot),
        Side::Nothing => Ok(()),
    }
}

/// Puts the slots that the links name at the end.
fn push_inputs(slots: &mut Slots, arities: &[usize], links: &Links) -> Result<(), OutOfMemory>
    ensures { OnOk result (slots.new
        ≡ slots.old ++ flat_map (λ link. side_slots (side_of arities.now link.source)) links.now) }
{
    'links: for link in links.items() {
        push_side(slots, &side_of(arities, &link.source))?;
    }
    Ok(())
}

/// Puts the slots that the inputs of the get of the number name at the end, if it is not done.
fn push_open_inputs(
    slots: &mut Slots,
    arities: &Places,
    done: &Places,
    number: usize,
    links: &Links,
) -> Result<(), OutOfMemory>
    ensures { OnOk result (slots.new ≡ slots.old ++ cond (is_in done.now number) []
        (flat_map (λ link. side_slots (side_of (take number arities.now) link.source)) links.now)) }
{
    if is_in(done, number) {
        return Ok(());
    }
    push_inputs(slots, first_of(arities, number), links)
}

/// Puts the slots that the inputs of gets name which are not done at the end.
fn push_input_slots(
    slots: &mut Slots,
    arities: &Places,
    done: &Places,
    gets: &Gets,
) -> Result<(), OutOfMemory>
    ensures { OnOk result (slots.new
        ≡ slots.old ++ input_slots arities.now done.now 0 gets.now) }
{
    'gets: for (number, get) in gets.items().iter().enumerate() {
        push_open_inputs(slots, arities, done, number, &get.inputs)?;
    }
    Ok(())
}

/// Puts the slots of the equation at the end, if its sides are not both known.
fn push_open_equation(
    slots: &mut Slots,
    done: &Places,
    equation: &Equation,
) -> Result<(), OutOfMemory>
    ensures { OnOk result (slots.new ≡ slots.old ++ cond (is_decided done.now equation.now) []
        (equation.now.slot ∷ side_slots equation.now.side)) }
{
    if is_in(done, equation.slot.get) && is_known(done, &equation.side) {
        return Ok(());
    }
    slots.push(equation.slot)?;
    push_side(slots, &equation.side)
}

/// Puts the slots that the equations name whose sides are not both known at the end.
fn push_equation_slots(
    slots: &mut Slots,
    done: &Places,
    equations: &Equations,
) -> Result<(), OutOfMemory>
    ensures { OnOk result (slots.new ≡ slots.old ++ equation_slots done.now equations.now) }
{
    'equations: for equation in equations.items() {
        push_open_equation(slots, done, equation)?;
    }
    Ok(())
}

/// Puts the slots that the head names at the end.
fn push_head_slots(slots: &mut Slots, arities: &Places, head: &Sources) -> Result<(), OutOfMemory>
    ensures { OnOk result (slots.new ≡ slots.old ++ head_slots arities.now head.now) }
{
    'sources: for source in head.items() {
        push_side(slots, &side_of(arities.items(), source))?;
    }
    Ok(())
}

/// Puts the slots that are needed where the gets of the numbers are done into the list, which is empty.
fn put_needed(
    arities: &Places,
    gets: &Gets,
    equations: &Equations,
    head: &Sources,
    done: &Places,
    slots: &mut Slots,
) -> Result<(), OutOfMemory>
    requires { slots.old ≡ [] }
    ensures { OnOk result (slots.new
        ≡ needed_slots arities.now gets.now equations.now head.now done.now) }
{
    push_equation_slots(slots, done, equations)?;
    push_input_slots(slots, arities, done, gets)?;
    push_head_slots(slots, arities, head)
}

/// The slots that are needed where the gets of the numbers are done: those that inputs, equations or the head still
/// name.
pub(crate) fn needed_slots(
    alloc: Global,
    arities: &Places,
    gets: &Gets,
    equations: &Equations,
    head: &Sources,
    done: &Places,
) -> Result<Slots, OutOfMemory>
    ensures { IfOk result (λ it.
        it ≡ needed_slots arities.now gets.now equations.now head.now done.now) }
{
    let mut slots = List::new(alloc);
    put_needed(arities, gets, equations, head, done, &mut slots)?;
    Ok(slots)
}

/// Whether the slot is one of these.
fn is_among(slots: &Slots, slot: &Slot) -> bool
    ensures { result ≡ is_among slots.now slot.now }
{
    'slots: for other in slots.items() {
        if other.get == slot.get && other.column == slot.column {
            return true;
        }
    }
    false
}

/// Puts the slot at the end, if it is one of the needed ones.
fn push_if_needed(kept: &mut Slots, needed: &Slots, slot: &Slot) -> Result<(), OutOfMemory>
    ensures { OnOk result (kept.new ≡ kept.old ++ kept_slots needed.now (slot.now ∷ [])) }
{
    if !is_among(needed, slot) {
        return Ok(());
    }
    kept.push(*slot)
}

/// Those of the slots that are needed.
pub(crate) fn kept_slots(alloc: Global, needed: &Slots, slots: &Slots) -> Result<Slots, OutOfMemory>
    ensures { IfOk result (λ it. it ≡ kept_slots needed.now slots.now) }
{
    let mut kept = List::new(alloc);
    'slots: for slot in slots.items() {
        push_if_needed(&mut kept, needed, slot)?;
    }
    Ok(kept)
}

/// The first place of the slot, or past the end.
fn place_in(places: &Slots, slot: &Slot) -> usize
    ensures { result ≡ place_in places.now slot.now }
{
    'places: for (place, other) in places.items().iter().enumerate() {
        if other.get == slot.get && other.column == slot.column {
            return place;
        }
    }
    places.len()
}

/// Whether the number is one of these.
pub(crate) fn is_in(numbers: &Places, number: usize) -> bool
    ensures { result ≡ is_in numbers.now number }
{
    'numbers: for other in numbers.items() {
        if *other == number {
            return true;
        }
    }
    false
}

/// Whether the side is known where the gets of the numbers are done.
pub(crate) fn is_known(done: &Places, side: &Side) -> bool
    ensures { result ≡ is_known done.now side.now }
{
    match side {
        Side::Constant(_) => true,
        Side::Held(slot) => is_in(done, slot.get),
        Side::Nothing => true,
    }
}

/// What names the side's code in rows whose cells are those of the slots; what is not there is named by a place past
/// the end.
pub(crate) fn source_in(places: &Slots, side: &Side) -> Source
    ensures { result ≡ source_in places.now side.now }
{
    match side {
        Side::Constant(code) => Source::Code(*code),
        Side::Held(slot) => Source::Cell(place_in(places, slot)),
        Side::Nothing => Source::Cell(places.len()),
    }
}
