//! Gets without inputs in place of those that have some, over rows that were asked for beforehand.
ghost use Rattle.std.specs.Prelude.{◌≡◌, ◌≢◌, ◌<◌, ◌+◌, ◌++◌, ◌∷◌, [], List, length, map, take, slice_get, Some, Contains, IfOk, OnOk};
ghost use Rattle.esto_steps.specs.declared.steps.Get.{Get};
ghost use Rattle.esto_steps.specs.declared.steps.Link.{Link};
ghost use Rattle.esto_steps.specs.Rows.{IsRowOf, held_by};
ghost use Rattle.esto_exec.specs.declared.slots.Side.TheVariants.{Nothing};
ghost use Rattle.esto_exec.specs.Instead.{given_shape, given_rows, IsInstead, AreEnough, AreInstead};
ghost use Rattle.esto_exec.specs.Runnable.{AreRunnable};
ghost use Rattle.esto_exec.specs.Slots.{side_of};
ghost use Rattle.esto_exec.specs.SoFar.{IsSoFar};
ghost use Rattle.esto_exec.specs.Turns.{IsReady, AreArities};

use crate::asked::{asked_by, can_ask, each_names, rows_before};
use crate::given::{Given, freed, renamed, without_inputs};
use crate::slots::first_of;
use crate::turns::{Prepared, SoFar};
use esto_columns::Rows;
use esto_steps::{Get, Gets, Whole};
use esto_term::{List, OutOfMemory};
use std::alloc::Global;

/// A get, and what it reads.
#[derive(Drop)]
struct Reading<'a, F> {
    get: Get,
    given: Given<'a, F>,
}

/// The get over its own fragment.
fn own_reading<'a, F: Whole>(
    alloc: Global,
    get: &Get,
    fragment: &'a F,
    number: usize,
) -> Result<Reading<'a, F>, OutOfMemory>
    ensures { IfOk result (λ it. (it.get.fragment ≡ number)
        × (it.get.inputs ≡ get.now.inputs) × (it.get.filters ≡ get.now.filters)
        × (given_shape F.shape it.given ≡ F.shape fragment.now)
        × (given_rows F.rows it.given ≡ F.rows fragment.now)) }
{
    let get = renamed(alloc, get, number)?;
    Ok(Reading {
        get,
        given: Given::Own(fragment),
    })
}

/// The get over the rows, with filters in place of its inputs.
fn asked_reading<'a, F: Whole>(
    alloc: Global,
    get: &Get,
    rows: Rows,
    number: usize,
) -> Result<Reading<'a, F>, OutOfMemory>
    ensures { IfOk result (λ it. (it.get.fragment ≡ number)
        × (it.get.inputs ≡ []) × (it.get.filters ≡ get.now.inputs ++ get.now.filters)
        × (given_shape F.shape it.given ≡ record { arity = rows.arity; ways = [] ∷ [] })
        × (given_rows F.rows it.given ≡ rows.rows)) }
{
    let stored = without_inputs(alloc, rows)?;
    let get = freed(alloc, get, number)?;
    Ok(Reading {
        get,
        given: Given::Asked(stored),
    })
}

/// The get of the number over its own fragment.
fn own_at<'a, F: Whole>(
    alloc: Global,
    steps: &Prepared,
    fragments: &'a [F],
    number: usize,
) -> Result<Reading<'a, F>, OutOfMemory>
    requires runnable { AreRunnable (map F.shape fragments.now) steps.now.gets.now }
    requires there { number < length steps.now.gets.now }
    ensures instead { IfOk result (λ it. IsInstead steps.now.arities.now steps.now.gets.now number
        it.get (given_shape F.shape it.given)) }
    ensures enough { IfOk result (λ it. AreEnough (IsRowOf (held_by (map F.rows fragments.now)))
        steps.now.arities.now steps.now.gets.now steps.now.equations.now number
        (given_rows F.rows it.given)) }
{
    let get = steps.gets.item(number);
    own_reading(alloc, get, &fragments[get.fragment], number)
}

/// The get of the number over what it gives when it is asked by the rows so far, which have what its inputs name.
fn asked_at<'a, F: Whole>(
    alloc: Global,
    steps: &Prepared,
    fragments: &'a [F],
    number: usize,
    so_far: &SoFar,
) -> Result<Reading<'a, F>, OutOfMemory>
    requires runnable { AreRunnable (map F.shape fragments.now) steps.now.gets.now }
    requires arities { AreArities (IsRowOf (held_by (map F.rows fragments.now))) steps.now.gets.now
        steps.now.arities.now }
    requires there { number < length steps.now.gets.now }
    requires under_way { IsSoFar (IsRowOf (held_by (map F.rows fragments.now)))
        steps.now so_far.now }
    requires fresh { ¬ (Contains so_far.now.done number) }
    requires ready { (get : Get) → slice_get steps.now.gets.now number ≡ Some get
        → IsReady steps.now.arities.now so_far.now.done get number }
    requires named { (get : Get) (link : Link) → slice_get steps.now.gets.now number ≡ Some get
        → Contains get.inputs link
        → side_of (take number steps.now.arities.now) link.source ≢ Nothing }
    ensures instead { IfOk result (λ it. IsInstead steps.now.arities.now steps.now.gets.now number
        it.get (given_shape F.shape it.given)) }
    ensures enough { IfOk result (λ it. AreEnough (IsRowOf (held_by (map F.rows fragments.now)))
        steps.now.arities.now steps.now.gets.now steps.now.equations.now number
        (given_rows F.rows it.given)) }
{
    let get = steps.gets.item(number);
    let rows = asked_by(
        alloc,
        &so_far.places,
        first_of(steps.arities, number),
        &get.inputs,
        &fragments[get.fragment],
        &so_far.rows,
    )?;
    asked_reading(alloc, get, rows, number)
}

/// The get of the number over what it gives when it is asked by the rows so far, where they have what its inputs name,
/// else over its own fragment.
fn reading_by<'a, F: Whole>(
    alloc: Global,
    steps: &Prepared,
    fragments: &'a [F],
    number: usize,
    so_far: &SoFar,
) -> Result<Reading<'a, F>, OutOfMemory>
    requires runnable { AreRunnable (map F.shape fragments.now) steps.now.gets.now }
    requires arities { AreArities (IsRowOf (held_by (map F.rows fragments.now))) steps.now.gets.now
        steps.now.arities.now }
    requires there { number < length steps.now.gets.now }
    requires under_way { IsSoFar (IsRowOf (held_by (map F.rows fragments.now)))
        steps.now so_far.now }
    requires named { (get : Get) (link : Link) → slice_get steps.now.gets.now number ≡ Some get
        → Contains get.inputs link
        → side_of (take number steps.now.arities.now) link.source ≢ Nothing }
    ensures instead { IfOk result (λ it. IsInstead steps.now.arities.now steps.now.gets.now number
        it.get (given_shape F.shape it.given)) }
    ensures enough { IfOk result (λ it. AreEnough (IsRowOf (held_by (map F.rows fragments.now)))
        steps.now.arities.now steps.now.gets.now steps.now.equations.now number
        (given_rows F.rows it.given)) }
{
    if !can_ask(steps, number, &steps.gets.item(number).inputs, so_far) {
        return own_at(alloc, steps, fragments, number);
    }
    asked_at(alloc, steps, fragments, number, so_far)
}

/// What stands for the get of the number: where it has inputs, a get without inputs over what it gives when it is asked
/// beforehand, if it can be.
fn reading_of<'a, F: Whole>(
    alloc: Global,
    steps: &Prepared,
    fragments: &'a [F],
    number: usize,
) -> Result<Reading<'a, F>, OutOfMemory>
    requires runnable { AreRunnable (map F.shape fragments.now) steps.now.gets.now }
    requires arities { AreArities (IsRowOf (held_by (map F.rows fragments.now))) steps.now.gets.now
        steps.now.arities.now }
    requires there { number < length steps.now.gets.now }
    ensures instead { IfOk result (λ it. IsInstead steps.now.arities.now steps.now.gets.now number
        it.get (given_shape F.shape it.given)) }
    ensures enough { IfOk result (λ it. AreEnough (IsRowOf (held_by (map F.rows fragments.now)))
        steps.now.arities.now steps.now.gets.now steps.now.equations.now number
        (given_rows F.rows it.given)) }
{
    let inputs = &steps.gets.item(number).inputs;
    if inputs.is_empty() || !each_names(first_of(steps.arities, number), inputs) {
        return own_at(alloc, steps, fragments, number);
    }
    let so_far = rows_before(alloc, steps, fragments, number)?;
    reading_by(alloc, steps, fragments, number, &so_far)
}

/// Gets, and what they read: a get of a number reads what stands at that number.
#[derive(Drop)]
pub(crate) struct Readings<'a, F> {
    pub gets: Gets,
    pub given: List<Given<'a, F>>,
}

/// Puts the get and what it reads at the end.
fn push_reading<'a, F: Whole>(
    readings: &mut Readings<'a, F>,
    reading: Reading<'a, F>,
) -> Result<(), OutOfMemory>
    ensures { OnOk result ((readings.new.gets ≡ readings.old.gets ++ reading.entry.get ∷ [])
        × (readings.new.given ≡ readings.old.given ++ reading.entry.given ∷ [])) }
{
    readings.gets.push(reading.get)?;
    readings.given.push(reading.given)
}

/// Puts what stands for the get of the number after what stands for those before it.
fn add_reading<'a, F: Whole>(
    alloc: Global,
    steps: &Prepared,
    fragments: &'a [F],
    number: usize,
    readings: &mut Readings<'a, F>,
) -> Result<(), OutOfMemory>
    requires runnable { AreRunnable (map F.shape fragments.now) steps.now.gets.now }
    requires arities { AreArities (IsRowOf (held_by (map F.rows fragments.now))) steps.now.gets.now
        steps.now.arities.now }
    requires there { number < length steps.now.gets.now }
    requires many { length readings.old.gets ≡ number }
    requires instead { AreInstead (IsRowOf (held_by (map F.rows fragments.now)))
        steps.now.arities.now steps.now.gets.now steps.now.equations.now readings.old.gets
        (map (given_shape F.shape) readings.old.given)
        (map (given_rows F.rows) readings.old.given) }
    ensures many { OnOk result (length readings.new.gets ≡ number + 1) }
    ensures instead { OnOk result (AreInstead (IsRowOf (held_by (map F.rows fragments.now)))
        steps.now.arities.now steps.now.gets.now steps.now.equations.now readings.new.gets
        (map (given_shape F.shape) readings.new.given)
        (map (given_rows F.rows) readings.new.given)) }
{
    let reading = reading_of(alloc, steps, fragments, number)?;
    push_reading(readings, reading)
}

/// Puts what stands for the gets into the list, which is empty.
fn add_readings<'a, F: Whole>(
    alloc: Global,
    steps: &Prepared,
    fragments: &'a [F],
    readings: &mut Readings<'a, F>,
) -> Result<(), OutOfMemory>
    requires runnable { AreRunnable (map F.shape fragments.now) steps.now.gets.now }
    requires arities { AreArities (IsRowOf (held_by (map F.rows fragments.now))) steps.now.gets.now
        steps.now.arities.now }
    requires many { length readings.old.gets ≡ 0 }
    requires instead { AreInstead (IsRowOf (held_by (map F.rows fragments.now)))
        steps.now.arities.now steps.now.gets.now steps.now.equations.now readings.old.gets
        (map (given_shape F.shape) readings.old.given)
        (map (given_rows F.rows) readings.old.given) }
    ensures many { OnOk result (length readings.new.gets ≡ length steps.now.gets.now) }
    ensures instead { OnOk result (AreInstead (IsRowOf (held_by (map F.rows fragments.now)))
        steps.now.arities.now steps.now.gets.now steps.now.equations.now readings.new.gets
        (map (given_shape F.shape) readings.new.given)
        (map (given_rows F.rows) readings.new.given)) }
{
    'gets: for number in 0..steps.gets.len() {
        add_reading(alloc, steps, fragments, number, readings)?;
    }
    Ok(())
}

/// What stands for the gets.
pub(crate) fn readings_of<'a, F: Whole>(
    alloc: Global,
    steps: &Prepared,
    fragments: &'a [F],
) -> Result<Readings<'a, F>, OutOfMemory>
    requires runnable { AreRunnable (map F.shape fragments.now) steps.now.gets.now }
    requires arities { AreArities (IsRowOf (held_by (map F.rows fragments.now))) steps.now.gets.now
        steps.now.arities.now }
    ensures many { IfOk result (λ it. length it.gets ≡ length steps.now.gets.now) }
    ensures instead { IfOk result (λ it. AreInstead (IsRowOf (held_by (map F.rows fragments.now)))
        steps.now.arities.now steps.now.gets.now steps.now.equations.now it.gets
        (map (given_shape F.shape) it.given) (map (given_rows F.rows) it.given)) }
{
    let mut readings = Readings {
        gets: List::new(alloc),
        given: List::new(alloc),
    };
    add_readings(alloc, steps, fragments, &mut readings)?;
    Ok(readings)
}
