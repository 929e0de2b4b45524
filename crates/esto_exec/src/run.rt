//! The run of steps.
ghost use Rattle.std.specs.Prelude.{◌≡◌, ◌↔◌, List, ℕ, length, map, Contains, IfOk};
ghost use Rattle.esto_steps.specs.Meaning.{IsResult};
ghost use Rattle.esto_steps.specs.Rows.{IsRowOf, held_by};
ghost use Rattle.esto_exec.specs.Instead.{given_shape, given_rows};
ghost use Rattle.esto_exec.specs.Runnable.{AreRunnable};
ghost use Rattle.esto_exec.specs.Slots.{equations_from};
ghost use Rattle.esto_exec.specs.Turns.{AreArities};

use crate::order::graph_of;
use crate::reading::{Readings, readings_of};
use crate::result::{prepared_result, result_over};
use crate::slots::{Equations, equations_of};
use crate::turns::{Prepared, arities_of};
use esto_columns::Rows;
use esto_order::asks_beforehand;
use esto_steps::{Gets, Sources, Steps, Whole};
use esto_term::{OutOfMemory, Places, Replicate};
use std::alloc::Global;

/// The result of the steps, joined get by get.
fn joined_result<F: Whole>(
    alloc: Global,
    steps: &Steps,
    fragments: &[F],
) -> Result<Rows, OutOfMemory>
    requires { AreRunnable (map F.shape fragments.now) steps.now.gets }
    ensures arity { IfOk result (λ it. it.arity ≡ length steps.now.head) }
    ensures rows { IfOk result (λ it. (row : List ℕ) → Contains it.rows row
        ↔ IsResult (IsRowOf (held_by (map F.rows fragments.now))) steps.now row) }
{
    let arities = arities_of(alloc, &steps.gets, fragments)?;
    result_over(alloc, steps, &arities, fragments)
}

/// The result of the gets over what they read.
fn result_of_readings<'a, F: Whole>(
    alloc: Global,
    head: &Sources,
    readings: &Readings<'a, F>,
) -> Result<Rows, OutOfMemory>
    requires { AreRunnable (map (given_shape F.shape) readings.now.given) readings.now.gets }
    ensures arity { IfOk result (λ it. it.arity ≡ length head.now) }
    ensures rows { IfOk result (λ it. (row : List ℕ) → Contains it.rows row
        ↔ IsResult (IsRowOf (held_by (map (given_rows F.rows) readings.now.given)))
        (record { gets = readings.now.gets; head = head.now }) row) }
{
    let gets = readings.gets.copy(alloc)?;
    let head = head.copy(alloc)?;
    let steps = Steps { gets, head };
    joined_result(alloc, &steps, readings.given.items())
}

/// The result of the steps, where the gets that have inputs are asked beforehand, as far as they can be.
fn result_beforehand<F: Whole>(
    alloc: Global,
    steps: &Prepared,
    fragments: &[F],
) -> Result<Rows, OutOfMemory>
    requires runnable { AreRunnable (map F.shape fragments.now) steps.now.gets.now }
    requires arities { AreArities (IsRowOf (held_by (map F.rows fragments.now))) steps.now.gets.now
        steps.now.arities.now }
    requires equations { steps.now.equations.now
        ≡ equations_from steps.now.arities.now 0 steps.now.gets.now }
    ensures arity { IfOk result (λ it. it.arity ≡ length steps.now.head.now) }
    ensures rows { IfOk result (λ it. (row : List ℕ) → Contains it.rows row
        ↔ IsResult (IsRowOf (held_by (map F.rows fragments.now)))
        (record { gets = steps.now.gets.now; head = steps.now.head.now }) row) }
{
    let readings = readings_of(alloc, steps, fragments)?;
    result_of_readings(alloc, steps.head, &readings)
}

/// The result of the steps: with gets that are asked beforehand where links don't lead on without that, else get by
/// get.
fn result_by<F: Whole>(
    alloc: Global,
    steps: &Steps,
    arities: &Places,
    equations: &Equations,
    fragments: &[F],
) -> Result<Rows, OutOfMemory>
    requires runnable { AreRunnable (map F.shape fragments.now) steps.now.gets }
    requires arities { AreArities (IsRowOf (held_by (map F.rows fragments.now))) steps.now.gets
        arities.now }
    requires equations { equations.now ≡ equations_from arities.now 0 steps.now.gets }
    ensures arity { IfOk result (λ it. it.arity ≡ length steps.now.head) }
    ensures rows { IfOk result (λ it. (row : List ℕ) → Contains it.rows row
        ↔ IsResult (IsRowOf (held_by (map F.rows fragments.now))) steps.now row) }
{
    let prepared = Prepared {
        gets: &steps.gets,
        head: &steps.head,
        arities,
        equations,
        first: None,
    };
    let graph = graph_of(alloc, &prepared)?;
    if asks_beforehand(alloc, &graph)? {
        return result_beforehand(alloc, &prepared, fragments);
    }
    prepared_result(alloc, steps, arities, equations, fragments)
}

/// The result of the steps, where gets give rows of these arities.
fn result_with<F: Whole>(
    alloc: Global,
    steps: &Steps,
    arities: &Places,
    fragments: &[F],
) -> Result<Rows, OutOfMemory>
    requires runnable { AreRunnable (map F.shape fragments.now) steps.now.gets }
    requires arities { AreArities (IsRowOf (held_by (map F.rows fragments.now))) steps.now.gets
        arities.now }
    ensures arity { IfOk result (λ it. it.arity ≡ length steps.now.head) }
    ensures rows { IfOk result (λ it. (row : List ℕ) → Contains it.rows row
        ↔ IsResult (IsRowOf (held_by (map F.rows fragments.now))) steps.now row) }
{
    let equations = equations_of(alloc, arities, &steps.gets)?;
    result_by(alloc, steps, arities, &equations, fragments)
}

/// Runs the steps over the fragments, which a get names by number and asks in one of their ways. The rows, read as a
/// set, are exactly what the steps mean over the rows of the fragments, so they rest on those fragments alone that the
/// steps name. The gets are joined in an order of the executor's own, in which each link is read either way. A get
/// without inputs reads the rows of its fragment where they stand. Where the gets fall into fewer parts once inputs are
/// read as filters, or all hang together and some that can come first have to hold a constant, but none of these leads
/// to all others, gets with inputs are asked beforehand, by the rows of the gets that their inputs lead back to, and
/// what they give is joined in any order. Rows are joined by an index, one that they have or one that is made for the
/// join, and of a joined row only those cells are kept that are still needed.
pub fn run_plan<F: Whole>(
    alloc: Global,
    steps: &Steps,
    fragments: &[F],
) -> Result<Rows, OutOfMemory>
    requires { AreRunnable (map F.shape fragments.now) steps.now.gets }
    ensures arity { IfOk result (λ it. it.arity ≡ length steps.now.head) }
    ensures rows { IfOk result (λ it. (row : List ℕ) → Contains it.rows row
        ↔ IsResult (IsRowOf (held_by (map F.rows fragments.now))) steps.now row) }
{
    let arities = arities_of(alloc, &steps.gets, fragments)?;
    result_with(alloc, steps, &arities, fragments)
}
