//! The result of steps, from what joins in any order rest on to the head's codes.
ghost use Rattle.std.specs.Prelude.{◌≡◌, ◌↔◌, List, ℕ, length, map, Contains, IfOk};
ghost use Rattle.esto_steps.specs.Meaning.{IsResult};
ghost use Rattle.esto_steps.specs.Rows.{IsRowOf, held_by};
ghost use Rattle.esto_steps.specs.Named.{NamesCodes};
ghost use Rattle.esto_exec.specs.Hubs.{SayTheSame};
ghost use Rattle.esto_exec.specs.Runnable.{AreRunnable};
ghost use Rattle.esto_exec.specs.Slots.{side_of, equations_from};
ghost use Rattle.esto_exec.specs.SoFar.{IsSoFar};
ghost use Rattle.esto_exec.specs.Turns.{source_in, AreArities};

use crate::hubs::along;
use crate::order::planned_order;
use crate::slots::{Equations, equations_of};
use crate::turns::{Prepared, SoFar, head_in, nothing_done, take_all};
use esto_columns::Rows;
use esto_steps::{Sources, Steps, Whole, projected};
use esto_term::{OutOfMemory, Places};
use std::alloc::Global;

/// The head's codes in the rows so far.
fn head_rows(
    alloc: Global,
    arities: &Places,
    head: &Sources,
    so_far: &SoFar,
) -> Result<Rows, OutOfMemory>
    ensures arity { IfOk result (λ it. it.arity ≡ length head.now) }
    ensures rows { IfOk result (λ it. (row : List ℕ) → Contains it.rows row
        ↔ ((end : List ℕ) × Contains so_far.now.rows.rows end × NamesCodes end
        (map (λ source. source_in so_far.now.places (side_of arities.now source)) head.now) row)) }
{
    let sources = head_in(alloc, &so_far.places, arities, head)?;
    projected(alloc, &sources, &so_far.rows)
}

/// The head's codes in the rows that the gets give together, where some of them may have given the rows so far.
fn rows_of_all<F: Whole>(
    alloc: Global,
    steps: &Prepared,
    fragments: &[F],
    so_far: &mut SoFar,
) -> Result<Rows, OutOfMemory>
    requires runnable { AreRunnable (map F.shape fragments.now) steps.now.gets.now }
    requires arities { AreArities (IsRowOf (held_by (map F.rows fragments.now))) steps.now.gets.now
        steps.now.arities.now }
    requires equations { SayTheSame
        (equations_from steps.now.arities.now 0 steps.now.gets.now) steps.now.equations.now }
    requires under_way { IsSoFar (IsRowOf (held_by (map F.rows fragments.now)))
        steps.now so_far.old }
    ensures arity { IfOk result (λ it. it.arity ≡ length steps.now.head.now) }
    ensures rows { IfOk result (λ it. (row : List ℕ) → Contains it.rows row
        ↔ IsResult (IsRowOf (held_by (map F.rows fragments.now)))
        (record { gets = steps.now.gets.now; head = steps.now.head.now }) row) }
{
    take_all(alloc, steps, fragments, so_far)?;
    head_rows(alloc, steps.arities, steps.head, so_far)
}

/// The head's codes in the rows that the gets give together, by equations that say the same as their filters.
fn result_along<F: Whole>(
    alloc: Global,
    steps: &Prepared,
    fragments: &[F],
) -> Result<Rows, OutOfMemory>
    requires runnable { AreRunnable (map F.shape fragments.now) steps.now.gets.now }
    requires arities { AreArities (IsRowOf (held_by (map F.rows fragments.now))) steps.now.gets.now
        steps.now.arities.now }
    requires equations { SayTheSame
        (equations_from steps.now.arities.now 0 steps.now.gets.now) steps.now.equations.now }
    ensures arity { IfOk result (λ it. it.arity ≡ length steps.now.head.now) }
    ensures rows { IfOk result (λ it. (row : List ℕ) → Contains it.rows row
        ↔ IsResult (IsRowOf (held_by (map F.rows fragments.now)))
        (record { gets = steps.now.gets.now; head = steps.now.head.now }) row) }
{
    let mut so_far = nothing_done(alloc)?;
    rows_of_all(alloc, steps, fragments, &mut so_far)
}

/// The result of the steps, with what joins in any order rest on.
pub(crate) fn prepared_result<F: Whole>(
    alloc: Global,
    steps: &Steps,
    arities: &Places,
    equations: &Equations,
    fragments: &[F],
) -> Result<Rows, OutOfMemory>
    requires runnable { AreRunnable (map F.shape fragments.now) steps.now.gets }
    requires arities { AreArities (IsRowOf (held_by (map F.rows fragments.now))) steps.now.gets
        arities.now }
    requires equations { equations.now ≡ equations_from arities.now 0 steps.now.gets }
    ensures arity { IfOk result (λ it. it.arity ≡ length steps.now.head) }
    ensures rows { IfOk result (λ it. (row : List ℕ) → Contains it.rows row
        ↔ IsResult (IsRowOf (held_by (map F.rows fragments.now))) steps.now row) }
{
    let prepared = Prepared {
        gets: &steps.gets,
        head: &steps.head,
        arities,
        equations,
        first: None,
    };
    let order = planned_order(alloc, &prepared, fragments)?;
    let own = along(alloc, equations, &order)?;
    let turned = Prepared {
        gets: &steps.gets,
        head: &steps.head,
        arities,
        equations: &own,
        first: order.items().first().copied(),
    };
    result_along(alloc, &turned, fragments)
}

/// The result of the steps, where gets give rows of these arities.
pub(crate) fn result_over<F: Whole>(
    alloc: Global,
    steps: &Steps,
    arities: &Places,
    fragments: &[F],
) -> Result<Rows, OutOfMemory>
    requires runnable { AreRunnable (map F.shape fragments.now) steps.now.gets }
    requires arities { AreArities (IsRowOf (held_by (map F.rows fragments.now))) steps.now.gets
        arities.now }
    ensures arity { IfOk result (λ it. it.arity ≡ length steps.now.head) }
    ensures rows { IfOk result (λ it. (row : List ℕ) → Contains it.rows row
        ↔ IsResult (IsRowOf (held_by (map F.rows fragments.now))) steps.now row) }
{
    let equations = equations_of(alloc, arities, &steps.gets)?;
    prepared_result(alloc, steps, arities, &equations, fragments)
}
