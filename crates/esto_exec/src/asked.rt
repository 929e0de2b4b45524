//! What a get gives, asked by the rows of the gets that its inputs lead back to.
ghost use Rattle.std.specs.Prelude.{◌≢◌, ◌<◌, List, ℕ, length, map, take, Contains, IfOk, OnOk, IsTrue};
ghost use Rattle.esto_columns.specs.Asked.{IsAllowed};
ghost use Rattle.esto_steps.specs.declared.steps.Link.{Link};
ghost use Rattle.esto_steps.specs.Meaning.{IsMet};
ghost use Rattle.esto_steps.specs.Rows.{IsRowOf, held_by};
ghost use Rattle.esto_exec.specs.declared.slots.Side.TheVariants.{Nothing};
ghost use Rattle.esto_exec.specs.Runnable.{AreRunnable};
ghost use Rattle.esto_exec.specs.Slots.{side_of, IsKnown};
ghost use Rattle.esto_exec.specs.SoFar.{IsSoFar};
ghost use Rattle.esto_exec.specs.Turns.{link_in, AreArities};

use crate::order::{graph_of, next_towards};
use crate::slots::{Side, Slots, first_of, is_in, side_of};
use crate::turns::{Prepared, SoFar, each_known, links_in, nothing_done, take_if_ready};
use esto_columns::Rows;
use esto_order::led_back;
use esto_steps::{Get, Link, Links, Whole, asked_rows};
use esto_term::{List, OutOfMemory, Places, Values};
use std::alloc::Global;

/// Joins the get that comes next on the way to the inputs of the get of the number, if these are not known.
fn take_towards<F: Whole>(
    alloc: Global,
    steps: &Prepared,
    fragments: &[F],
    named: &Places,
    number: usize,
    so_far: &mut SoFar,
) -> Result<(), OutOfMemory>
    requires runnable { AreRunnable (map F.shape fragments.now) steps.now.gets.now }
    requires arities { AreArities (IsRowOf (held_by (map F.rows fragments.now))) steps.now.gets.now
        steps.now.arities.now }
    requires there { number < length steps.now.gets.now }
    requires under_way { IsSoFar (IsRowOf (held_by (map F.rows fragments.now)))
        steps.now so_far.old }
    ensures { OnOk result (IsSoFar (IsRowOf (held_by (map F.rows fragments.now)))
        steps.now so_far.new) }
{
    if can_ask(steps, number, &steps.gets.item(number).inputs, so_far) {
        return Ok(());
    }
    match next_towards(alloc, steps, fragments, named, so_far)? {
        Some(next) => take_if_ready(alloc, steps, fragments, next, so_far),
        None => Ok(()),
    }
}

/// Joins gets on the way to the inputs of the get of the number, until these are known or there is no way.
fn take_up_to<F: Whole>(
    alloc: Global,
    steps: &Prepared,
    fragments: &[F],
    named: &Places,
    number: usize,
    so_far: &mut SoFar,
) -> Result<(), OutOfMemory>
    requires runnable { AreRunnable (map F.shape fragments.now) steps.now.gets.now }
    requires arities { AreArities (IsRowOf (held_by (map F.rows fragments.now))) steps.now.gets.now
        steps.now.arities.now }
    requires there { number < length steps.now.gets.now }
    requires under_way { IsSoFar (IsRowOf (held_by (map F.rows fragments.now)))
        steps.now so_far.old }
    ensures { OnOk result (IsSoFar (IsRowOf (held_by (map F.rows fragments.now)))
        steps.now so_far.new) }
{
    'turns: for _turn in 0..steps.gets.len() {
        let before = so_far.done.len();
        take_towards(alloc, steps, fragments, named, number, so_far)?;
        if so_far.done.len() == before {
            return Ok(());
        }
    }
    Ok(())
}

/// What gets give together that lead by links to all those named.
fn rows_towards<F: Whole>(
    alloc: Global,
    steps: &Prepared,
    fragments: &[F],
    named: &Places,
    number: usize,
) -> Result<SoFar, OutOfMemory>
    requires runnable { AreRunnable (map F.shape fragments.now) steps.now.gets.now }
    requires arities { AreArities (IsRowOf (held_by (map F.rows fragments.now))) steps.now.gets.now
        steps.now.arities.now }
    requires there { number < length steps.now.gets.now }
    ensures { IfOk result (IsSoFar (IsRowOf (held_by (map F.rows fragments.now))) steps.now) }
{
    let mut so_far = nothing_done(alloc)?;
    take_up_to(alloc, steps, fragments, named, number, &mut so_far)?;
    Ok(so_far)
}

/// What the gets give together that the inputs of the get of the number lead back to, with others on the way, as far as
/// links lead to all of these from one. So no product is made only to ask.
pub(crate) fn rows_before<F: Whole>(
    alloc: Global,
    steps: &Prepared,
    fragments: &[F],
    number: usize,
) -> Result<SoFar, OutOfMemory>
    requires runnable { AreRunnable (map F.shape fragments.now) steps.now.gets.now }
    requires arities { AreArities (IsRowOf (held_by (map F.rows fragments.now))) steps.now.gets.now
        steps.now.arities.now }
    requires there { number < length steps.now.gets.now }
    ensures { IfOk result (IsSoFar (IsRowOf (held_by (map F.rows fragments.now))) steps.now) }
{
    let graph = graph_of(alloc, steps)?;
    let named = led_back(alloc, &graph, number)?;
    rows_towards(alloc, steps, fragments, &named, number)
}

/// Whether the link names something.
fn names(arities: &[usize], link: &Link) -> bool
    ensures { IsTrue result → side_of arities.now link.now.source ≢ Nothing }
{
    match side_of(arities, &link.source) {
        Side::Constant(_) => true,
        Side::Held(_) => true,
        Side::Nothing => false,
    }
}

/// Whether each of the links names something.
pub(crate) fn each_names(arities: &[usize], links: &Links) -> bool
    ensures { IsTrue result → (link : Link) → Contains links.now link
        → side_of arities.now link.source ≢ Nothing }
{
    'links: for link in links.items() {
        if !names(arities, link) {
            return false;
        }
    }
    true
}

/// Whether the get of the number is not done, and the rows so far have what its inputs name.
pub(crate) fn can_ask(steps: &Prepared, number: usize, links: &Links, so_far: &SoFar) -> bool
    ensures fresh { IsTrue result → ¬ (Contains so_far.now.done number) }
    ensures known { IsTrue result → (link : Link) → Contains links.now link
        → IsKnown so_far.now.done (side_of (take number steps.now.arities.now) link.source) }
{
    if is_in(&so_far.done, number) {
        return false;
    }
    each_known(&so_far.done, first_of(steps.arities, number), links)
}

/// The rows of the fragment whose cells the links tell from some row so far, where the cells of these are those of the
/// slots.
pub(crate) fn asked_by<F: Whole>(
    alloc: Global,
    places: &Slots,
    arities: &[usize],
    links: &Links,
    fragment: &F,
    so_far: &Rows,
) -> Result<Rows, OutOfMemory>
    requires { IsAllowed (F.shape fragment.now) (map (λ link. link.column) links.now) }
    ensures sound { IfOk result (λ it. (row : List ℕ)
        → Contains it.rows row → Contains (F.rows fragment.now) row) }
    ensures complete { IfOk result (λ it. (cells row : List ℕ)
        → Contains so_far.now.rows cells → Contains (F.rows fragment.now) row
        → ((link : Link) → Contains links.now link
        → IsMet cells row (link_in places.now arities.now link)) → Contains it.rows row) }
{
    let inputs = links_in(alloc, places, arities, links)?;
    let get = Get {
        fragment: 0,
        inputs,
        filters: List::new(alloc),
    };
    asked_rows(alloc, &get, fragment, so_far)
}
