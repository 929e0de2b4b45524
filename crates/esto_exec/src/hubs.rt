//! Hubs of equations: where several slots hold one code, all the others' equations name the one whose get comes first
//! in an order of joins. The equations say the same whichever it is.
ghost use Rattle.std.specs.Prelude.{◌≡◌, map, IfOk, OnOk};
ghost use Rattle.esto_exec.specs.Hubs.{turned, SayTheSame};

use crate::slots::{Equation, Equations, Side, Slot};
use esto_term::{List, OutOfMemory, Places, Replicate};
use std::alloc::Global;

impl Replicate for Equation {
    /// The same equation.
    fn copy(&self, _alloc: Global) -> Result<Equation, OutOfMemory> {
        Ok(*self)
    }
}

/// The equation where the slot takes the place of the hub.
fn turned_equation(hub: &Slot, slot: &Slot, equation: &Equation) -> Equation
    ensures { result ≡ turned hub.now slot.now equation.now }
{
    let Side::Held(other) = &equation.side else {
        return *equation;
    };
    if !(other.get == hub.get && other.column == hub.column) {
        return *equation;
    }
    let side = Side::Held(*slot);
    if equation.slot.get == slot.get && equation.slot.column == slot.column {
        return Equation { slot: *hub, side };
    }
    Equation {
        slot: equation.slot,
        side,
    }
}

/// The equations where the slot takes the place of the hub.
fn turned(
    alloc: Global,
    hub: &Slot,
    slot: &Slot,
    equations: &Equations,
) -> Result<Equations, OutOfMemory>
    ensures { IfOk result (λ it. it ≡ map (turned hub.now slot.now) equations.now) }
{
    let mut own = List::new(alloc);
    'equations: for equation in equations.items() {
        own.push(turned_equation(hub, slot, equation))?;
    }
    Ok(own)
}

/// Whether the one number comes in the order, before the other if that one does too.
fn comes_before(order: &Places, one: usize, other: usize) -> bool {
    'order: for number in order.items() {
        if *number == other {
            return false;
        }
        if *number == one {
            return true;
        }
    }
    false
}

/// Makes the slot of the equation at the index the hub in place of its side, where the get of the slot comes before
/// that of the side in the order.
fn turn_at(
    alloc: Global,
    order: &Places,
    index: usize,
    equations: &mut Equations,
) -> Result<(), OutOfMemory>
    ensures { OnOk result (SayTheSame equations.old equations.new) }
{
    if index >= equations.len() {
        return Ok(());
    }
    let equation = *equations.item(index);
    let Side::Held(hub) = equation.side else {
        return Ok(());
    };
    if !comes_before(order, equation.slot.get, hub.get) {
        return Ok(());
    }
    *equations = turned(alloc, &hub, &equation.slot, equations)?;
    Ok(())
}

/// The equations, with hubs that come first in the order: each equation whose slot comes before the hub that it names,
/// as those before it have left it, makes its slot the hub.
pub(crate) fn along(
    alloc: Global,
    equations: &Equations,
    order: &Places,
) -> Result<Equations, OutOfMemory>
    ensures { IfOk result (SayTheSame equations.now) }
{
    let mut own = equations.copy(alloc)?;
    'equations: for index in 0..equations.len() {
        turn_at(alloc, order, index, &mut own)?;
    }
    Ok(own)
}
