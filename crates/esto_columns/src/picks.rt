//! Places of rows that are picked.
ghost use Rattle.std.specs.Prelude.{◌≡◌, ◌+◌, ◌≤◌, ◌<◌, [], ◌++◌, length, slice_get, Some, OnOk, OnErr, false, slice_range, vec_len, vec_capacity};
ghost use Rattle.esto_columns.specs.Picked.{PickList, places_of};

use crate::column::Column;
use esto_term::OutOfMemory;
use std::alloc::Global;
use std::marker::Model;
use std::simd::prelude::*;

/// Places of rows. Contracts see their list and the room that is left, in which places are put without taking memory.
#[derive(Drop)]
pub struct Picks {
    places: Vec<usize>,
}

impl Model for Picks {
    ghost use Rattle.std.specs.Prelude.{◌-◌, vec_len, vec_capacity};
    ghost use Rattle.esto_columns.specs.Picked.{PickList};

    ghost Value = { PickList };

    ghost view = { λ it. record {
      items = it.places.items;
      spare =
          vec_capacity it.places - vec_len it.places;
    } };
}

/// How many codes are compared at a time.
const LANES: usize = 8;

/// Whether the code stands among the lanes from a place on.
fn is_among(codes: &[u32], at: usize, code: u64) -> bool
    requires { at + 8 ≤ length codes.now }
    ensures { result ≡ false → places_of at code (slice_range codes.now at (at + 8)) ≡ [] }
{
    if code > u32::MAX as u64 {
        return false;
    }
    let lanes = u32x8::from_slice(&codes[at..]);
    lanes.simd_eq(u32x8::splat(code as u32)).to_bitmask() != 0
}

/// Whether the code may stand in the block from a place to another. It is looked for where all codes there take four
/// bytes; elsewhere it may.
fn may_stand(column: &Column, at: usize, end: usize, code: u64) -> bool
    requires { end ≡ at + 8 }
    ensures { result ≡ false → places_of at code (slice_range column.now at end) ≡ [] }
{
    let codes = column.narrow();
    if codes.len() < end {
        return true;
    }
    is_among(codes, at, code)
}

/// Puts the places of the code in a part of the column at the end, where there is room.
fn push_places(column: &Column, from: usize, to: usize, code: u64, places: &mut Vec<usize>)
    requires order { from ≤ to }
    requires inside { to ≤ length column.now }
    requires room { vec_len places.old + to ≤ vec_capacity places.old + from }
    ensures items { places.new.items
        ≡ places.old.items ++ places_of from code (slice_range column.now from to) }
    ensures len { vec_len places.new + from ≤ vec_len places.old + to }
    ensures capacity { vec_capacity places.new ≡ vec_capacity places.old }
{
    'places: for at in from..to {
        if column.item(at) == code {
            places.push_reserved(at);
        }
    }
}

/// Puts the places of the code in the block from a place to another at the end, where there is room.
fn push_block(column: &Column, at: usize, end: usize, code: u64, places: &mut Vec<usize>)
    requires block { end ≡ at + 8 }
    requires inside { end ≤ length column.now }
    requires room { vec_len places.old + 8 ≤ vec_capacity places.old }
    ensures items { places.new.items
        ≡ places.old.items ++ places_of at code (slice_range column.now at end) }
    ensures len { vec_len places.new ≤ vec_len places.old + 8 }
    ensures capacity { vec_capacity places.new ≡ vec_capacity places.old }
{
    if !may_stand(column, at, end, code) {
        return;
    }
    push_places(column, at, end, code, places)
}

/// Puts the places at which the column holds the code at the end, in rising order. It takes no memory.
pub fn select(column: &Column, code: u64, into: &mut Picks)
    requires { length column.now ≤ into.old.spare }
    ensures items { into.new.items ≡ into.old.items ++ places_of 0 code column.now }
    ensures spare { length into.new.items + into.new.spare
        ≡ length into.old.items + into.old.spare }
{
    let count = column.len();
    let mut at = 0;
    'blocks: while count - at >= LANES {
        let end = at + LANES;
        push_block(column, at, end, code, &mut into.places);
        at = end;
    }
    push_places(column, at, count, code, &mut into.places);
}

impl Picks {
    /// No places, which take no memory.
    pub fn new(alloc: Global) -> Picks
        ensures { result.items ≡ [] }
    {
        Picks {
            places: Vec::new(alloc),
        }
    }

    /// Makes the room that is left at least so many places.
    pub fn reserve(&mut self, room: usize) -> Result<(), OutOfMemory>
        ensures ok { OnOk result (room ≤ self.new.spare) }
        ensures items { self.new.items ≡ self.old.items }
        ensures err { OnErr result (self.new ≡ self.old) }
    {
        match self.places.reserve(room) {
            Ok(()) => Ok(()),
            Err(_) => Err(OutOfMemory),
        }
    }

    /// How many places there are.
    pub fn len(&self) -> usize
        ensures { result ≡ length self.now.items }
    {
        self.places.len()
    }

    /// The place at a position.
    pub fn item(&self, at: usize) -> usize
        requires { at < length self.now.items }
        ensures { slice_get self.now.items at ≡ Some result }
    {
        self.places[at]
    }
    /// All places, in order.
    pub fn items(&self) -> &[usize]
        ensures { result.now ≡ self.now.items }
    {
        self.places.as_slice()
    }
}
