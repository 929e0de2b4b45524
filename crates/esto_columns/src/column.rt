//! Columns of codes.
ghost use Rattle.std.specs.Prelude.{◌≡◌, ℕ, List, [], ◌∷◌, ◌++◌, ◌<◌, length, map, take, slice_get, slice_index_or, Some, IfOk, OnOk, OnErr};

use esto_term::{OutOfMemory, Replicate, Values};
use std::alloc::Global;
use std::marker::Model;

/// A column: a code for each row, which contracts see as the list of its codes. Codes take four bytes each up to the
/// first that is too large for them, and eight from it on.
#[derive(Drop)]
pub struct Column {
    narrow: Values<u32>,
    wide: Values<u64>,
}

impl Model for Column {
    ghost use Rattle.std.specs.Prelude.{ℕ, List, ◌++◌, ◌+◌, ◌≤◌, length};

    ghost Value = { List ℕ };

    ghost view = { λ it. it.narrow ++ it.wide };

    ghost invariant = { λ it. length it.narrow + length it.wide ≤ 18446744073709551615 };
}

/// The code of four bytes at the place, or 0 past the last.
fn narrow_code(codes: &[u32], place: usize) -> u32
    ensures { result ≡ slice_index_or codes.now place 0 }
{
    match codes.get(place) {
        Some(code) => *code,
        None => 0,
    }
}

/// The codes of four bytes each at the places, in their order, with 0 for a place past the last.
fn narrow_at(alloc: Global, codes: &[u32], places: &[usize]) -> Result<Values<u32>, OutOfMemory>
    ensures { IfOk result (λ it. it ≡ map (λ place. slice_index_or codes.now place 0) places.now) }
{
    let mut narrow = Values::with_room(alloc, places.len())?;
    'places: for place in places {
        narrow.push(narrow_code(codes, *place))?;
    }
    Ok(narrow)
}

/// The code at the place, or 0 past the last.
fn code_at(column: &Column, place: usize) -> u64
    ensures { result ≡ slice_index_or column.now place 0 }
{
    if place >= column.len() {
        return 0;
    }
    column.item(place)
}

/// Puts the codes of the column at the places at the end of the other, in their order, with 0 for a place past the last.
fn push_at(column: &Column, places: &[usize], into: &mut Column) -> Result<(), OutOfMemory>
    ensures { OnOk result (into.new
        ≡ into.old ++ map (λ place. slice_index_or column.now place 0) places.now) }
{
    'places: for place in places {
        into.push(code_at(column, *place))?;
    }
    Ok(())
}

impl Column {
    /// No codes, which take no memory.
    pub fn new(alloc: Global) -> Column
        ensures { result ≡ [] }
    {
        Column {
            narrow: Values::new(alloc),
            wide: Values::new(alloc),
        }
    }

    /// No codes, with memory for so many of four bytes each.
    pub fn with_room(alloc: Global, room: usize) -> Result<Column, OutOfMemory>
        ensures { IfOk result (λ it. it ≡ []) }
    {
        let narrow = Values::with_room(alloc, room)?;
        Ok(Column {
            narrow,
            wide: Values::new(alloc),
        })
    }

    /// How many codes the column has.
    pub fn len(&self) -> usize
        ensures { result ≡ length self.now }
    {
        self.narrow.len() + self.wide.len()
    }

    /// The code at a place, counted from 0.
    pub fn item(&self, at: usize) -> u64
        requires { at < length self.now }
        ensures { slice_get self.now at ≡ Some result }
    {
        let narrow = self.narrow.len();
        if at < narrow {
            return self.narrow.item(at) as u64;
        }
        self.wide.item(at - narrow)
    }

    /// The codes of four bytes each, after which all others come.
    pub(crate) fn narrow(&self) -> &[u32]
        ensures { (rest : List ℕ) × (self.now ≡ result.now ++ rest) }
    {
        self.narrow.items()
    }

    /// The codes at the places, in their order, with 0 for a place past the last.
    pub fn at_places(&self, alloc: Global, places: &[usize]) -> Result<Column, OutOfMemory>
        ensures { IfOk result (λ it. it
            ≡ map (λ place. slice_index_or self.now place 0) places.now) }
    {
        if self.wide.is_empty() {
            let narrow = narrow_at(alloc, self.narrow.items(), places)?;
            return Ok(Column {
                narrow,
                wide: Values::new(alloc),
            });
        }
        let mut column = Column::with_room(alloc, places.len())?;
        push_at(self, places, &mut column)?;
        Ok(column)
    }

    /// Puts a code at the end.
    pub fn push(&mut self, code: u64) -> Result<(), OutOfMemory>
        ensures ok { OnOk result (self.new ≡ self.old ++ code ∷ []) }
        ensures err { OnErr result (self.new ≡ self.old) }
    {
        if self.len() == usize::MAX {
            return Err(OutOfMemory);
        }
        if self.wide.is_empty() && code <= u32::MAX as u64 {
            return self.narrow.push(code as u32);
        }
        self.wide.push(code)
    }

    /// Keeps the first `count` codes, or all where there are fewer.
    pub fn truncate(&mut self, count: usize)
        ensures { self.new ≡ take count self.old }
    {
        let narrow = self.narrow.len();
        self.narrow.truncate(count);
        self.wide.truncate(count.saturating_sub(narrow));
    }
}

impl Replicate for Column {
    fn copy(&self, alloc: Global) -> Result<Column, OutOfMemory> {
        let narrow = self.narrow.copy(alloc)?;
        let wide = self.wide.copy(alloc)?;
        Ok(Column { narrow, wide })
    }
}
