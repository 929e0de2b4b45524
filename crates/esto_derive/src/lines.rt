//! The lines that stand for entries.
ghost use Rattle.std.specs.Prelude.{◌≡◌, ◌++◌, ◌<◌, [], ◌∷◌, ℕ, Contains, length, IfOk, OnOk};
ghost use Rattle.esto_derive.specs.Writing.{lines_at, AddsNew};

use esto_term::{OutOfMemory, Places, Values};
use std::alloc::Global;

/// Puts the numbers at the end.
fn push_all(numbers: &mut Places, more: &[usize]) -> Result<(), OutOfMemory>
    ensures { OnOk result (numbers.new ≡ numbers.old ++ more.now) }
{
    'more: for number in more {
        numbers.push(*number)?;
    }
    Ok(())
}

/// The lines that stand for the entries at the places, in order.
pub fn lines_at(alloc: Global, lines: &[Places], places: &[usize]) -> Result<Places, OutOfMemory>
    requires { (place : ℕ) → Contains places.now place → place < length lines.now }
    ensures { IfOk result (λ it. it ≡ lines_at lines.now places.now) }
{
    let mut all = Values::new(alloc);
    'places: for place in places {
        push_all(&mut all, lines[*place].items())?;
    }
    Ok(all)
}

/// Puts the number at the end, unless it is there.
fn push_new(numbers: &mut Places, number: usize) -> Result<(), OutOfMemory>
    ensures { OnOk result (AddsNew numbers.old (number ∷ []) numbers.new) }
{
    if numbers.items().contains(&number) {
        return Ok(());
    }
    numbers.push(number)
}

/// Puts those of the numbers at the end that are not there.
fn push_all_new(numbers: &mut Places, more: &[usize]) -> Result<(), OutOfMemory>
    ensures { OnOk result (AddsNew numbers.old more.now numbers.new) }
{
    'more: for number in more {
        push_new(numbers, *number)?;
    }
    Ok(())
}

/// The lines that stand for the entries at the places, each once.
pub fn links_at(alloc: Global, lines: &[Places], places: &[usize]) -> Result<Places, OutOfMemory>
    requires { (place : ℕ) → Contains places.now place → place < length lines.now }
    ensures { IfOk result (AddsNew [] (lines_at lines.now places.now)) }
{
    let mut all = Values::new(alloc);
    'places: for place in places {
        push_all_new(&mut all, lines[*place].items())?;
    }
    Ok(all)
}
