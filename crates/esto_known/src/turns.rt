//! The order in which entries are added: small products first, so that few are added of which a smaller one comes
//! later.
ghost use Rattle.std.specs.Prelude.{length, IfOk};
ghost use Rattle.esto_known.specs.Turns.{AreTurnsOf};

use esto_chase_laws::Entry;
use esto_term::{OutOfMemory, push};
use std::alloc::Global;

/// An entry's place, with the size of its product.
#[derive(Drop)]
pub struct Turn {
    pub size: usize,
    pub place: usize,
}

/// A turn for each entry.
fn listed(alloc: Global, entries: &[Entry]) -> Result<Vec<Turn>, OutOfMemory>
    ensures { IfOk result (λ it. AreTurnsOf (length entries.now) it.items) }
{
    let mut turns = Vec::new(alloc);
    'entries: for (place, entry) in entries.iter().enumerate() {
        let size = entry.product.size();
        push(&mut turns, Turn { size, place })?;
    }
    Ok(turns)
}

/// A turn for each entry, those with small products first.
pub fn turns_of(alloc: Global, entries: &[Entry]) -> Result<Vec<Turn>, OutOfMemory>
    ensures { IfOk result (λ it. AreTurnsOf (length entries.now) it.items) }
{
    let mut turns = listed(alloc, entries)?;
    turns.sort_by(|turn, other| turn.size.cmp(&other.size))?;
    Ok(turns)
}
