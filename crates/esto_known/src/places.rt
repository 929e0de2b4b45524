//! Lists of places.
ghost use Rattle.std.specs.Prelude.{◌≡◌, ◌++◌, OnOk};

use esto_term::{OutOfMemory, Places};

/// Puts the places at the end of the others.
pub(crate) fn put_all(more: &[usize], places: &mut Places) -> Result<(), OutOfMemory>
    ensures { OnOk result (places.new ≡ places.old ++ more.now) }
{
    'more: for place in more {
        places.push(*place)?;
    }
    Ok(())
}
