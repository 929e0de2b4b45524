//! What is loaded of datasets' files.
ghost use Rattle.std.specs.Prelude.{◌≡◌, []};
ghost use Rattle.esto_semantics.specs.Maps.{AreFlat};

use esto_semantics::Facts;
use esto_term::List;
use std::alloc::Global;

/// The facts of datasets' files, over constants and plain terms: a constant is a text, a plain term the node of that
/// number, and no node has the number `next` or a greater one.
#[derive(Drop)]
pub struct Loaded {
    pub facts: Facts,
    pub next: u64,
    pub ghost sound: { ∥ AreFlat facts ∥₁ },
}

/// No facts and no nodes, before any file is loaded.
pub fn nothing_loaded(alloc: Global) -> Loaded
    ensures facts { result.facts ≡ [] }
    ensures next { result.next ≡ 0 }
{
    Loaded {
        facts: List::new(alloc),
        next: 0,
    }
}
