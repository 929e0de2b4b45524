//! The terms that tell what a search asks for.
ghost use Rattle.std.specs.Prelude.{IfOk, OnOk};
ghost use Rattle.esto_known.specs.Told.{Tell, IsPut};

use esto_term::{List, OutOfMemory, Replicate, Term, Terms, has_term};
use std::alloc::Global;

/// Puts the term in, unless it is none of `from`, or is in.
fn put(alloc: Global, from: &[Term], term: &Term, these: &mut Terms) -> Result<(), OutOfMemory>
    ensures { OnOk result (IsPut from.now term.now these.old these.new) }
{
    if !has_term(from, term) {
        return Ok(());
    }
    if has_term(these.items(), term) {
        return Ok(());
    }
    let own = term.copy(alloc)?;
    these.push(own)
}

/// Those of the terms that stand in `from`, each once.
pub fn telling(alloc: Global, from: &[Term], terms: &[Term]) -> Result<Terms, OutOfMemory>
    ensures { IfOk result (Tell from.now terms.now) }
{
    let mut these = List::new(alloc);
    'terms: for term in terms {
        put(alloc, from, term, &mut these)?;
    }
    Ok(these)
}
