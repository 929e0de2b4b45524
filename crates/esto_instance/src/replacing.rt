//! One term in place of another.
ghost use Rattle.std.specs.Prelude.{◌≡◌, map, IfOk};
ghost use Rattle.esto_term.specs.Order.{replaced};
ghost use Rattle.esto_semantics.specs.Facts.{image};

use esto_semantics::{Atom, Facts};
use esto_term::{List, OutOfMemory, Term, Terms};
use std::alloc::Global;

/// The terms, with `to` in place of `from`.
pub fn replace_in_terms(
    alloc: Global,
    terms: &[Term],
    from: &Term,
    to: &Term,
) -> Result<Terms, OutOfMemory>
    ensures { IfOk result (λ it. it ≡ map (replaced from.now to.now) terms.now) }
{
    let mut images = List::new(alloc);
    'terms: for term in terms {
        let image = term.substitute(alloc, from, to)?;
        images.push(image)?;
    }
    Ok(images)
}

/// The facts, with `to` in place of `from`.
pub fn replace_in_facts(
    alloc: Global,
    facts: &[Atom],
    from: &Term,
    to: &Term,
) -> Result<Facts, OutOfMemory>
    ensures { IfOk result (λ it. it ≡ map (image (replaced from.now to.now)) facts.now) }
{
    let mut images = List::new(alloc);
    'facts: for fact in facts {
        let terms = replace_in_terms(alloc, fact.terms.items(), from, to)?;
        images.push(Atom {
            relation: fact.relation,
            terms,
        })?;
    }
    Ok(images)
}
