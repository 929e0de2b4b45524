//! A plan's atoms as facts.
ghost use Rattle.std.specs.Prelude.{◌≡◌, map, IfOk};
ghost use Rattle.esto_views.specs.Plans.{fact_of};

use crate::plan::PlanAtoms;
use esto_query::{Atom, Facts};
use esto_term::{List, OutOfMemory, Replicate};
use std::alloc::Global;

/// The atoms of a plan, in order, as facts over fragments: the relation of each is the number of its fragment.
pub fn plan_facts(alloc: Global, atoms: &PlanAtoms) -> Result<Facts, OutOfMemory>
    ensures { IfOk result (λ facts. facts ≡ map fact_of atoms.now) }
{
    let mut facts = List::new(alloc);
    'atoms: for atom in atoms.items() {
        let terms = atom.terms.copy(alloc)?;
        facts.push(Atom {
            relation: atom.fragment,
            terms,
        })?;
    }
    Ok(facts)
}
