//! Plans.
ghost use Rattle.esto_views.specs.Soundness.{IsSoundPlan};

use esto_query::Names;
use esto_term::{List, OutOfMemory, Replicate, Terms};
use std::alloc::Global;

/// An atom over fragments, which names its fragment by number.
#[derive(Drop)]
pub struct PlanAtom {
    pub fragment: usize,
    pub terms: Terms,
}

/// The atoms of a plan, numbered from 0.
pub type PlanAtoms = List<PlanAtom>;

/// A plan: a head of terms over atoms over fragments. The terms are constants or plain, the number of each plain
/// one is below the length of the names, and its name stands at that place of them. The head is not empty.
#[derive(Drop)]
pub struct Plan {
    pub atoms: PlanAtoms,
    pub head: Terms,
    pub names: Names,
    pub ghost sound: { ∥ IsSoundPlan atoms head names ∥₁ },
}

impl Replicate for PlanAtom {
    fn copy(&self, alloc: Global) -> Result<PlanAtom, OutOfMemory> {
        Ok(PlanAtom {
            fragment: self.fragment,
            terms: self.terms.copy(alloc)?,
        })
    }
}

/// A law: each plan keeps what its description says.
pub fn plans_are_sound()
    ensures { (plan : Plan) → IsSoundPlan plan.atoms plan.head plan.names }
{}
