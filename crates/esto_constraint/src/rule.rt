//! Rules.
ghost use Rattle.std.specs.Prelude.{◌≡◌, IfOk};
ghost use Rattle.esto_constraint.specs.Soundness.{IsSoundTuple, IsSoundEquality, IsSoundDenial};

use esto_query::Names;
use esto_semantics::Atoms;
use esto_term::{List, OutOfMemory, Replicate, Term};
use std::alloc::Global;

/// A tuple rule: each match of the body is to have an extension to the head. The variables of the head that are
/// not in the body are existential. Body and head are not empty, their terms are constants or plain, and each
/// variable's number is below the length of the names.
#[derive(Drop)]
pub struct Tgd {
    pub body: Atoms,
    pub head: Atoms,
    pub names: Names,
    pub ghost sound: { ∥ IsSoundTuple body head names ∥₁ },
}

/// An equality rule: each match of the body is to give both sides one term. The body is not empty, its terms are
/// constants or plain, each side is a constant or a variable of the body, and each variable's number is below
/// the length of the names.
#[derive(Drop)]
pub struct Egd {
    pub body: Atoms,
    pub left: Term,
    pub right: Term,
    pub names: Names,
    pub ghost sound: { ∥ IsSoundEquality body left right names ∥₁ },
}

/// A denial: the body is to have no match. It is not empty, its terms are constants or plain, and each variable's
/// number is below the length of the names.
#[derive(Drop)]
pub struct Denial {
    pub body: Atoms,
    pub names: Names,
    pub ghost sound: { ∥ IsSoundDenial body names ∥₁ },
}

/// A rule that databases are to meet.
#[derive(Drop)]
pub enum Constraint {
    Tuple(Tgd),
    Equal(Egd),
    Never(Denial),
}

/// The rules of a catalogue, numbered from 0.
pub type Rules = List<Constraint>;

/// Copies of both values.
pub fn copy_both<A: Replicate + Drop, B: Replicate + Drop>(
    alloc: Global,
    one: &A,
    other: &B,
) -> Result<(A, B), OutOfMemory>
    ensures { IfOk result (λ it. (it.0 ≡ one.now) × (it.1 ≡ other.now)) }
{
    let one = one.copy(alloc)?;
    let other = other.copy(alloc)?;
    Ok((one, other))
}

impl Replicate for Tgd {
    fn copy(&self, alloc: Global) -> Result<Tgd, OutOfMemory> {
        let (body, names) = copy_both(alloc, &self.body, &self.names)?;
        let head = self.head.copy(alloc)?;
        Ok(Tgd { body, head, names })
    }
}

impl Replicate for Egd {
    fn copy(&self, alloc: Global) -> Result<Egd, OutOfMemory> {
        let (body, names) = copy_both(alloc, &self.body, &self.names)?;
        let (left, right) = copy_both(alloc, &self.left, &self.right)?;
        Ok(Egd {
            body,
            left,
            right,
            names,
        })
    }
}

impl Replicate for Denial {
    fn copy(&self, alloc: Global) -> Result<Denial, OutOfMemory> {
        let (body, names) = copy_both(alloc, &self.body, &self.names)?;
        Ok(Denial { body, names })
    }
}

impl Replicate for Constraint {
    fn copy(&self, alloc: Global) -> Result<Constraint, OutOfMemory> {
        match self {
            Constraint::Tuple(rule) => Ok(Constraint::Tuple(rule.copy(alloc)?)),
            Constraint::Equal(rule) => Ok(Constraint::Equal(rule.copy(alloc)?)),
            Constraint::Never(rule) => Ok(Constraint::Never(rule.copy(alloc)?)),
        }
    }
}
