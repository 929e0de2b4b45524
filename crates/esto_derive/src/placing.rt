//! The place of a rule's head at which the rule makes a claim.
ghost use Rattle.std.specs.Prelude.{◌≡◌, ◌↔◌, ◌+◌, ◌<◌, ℕ, Some, IsTrue, IfOk};
ghost use Rattle.esto_constraint.specs.Constraints.{rule_of};
ghost use Rattle.esto_semantics.specs.Facts.{terms_of};
ghost use Rattle.esto_semantics.specs.Rules.{body_of};
ghost use Rattle.esto_chase_laws.specs.WorldMatches.{taken};
ghost use Rattle.esto_chase_laws.specs.WorldSteps.{IsAsked};
ghost use Rattle.esto_cert.specs.Certificates.{made_at};
ghost use Rattle.esto_derive.specs.Placing.{Makes};

use esto_cert::made_at;
use esto_constraint::Constraint;
use esto_prov::Claim;
use esto_term::{OutOfMemory, Term};
use std::alloc::Global;

/// Whether the rule makes the claim at the place.
fn makes(
    alloc: Global,
    place: u64,
    number: usize,
    rule: &Constraint,
    from: &[Term],
    to: &[Term],
    claim: &Claim,
) -> Result<bool, OutOfMemory>
    requires { from.now ≡ terms_of (body_of (rule_of rule.now)) }
    ensures { IfOk result (λ answer. IsTrue answer
        ↔ Makes place number (rule_of rule.now) (taken from.now to.now) claim.now) }
{
    match made_at(alloc, place, number, rule, from, to)? {
        Some(made) => Ok(made.is_same(claim)),
        None => Ok(false),
    }
}

/// The place of a rule's head, counted from 1, at which the rule makes the claim.
fn place_in_head(
    alloc: Global,
    width: usize,
    number: usize,
    rule: &Constraint,
    from: &[Term],
    to: &[Term],
    claim: &Claim,
) -> Result<usize, OutOfMemory>
    requires from { from.now ≡ terms_of (body_of (rule_of rule.now)) }
    requires made { (at : ℕ) × (at < width)
        × Makes (at + 1) number (rule_of rule.now) (taken from.now to.now) claim.now }
    ensures { IfOk result (λ place.
        Makes place number (rule_of rule.now) (taken from.now to.now) claim.now) }
{
    'places: for at in 0..width {
        if makes(alloc, at as u64 + 1, number, rule, from, to, claim)? {
            return Ok(at + 1);
        }
    }
    unreachable!()
}

/// The place of the rule's head, counted from 1, at which it makes the claim, or 0 for the equality of its sides.
pub fn place_of(
    alloc: Global,
    number: usize,
    rule: &Constraint,
    from: &[Term],
    to: &[Term],
    claim: &Claim,
) -> Result<usize, OutOfMemory>
    requires from { from.now ≡ terms_of (body_of (rule_of rule.now)) }
    requires asked { IsAsked number (rule_of rule.now) (taken from.now to.now) claim.now }
    ensures { IfOk result (λ place.
        made_at place number (rule_of rule.now) (taken from.now to.now) ≡ Some claim.now) }
{
    match rule {
        Constraint::Tuple(tuple) => {
            place_in_head(alloc, tuple.head.len(), number, rule, from, to, claim)
        }
        Constraint::Equal(_) => Ok(0),
        Constraint::Never(_) => unreachable!(),
    }
}
