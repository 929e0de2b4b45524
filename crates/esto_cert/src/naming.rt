//! What the lines of given numbers claim.
ghost use Rattle.std.specs.Prelude.{◌≡◌, ◌≤◌, length, option_map, IfOk};
ghost use Rattle.esto_cert.specs.Certificates.{numbered, fact_of, equality_of, facts_at, equalities_at};

use crate::linking::{Equalities, Equality, equality_of};
use esto_chase_laws::Claim;
use esto_semantics::{Atom, Atoms};
use esto_term::{List, OutOfMemory, Replicate};
use std::alloc::Global;

/// How many items there are; 64 bits hold that.
pub fn count<T>(items: &[T]) -> usize
    ensures count { result ≡ length items.now }
    ensures bound { length items.now ≤ 18446744073709551615 }
{
    items.len()
}

/// The item of a number, counted from 1.
pub fn numbered<T>(items: &[T], number: u64) -> Option<&T>
    ensures { option_map (λ item. item.now) result ≡ numbered items.now number }
{
    if number == 0 {
        return None;
    }
    items.get((number - 1) as usize)
}

/// The fact that the claim of the number states.
fn fact_at(claims: &[Claim], number: u64) -> Option<&Atom>
    ensures { option_map (λ fact. fact.now) result ≡ fact_of (numbered claims.now number) }
{
    match numbered(claims, number) {
        Some(Claim::Fact(fact)) => Some(fact),
        Some(Claim::Same(_, _)) => None,
        None => None,
    }
}

/// The facts that the claims of these numbers state, where each states one.
pub fn facts_at(
    alloc: Global,
    claims: &[Claim],
    numbers: &[u64],
) -> Result<Option<Atoms>, OutOfMemory>
    ensures { IfOk result (λ it. it ≡ facts_at claims.now numbers.now) }
{
    let mut facts = List::new(alloc);
    'numbers: for number in numbers {
        let Some(fact) = fact_at(claims, *number) else {
            return Ok(None);
        };
        let own = fact.copy(alloc)?;
        facts.push(own)?;
    }
    Ok(Some(facts))
}

/// The equality that the claim of the number states.
fn equality_at(
    alloc: Global,
    claims: &[Claim],
    number: u64,
) -> Result<Option<Equality>, OutOfMemory>
    ensures { IfOk result (λ it. it ≡ equality_of (numbered claims.now number)) }
{
    match numbered(claims, number) {
        Some(Claim::Fact(_)) => Ok(None),
        Some(Claim::Same(left, right)) => Ok(Some(equality_of(alloc, left, right)?)),
        None => Ok(None),
    }
}

/// The equalities that the claims of these numbers state, where each states one.
pub fn equalities_at(
    alloc: Global,
    claims: &[Claim],
    numbers: &[u64],
) -> Result<Option<Equalities>, OutOfMemory>
    ensures { IfOk result (λ it. it ≡ equalities_at claims.now numbers.now) }
{
    let mut equalities = List::new(alloc);
    'numbers: for number in numbers {
        let Some(equality) = equality_at(alloc, claims, *number)? else {
            return Ok(None);
        };
        equalities.push(equality)?;
    }
    Ok(Some(equalities))
}
