//! Entries that are added only where they are not covered.
ghost use Rattle.std.specs.Prelude.{◌≡◌, ◌↔◌, List, Contains, length, IsTrue, OnOk};
ghost use Rattle.esto_semantics.specs.Rules.{Rule};
ghost use Rattle.esto_chase_laws.specs.WorldSteps.{IsCovered};
ghost use Rattle.esto_chase_laws.specs.Worlds.{InWorld, AreOfCount};
ghost use Rattle.esto_chase_laws.specs.declared.entry.Entry.{Entry};
ghost use Rattle.esto_known.specs.Added.{IsAdded, IsAddedAt, IsTrivial, IsFollowing, IsGrownBy, IsGrownIn};

use crate::known::Known;
use crate::turns::{Turn, turns_of};
use esto_bits::RowBits;
use esto_chase_laws::{Claim, Entry};
use esto_term::{OutOfMemory, Replicate};
use std::alloc::Global;

/// Whether the claim is an equality of a term with itself.
fn is_trivial(claim: &Claim) -> bool
    ensures { IsTrue result ↔ IsTrivial claim.now }
{
    match claim {
        Claim::Fact(_) => false,
        Claim::Same(left, right) => left.equal(right),
    }
}

/// Whether the claim holds by itself, or some entry covers it.
pub fn is_covered(entries: &Known, claim: &Claim, product: &RowBits) -> bool
    requires { AreOfCount (length product.now) entries.now }
    ensures { IsTrue result ↔ IsCovered (InWorld entries.now product.now) claim.now }
{
    if is_trivial(claim) {
        return true;
    }
    entries.covers(claim, product)
}

/// Adds an entry, unless the entries cover it.
pub fn add(alloc: Global, entries: &mut Known, entry: &Entry) -> Result<(), OutOfMemory>
    requires { AreOfCount (length entry.now.product) entries.old }
    ensures { OnOk result
        (IsAdded entries.old entry.now.claim entry.now.product entry.now.reason entries.new) }
{
    if is_covered(entries, &entry.claim, &entry.product) {
        return Ok(());
    }
    let own = entry.copy(alloc)?;
    entries.push(alloc, own)
}

/// Adds the entry of which it is the turn, unless the entries cover it.
fn add_at(
    alloc: Global,
    entries: &mut Known,
    asked: &[Entry],
    turn: &Turn,
    count: usize,
) -> Result<(), OutOfMemory>
    requires counts { AreOfCount count entries.old }
    requires asked { (entry : Entry) → Contains asked.now entry → length entry.product ≡ count }
    ensures { OnOk result (IsAddedAt entries.old asked.now turn.now.place entries.new) }
{
    let Some(entry) = asked.get(turn.place) else {
        return Ok(());
    };
    add(alloc, entries, entry)
}

/// Adds what is asked for and follows, in these turns, where the entries do not cover it.
fn add_in(
    alloc: Global,
    entries: &mut Known,
    asked: &[Entry],
    turns: &[Turn],
    count: usize,
) -> Result<(), OutOfMemory>
    requires counts { AreOfCount count entries.old }
    requires asked { (entry : Entry) → Contains asked.now entry → length entry.product ≡ count }
    ensures counted { OnOk result (AreOfCount count entries.new) }
    ensures grown { OnOk result ((rules : List Rule)
        → ((entry : Entry) → Contains asked.now entry → IsFollowing rules count entries.old entry)
        → IsGrownIn rules entries.old asked.now turns.now entries.new) }
{
    'turns: for turn in turns {
        add_at(alloc, entries, asked, turn, count)?;
    }
    Ok(())
}

/// Adds what is asked for and follows, small products first, where the entries do not cover it.
pub fn add_all(
    alloc: Global,
    entries: &mut Known,
    asked: &[Entry],
    count: usize,
) -> Result<(), OutOfMemory>
    requires counts { AreOfCount count entries.old }
    requires asked { (entry : Entry) → Contains asked.now entry → length entry.product ≡ count }
    ensures counted { OnOk result (AreOfCount count entries.new) }
    ensures grown { OnOk result ((rules : List Rule)
        → ((entry : Entry) → Contains asked.now entry → IsFollowing rules count entries.old entry)
        → IsGrownBy rules entries.old asked.now entries.new) }
{
    let turns = turns_of(alloc, asked)?;
    add_in(alloc, entries, asked, turns.as_slice(), count)
}
