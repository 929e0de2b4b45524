//! The command `verify`.
ghost use Rattle.std.specs.Prelude.{◌≡◌, ◌⊎◌, ◌↔◌, ◌+◌, ◌≤◌, ℕ, length};
ghost use Rattle.esto_ports.specs.Faults.{Rises};
ghost use Rattle.esto_term.specs.Sets.{Has};
ghost use Rattle.esto_status.specs.Answers.{Answers};
ghost use Rattle.esto_status.specs.Asked.{AsksIn};
ghost use Rattle.esto_rewriting.specs.Listing.{IsPlanned};
ghost use Rattle.esto_rewriting.specs.Verify.{judges_certificate, names_set, verifies_query, verifies_set};

use crate::planned_laws::planned_plans_have_their_form;
use crate::planning::plan_of;
use esto_bits::RowBits;
use esto_cert::{CertError, check_certificate};
use esto_mapping::Catalogue;
use esto_ports::Shelf;
use esto_query::Query;
use esto_status::{DATA_LIMIT, Status, fetch};
use esto_term::{Bytes, Text};
use esto_views::Plan;
use std::alloc::Global;

// Puts the atom of the number, counted from 1, into the set. No atom has the number 0.
fn put_atom(set: &mut RowBits, number: u64)
    requires { number ≤ length set.old }
    ensures count { length set.new ≡ length set.old }
    ensures has { (atom : ℕ) → Has set.new atom ↔ ((number ≡ atom + 1) ⊎ Has set.old atom) }
{
    if number > 0 {
        set.insert((number - 1) as usize);
    }
}

// The set of the plan's atoms of these numbers, or the status of the first number that no atom has since it is too great.
fn named_set(alloc: Global, numbers: &[u64], plan: &Plan) -> Result<RowBits, Status>
    ensures { Answers (names_set plan.now numbers.now) ⊥ result }
{
    let count = plan.atoms.len() as u64;
    let mut set = RowBits::new(alloc, plan.atoms.len())?;
    'numbers: for number in numbers {
        if *number > count {
            return Err(Status::NoSuchNumber(*number, count));
        }
        put_atom(&mut set, *number);
    }
    Ok(set)
}

// What the command prints where the bytes are a certificate for the set that is accepted, or the status of the line at
// which they are rejected.
fn judged(
    alloc: Global,
    bytes: &Bytes,
    set: &RowBits,
    plan: &Plan,
    query: &Query,
    catalogue: &Catalogue,
) -> Result<Bytes, Status>
    requires planned { IsPlanned catalogue.now query.now plan.now }
    requires count { length set.now ≡ length plan.now.atoms }
    ensures { Answers
        (judges_certificate catalogue.now query.now plan.now set.now bytes.now) ⊥ result }
{
    planned_plans_have_their_form();
    let fragments = &catalogue.fragments;
    let rules = &catalogue.rules;
    match check_certificate(alloc, bytes.bytes(), set, plan, query, fragments, rules) {
        Ok(()) => {
            let text = Bytes::from_slice(alloc, b"accepted\n")?;
            Ok(text)
        }
        Err(CertError::Rejected(line)) => Err(Status::Rejected(line)),
        Err(CertError::OutOfMemory) => Err(Status::OutOfMemory),
    }
}

// Fetches the certificate for a set of the plan's atoms, and judges it.
fn verify_set<S: Shelf>(
    alloc: Global,
    shelf: &mut S,
    set: &RowBits,
    plan: &Plan,
    query: &Query,
    catalogue: &Catalogue,
    file: &Text,
) -> Result<Bytes, Status>
    requires planned { IsPlanned catalogue.now query.now plan.now }
    requires count { length set.now ≡ length plan.now.atoms }
    ensures answer { Answers (verifies_set (S.files shelf.old) catalogue.now query.now plan.now
        file.now set.now) (Rises S.faults shelf.old shelf.new) result }
    ensures asked { AsksIn (S.asked shelf.old) (S.asked shelf.new) (verifies_set (S.files shelf.old)
        catalogue.now query.now plan.now file.now set.now) result }
    ensures files { S.files shelf.new ≡ S.files shelf.old }
    ensures later { S.faults shelf.old ≤ S.faults shelf.new }
{
    let bytes = fetch(alloc, shelf, file, DATA_LIMIT)?;
    judged(alloc, &bytes, set, plan, query, catalogue)
}

/// Makes the query's printed plan and the set of its atoms of these numbers, counted from 1, and verifies the
/// certificate for the set. Unsatisfiable comes where the query has no plan, else NoSuchNumber for the first number that
/// no atom has since it is too great, else what `fetch` refuses, and Rejected with the line where the certificate is
/// rejected.
pub fn verify_query<S: Shelf>(
    alloc: Global,
    shelf: &mut S,
    query: &Query,
    catalogue: &Catalogue,
    numbers: &[u64],
    file: &Text,
) -> Result<Bytes, Status>
    ensures answer { Answers (verifies_query (S.files shelf.old) numbers.now file.now
        catalogue.now query.now) (Rises S.faults shelf.old shelf.new) result }
    ensures asked { AsksIn (S.asked shelf.old) (S.asked shelf.new) (verifies_query
        (S.files shelf.old) numbers.now file.now catalogue.now query.now) result }
    ensures files { S.files shelf.new ≡ S.files shelf.old }
    ensures later { S.faults shelf.old ≤ S.faults shelf.new }
{
    let plan = plan_of(alloc, query, catalogue)?;
    let set = named_set(alloc, numbers, &plan)?;
    verify_set(alloc, shelf, &set, &plan, query, catalogue, file)
}
