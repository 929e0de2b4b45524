//! The command `contains`.
ghost use Rattle.std.specs.Prelude.{◌≢◌, [], IfOk};
ghost use Rattle.esto_contain.specs.Contained.{IfNo};
ghost use Rattle.esto_status.specs.Answers.{Answers};
ghost use Rattle.esto_query.specs.Schemas.{names_of};
ghost use Rattle.esto_reasoning.specs.Contains.{IsNoText, SaysTold, compares, have_one_length, prints_told};
ghost use Rattle.esto_reasoning.specs.Contains.{tells_contained};

use crate::printing::no_text;
use esto_contain::{Contain, contained};
use esto_mapping::Catalogue;
use esto_query::{Facts, Query, queries_are_sound};
use esto_status::Status;
use esto_term::{Bytes, OutOfMemory, Terms};
use esto_views::{plan_facts, renamed_plan};
use std::alloc::Global;

// Whether the heads have one length; else the status that tells the two lengths.
fn one_length(left: &Query, right: &Query) -> Result<(), Status>
    ensures { Answers (have_one_length left.now right.now) ⊥ result }
{
    let one = left.head.len() as u64;
    let other = right.head.len() as u64;
    if one == other {
        return Ok(());
    }
    Err(Status::HeadLengths(one, other))
}

// Whether the left query is contained in the right one. The row of a no is not empty.
fn tell(
    alloc: Global,
    left: &Query,
    right: &Query,
    catalogue: &Catalogue,
) -> Result<Contain, Status>
    ensures course { Answers (tells_contained catalogue.now left.now right.now) ⊥ result }
    ensures row { IfOk result (IfNo (λ _ row. row ≢ [])) }
{
    queries_are_sound();
    let told = contained(alloc, left, right, catalogue)?;
    Ok(told)
}

// The text of the facts and the row of a no.
fn shown_text(
    alloc: Global,
    facts: &Facts,
    row: &Terms,
    left: &Query,
    catalogue: &Catalogue,
) -> Result<Bytes, OutOfMemory>
    requires { row.now ≢ [] }
    ensures { IfOk result
        (IsNoText (names_of catalogue.now.schema) left.now.names facts.now row.now) }
{
    let plan = renamed_plan(alloc, facts, row, &left.names)?;
    let renamed = plan_facts(alloc, &plan.atoms)?;
    no_text(
        alloc,
        &catalogue.schema,
        &plan.names,
        plan.head.items(),
        renamed.items(),
    )
}

// The text of what is told.
fn told_text(
    alloc: Global,
    told: &Contain,
    left: &Query,
    catalogue: &Catalogue,
) -> Result<Bytes, OutOfMemory>
    requires { IfNo (λ _ row. row ≢ []) told.now }
    ensures { IfOk result (SaysTold (names_of catalogue.now.schema) left.now.names told.now) }
{
    match told {
        Contain::Yes => Bytes::from_slice(alloc, b"yes\n"),
        Contain::No(facts, row) => shown_text(alloc, facts, row, left, catalogue),
    }
}

// The text that the command prints of what is told.
fn text_of(
    alloc: Global,
    told: &Contain,
    left: &Query,
    catalogue: &Catalogue,
) -> Result<Bytes, Status>
    requires { IfNo (λ _ row. row ≢ []) told.now }
    ensures { Answers (prints_told catalogue.now left.now told.now) ⊥ result }
{
    let text = told_text(alloc, told, left, catalogue)?;
    Ok(text)
}

/// What the command prints of two queries, or the status of two lengths.
pub fn compared(
    alloc: Global,
    left: &Query,
    right: &Query,
    catalogue: &Catalogue,
) -> Result<Bytes, Status>
    ensures { Answers (compares catalogue.now left.now right.now) ⊥ result }
{
    one_length(left, right)?;
    let told = tell(alloc, left, right, catalogue)?;
    text_of(alloc, &told, left, catalogue)
}
