//! The command `minimise`.
ghost use Rattle.std.specs.Prelude.{IfOk};
ghost use Rattle.esto_constraint.specs.Constraints.{rules_of};
ghost use Rattle.esto_status.specs.Answers.{Answers};
ghost use Rattle.esto_query.specs.Making.{query_of};
ghost use Rattle.esto_query.specs.Schemas.{names_of};
ghost use Rattle.esto_reasoning.specs.Minimise.{IsMinimalText, IsMinimisedTo, minimises, minimises_query, prints_minimal};

use crate::printing::minimal_text;
use either::{Left, Right};
use esto_contain::Minimal;
use esto_mapping::Catalogue;
use esto_query::Query;
use esto_status::Status;
use esto_term::{Bytes, OutOfMemory};
use std::alloc::Global;

// The query's minimal equivalent parts, or the status of the clash at which its run ends.
fn minimal_of(alloc: Global, query: &Query, catalogue: &Catalogue) -> Result<Minimal, Status>
    ensures course { Answers (minimises_query catalogue.now query.now) ⊥ result }
    ensures minimised { IfOk result (IsMinimisedTo catalogue.now query.now) }
{
    match esto_contain::minimise(alloc, query, catalogue)? {
        Left(minimal) => Ok(minimal),
        Right(clash) => Err(Status::Unsatisfiable(clash)),
    }
}

// The text of minimal equivalent parts.
fn listed_text(
    alloc: Global,
    minimal: &Minimal,
    query: &Query,
    catalogue: &Catalogue,
) -> Result<Bytes, OutOfMemory>
    requires { IsMinimisedTo catalogue.now query.now minimal.now }
    ensures { IfOk result (IsMinimalText (rules_of catalogue.now.rules)
        (names_of catalogue.now.schema) (query_of query.now) minimal.now) }
{
    let sets = minimal.sets.sorted(alloc)?;
    minimal_text(
        alloc,
        &catalogue.schema,
        &minimal.names,
        minimal.facts.items(),
        minimal.head.items(),
        &sets,
    )
}

// The text that the command prints of minimal equivalent parts.
fn text_of(
    alloc: Global,
    minimal: &Minimal,
    query: &Query,
    catalogue: &Catalogue,
) -> Result<Bytes, Status>
    requires { IsMinimisedTo catalogue.now query.now minimal.now }
    ensures { Answers (prints_minimal catalogue.now query.now minimal.now) ⊥ result }
{
    let text = listed_text(alloc, minimal, query, catalogue)?;
    Ok(text)
}

/// What the command prints of a query, or the status of the clash at which its run ends.
pub fn minimised(alloc: Global, query: &Query, catalogue: &Catalogue) -> Result<Bytes, Status>
    ensures { Answers (minimises catalogue.now query.now) ⊥ result }
{
    let minimal = minimal_of(alloc, query, catalogue)?;
    text_of(alloc, &minimal, query, catalogue)
}
