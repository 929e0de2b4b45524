//! The end of a query's chase.
ghost use Rattle.std.specs.Prelude.{IfOk};
ghost use Rattle.either.specs.Either.{MatchEither};
ghost use Rattle.esto_constraint.specs.Constraints.{rules_of};
ghost use Rattle.esto_chase.specs.Chased.{RunClashes};
ghost use Rattle.esto_chase_laws.specs.Runs.{start_of};
ghost use Rattle.esto_contain.specs.Ends.{FinishesAt};
ghost use Rattle.esto_instance.specs.Instances.{state_of};
ghost use Rattle.esto_query.specs.Making.{query_of};

use either::{Either, Left, Right};
use esto_chase::chase;
use esto_chase_laws::{Clash, queries_have_starts};
use esto_instance::Instance;
use esto_mapping::{Catalogue, catalogues_rank_their_rules};
use esto_query::{Query, queries_are_sound};
use esto_term::OutOfMemory;
use std::alloc::Global;

/// The end of the query's run under the catalogue's rules, or the clash at which it ends.
pub fn end_of(
    alloc: Global,
    query: &Query,
    catalogue: &Catalogue,
) -> Result<Either<Instance, Clash>, OutOfMemory>
    ensures { IfOk result (λ it. MatchEither it
        (λ end. FinishesAt (rules_of catalogue.now.rules) (start_of (query_of query.now))
        (state_of end))
        (RunClashes (rules_of catalogue.now.rules) (start_of (query_of query.now)))) }
{
    catalogues_rank_their_rules();
    queries_are_sound();
    queries_have_starts();
    let start = Instance::of_query(alloc, query)?;
    let outcome = chase(alloc, start, &catalogue.rules, &catalogue.ranks)?;
    match outcome {
        Left(chased) => Ok(Left(chased.instance)),
        Right(clash) => Ok(Right(clash)),
    }
}
