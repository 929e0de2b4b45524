//! The law of listed sets.
ghost use Rattle.esto_backchase.specs.Listing.{ListedCoverRewritings};

use esto_semantics::{listed_sets_are_minimal, rewritings_map_onto_sets};

/// A law: each query over fragments that is an executable rewriting of a satisfiable query maps to a universal plan of
/// it, head to head, and onto a set of the plan's atoms that has one of the sets within it, where these are exactly the
/// listed sets.
pub fn listed_sets_cover_rewritings()
    ensures { ListedCoverRewritings }
{
    rewritings_map_onto_sets();
    listed_sets_are_minimal();
}
