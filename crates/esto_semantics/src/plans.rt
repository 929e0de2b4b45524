//! Laws of universal plans, of their candidates, and of the queries over fragments that map to them.
ghost use Rattle.esto_semantics.specs.PlanLaws.{RowsAreUniversal, MappedIsContained, CandidateContains, ContainedCandidateIsEquivalent};
ghost use Rattle.esto_semantics.specs.PlanLaws.{QueriesMapOntoExecutableSets, RewritingsMapOntoSets, CandidateIsExecutableRewriting, OntoWeighsNoMore};

/// A law: where an instance is universal for a query under the rules, and meets the rules itself, the rows of all
/// views over it, with its head, are a universal plan for the query, under whatever names for the terms.
pub fn rows_of_a_universal_instance_are_a_universal_plan()
    ensures { RowsAreUniversal }
{}

/// A law: where a query over fragments maps to another, head to head, it contains the other.
pub fn queries_contain_what_they_map_to()
    ensures { MappedIsContained }
{}

/// A law: each safe candidate of a universal plan contains the query. So it is equivalent to the query exactly where it
/// is contained in the query.
pub fn candidates_contain_the_query()
    ensures contains { CandidateContains }
    ensures equivalent { ContainedCandidateIsEquivalent }
{}

/// A law: an executable query over fragments that maps to a plan, head to head, maps onto a set of the plan's atoms
/// that is safe and executable, and whose candidate is contained in the query, and so in whatever contains the query.
pub fn queries_map_onto_executable_sets()
    ensures { QueriesMapOntoExecutableSets }
{}

/// A law: each query over fragments that is an executable rewriting of a satisfiable query maps to a universal plan of
/// it, head to head, and onto a set of the plan's atoms that is a rewriting: safe, executable and equivalent to the
/// query.
pub fn rewritings_map_onto_sets()
    ensures { RewritingsMapOntoSets }
{}

/// A law: where a set of a plan's atoms is a rewriting of the query, its candidate is a query over fragments that is an
/// executable rewriting.
pub fn candidates_of_rewritings_are_executable_rewritings()
    ensures { CandidateIsExecutableRewriting }
{}

/// A law: where a query over fragments maps onto a set of a plan's atoms, the set's distinct atoms weigh no more than
/// the query's distinct atoms.
pub fn sets_weigh_no_more_than_what_maps_onto_them()
    ensures { OntoWeighsNoMore }
{}
