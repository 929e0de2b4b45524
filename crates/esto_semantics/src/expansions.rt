//! Laws of expansions: queries over fragments read as queries over the datasets.
ghost use Rattle.esto_semantics.specs.ExpansionLaws.{ExpansionAnswers, ExpansionIsContained, ExpansionIsContainedInUnion, ExpansionWithoutRules};
ghost use Rattle.esto_semantics.specs.ExpansionLaws.{ExpansionExists, PartExpandsCandidate};

/// A law: over every database, a query over fragments has exactly the answers that its head has over its expansion.
/// So it is contained in a query over the datasets exactly where that query maps, head to head, to an instance that is
/// universal for the expansion under the rules and meets the rules itself, and in a union exactly where one of the
/// union's queries does; without rules, to the expansion.
pub fn an_expansion_means_the_same()
    ensures answers { ExpansionAnswers }
    ensures contained { ExpansionIsContained }
    ensures contained_in_union { ExpansionIsContainedInUnion }
    ensures without_rules { ExpansionWithoutRules }
{}

/// A law: each query over fragments that fits the views has an expansion.
pub fn queries_over_fragments_have_expansions()
    ensures { ExpansionExists }
{}

/// A law: what an expansion of a plan has for a set of its atoms is an expansion of the set's candidate.
pub fn an_expansion_of_a_plan_expands_its_candidates()
    ensures { PartExpandsCandidate }
{}
