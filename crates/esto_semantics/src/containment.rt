//! Laws of containment under rules.
ghost use Rattle.std.specs.Prelude.{[]};
ghost use Rattle.esto_semantics.specs.Containment.{IsSatisfiable};
ghost use Rattle.esto_semantics.specs.ContainmentLaws.{UnionsAreDecided, QueriesAreDecided, InstanceShows, PartContains, PartIsEquivalent};
ghost use Rattle.esto_semantics.specs.ContainmentLaws.{ContainedWithoutRules, ContainedIsReflexive, ContainedIsTransitive, AnswersGrow, InstanceSatisfies};
ghost use Rattle.esto_semantics.specs.Instances.{IsUniversalFor, IsFinished};
ghost use Rattle.esto_semantics.specs.Queries.{ConjunctiveQuery};

/// A law: where an instance is universal for a query under the rules, and meets the rules itself, the query is
/// contained in a union exactly where one of the union's queries maps to the instance, head to head. So it is contained
/// in another query exactly where that maps to it.
pub fn universal_instances_decide_containment()
    ensures union { UnionsAreDecided }
    ensures query { QueriesAreDecided }
{}

/// A law: the facts of such an instance, under some values for its terms, are a database that meets the rules, with a
/// row of the query that is a row of no query that does not map to the instance. So they show that the query is not
/// contained in another query, or in a union.
pub fn universal_instances_show_what_is_not_contained()
    ensures { InstanceShows }
{}

/// A law: some facts of an instance that is universal for a query, with its head, contain the query. So they are
/// equivalent to it exactly where they are contained in it: where the query maps, head to head, to a finished instance
/// that is universal for them.
pub fn parts_of_an_instance_contain_the_query()
    ensures contains { PartContains }
    ensures equivalent { PartIsEquivalent }
{}

/// A law: without rules each query is its own universal instance, so one query is contained in another exactly where
/// the other maps to it, head to head.
pub fn queries_are_their_own_instances()
    ensures universal { (query : ConjunctiveQuery) → IsUniversalFor [] query query }
    ensures finished { (query : ConjunctiveQuery) → IsFinished [] query }
    ensures contained { ContainedWithoutRules }
{}

/// A law: each query is contained in itself, and one that is contained in a second is contained in each third that the
/// second is contained in, whether they are over the datasets or over fragments, and unions of queries or single ones.
pub fn containment_is_a_preorder()
    ensures reflexive { ContainedIsReflexive }
    ensures transitive { ContainedIsTransitive }
{}

/// A law: over a database that has each fact of another, a query or a union has each answer that it has over the other,
/// whether it is over the datasets or over fragments.
pub fn answers_grow_with_the_database()
    ensures { AnswersGrow }
{}

/// A law: a query that has a universal instance which meets the rules itself is satisfiable under the rules, and each
/// query is satisfiable where there are no rules.
pub fn universal_instances_satisfy_queries()
    ensures under_rules { InstanceSatisfies }
    ensures without_rules { (query : ConjunctiveQuery) → IsSatisfiable [] query }
{}
