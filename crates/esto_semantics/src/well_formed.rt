//! Laws of well-formed databases: that the definitions range over all finite lists of facts says no more than that they
//! range over the well-formed ones.
ghost use Rattle.esto_semantics.specs.WellFormedLaws.{RestrictedIsOver, RestrictedMeets, RestrictedAnswers, WellFormedContain, WellFormedSatisfy};

/// A law: the facts of a database that aren't over a schema count for no rule and no query over it. Without them the
/// database meets the same rules, and each query, over the datasets or over fragments, has the same answers, and so has
/// each union of such queries.
pub fn facts_outside_a_schema_do_not_count()
    ensures over { RestrictedIsOver }
    ensures rules { RestrictedMeets }
    ensures answers { RestrictedAnswers }
{}

/// A law: for rules and queries over a schema, containment under the rules over all databases is containment over the
/// well-formed ones, and a query that is satisfiable under the rules is so by a well-formed database.
pub fn well_formed_databases_suffice()
    ensures contained { WellFormedContain }
    ensures satisfiable { WellFormedSatisfy }
{}
