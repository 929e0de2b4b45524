//! Queries and rules of parts in which nothing is wrong.
ghost use Rattle.std.specs.Prelude.{◌≤◌, length, Ok};
ghost use Rattle.esto_constraint.specs.Constraints.{rule_of};
ghost use Rattle.esto_constraint.specs.Making.{MakesTuple, MakesEquality, MakesDenial};
ghost use Rattle.esto_query.specs.Making.{MakesQuery};
ghost use Rattle.esto_query.specs.Schemas.{arities_of};
ghost use Rattle.esto_query.specs.Soundness.{IsSound};
ghost use Rattle.esto_semantics.specs.WellFormed.{AreOver, IsRuleOver};
ghost use Rattle.esto_read.specs.Parts.{AreTupleParts, AreEqualityParts, AreDenialParts};

use esto_constraint::{Constraint, make_denial, make_equal_rule, make_tuple_rule};
use esto_query::{MAX_ATOMS, Names, Query, Schema, make_query};
use esto_semantics::Atoms;
use esto_term::{Term, Terms};
use std::alloc::Global;

/// The query of this head, body and names.
pub fn query(alloc: Global, schema: &Schema, head: Terms, body: Atoms, names: Names) -> Query
    requires sound { IsSound head body names }
    requires over { AreOver (arities_of schema.now) body }
    requires size { length body ≤ MAX_ATOMS }
    ensures { MakesQuery (arities_of schema.now) head body names (Ok result) }
{
    match make_query(alloc, schema, head, body, names) {
        Ok(query) => query,
        Err(_) => unreachable!(),
    }
}

/// The tuple rule of this body, head and names.
pub fn tuple_rule(
    alloc: Global,
    schema: &Schema,
    body: Atoms,
    head: Atoms,
    names: Names,
) -> Constraint
    requires { AreTupleParts (arities_of schema.now) body head names }
    ensures made { MakesTuple (arities_of schema.now) body head names (Ok result) }
    ensures over { IsRuleOver (arities_of schema.now) (rule_of result) }
{
    match make_tuple_rule(alloc, schema, body, head, names) {
        Ok(rule) => rule,
        Err(_) => unreachable!(),
    }
}

/// The equality rule of this body, these sides and names.
pub fn equal_rule(
    alloc: Global,
    schema: &Schema,
    body: Atoms,
    left: Term,
    right: Term,
    names: Names,
) -> Constraint
    requires { AreEqualityParts (arities_of schema.now) body left right names }
    ensures made { MakesEquality (arities_of schema.now) body left right names (Ok result) }
    ensures over { IsRuleOver (arities_of schema.now) (rule_of result) }
{
    match make_equal_rule(alloc, schema, body, left, right, names) {
        Ok(rule) => rule,
        Err(_) => unreachable!(),
    }
}

/// The denial of this body and names.
pub fn denial(alloc: Global, schema: &Schema, body: Atoms, names: Names) -> Constraint
    requires { AreDenialParts (arities_of schema.now) body names }
    ensures made { MakesDenial (arities_of schema.now) body names (Ok result) }
    ensures over { IsRuleOver (arities_of schema.now) (rule_of result) }
{
    match make_denial(alloc, schema, body, names) {
        Ok(rule) => rule,
        Err(_) => unreachable!(),
    }
}
