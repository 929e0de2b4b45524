//! The rows of a constraint.
ghost use Rattle.std.specs.Prelude.{IfOk, IfErr};
ghost use Rattle.esto_constraint.specs.Constraints.{rule_of};
ghost use Rattle.esto_query.specs.Schemas.{arities_of};
ghost use Rattle.esto_read.specs.Constraints.{IsConstraintReading, IsConstraintError};
ghost use Rattle.esto_semantics.specs.WellFormed.{IsRuleOver};
ghost use Rattle.esto_catalog.specs.Constraints.{reads_rule, reads_constraint, reads_constraints};
ghost use Rattle.esto_catalog.specs.Rows.{Walks};
ghost use Rattle.esto_catalog.specs.Soundness.{AreSoundRules};
ghost use Rattle.esto_catalog.specs.Scope.{IsScope};

use crate::fault::{CatalogueError, Place, fault};
use crate::row::{Keys, knows_keys, needs_text};
use crate::scope::Scope;
use esto_constraint::{Constraint, Rules};
use esto_read::{read_constraint, read_constraint_2};
use esto_settings::{Field, KeyList};
use esto_status::{CatalogueKind, Section};
use esto_term::{List, Text};
use esto_text::{ReadError, Version};
use std::alloc::Global;

// The constraint that the text of this version is, or why it is none.
fn read_rule(
    alloc: Global,
    version: Version,
    scope: &Scope,
    text: &[u8],
) -> Result<Constraint, ReadError>
    requires { IsScope scope.now }
    ensures rule { IfOk result (IsConstraintReading
        version scope.now.words (arities_of scope.now.schema) text.now) }
    ensures over { IfOk result (λ rule. IsRuleOver (arities_of scope.now.schema) (rule_of rule)) }
    ensures error { IfErr result (IsConstraintError
        version scope.now.words (arities_of scope.now.schema) text.now) }
{
    match version {
        Version::One => read_constraint(alloc, text, &scope.words, &scope.schema),
        Version::Two => read_constraint_2(alloc, text, &scope.words, &scope.schema),
    }
}

// The constraint that the text of this version is, or its first fault.
fn rule_of_text(
    alloc: Global,
    version: Version,
    place: Place,
    scope: &Scope,
    text: &Text,
) -> Result<Constraint, CatalogueError>
    requires { IsScope scope.now }
    ensures rule { Walks (reads_rule version place scope.now.datasets text.now) result }
    ensures over { IfOk result (λ rule. IsRuleOver (arities_of scope.now.schema) (rule_of rule)) }
{
    match read_rule(alloc, version, scope, text.bytes()) {
        Ok(rule) => Ok(rule),
        Err(ReadError::Fault(found)) => Err(fault(
            alloc,
            CatalogueKind::BadText,
            place,
            "rule",
            Some(found),
        )),
        Err(ReadError::OutOfMemory) => Err(CatalogueError::OutOfMemory),
    }
}

// The rows of a constraint, in order: unknown keys, rule.
fn read_entry(
    alloc: Global,
    version: Version,
    place: Place,
    scope: &Scope,
    entry: &[Field],
) -> Result<Constraint, CatalogueError>
    requires { IsScope scope.now }
    ensures rule { Walks
        (reads_constraint version place scope.now.datasets entry.now) result }
    ensures over { IfOk result (λ rule. IsRuleOver (arities_of scope.now.schema) (rule_of rule)) }
{
    knows_keys(alloc, place, Keys::Constraint, entry)?;
    let text = needs_text(alloc, place, "rule", entry)?;
    rule_of_text(alloc, version, place, scope, text)
}

/// The constraints of the entries by this version's grammar, in order, counted from 1.
pub fn read_constraints(
    alloc: Global,
    version: Version,
    scope: &Scope,
    entries: &[KeyList],
) -> Result<Rules, CatalogueError>
    requires { IsScope scope.now }
    ensures rules { Walks (reads_constraints version scope.now.datasets entries.now) result }
    ensures over { IfOk result (AreSoundRules (arities_of scope.now.schema)) }
{
    let mut rules = List::new(alloc);
    'entries: for (index, entry) in entries.iter().enumerate() {
        let place = Place::entry(Section::Constraint, index);
        let fields = entry.items();
        let rule = read_entry(alloc, version, place, scope, fields)?;
        rules.push(rule)?;
    }
    Ok(rules)
}
