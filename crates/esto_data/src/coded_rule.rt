//! The difference of a rule that is not met, from a part of the facts.
ghost use Rattle.std.specs.Prelude.{◌<◌, List, length, IfSome};
ghost use Rattle.esto_constraint.specs.Constraints.{rules_of};
ghost use Rattle.esto_semantics.specs.Rules.{Rule};
ghost use Rattle.esto_semantics.specs.declared.fact.Fact.{Fact};
ghost use Rattle.esto_term.specs.declared.term.Term.{Term};
ghost use Rattle.esto_data.specs.Disagreeing.{IsFirstUnpassed};
ghost use Rattle.esto_fill.specs.Parts.{IsFirstByRule};
ghost use Rattle.esto_fill.specs.Trials.{IsEnoughFor};

use esto_fill::{Difference, difference_in};
use esto_mapping::Catalogue;
use esto_semantics::Facts;
use std::alloc::Global;

/// The difference of the rule of the number, where it is the first that is neither one of the laws nor met: the record
/// of its least active match, which is looked for in the part of the facts that came with it. None where none came, or
/// memory is wanting.
pub fn rule_difference(
    alloc: Global,
    catalogue: &Catalogue,
    number: usize,
    part: Option<Facts>,
) -> Option<Difference>
    requires { number < length catalogue.now.rules }
    ensures { IfSome result (λ difference. (laws : List Rule) (facts some : List (Fact Term))
        → IsFirstUnpassed laws (rules_of catalogue.now.rules) some number part
        → IsEnoughFor catalogue.now laws facts some
        → IsFirstByRule catalogue.now facts difference) }
{
    let Some(part) = part else {
        return None;
    };
    match difference_in(alloc, catalogue, number, &part) {
        Ok(found) => found,
        Err(_) => None,
    }
}
