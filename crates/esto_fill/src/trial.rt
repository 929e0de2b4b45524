//! What an audit tries, and the facts on which that rests.
ghost use Rattle.std.specs.Prelude.{◌≡◌, [], ◌∷◌, ◌++◌, map, IfOk, OnOk};
ghost use Rattle.esto_constraint.specs.Constraints.{rule_of, rules_of};
ghost use Rattle.esto_query.specs.Making.{query_of};
ghost use Rattle.esto_fill.specs.Trials.{AddsTried, IsTrialOf, IsWantedBut, parts_of};

use crate::lawful::laws_of;
use crate::tried::is_law;
use crate::wanted::{Bodies, Wanted, add_body};
use esto_constraint::{Constraint, Rules};
use esto_mapping::Catalogue;
use esto_term::{List, OutOfMemory};
use esto_views::FragmentDef;
use std::alloc::Global;

/// What an audit of a catalogue tries: all rules but some that the facts of the datasets' files meet by law.
#[derive(Drop)]
pub struct Trial {
    /// The rules that are not tried.
    pub laws: Rules,
    /// The facts to which an atom of another rule or of a fragment's view can go.
    pub wanted: Wanted,
}

// The bodies of the fragments' views.
fn bodies_of(alloc: Global, fragments: &[FragmentDef]) -> Result<Bodies, OutOfMemory>
    ensures { IfOk result (λ it. it
        ≡ map (λ fragment. (query_of fragment.view).body) fragments.now) }
{
    let mut bodies = List::new(alloc);
    'fragments: for fragment in fragments {
        add_body(alloc, &fragment.view.body, &mut bodies)?;
    }
    Ok(bodies)
}

// Puts the parts of the rule at the end.
fn add_parts(alloc: Global, rule: &Constraint, bodies: &mut Bodies) -> Result<(), OutOfMemory>
    ensures { OnOk result (bodies.new ≡ bodies.old ++ parts_of (rule_of rule.now)) }
{
    match rule {
        Constraint::Tuple(rule) => {
            add_body(alloc, &rule.body, bodies)?;
            add_body(alloc, &rule.head, bodies)
        }
        Constraint::Equal(rule) => add_body(alloc, &rule.body, bodies),
        Constraint::Never(rule) => add_body(alloc, &rule.body, bodies),
    }
}

// Puts the parts of the rule at the end, unless it is one of the laws.
fn add_tried(
    alloc: Global,
    rule: &Constraint,
    laws: &[Constraint],
    bodies: &mut Bodies,
) -> Result<(), OutOfMemory>
    ensures { OnOk result (AddsTried (rule_of rule.now ∷ []) (rules_of laws.now)
        bodies.old bodies.new) }
{
    if is_law(rule, laws) {
        return Ok(());
    }
    add_parts(alloc, rule, bodies)
}

// Puts the parts of the rules that are none of the laws at the end.
fn add_rules(
    alloc: Global,
    rules: &[Constraint],
    laws: &[Constraint],
    bodies: &mut Bodies,
) -> Result<(), OutOfMemory>
    ensures { OnOk result (AddsTried (rules_of rules.now) (rules_of laws.now)
        bodies.old bodies.new) }
{
    'rules: for rule in rules {
        add_tried(alloc, rule, laws, bodies)?;
    }
    Ok(())
}

// The facts to which an atom of a fragment's view can go, or one of a rule that is none of the laws.
fn wanted_but(
    alloc: Global,
    catalogue: &Catalogue,
    laws: &[Constraint],
) -> Result<Wanted, OutOfMemory>
    ensures { IfOk result (IsWantedBut (rules_of laws.now) catalogue.now) }
{
    let mut bodies = bodies_of(alloc, catalogue.fragments.items())?;
    add_rules(alloc, catalogue.rules.items(), laws, &mut bodies)?;
    Ok(Wanted::Asked(bodies))
}

/// What an audit of the catalogue tries.
pub fn trial_of(alloc: Global, catalogue: &Catalogue) -> Result<Trial, OutOfMemory>
    ensures { IfOk result (IsTrialOf catalogue.now) }
{
    let laws = laws_of(alloc, catalogue.datasets.items())?;
    let wanted = wanted_but(alloc, catalogue, laws.items())?;
    Ok(Trial { laws, wanted })
}
