//! The standard chase of a query: what it leaves, or the clash at which it ends.
ghost use Rattle.std.specs.Prelude.{length, IsTrue};
ghost use Rattle.esto_constraint.specs.Constraints.{rule_of, rules_of};
ghost use Rattle.esto_constraint.specs.Graphs.{IsWithin, AreRanks};
ghost use Rattle.esto_constraint.specs.Relations.{IsEdge};
ghost use Rattle.esto_part_cases.specs.Leading.{AreBelow, LeadsBelow};

use crate::printing::{put_number, put_row};
use either::{Either, Left, Right};
use esto_acyclic::judge;
use esto_chase::{Chased, chase};
use esto_chase_laws::{Clash, queries_have_starts};
use esto_constraint::{Constraint, Ranks, Rules};
use esto_instance::Instance;
use esto_query::{Query, Schema, queries_are_sound};
use esto_script::{Refused, let_go, put, put_counted};
use esto_semantics::Atom;
use std::alloc::Global;

// Whether the atoms are over relations below the count.
fn are_below(atoms: &[Atom], relations: usize) -> bool
    ensures { IsTrue result → AreBelow relations atoms.now }
{
    'atoms: for atom in atoms {
        if atom.relation >= relations {
            return false;
        }
    }
    true
}

// Whether a rule, where it is a tuple rule, is over relations below the count.
fn leads_below(rule: &Constraint, relations: usize) -> bool
    ensures { IsTrue result → LeadsBelow relations (rule_of rule.now) }
{
    match rule {
        Constraint::Tuple(rule) => {
            are_below(rule.body.items(), relations) && are_below(rule.head.items(), relations)
        }
        Constraint::Equal(_) => true,
        Constraint::Never(_) => true,
    }
}

// Whether each tuple rule is over relations below the count.
fn lead_below(rules: &[Constraint], relations: usize) -> bool
    ensures { IsTrue result → IsWithin relations (IsEdge (rules_of rules.now)) }
{
    'rules: for rule in rules {
        if !leads_below(rule, relations) {
            return false;
        }
    }
    true
}

// The facts, one a line, the head, and how many steps there were.
fn put_chased(rt: &HostRuntime, instance: &Instance) {
    'facts: for fact in instance.facts().items() {
        put_number(rt, fact.relation as u64);
        put_row(rt, fact.terms.items());
    }
    put(rt, "head ");
    put_row(rt, instance.head().items());
    put_counted(rt, "steps ", instance.trace().len() as u64);
}

fn put_clash(rt: &HostRuntime, clash: &Clash) {
    match clash {
        Clash::Equal(one, other) => {
            put(rt, "clash '");
            put(rt, one.as_str());
            put(rt, " '");
            put(rt, other.as_str());
            put(rt, "\n");
        }
        Clash::Denied(rule) => put_counted(rt, "denied ", *rule as u64),
    }
}

// What a chase ends with.
fn put_ended(rt: &HostRuntime, ended: &Either<Chased, Clash>) {
    match ended {
        Left(chased) => put_chased(rt, &chased.instance),
        Right(clash) => put_clash(rt, clash),
    }
}

// What the chase of the query under the rules ends with, where these are the ranks.
fn put_end(
    rt: &HostRuntime,
    alloc: Global,
    rules: &Rules,
    ranks: &Ranks,
    query: &Query,
) -> Result<(), Refused>
    requires within { IsWithin (length ranks.now) (IsEdge (rules_of rules.now)) }
    requires ranks { AreRanks (IsEdge (rules_of rules.now)) (length ranks.now) ranks.now }
{
    queries_are_sound();
    queries_have_starts();
    let start = Instance::of_query(alloc, query)?;
    let ended = chase(alloc, start, rules, ranks)?;
    put_ended(rt, &ended);
    let_go(ended);
    Ok(())
}

/// What the chase of a query's body ends with. It is refused where the tuple rules make a cycle, or are over a relation
/// that is not there.
pub fn put_chase(
    rt: &HostRuntime,
    alloc: Global,
    schema: &Schema,
    rules: &Rules,
    query: &Query,
) -> Result<(), Refused> {
    if !lead_below(rules.items(), schema.len()) {
        return Err(Refused);
    }
    match judge(alloc, schema, rules)? {
        Left(ranks) => put_end(rt, alloc, rules, &ranks, query),
        Right(_) => Err(Refused),
    }
}
