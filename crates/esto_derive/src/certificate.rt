//! Writing a certificate.
ghost use Rattle.std.specs.Prelude.{◌≡◌, ◌<◌, ◌++◌, ℕ, Bool, List, Contains, Some, None, length, IfOk};
ghost use Rattle.esto_constraint.specs.Constraints.{rules_of};
ghost use Rattle.esto_query.specs.Making.{query_of};
ghost use Rattle.esto_semantics.specs.declared.expanded.ExpandedFact.{ExpandedFact};
ghost use Rattle.esto_semantics.specs.Facts.{terms_of};
ghost use Rattle.esto_chase_laws.specs.Derived.{AreDerived, IsNamed};
ghost use Rattle.esto_chase_laws.specs.WorldLaws.{AreReasoned, HasMatch};
ghost use Rattle.esto_chase_laws.specs.WorldMatches.{Fits};
ghost use Rattle.esto_chase_laws.specs.Worlds.{AreOfCount, InWorld, Linked};
ghost use Rattle.esto_derive.specs.Marking.{AreUsed};
ghost use Rattle.esto_condchase.specs.Evidence.{AreEntriesOf};
ghost use Rattle.esto_cert.specs.Judging.{DecidesFor};
ghost use Rattle.esto_derive.specs.Searching.{AreAllLinks, AreLinks, IsFound};
ghost use Rattle.esto_derive.specs.Writing.{terms_at, IsWrittenFor, IsWrittenOf, WritesMatch};
ghost use Rattle.esto_semantics.specs.Containment.{IsSatisfiable};
ghost use Rattle.esto_semantics.specs.Listed.{IsListed};
ghost use Rattle.esto_semantics.specs.Plans.{IsUniversalPlan};
ghost use Rattle.esto_views.specs.Fragments.{views_of, patterns_of};
ghost use Rattle.esto_views.specs.Plans.{plan_query};

use crate::marking::close_with;
use crate::world::{World, all_links};
use crate::writing::{Writer, terms_at};
use esto_bits::RowBits;
use esto_chase_laws::derived_entries_are_reasoned;
use esto_condchase::entries_decide_answers;
use esto_constraint::Constraint;
use esto_mapping::Catalogue;
use esto_prov::{Entries, Entry, both, terms_of};
use esto_query::{Query, queries_are_sound};
use esto_semantics::Atom;
use esto_term::{Bytes, List, OutOfMemory, Terms};
use esto_views::{Plan, plans_are_sound};
use std::alloc::Global;

/// The head's terms, and then those of the body.
fn head_and_body(alloc: Global, head: &Terms, body: &[Atom]) -> Result<Terms, OutOfMemory>
    ensures { IfOk result (λ it. it ≡ head.now ++ terms_of body.now) }
{
    let terms = terms_of(alloc, body)?;
    both(alloc, head.items(), terms.items())
}

/// The targets, and then the terms of the facts at the places.
fn targets_and_facts(
    alloc: Global,
    targets: &Terms,
    entries: &[Entry],
    facts: &[usize],
) -> Result<Terms, OutOfMemory>
    requires { (place : ℕ) → Contains facts.now place → place < length entries.now }
    ensures { IfOk result (λ it. it ≡ targets.now ++ terms_at entries.now facts.now) }
{
    let terms = terms_at(alloc, entries, facts)?;
    both(alloc, targets.items(), terms.items())
}

/// Entries of equalities in the world by which the targets are one with the head, and the terms of the facts at the
/// places with those of the body.
fn links_for(
    alloc: Global,
    world: &World,
    head: &Terms,
    targets: &Terms,
    body: &[Atom],
    facts: &[usize],
) -> Result<List<usize>, OutOfMemory>
    requires links { AreAllLinks world.now.entries.now world.now.set.now world.now.links.now }
    requires there { (place : ℕ) → Contains facts.now place
        → place < length world.now.entries.now }
    requires fits { Fits (Linked (InWorld world.now.entries.now world.now.set.now))
        (head.now ++ terms_of body.now)
        (targets.now ++ terms_at world.now.entries.now facts.now) }
    ensures are { IfOk result (AreLinks world.now.entries.now world.now.set.now) }
    ensures fits { IfOk result (λ links. Fits (Linked (IsNamed world.now.entries.now links))
        (head.now ++ terms_of body.now)
        (targets.now ++ terms_at world.now.entries.now facts.now)) }
{
    let from = head_and_body(alloc, head, body)?;
    let to = targets_and_facts(alloc, targets, world.entries, facts)?;
    world.links_of(alloc, from.items(), to.items())
}

/// Writes a certificate of a match by the entries at these places.
fn write_by(
    alloc: Global,
    entries: &[Entry],
    rules: &[Constraint],
    facts: &[usize],
    links: &[usize],
) -> Result<Bytes, OutOfMemory>
    requires derived { (expanded : List ExpandedFact)
        × AreDerived expanded (rules_of rules.now) entries.now }
    requires reasoned { AreReasoned entries.now }
    requires facts { (place : ℕ) → Contains facts.now place → place < length entries.now }
    requires links { (place : ℕ) → Contains links.now place → place < length entries.now }
    ensures { IfOk result (λ bytes. (used : List Bool)
        × AreUsed entries.now facts.now links.now used
        × WritesMatch rules.now entries.now used facts.now links.now bytes) }
{
    let mut used = RowBits::of(alloc, entries.len(), facts)?;
    close_with(alloc, entries, links, &mut used)?;
    let writer = Writer {
        entries,
        used: &used,
        rules,
    };
    writer.write(alloc, facts, links)
}

/// Writes a certificate of the match of the query that is found by the entries at these places.
fn write_found(
    alloc: Global,
    world: &World,
    targets: &Terms,
    query: &Query,
    rules: &[Constraint],
    facts: &[usize],
) -> Result<Bytes, OutOfMemory>
    requires counts { AreOfCount (length world.now.set.now) world.now.entries.now }
    requires links { AreAllLinks world.now.entries.now world.now.set.now world.now.links.now }
    requires derived { (expanded : List ExpandedFact)
        × AreDerived expanded (rules_of rules.now) world.now.entries.now }
    requires lengths { length targets.now ≡ length query.now.head }
    requires found { IsFound world.now.entries.now world.now.set.now query.now.head targets.now
        query.now.body (Some facts.now) }
    ensures { IfOk result (IsWrittenOf world.now.set.now rules.now query.now targets.now
        world.now.entries.now) }
{
    queries_are_sound();
    derived_entries_are_reasoned();
    let body = query.body.items();
    let links = links_for(alloc, world, &query.head, targets, body, facts)?;
    write_by(alloc, world.entries, rules, facts, links.items())
}

/// Writes a certificate of a match of the query in the world.
fn write_match(
    alloc: Global,
    world: &World,
    targets: &Terms,
    query: &Query,
    rules: &[Constraint],
) -> Result<Bytes, OutOfMemory>
    requires counts { AreOfCount (length world.now.set.now) world.now.entries.now }
    requires links { AreAllLinks world.now.entries.now world.now.set.now world.now.links.now }
    requires derived { (expanded : List ExpandedFact)
        × AreDerived expanded (rules_of rules.now) world.now.entries.now }
    requires found { HasMatch (InWorld world.now.entries.now world.now.set.now) query.now.head
        query.now.body targets.now }
    ensures { IfOk result (IsWrittenOf world.now.set.now rules.now query.now targets.now
        world.now.entries.now) }
{
    let body = query.body.items();
    let Some(facts) = world.find(alloc, &query.head, targets, body)? else {
        unreachable!()
    };
    write_found(alloc, world, targets, query, rules, facts.items())
}

/// Writes a certificate of a match of the query in the set's world.
fn write_in(
    alloc: Global,
    set: &RowBits,
    targets: &Terms,
    query: &Query,
    entries: &[Entry],
    rules: &[Constraint],
) -> Result<Bytes, OutOfMemory>
    requires counts { AreOfCount (length set.now) entries.now }
    requires derived { (expanded : List ExpandedFact)
        × AreDerived expanded (rules_of rules.now) entries.now }
    requires found { HasMatch (InWorld entries.now set.now) query.now.head query.now.body
        targets.now }
    ensures { IfOk result (IsWrittenOf set.now rules.now query.now targets.now entries.now) }
{
    let links = all_links(alloc, entries, set)?;
    let world = World {
        entries,
        set,
        links: links.items(),
    };
    write_match(alloc, &world, targets, query, rules)
}

/// Writes a certificate that the set's candidate is contained in the query, from the entries of the conditional chase
/// of the plan's expansion. It has one line for each entry that the match of its last line uses, directly or through
/// others, by that entry's reason: an entry that equalities make one has no line, and what stands for these is named in
/// its place. Each line before the last claims what some entry claims whose product is a subset of the set.
pub fn write_certificate(
    alloc: Global,
    set: &RowBits,
    plan: &Plan,
    query: &Query,
    entries: &Entries,
    catalogue: &Catalogue,
) -> Result<Bytes, OutOfMemory>
    requires same_length { length plan.now.head ≡ length query.now.head }
    requires universal { IsUniversalPlan (rules_of catalogue.now.rules)
        (views_of catalogue.now.fragments) (query_of query.now) (plan_query plan.now) }
    requires satisfiable { IsSatisfiable (rules_of catalogue.now.rules) (query_of query.now) }
    requires listed { IsListed (rules_of catalogue.now.rules) (views_of catalogue.now.fragments)
        (patterns_of catalogue.now.fragments) (query_of query.now) (plan_query plan.now) set.now }
    requires entries { AreEntriesOf catalogue.now.fragments catalogue.now.rules catalogue.now.ranks
        plan.now entries.now }
    ensures written { IfOk result
        (IsWrittenFor catalogue.now query.now plan.now set.now entries.now) }
    ensures accepted { IfOk result (λ bytes. DecidesFor plan.now catalogue.now.fragments set.now
        catalogue.now.rules query.now bytes None) }
{
    plans_are_sound();
    queries_are_sound();
    entries_decide_answers();
    let rules = catalogue.rules.items();
    write_in(alloc, set, &plan.head, query, entries.items(), rules)
}
