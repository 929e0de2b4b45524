//! The walk over the rows of the whole catalogue.
ghost use Rattle.std.specs.Prelude.{◌≡◌, ◌≤◌, List, length, IfOk, IfErr};
ghost use Rattle.esto_constraint.specs.declared.rule.Constraint.{Constraint};
ghost use Rattle.esto_query.specs.Schemas.{arities_of};
ghost use Rattle.esto_catalog.specs.Determined.{HaveOneCatalogue, HaveNoError, HaveOneError};
ghost use Rattle.esto_catalog.specs.Kept.{ReadingsHaveRelations, ReadingsHaveEncodings};
ghost use Rattle.esto_catalog.specs.Reading.{IsRankedOf, IsCatalogueOf, IsCatalogueError, IsMadeOf, is_ranked, reads_ranked, reads_fragments_and_rules};
ghost use Rattle.esto_catalog.specs.Reading.{reads_sections, reads_catalogue};
ghost use Rattle.esto_catalog.specs.Rows.{Walks};
ghost use Rattle.esto_catalog.specs.Rules.{AreAllRules};
ghost use Rattle.esto_catalog.specs.Soundness.{AreSoundFragments, AreSoundRules};
ghost use Rattle.esto_catalog.specs.Scope.{IsScope};
ghost use Rattle.esto_catalog.specs.declared.whole.TheConstants.{MAX_ENTRIES};
ghost use Rattle.esto_text.specs.declared.version.Version.{Version};

use crate::constraint::read_constraints;
use crate::dataset::read_datasets;
use crate::fault::CatalogueError;
use crate::fragment::{Fragments, read_fragments};
use crate::rules::with_encodings;
use crate::scope::{Scope, scope_of};
use crate::whole::{Sections, read_whole};
use either::{Left, Right};
use esto_acyclic::{judge, judgements_are_exact};
use esto_constraint::{Ranks, Rules};
use esto_mapping::Catalogue;
use esto_read::{
    constraint_readings_are_determined, layout_readings_are_determined, readings_are_determined,
    views_name_their_columns,
};
use std::alloc::Global;

/// All rules, of which so many come first as they are given, and the ranks of the relations by
/// them.
#[derive(Drop)]
pub struct Ranked {
    pub rules: Rules,
    pub given: usize,
    pub ranks: Ranks,
}

// Where these are all the rules, so many of them given: the rules with the ranks of the relations
// by them; or the least cycle of their graph of relations.
fn rank_rules(
    alloc: Global,
    scope: &Scope,
    rules: Rules,
    given: usize,
) -> Result<Ranked, CatalogueError>
    requires scope { IsScope scope.now }
    requires rules { AreSoundRules (arities_of scope.now.schema) rules }
    ensures course { (version : Version) (own : List Constraint)
        → AreAllRules version scope.now.datasets own rules → given ≡ length own
        → Walks (is_ranked version scope.now.datasets own) result }
    ensures over { IfOk result (λ it. AreSoundRules (arities_of scope.now.schema) it.rules) }
{
    match judge(alloc, &scope.schema, &rules)? {
        Left(ranks) => Ok(Ranked {
            rules,
            given,
            ranks,
        }),
        Right(cycle) => Err(CatalogueError::NotAcyclic(cycle)),
    }
}

// The constraints and then the rules of the encodings, with the ranks of the relations by them; or
// the least cycle of their graph of relations.
fn read_ranked(alloc: Global, sections: &Sections, scope: &Scope) -> Result<Ranked, CatalogueError>
    requires { IsScope scope.now }
    ensures rules { Walks (reads_ranked sections.now scope.now.datasets) result }
    ensures over { IfOk result (λ it. AreSoundRules (arities_of scope.now.schema) it.rules) }
{
    let entries = sections.constraints.items();
    let own = read_constraints(alloc, sections.version, scope, entries)?;
    let given = own.len();
    let rules = with_encodings(alloc, sections.version, scope, own)?;
    rank_rules(alloc, scope, rules, given)
}

// The rows after those of the datasets, in order: fragments, constraints; then the graph of the
// rules.
fn read_fragments_and_rules(
    alloc: Global,
    sections: &Sections,
    scope: &Scope,
) -> Result<(Fragments, Ranked), CatalogueError>
    requires { IsScope scope.now }
    ensures both { Walks (reads_fragments_and_rules sections.now scope.now.datasets) result }
    ensures fragments { IfOk result (λ it. AreSoundFragments (arities_of scope.now.schema) it.0) }
    ensures rules { IfOk result (λ it. AreSoundRules (arities_of scope.now.schema) it.1.rules) }
{
    let fragments = read_fragments(alloc, scope, sections.fragments.items())?;
    let ranked = read_ranked(alloc, sections, scope)?;
    Ok((fragments, ranked))
}

// The catalogue of datasets, fragments and ranked rules, that asks for the core of the plan or not.
fn catalogue_of(scope: Scope, core: bool, fragments: Fragments, ranked: Ranked) -> Catalogue
    requires scope { IsScope scope }
    requires fragments { AreSoundFragments (arities_of scope.schema) fragments }
    requires rules { AreSoundRules (arities_of scope.schema) ranked.rules }
    requires ranked { (version : Version) × (own : List Constraint)
        × IsRankedOf version scope.datasets own ranked }
    ensures { IsMadeOf core scope.datasets fragments ranked result }
{
    let Scope {
        datasets,
        schema,
        words,
    } = scope;
    let Fragments {
        definitions,
        stores,
    } = fragments;
    let Ranked {
        rules,
        given,
        ranks,
    } = ranked;
    Catalogue {
        schema,
        words,
        datasets,
        fragments: definitions,
        stores,
        rules,
        given,
        ranks,
        core,
    }
}

// The rows of the sections, in order: datasets, fragments, constraints; then the graph of the
// rules.
fn read_sections(alloc: Global, sections: &Sections) -> Result<Catalogue, CatalogueError>
    requires { length sections.now.datasets ≤ MAX_ENTRIES }
    ensures { Walks (reads_sections sections.now) result }
{
    let datasets = read_datasets(alloc, sections.datasets.items())?;
    let scope = scope_of(alloc, datasets)?;
    let (fragments, ranked) = read_fragments_and_rules(alloc, sections, &scope)?;
    Ok(catalogue_of(scope, sections.core, fragments, ranked))
}

// The walk over the rows, in order: the whole file, datasets, fragments, constraints; then the
// graph of the rules.
fn walk(alloc: Global, bytes: &[u8]) -> Result<Catalogue, CatalogueError>
    ensures { Walks (reads_catalogue bytes.now) result }
{
    let sections = read_whole(alloc, bytes)?;
    read_sections(alloc, &sections)
}

/// The catalogue that the bytes say; or its first fault; or, where there is none, the least cycle
/// by which a relation leads back to itself.
pub fn read_catalogue(alloc: Global, bytes: &[u8]) -> Result<Catalogue, CatalogueError>
    // The answer is the reading of the bytes.
    ensures reading { IfOk result (IsCatalogueOf bytes.now) }
    // A fault is the first one; a cycle is told only where there is no fault, and is the least.
    ensures error { IfErr result (IsCatalogueError bytes.now) }
{
    walk(alloc, bytes)
}

/// A law: a catalogue that is read has the relations of its datasets, one dataset after another;
/// and it keeps its own constraints first, as many as it counts, and then the rules of the
/// encodings of its datasets, with the names of their variables.
pub fn catalogues_keep_their_datasets()
    ensures relations { ReadingsHaveRelations }
    ensures encodings { ReadingsHaveEncodings }
{}

/// A law: bytes say at most one catalogue, up to what its views, patterns and rules mean, or have
/// at most one first fault, and never both. Want of memory is excepted.
pub fn catalogues_are_determined()
    ensures catalogue { HaveOneCatalogue }
    ensures apart { HaveNoError }
    ensures error { HaveOneError }
{
    readings_are_determined();
    layout_readings_are_determined();
    views_name_their_columns();
    constraint_readings_are_determined();
    judgements_are_exact();
}
