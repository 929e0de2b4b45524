//! Whether the facts of datasets and the rows of fragments agree, and the first difference.
ghost use Rattle.std.specs.Prelude.{◌≡◌, length, map, IfOk};
ghost use Rattle.esto_constraint.specs.Constraints.{rules_of};
ghost use Rattle.esto_constraint.specs.EncodingRules.{written};
ghost use Rattle.esto_steps.specs.Rows.{IsRowOf, held_by};
ghost use Rattle.esto_query.specs.Making.{query_of};
ghost use Rattle.esto_semantics.specs.Maps.{AreFlat};
ghost use Rattle.esto_semantics.specs.Queries.{IsAnswer};
ghost use Rattle.esto_views.specs.Fragments.{views_of};
ghost use Rattle.esto_fill.specs.Databases.{database_of};
ghost use Rattle.esto_fill.specs.Differences.{Audits};
ghost use Rattle.esto_fill.specs.Judging.{JudgesRules, JudgesFragment, JudgesFragments};
ghost use Rattle.esto_fill.specs.Texts.{AreTextsOf, AreTextViews, HaveTextsOnly};

use crate::apart::{apart_rows, ordered_texts};
use crate::loaded::Loaded;
use crate::part::difference_of;
use crate::rows::constant_texts;
use crate::views::indexed;
use esto_constraint::{meets, rules_are_sound};
use esto_mapping::Catalogue;
use esto_ports::Difference;
use esto_query::{IndexedFacts, Query, queries_are_sound};
use esto_semantics::{Facts, databases_stand_for_facts};
use esto_term::{List, OutOfMemory, TextRows};
use esto_views::{FragmentDef, FragmentDefs};
use std::alloc::Global;

/// The rows of fragments, a list for each, in order.
pub type TextRowsList = List<TextRows>;

// The first rule that the facts do not meet, with the record of its least active match. None comes exactly where they
// meet each rule.
fn broken_rule(
    alloc: Global,
    catalogue: &Catalogue,
    facts: &Facts,
) -> Result<Option<Difference>, OutOfMemory>
    requires { AreFlat facts.now }
    ensures { IfOk result (JudgesRules (rules_of catalogue.now.rules)
        (map written catalogue.now.rules) facts.now) }
{
    databases_stand_for_facts();
    rules_are_sound();
    let Some(broken) = meets(alloc, &catalogue.rules, facts)? else {
        return Ok(None);
    };
    difference_of(alloc, catalogue, broken.rule, &broken.found.valuation)
}

// The rows of the view over the facts, which hold no node, as texts, each once, in order.
fn view_rows(alloc: Global, view: &Query, facts: &IndexedFacts) -> Result<TextRows, OutOfMemory>
    requires flat { AreFlat facts.now }
    requires texts { HaveTextsOnly (IsAnswer (query_of view.now) (database_of facts.now)) }
    ensures { IfOk result (AreTextsOf (IsAnswer (query_of view.now) (database_of facts.now))) }
{
    databases_stand_for_facts();
    queries_are_sound();
    let rows = facts.answers(alloc, view)?;
    constant_texts(alloc, rows.items())
}

// The least row that is in the view's rows or in the fragment's and not in both. None comes exactly where they are the same.
fn apart_of(
    alloc: Global,
    fragment: &FragmentDef,
    facts: &IndexedFacts,
    rows: &TextRows,
) -> Result<Option<Difference>, OutOfMemory>
    requires flat { AreFlat facts.now }
    requires texts { HaveTextsOnly (IsAnswer (query_of fragment.now.view)
        (database_of facts.now)) }
    ensures { IfOk result (JudgesFragment fragment.now.name
        (IsAnswer (query_of fragment.now.view) (database_of facts.now)) rows.now) }
{
    let own = view_rows(alloc, &fragment.view, facts)?;
    let held = ordered_texts(alloc, rows)?;
    apart_rows(alloc, &fragment.name, own.items(), held.items())
}

// The first fragment whose rows are not its view's, with the least row that is in one of the two alone. None comes exactly
// where each fragment has its view's rows.
fn apart_fragment(
    alloc: Global,
    fragments: &FragmentDefs,
    facts: &IndexedFacts,
    rows: &TextRowsList,
) -> Result<Option<Difference>, OutOfMemory>
    requires many { length rows.now ≡ length fragments.now }
    requires flat { AreFlat facts.now }
    requires texts { AreTextViews (views_of fragments.now) (database_of facts.now) }
    ensures { IfOk result (JudgesFragments (map (λ fragment. fragment.name) fragments.now)
        (views_of fragments.now) (database_of facts.now) rows.now) }
{
    'fragments: for number in 0..fragments.len() {
        let fragment = fragments.item(number);
        if let Some(difference) = apart_of(alloc, fragment, facts, rows.item(number))? {
            return Ok(Some(difference));
        }
    }
    Ok(None)
}

/// Whether the database of the facts meets each rule of the catalogue, and the rows of each fragment are, as a set, those
/// of its view over it: None comes exactly there. Else the first difference. Of the rules by number it is the first that is
/// not met, with its least active match by the places of the facts; where all are met, of the fragments in order the first
/// that has other rows, with the least row, cell by cell by bytes, that is in one of the two sets alone.
pub fn audit(
    alloc: Global,
    catalogue: &Catalogue,
    loaded: &Loaded,
    rows: &TextRowsList,
) -> Result<Option<Difference>, OutOfMemory>
    requires many { length rows.now ≡ length catalogue.now.fragments }
    requires texts { AreTextViews (views_of catalogue.now.fragments)
        (database_of loaded.now.facts) }
    ensures { IfOk result (λ outcome. Audits (rules_of catalogue.now.rules)
        (map written catalogue.now.rules)
        (map (λ fragment. fragment.name) catalogue.now.fragments)
        (views_of catalogue.now.fragments) loaded.now.facts (IsRowOf (held_by rows.now)) outcome) }
{
    if let Some(difference) = broken_rule(alloc, catalogue, &loaded.facts)? {
        return Ok(Some(difference));
    }
    let facts = indexed(alloc, &catalogue.fragments, &loaded.facts)?;
    apart_fragment(alloc, &catalogue.fragments, &facts, rows)
}
