//! Whether the rows of views are rows of texts.
ghost use Rattle.std.specs.Prelude.{◌≡◌, IfOk};
ghost use Rattle.esto_query.specs.Making.{query_of};
ghost use Rattle.esto_semantics.specs.Maps.{AreFlat};
ghost use Rattle.esto_semantics.specs.Queries.{IsAnswer};
ghost use Rattle.esto_views.specs.Fragments.{views_of};
ghost use Rattle.esto_fill.specs.Databases.{database_of};
ghost use Rattle.esto_fill.specs.Texts.{JudgesRows, JudgesViews};

use crate::loaded::Loaded;
use crate::nodes::{are_free, node_columns};
use crate::rows::{AnswerError, least_open, node_at};
use esto_mapping::Catalogue;
use esto_query::{Columns, IndexedFacts, Query, queries_are_sound};
use esto_semantics::{Facts, databases_stand_for_facts};
use esto_term::OutOfMemory;
use esto_views::FragmentDefs;
use std::alloc::Global;

// Whether no row of the view over the database of the facts holds a node.
fn judge_view(alloc: Global, view: &Query, facts: &IndexedFacts) -> Result<(), AnswerError>
    requires { AreFlat facts.now }
    ensures { JudgesRows (IsAnswer (query_of view.now) (database_of facts.now)) result }
{
    databases_stand_for_facts();
    queries_are_sound();
    let rows = facts.answers(alloc, view)?;
    match least_open(rows.items()) {
        Some(place) => Err(node_at(place)),
        None => Ok(()),
    }
}

// Adds the columns by which the rows of the fragments' views are found.
fn add_views(
    alloc: Global,
    columns: &mut Columns,
    fragments: &FragmentDefs,
) -> Result<(), OutOfMemory> {
    'fragments: for fragment in fragments.items() {
        columns.add_asked(alloc, &[], fragment.view.body.items())?;
    }
    Ok(())
}

/// The facts with their index by the columns by which the rows of the fragments' views are found.
pub fn indexed<'a>(
    alloc: Global,
    fragments: &FragmentDefs,
    facts: &'a Facts,
) -> Result<IndexedFacts<'a>, OutOfMemory>
    ensures { IfOk result (λ it. it ≡ facts.now) }
{
    let mut columns = Columns::none(alloc);
    add_views(alloc, &mut columns, fragments)?;
    IndexedFacts::by(alloc, columns, facts)
}

// Whether no row of a fragment's view over the database of the facts holds a node, by the rows of each view.
fn judge_each(
    alloc: Global,
    fragments: &FragmentDefs,
    facts: &IndexedFacts,
) -> Result<(), AnswerError>
    requires { AreFlat facts.now }
    ensures { JudgesViews (views_of fragments.now) (database_of facts.now) result }
{
    'fragments: for fragment in fragments.items() {
        match judge_view(alloc, &fragment.view, facts) {
            Ok(()) => {}
            Err(error) => return Err(error),
        }
    }
    Ok(())
}

// The same over facts that are loaded.
fn judge_views(alloc: Global, catalogue: &Catalogue, loaded: &Loaded) -> Result<(), AnswerError>
    ensures { JudgesViews (views_of catalogue.now.fragments)
        (database_of loaded.now.facts) result }
{
    let facts = indexed(alloc, &catalogue.fragments, &loaded.facts)?;
    judge_each(alloc, &catalogue.fragments, &facts)
}

/// Whether no row of a fragment's view over the database of the facts holds a node. NodeInRow comes exactly where one
/// does, with the least column that has one in the rows of the first such fragment, counted from 1.
// No rows are looked at where each term of each view's head is a constant or stands in a column that holds no node.
pub fn audit_views(alloc: Global, catalogue: &Catalogue, loaded: &Loaded) -> Result<(), AnswerError>
    ensures { JudgesViews (views_of catalogue.now.fragments)
        (database_of loaded.now.facts) result }
{
    let columns = node_columns(alloc, loaded.facts.items())?;
    if are_free(columns.items(), catalogue.fragments.items()) {
        return Ok(());
    }
    judge_views(alloc, catalogue, loaded)
}
