//! Whether the rows of views over rows of codes are rows of texts.
ghost use Rattle.esto_columns.specs.Interned.{Grows};
ghost use Rattle.esto_query.specs.Making.{query_of};
ghost use Rattle.esto_semantics.specs.Queries.{IsAnswer};
ghost use Rattle.esto_views.specs.Fragments.{views_of};
ghost use Rattle.esto_data.specs.CodedParts.{Stays};
ghost use Rattle.esto_data.specs.Coding.{IsCoded, IsCodedOf};
ghost use Rattle.esto_fill.specs.Databases.{database_of};
ghost use Rattle.esto_fill.specs.Texts.{JudgesRows, JudgesViews};
ghost use Rattle.esto_fill.specs.declared.loaded.Loaded.{Loaded};

use crate::coded_answering::rows_of;
use crate::coded_data::CodedData;
use crate::coded_nodes::is_free_view;
use esto_coded::least_node;
use esto_fill::{AnswerError, facts_stand_as_databases, loaded_facts_are_flat, node_at};
use esto_mapping::Catalogue;
use esto_query::{Query, queries_are_sound};
use esto_semantics::databases_stand_for_facts;
use std::alloc::Global;

// Whether no row of the view holds a node. No rows are looked at where each term of its head is a constant or stands in
// a column that holds no node.
fn judge_view(alloc: Global, view: &Query, coded: &mut CodedData) -> Result<(), AnswerError>
    ensures rows { (loaded : Loaded) → IsCodedOf loaded coded.old
        → JudgesRows (IsAnswer (query_of view.now) (database_of loaded.facts)) result }
    ensures stays { Stays coded.old coded.new }
{
    databases_stand_for_facts();
    facts_stand_as_databases();
    loaded_facts_are_flat();
    queries_are_sound();
    if is_free_view(&coded.facts, view) {
        return Ok(());
    }
    let rows = rows_of(alloc, view, coded)?;
    match least_node(&rows) {
        Some(place) => Err(node_at(place)),
        None => Ok(()),
    }
}

/// As `esto_fill::audit_views`, over whatever facts the rows of codes stand for.
pub fn audit_views_coded(
    alloc: Global,
    catalogue: &Catalogue,
    coded: &mut CodedData,
) -> Result<(), AnswerError>
    requires { IsCoded coded.old }
    ensures views { (loaded : Loaded) → IsCodedOf loaded coded.old
        → JudgesViews (views_of catalogue.now.fragments) (database_of loaded.facts) result }
    ensures kept { (loaded : Loaded) → IsCodedOf loaded coded.old → IsCodedOf loaded coded.new }
    ensures grown { Grows coded.old.facts.texts coded.new.facts.texts }
{
    'fragments: for fragment in catalogue.fragments.items() {
        match judge_view(alloc, &fragment.view, coded) {
            Ok(()) => {}
            Err(error) => return Err(error),
        }
    }
    Ok(())
}
