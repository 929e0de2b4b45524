//! The difference of a fragment that has other rows than its view, from rows of codes.
ghost use Rattle.std.specs.Prelude.{List, IfOk};
ghost use Rattle.esto_columns.specs.Interned.{AreCodedRows, Grows};
ghost use Rattle.esto_query.specs.Making.{query_of};
ghost use Rattle.esto_semantics.specs.Queries.{IsAnswer};
ghost use Rattle.esto_stores.specs.Rows.{Row};
ghost use Rattle.esto_data.specs.Coding.{IsCodedOf};
ghost use Rattle.esto_fill.specs.Databases.{database_of};
ghost use Rattle.esto_fill.specs.Judging.{JudgesFragment};
ghost use Rattle.esto_fill.specs.Texts.{AreTextsOf, HaveTextsOnly};
ghost use Rattle.esto_fill.specs.declared.loaded.Loaded.{Loaded};

use crate::coded_answering::answer_coded;
use crate::coded_data::CodedData;
use esto_columns::Rows;
use esto_fill::{AnswerError, Difference, apart_rows};
use esto_query::Query;
use esto_term::{OutOfMemory, TextRows};
use esto_views::FragmentDef;
use std::alloc::Global;

// The rows of the view, which hold no node, as texts, each once, in order.
fn view_texts(alloc: Global, view: &Query, coded: &mut CodedData) -> Result<TextRows, OutOfMemory>
    requires { (loaded : Loaded) × IsCodedOf loaded coded.old
        × HaveTextsOnly (IsAnswer (query_of view.now) (database_of loaded.facts)) }
    ensures rows { IfOk result (λ it. (loaded : Loaded) → IsCodedOf loaded coded.old
        → AreTextsOf (IsAnswer (query_of view.now) (database_of loaded.facts)) it) }
    ensures grown { Grows coded.old.facts.texts coded.new.facts.texts }
{
    match answer_coded(alloc, view, coded) {
        Ok(rows) => Ok(rows),
        Err(AnswerError::NodeInRow(_)) => unreachable!(),
        Err(AnswerError::OutOfMemory) => Err(OutOfMemory),
    }
}

/// The least row, cell by cell by bytes, that is in one alone of the fragment's view and the rows of codes: the
/// fragment lacks it where the view has it, and else holds it too many. None comes exactly where both have the same
/// rows.
pub fn fragment_difference(
    alloc: Global,
    fragment: &FragmentDef,
    rows: &Rows,
    coded: &mut CodedData,
) -> Result<Option<Difference>, OutOfMemory>
    requires texts { (loaded : Loaded) × IsCodedOf loaded coded.old
        × HaveTextsOnly (IsAnswer (query_of fragment.now.view) (database_of loaded.facts)) }
    requires rows { (list : List Row) × AreCodedRows coded.old.facts.texts rows.now.rows list }
    ensures { IfOk result (λ it. (loaded : Loaded) → IsCodedOf loaded coded.old
        → (list : List Row) → AreCodedRows coded.old.facts.texts rows.now.rows list
        → JudgesFragment fragment.now.name
        (IsAnswer (query_of fragment.now.view) (database_of loaded.facts)) list it) }
{
    let own = view_texts(alloc, &fragment.view, coded)?;
    let held = coded.facts.sorted_texts(alloc, rows)?;
    apart_rows(alloc, &fragment.name, own.items(), held.items())
}
