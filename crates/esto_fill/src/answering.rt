//! The answers of a query over the facts of datasets.
ghost use Rattle.esto_query.specs.Making.{query_of};
ghost use Rattle.esto_semantics.specs.Queries.{IsAnswer};
ghost use Rattle.esto_fill.specs.Databases.{database_of};
ghost use Rattle.esto_fill.specs.Texts.{GivesTexts};

use crate::loaded::Loaded;
use crate::rows::{AnswerError, texts_of};
use esto_query::{Query, answers, queries_are_sound};
use esto_semantics::databases_stand_for_facts;
use esto_term::TextRows;
use std::alloc::Global;

/// The query's answers over the database of the facts, as texts: each once, in rising order, cell by cell by bytes.
/// NodeInRow comes exactly where some answer holds a node, with the least column that has one, counted from 1.
pub fn answer(alloc: Global, query: &Query, loaded: &Loaded) -> Result<TextRows, AnswerError>
    ensures { GivesTexts (IsAnswer (query_of query.now) (database_of loaded.now.facts)) result }
{
    databases_stand_for_facts();
    queries_are_sound();
    let rows = answers(alloc, query, &loaded.facts)?;
    texts_of(alloc, rows.items())
}
