//! The answers of a query, and of a union of queries, over rows of codes.
ghost use Rattle.std.specs.Prelude.{◌≡◌, ◌∷◌, ◌++◌, [], List, length, map, Contains, IfOk, OnOk};
ghost use Rattle.esto_coded.specs.Coded.{AreTelling};
ghost use Rattle.esto_columns.specs.Interned.{Grows};
ghost use Rattle.esto_query.specs.Making.{query_of};
ghost use Rattle.esto_query.specs.declared.query.Query.{Query};
ghost use Rattle.esto_semantics.specs.Queries.{IsAnswer, IsAnswerInto};
ghost use Rattle.esto_semantics.specs.Unions.{IsUnionAnswer};
ghost use Rattle.esto_term.specs.declared.term.Term.TheVariants.{Const};
ghost use Rattle.esto_data.specs.CodedParts.{AreRowsOf, HaveTerms, IsUnionRow, ShowsRows, Stays};
ghost use Rattle.esto_data.specs.Coding.{HaveOneLength, IsCoded, IsCodedOf};
ghost use Rattle.esto_fill.specs.Databases.{database_of};
ghost use Rattle.esto_fill.specs.Texts.{GivesTexts};
ghost use Rattle.esto_fill.specs.declared.loaded.Loaded.{Loaded};

use crate::coded_data::CodedData;
use esto_coded::{CodedFacts, least_node, put_rows};
use esto_columns::Rows;
use esto_fill::{AnswerError, facts_stand_as_databases, loaded_facts_are_flat, node_at};
use esto_query::{Query, queries_are_sound};
use esto_semantics::databases_stand_for_facts;
use esto_term::{OutOfMemory, TextRows};
use std::alloc::Global;

// The rows of codes as texts, each once, in order; or the least column in which one of them has a node.
fn shown(alloc: Global, facts: &CodedFacts, rows: &Rows) -> Result<TextRows, AnswerError>
    requires { HaveTerms facts.now.texts rows.now.rows }
    ensures { ShowsRows facts.now.texts rows.now.rows result }
{
    if let Some(place) = least_node(rows) {
        return Err(node_at(place));
    }
    let texts = facts.sorted_texts(alloc, rows)?;
    Ok(texts)
}

/// The answers of the query, as rows of codes, which are those of rows of terms.
pub fn rows_of(alloc: Global, query: &Query, coded: &mut CodedData) -> Result<Rows, OutOfMemory>
    ensures rows { IfOk result (λ it. (loaded : Loaded) → IsCodedOf loaded coded.old
        → AreRowsOf coded.new.facts.texts it.rows
        (IsAnswerInto Const (query_of query.now) (Contains loaded.facts))) }
    ensures telling { IfOk result (λ _. AreTelling coded.new.facts.texts) }
    ensures arity { IfOk result (λ it. it.arity ≡ length query.now.head) }
    ensures stays { Stays coded.old coded.new }
{
    queries_are_sound();
    coded
        .facts
        .answers(alloc, query.head.items(), query.body.items())
}

/// As `esto_fill::answer`, over whatever facts the rows of codes stand for.
pub fn answer_coded(
    alloc: Global,
    query: &Query,
    coded: &mut CodedData,
) -> Result<TextRows, AnswerError>
    requires { IsCoded coded.old }
    ensures rows { (loaded : Loaded) → IsCodedOf loaded coded.old
        → GivesTexts (IsAnswer (query_of query.now) (database_of loaded.facts)) result }
    ensures kept { (loaded : Loaded) → IsCodedOf loaded coded.old → IsCodedOf loaded coded.new }
    ensures grown { Grows coded.old.facts.texts coded.new.facts.texts }
{
    databases_stand_for_facts();
    facts_stand_as_databases();
    loaded_facts_are_flat();
    queries_are_sound();
    let rows = rows_of(alloc, query, coded)?;
    shown(alloc, &coded.facts, &rows)
}

// Puts the answers of the query after the rows.
fn add_answers(
    alloc: Global,
    query: &Query,
    coded: &mut CodedData,
    rows: &mut Rows,
) -> Result<(), OutOfMemory>
    requires { rows.old.arity ≡ length query.now.head }
    ensures rows { OnOk result ((queries : List Query) (loaded : Loaded)
        → IsCodedOf loaded coded.old
        → AreRowsOf coded.old.facts.texts rows.old.rows (IsUnionRow queries loaded.facts)
        → AreRowsOf coded.new.facts.texts rows.new.rows
        (IsUnionRow (queries ++ query.now ∷ []) loaded.facts)) }
    ensures arity { OnOk result (rows.new.arity ≡ rows.old.arity) }
    ensures stays { Stays coded.old coded.new }
{
    let own = rows_of(alloc, query, coded)?;
    put_rows(alloc, own, rows)
}

// How many terms the head of the first of the queries has.
fn width_of(queries: &[Query]) -> usize
    requires { HaveOneLength queries.now }
    ensures { (query : Query) → Contains queries.now query → length query.head ≡ result }
{
    match queries.first() {
        Some(query) => query.head.len(),
        None => 0,
    }
}

// The answers of the queries together, as rows of codes.
fn union_rows(alloc: Global, queries: &[Query], coded: &mut CodedData) -> Result<Rows, OutOfMemory>
    requires { HaveOneLength queries.now }
    ensures rows { IfOk result (λ it. (loaded : Loaded) → IsCodedOf loaded coded.old
        → AreRowsOf coded.new.facts.texts it.rows (IsUnionRow queries.now loaded.facts)) }
    ensures stays { Stays coded.old coded.new }
{
    let width = width_of(queries);
    let mut rows = Rows::new(alloc, width)?;
    'queries: for query in queries {
        add_answers(alloc, query, coded, &mut rows)?;
    }
    Ok(rows)
}

/// The answers of the union of the queries over the database of whatever facts the rows of codes stand for, as texts:
/// each once, in rising order, cell by cell by bytes. NodeInRow comes exactly where some answer of one of them holds a
/// node, with the least column that has one, counted from 1.
pub fn answer_union_coded(
    alloc: Global,
    queries: &[Query],
    coded: &mut CodedData,
) -> Result<TextRows, AnswerError>
    requires lengths { HaveOneLength queries.now }
    requires coded { IsCoded coded.old }
    ensures rows { (loaded : Loaded) → IsCodedOf loaded coded.old
        → GivesTexts (IsUnionAnswer (map query_of queries.now) (database_of loaded.facts)) result }
    ensures kept { (loaded : Loaded) → IsCodedOf loaded coded.old → IsCodedOf loaded coded.new }
    ensures grown { Grows coded.old.facts.texts coded.new.facts.texts }
{
    databases_stand_for_facts();
    facts_stand_as_databases();
    loaded_facts_are_flat();
    queries_are_sound();
    let rows = union_rows(alloc, queries, coded)?;
    shown(alloc, &coded.facts, &rows)
}
