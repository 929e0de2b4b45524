//! The command `answer`.
ghost use Rattle.std.specs.Prelude.{◌≡◌, ◌≤◌};
ghost use Rattle.esto_ports.specs.Faults.{Rises};
ghost use Rattle.esto_data.specs.Coding.{IsCoded, IsCodedOf};
ghost use Rattle.esto_fill.specs.declared.loaded.Loaded.{Loaded};
ghost use Rattle.esto_data.specs.Answer.{IsUnionAnswerOfFacts, answers_facts, answers_union, lists_texts};
ghost use Rattle.esto_status.specs.Answers.{Answers};
ghost use Rattle.esto_status.specs.Asked.{AsksIn};
ghost use Rattle.esto_query.specs.Unions.{FormUnion};

use crate::coded_answering::answer_union_coded;
use crate::coded_data::CodedData;
use crate::unions::load_union;
use esto_fill::{AnswerError, answers_rest_on_wanted_facts};
use esto_mapping::Catalogue;
use esto_ports::Shelf;
use esto_query::Queries;
use esto_run::union_rows_text;
use esto_status::{Reply, Status};
use esto_term::TextRows;
use std::alloc::Global;

// The answers of the queries together over the facts as rows of texts, or the status of a node in one.
fn rows_of(alloc: Global, queries: &Queries, coded: &mut CodedData) -> Result<TextRows, Status>
    requires union { FormUnion queries.now }
    requires coded { IsCoded coded.old }
    ensures { (loaded : Loaded) → IsCodedOf loaded coded.old
        → Answers (lists_texts (IsUnionAnswerOfFacts queries.now loaded.facts)) ⊥ result }
{
    match answer_union_coded(alloc, queries.items(), coded) {
        Ok(rows) => Ok(rows),
        Err(AnswerError::NodeInRow(column)) => Err(Status::NodeInRow(column)),
        Err(AnswerError::OutOfMemory) => Err(Status::OutOfMemory),
    }
}

// The answers of the queries together over the facts, which are let go, as rows of texts; or the status of a node in
// one.
fn taken_rows(alloc: Global, queries: &Queries, coded: CodedData) -> Result<TextRows, Status>
    requires union { FormUnion queries.now }
    requires coded { IsCoded coded }
    ensures { (loaded : Loaded) → IsCodedOf loaded coded
        → Answers (lists_texts (IsUnionAnswerOfFacts queries.now loaded.facts)) ⊥ result }
{
    let mut coded = coded;
    rows_of(alloc, queries, &mut coded)
}

// Gives the text of the answers of the union of the queries over the facts.
fn answer_data(alloc: Global, queries: &Queries, coded: CodedData) -> Result<Reply, Status>
    requires union { FormUnion queries.now }
    requires coded { IsCoded coded }
    ensures { (loaded : Loaded) → IsCodedOf loaded coded
        → Answers (answers_facts queries.now loaded.facts) ⊥ result }
{
    let rows = taken_rows(alloc, queries, coded)?;
    let text = union_rows_text(alloc, queries, &rows)?;
    Ok(Reply::Done(text))
}

/// Loads the datasets that one of the queries names, and gives the text of the answers of their union.
pub fn answer_queries<S: Shelf>(
    alloc: Global,
    shelf: &mut S,
    catalogue: &Catalogue,
    queries: &Queries,
) -> Result<Reply, Status>
    requires { FormUnion queries.now }
    ensures answer { Answers (answers_union (S.files shelf.old) catalogue.now queries.now)
        (Rises S.faults shelf.old shelf.new) result }
    ensures asked { AsksIn (S.asked shelf.old) (S.asked shelf.new)
        (answers_union (S.files shelf.old) catalogue.now queries.now) result }
    ensures files { S.files shelf.new ≡ S.files shelf.old }
    ensures later { S.faults shelf.old ≤ S.faults shelf.new }
{
    answers_rest_on_wanted_facts();
    let coded = load_union(alloc, shelf, catalogue, queries)?;
    answer_data(alloc, queries, coded)
}
