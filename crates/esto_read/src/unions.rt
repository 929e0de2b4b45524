//! Unions of queries, from their texts.
ghost use Rattle.std.specs.Prelude.{◌≡◌, [], ◌∷◌, ◌++◌, Contains, IfOk, IfErr, OnOk, IsUtf8};
ghost use Rattle.esto_query.specs.Making.{query_of};
ghost use Rattle.esto_query.specs.Schemas.{arities_of};
ghost use Rattle.esto_semantics.specs.WellFormed.{IsQueryOver};
ghost use Rattle.esto_text.specs.Faults.{StandsAt};
ghost use Rattle.esto_text.specs.View.{tree_of};
ghost use Rattle.esto_read.specs.Readings.{HasParts};
ghost use Rattle.esto_read.specs.Unions.{IsSaidWith, IsErrorWith, HaveOneLength, IsUnionReading, IsUnionError, HaveOneUnion, HaveNoUnionFault};
ghost use Rattle.esto_read.specs.Unions.{HaveOneUnionFault, UnionOfOneIsQuery};
ghost use Rattle.esto_docmodel.specs.Words.{IsVocabulary};
ghost use Rattle.esto_read.specs.declared.read.NamedQuery.{NamedQuery};

use crate::read::{Form, NamedQuery, said};
use esto_docmodel::Vocabulary;
use esto_query::Schema;
use esto_term::List;
use esto_text::{
    QuerySyntax, ReadError, TextFault, TextKind, read_union_tree, unions_are_determined,
};
use std::alloc::Global;

/// The queries of a union, with the names of their heads, in order.
pub type NamedQueries = List<NamedQuery>;

/// Adds the query that a tree of the text says, whose head is to have so many names.
fn add_said_with(
    alloc: Global,
    bytes: &[u8],
    tree: &QuerySyntax,
    words: &Vocabulary,
    schema: &Schema,
    count: usize,
    queries: &mut NamedQueries,
) -> Result<(), ReadError>
    requires words { IsVocabulary (arities_of schema.now) words.now }
    requires utf8 { IsUtf8 bytes.now }
    requires parts { HasParts (tree_of tree.now) }
    requires stands { StandsAt bytes.now (tree_of tree.now) }
    ensures added { OnOk result ((query : NamedQuery)
        × IsSaidWith count words.now (arities_of schema.now) bytes.now (tree_of tree.now) query
        × IsQueryOver (arities_of schema.now) (query_of query.query)
        × (queries.new ≡ queries.old ++ query ∷ [])) }
    ensures error { IfErr result (IsErrorWith
        count words.now (arities_of schema.now) bytes.now (tree_of tree.now)) }
{
    if tree.variables.len() != count {
        return Err(ReadError::Fault(TextFault {
            offset: tree.name.start,
            kind: TextKind::HeadLength,
        }));
    }
    let query = said(alloc, bytes, tree, words, schema, Form::Query)?;
    queries.push(query)?;
    Ok(())
}

/// The queries that a text is, parted by `;`, over the datasets that the words name, with their names; or the text's first
/// fault: Utf8 and Syntax of the whole text, and then query by query HeadLength, at the query's first token where its head
/// has another length than the first one's, and that query's faults. At most 16 queries stand in a union.
pub fn read_union(
    alloc: Global,
    bytes: &[u8],
    words: &Vocabulary,
    schema: &Schema,
) -> Result<NamedQueries, ReadError>
    requires words { IsVocabulary (arities_of schema.now) words.now }
    // The answer is the text's reading.
    ensures reading { IfOk result (IsUnionReading
        words.now (arities_of schema.now) bytes.now) }
    // Each query is over the schema, and its constants are UTF-8.
    ensures over { IfOk result (λ queries. (query : NamedQuery) → Contains queries query
        → IsQueryOver (arities_of schema.now) (query_of query.query)) }
    // Their heads are of one length.
    ensures lengths { IfOk result HaveOneLength }
    // A fault is the text's first fault.
    ensures error { IfErr result (IsUnionError words.now (arities_of schema.now) bytes.now) }
{
    let trees = read_union_tree(alloc, bytes)?;
    let count = trees.item(0).variables.len();
    let mut queries = List::new(alloc);
    'trees: for tree in trees.items() {
        add_said_with(alloc, bytes, tree, words, schema, count, &mut queries)?;
    }
    Ok(queries)
}

/// A law: a text has at most one reading as a union and at most one first fault, and never both.
pub fn union_readings_are_determined()
    ensures reading { HaveOneUnion }
    ensures apart { HaveNoUnionFault }
    ensures fault { HaveOneUnionFault }
{
    unions_are_determined();
}

/// A law: a text is read as a union of one query exactly where it is read as that query.
pub fn unions_of_one_are_queries()
    ensures { UnionOfOneIsQuery }
{
    unions_are_determined();
}
