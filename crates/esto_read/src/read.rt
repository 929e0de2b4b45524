//! Queries and views, from their texts.
ghost use Rattle.std.specs.Prelude.{◌≡◌, [], length, MatchOption, IfOk, IfErr, IsUtf8};
ghost use Rattle.std.specs.List.{AllByRecursion};
ghost use Rattle.esto_query.specs.Making.{query_of};
ghost use Rattle.esto_semantics.specs.WellFormed.{IsQueryOver};
ghost use Rattle.esto_query.specs.Schemas.{arities_of};
ghost use Rattle.esto_text.specs.Faults.{IsNameIn, StandsAt};
ghost use Rattle.esto_text.specs.View.{tree_of};
ghost use Rattle.esto_read.specs.declared.read.Form.{Form};
ghost use Rattle.esto_docmodel.specs.Words.{IsVocabulary};
ghost use Rattle.esto_read.specs.Naming.{ViewsNameTheirColumns};
ghost use Rattle.esto_read.specs.Readings.{IsRead, HasVariables, IsAllowed, IsRefused, IsHeadFit, IsHeadFault, IsSaid, IsReading, IsTreeError, HasParts};
ghost use Rattle.esto_read.specs.Readings.{IsReadError, HaveOneReading, HaveNoFault, HaveOneFault};

use crate::body::{body, fault_at};
use crate::constant::{bytes_of, plain};
use crate::head::{first_missing, first_repeat};
use crate::make::query;
use crate::term::terms;
use esto_docmodel::Vocabulary;
use esto_query::{Names, Query, Schema};
use esto_semantics::{Atom, Atoms};
use esto_term::{List, OutOfMemory, Replicate, Term, Terms, Text};
use esto_text::{
    QuerySyntax, ReadError, TextFault, TextKind, Token, read_query_tree, trees_are_determined,
};
use std::alloc::Global;

/// A query or a view, and the name of its head.
#[derive(Drop)]
pub struct NamedQuery {
    pub name: Text,
    pub query: Query,
}

impl Replicate for NamedQuery {
    fn copy(&self, alloc: Global) -> Result<NamedQuery, OutOfMemory> {
        let name = self.name.copy(alloc)?;
        let query = self.query.copy(alloc)?;
        Ok(NamedQuery { name, query })
    }
}

/// What a text is to be.
#[derive(Clone, Copy)]
pub enum Form {
    Query,
    /// A view, whose head has each name once.
    View,
}

/// What is wrong with a head over a body, as an error.
fn demand_fit(
    form: Form,
    bytes: &[u8],
    variables: &[Token],
    head: &[Term],
    body: &[Atom],
) -> Result<(), ReadError>
    requires names { AllByRecursion (IsNameIn bytes.now) variables.now }
    requires lengths { length head.now ≡ length variables.now }
    ensures fit { IfOk result (λ _.
        IsHeadFit form bytes.now variables.now head.now body.now) }
    ensures error { IfErr result (λ error. (fault : TextFault)
        × IsHeadFault form bytes.now variables.now head.now body.now fault
        × (error ≡ ReadError.Fault fault)) }
{
    if let Some(offset) = repeat(form, bytes, variables) {
        return Err(ReadError::Fault(TextFault {
            offset,
            kind: TextKind::SameVariable,
        }));
    }
    match first_missing(head, body) {
        Some(place) => Err(fault_at(variables[place], TextKind::Unsafe)),
        None => Ok(()),
    }
}

/// Where the first name stands that a head of this form may not have again.
fn repeat(form: Form, bytes: &[u8], variables: &[Token]) -> Option<u64>
    requires { AllByRecursion (IsNameIn bytes.now) variables.now }
    ensures { MatchOption result (IsAllowed form bytes.now variables.now)
        (IsRefused form bytes.now variables.now) }
{
    match form {
        Form::Query => None,
        Form::View => first_repeat(bytes, variables),
    }
}

/// The head, the body and the names of variables that a tree of the text says, where nothing is wrong with them.
fn head_and_body(
    alloc: Global,
    bytes: &[u8],
    tree: &QuerySyntax,
    words: &Vocabulary,
    schema: &Schema,
    form: Form,
    names: &mut Names,
) -> Result<(Terms, Atoms), ReadError>
    requires utf8 { IsUtf8 bytes.now }
    requires words { IsVocabulary (arities_of schema.now) words.now }
    requires stands { StandsAt bytes.now (tree_of tree.now) }
    requires none { names.old ≡ [] }
    ensures read { IfOk result (λ it. IsRead
        words.now (arities_of schema.now) bytes.now (tree_of tree.now) it.0 it.1 names.new) }
    ensures fit { IfOk result (λ it.
        IsHeadFit form bytes.now (tree_of tree.now).variables it.0 it.1) }
    ensures error { IfErr result (IsTreeError
        form words.now (arities_of schema.now) bytes.now (tree_of tree.now)) }
{
    let variables = tree.variables.items();
    let head = terms(alloc, bytes, variables, names)?;
    let body = body(
        alloc,
        bytes,
        tree.items.items(),
        words.items(),
        schema,
        names,
    )?;
    demand_fit(form, bytes, variables, head.items(), body.items()).and(Ok((head, body)))
}

/// The query or view that a tree of the text says.
pub fn said(
    alloc: Global,
    bytes: &[u8],
    tree: &QuerySyntax,
    words: &Vocabulary,
    schema: &Schema,
    form: Form,
) -> Result<NamedQuery, ReadError>
    requires words { IsVocabulary (arities_of schema.now) words.now }
    requires utf8 { IsUtf8 bytes.now }
    requires parts { HasParts (tree_of tree.now) }
    requires stands { StandsAt bytes.now (tree_of tree.now) }
    ensures said { IfOk result (IsSaid
        form words.now (arities_of schema.now) bytes.now (tree_of tree.now)) }
    ensures over { IfOk result (λ query. IsQueryOver
        (arities_of schema.now) (query_of query.query)) }
    ensures head { IfOk result (λ query. HasVariables form query.query.head) }
    ensures error { IfErr result (IsTreeError
        form words.now (arities_of schema.now) bytes.now (tree_of tree.now)) }
{
    let mut names = List::new(alloc);
    let (head, body) = head_and_body(alloc, bytes, tree, words, schema, form, &mut names)?;
    let query = query(alloc, schema, head, body, names);
    let name = plain(alloc, bytes_of(bytes, tree.name))?;
    Ok(NamedQuery { name, query })
}

/// The query or view that a text is.
fn read(
    alloc: Global,
    bytes: &[u8],
    words: &Vocabulary,
    schema: &Schema,
    form: Form,
) -> Result<NamedQuery, ReadError>
    requires words { IsVocabulary (arities_of schema.now) words.now }
    ensures reading { IfOk result (λ query. IsReading
        form words.now (arities_of schema.now) bytes.now query) }
    ensures over { IfOk result (λ query. IsQueryOver
        (arities_of schema.now) (query_of query.query)) }
    ensures head { IfOk result (λ query. HasVariables form query.query.head) }
    ensures error { IfErr result (λ e. IsReadError
        form words.now (arities_of schema.now) bytes.now e) }
{
    let tree = read_query_tree(alloc, bytes)?;
    said(alloc, bytes, &tree, words, schema, form)
}

/// The query that a text is, over the datasets that the words name, with its name; or the text's first fault:
/// Utf8, Syntax, then for each item in order Unknown, Arity and TooLarge, then Unsafe.
pub fn read_query(
    alloc: Global,
    bytes: &[u8],
    words: &Vocabulary,
    schema: &Schema,
) -> Result<NamedQuery, ReadError>
    requires words { IsVocabulary (arities_of schema.now) words.now }
    // The answer is the text's reading.
    ensures reading { IfOk result (λ query. IsReading
        Form.Query words.now (arities_of schema.now) bytes.now query) }
    // It is over the schema, and its constants are UTF-8.
    ensures over { IfOk result (λ query. IsQueryOver
        (arities_of schema.now) (query_of query.query)) }
    // Each term of its head is a variable.
    ensures head { IfOk result (λ query. HasVariables Form.Query query.query.head) }
    // A fault is the text's first fault.
    ensures error { IfErr result (λ e. IsReadError
        Form.Query words.now (arities_of schema.now) bytes.now e) }
{
    read(alloc, bytes, words, schema, Form::Query)
}

/// The view that a text is, over the datasets that the words name, with its name; or the text's first fault: those
/// of a query, where SameVariable comes before Unsafe.
pub fn read_view(
    alloc: Global,
    bytes: &[u8],
    words: &Vocabulary,
    schema: &Schema,
) -> Result<NamedQuery, ReadError>
    requires words { IsVocabulary (arities_of schema.now) words.now }
    // The answer is the text's reading.
    ensures reading { IfOk result (λ query. IsReading
        Form.View words.now (arities_of schema.now) bytes.now query) }
    // It is over the schema, and its constants are UTF-8.
    ensures over { IfOk result (λ query. IsQueryOver
        (arities_of schema.now) (query_of query.query)) }
    // The terms of its head are different variables.
    ensures head { IfOk result (λ query. HasVariables Form.View query.query.head) }
    // A fault is the text's first fault.
    ensures error { IfErr result (λ e. IsReadError
        Form.View words.now (arities_of schema.now) bytes.now e) }
{
    read(alloc, bytes, words, schema, Form::View)
}

/// A law: a text has at most one reading and at most one first fault, and never both.
pub fn readings_are_determined()
    ensures reading { HaveOneReading }
    ensures apart { HaveNoFault }
    ensures fault { HaveOneFault }
{
    trees_are_determined();
}

/// A law: the columns of a view that is read from a text have names, all different.
pub fn views_name_their_columns()
    ensures { ViewsNameTheirColumns }
{}
