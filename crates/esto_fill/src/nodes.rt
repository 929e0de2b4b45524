//! The columns of relations in which facts have nodes, and views whose rows have none.
ghost use Rattle.std.specs.Prelude.{◌≡◌, ◌&&◌, ◌==◌, IsTrue, IfOk, OnOk};
ghost use Rattle.std.specs.List.{list_any};
ghost use Rattle.esto_query.specs.Making.{query_of};
ghost use Rattle.esto_views.specs.Fragments.{views_of};
ghost use Rattle.esto_fill.specs.Nodes.{AddsColumn, AddsColumnsOf, AreFree, CoverNodes, IsFree, IsFreeAt, IsFreeIn, IsFreeView};

use esto_query::Query;
use esto_semantics::Atom;
use esto_term::{OutOfMemory, Term, Values};
use esto_views::FragmentDef;
use std::alloc::Global;

/// A column of a relation.
#[derive(Clone, Copy)]
pub struct Column {
    pub relation: usize,
    pub column: usize,
}

// Whether it is this column of the relation.
fn is_column(it: Column, relation: usize, column: usize) -> bool
    ensures { result ≡ ((it.relation == relation) && (it.column == column)) }
{
    it.relation == relation && it.column == column
}

// Whether the column is one of these.
fn is_among(columns: &[Column], relation: usize, column: usize) -> bool
    ensures { result ≡ list_any (λ it. (it.relation == relation) && (it.column == column))
        columns.now }
{
    'columns: for it in columns {
        if is_column(*it, relation, column) {
            return true;
        }
    }
    false
}

// Adds the column of a term that is no constant, if it isn't there.
fn add_column(
    columns: &mut Values<Column>,
    relation: usize,
    column: usize,
    term: &Term,
) -> Result<(), OutOfMemory>
    ensures { OnOk result (AddsColumn relation column term.now columns.old columns.new) }
{
    if term.is_constant() {
        return Ok(());
    }
    if is_among(columns.items(), relation, column) {
        return Ok(());
    }
    columns.push(Column { relation, column })
}

// Adds the columns in which the fact has other terms than constants.
fn add_columns(columns: &mut Values<Column>, fact: &Atom) -> Result<(), OutOfMemory>
    ensures { OnOk result (AddsColumnsOf fact.now columns.old columns.new) }
{
    'terms: for (column, term) in fact.terms.items().iter().enumerate() {
        add_column(columns, fact.relation, column, term)?;
    }
    Ok(())
}

/// The columns in which some of the facts have other terms than constants.
pub fn node_columns(alloc: Global, facts: &[Atom]) -> Result<Values<Column>, OutOfMemory>
    ensures { IfOk result (CoverNodes facts.now) }
{
    let mut columns = Values::new(alloc);
    'facts: for fact in facts {
        add_columns(&mut columns, fact)?;
    }
    Ok(columns)
}

// Whether the term is this one, and the column is none of these.
fn is_free_at(columns: &[Column], relation: usize, column: usize, own: &Term, term: &Term) -> bool
    ensures { IsTrue result → IsFreeAt columns.now relation column own.now term.now }
{
    if !own.equal(term) {
        return false;
    }
    !is_among(columns, relation, column)
}

// Whether the term stands in the atom in another column than these.
fn is_free_in(columns: &[Column], atom: &Atom, term: &Term) -> bool
    ensures { IsTrue result → IsFreeIn columns.now term.now atom.now }
{
    'terms: for (column, own) in atom.terms.items().iter().enumerate() {
        if is_free_at(columns, atom.relation, column, own, term) {
            return true;
        }
    }
    false
}

// Whether the term is a constant, or stands in one of the atoms in another column than these.
fn is_free(columns: &[Column], body: &[Atom], term: &Term) -> bool
    ensures { IsTrue result → IsFree columns.now body.now term.now }
{
    if term.is_constant() {
        return true;
    }
    'atoms: for atom in body {
        if is_free_in(columns, atom, term) {
            return true;
        }
    }
    false
}

// Whether each term of the view's head is a constant, or stands in an atom in another column than these.
fn is_free_view(columns: &[Column], view: &Query) -> bool
    ensures { IsTrue result → IsFreeView columns.now (query_of view.now) }
{
    'terms: for term in view.head.items() {
        if !is_free(columns, view.body.items(), term) {
            return false;
        }
    }
    true
}

/// Whether each term of the head of each fragment's view is a constant, or stands in an atom in another column than these.
pub fn are_free(columns: &[Column], fragments: &[FragmentDef]) -> bool
    ensures { IsTrue result → AreFree columns.now (views_of fragments.now) }
{
    'fragments: for fragment in fragments {
        if !is_free_view(columns, &fragment.view) {
            return false;
        }
    }
    true
}
