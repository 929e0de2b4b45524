//! How the rows of a fragment are stored: columns, layout and pattern.
ghost use Rattle.std.specs.Prelude.{◌≡◌, ◌↔◌, IsTrue, Some, option_copied, length, map, IfOk};
ghost use Rattle.esto_query.specs.declared.query.Name.{Name};
ghost use Rattle.esto_mapping.specs.Datasets.{AreColumns};
ghost use Rattle.esto_catalog.specs.Rows.{Walks};
ghost use Rattle.esto_catalog.specs.Shapes.{column_of, head_columns, name_at, AreDistinctNames, store_columns, store_columns_row, reads_pattern, pattern_row};
ghost use Rattle.esto_catalog.specs.Shapes.{table_row, documents_row, keys_row, shape_row};
ghost use Rattle.esto_catalog.specs.Shapes.{plain_rows};
ghost use Rattle.esto_settings.specs.declared.setting.Setting.TheVariants.{Texts};

use crate::fault::{CatalogueError, Place, demand, fault};
use crate::model::{layout, unfit};
use crate::row::needs_text;
use esto_docmodel::{DataModel, Pattern, is_layout};
use esto_mapping::{Shape, are_columns};
use esto_query::{Name, Names, Query};
use esto_read::read_layout;
use esto_settings::{Field, Setting, setting_at};
use esto_status::CatalogueKind;
use esto_term::{List, OutOfMemory, Replicate, Term, Text, TextRow};
use esto_text::ReadError;
use std::alloc::Global;

// The text, or the empty text where there is none.
fn name_at(alloc: Global, name: Option<&Name>) -> Result<Text, OutOfMemory>
    ensures { IfOk result (λ it. it ≡ name_at (option_copied name.entry)) }
{
    match name {
        Some(Name::Given(name)) => name.copy(alloc),
        Some(Name::Hidden) => Ok(Text::new(alloc)),
        None => Ok(Text::new(alloc)),
    }
}

// The column that is named as a variable is.
fn column_of(alloc: Global, names: &[Name], term: &Term) -> Result<Text, OutOfMemory>
    ensures { IfOk result (λ it. it ≡ column_of names.now term.now) }
{
    match term {
        Term::Plain(number) => name_at(alloc, names.get(*number as usize)),
        Term::Const(_) => Ok(Text::new(alloc)),
        Term::Made(_, _, _) => Ok(Text::new(alloc)),
    }
}

// The columns that are named as the variables of the view's head are.
fn head_columns(alloc: Global, view: &Query) -> Result<TextRow, OutOfMemory>
    ensures { IfOk result (λ it. it ≡ head_columns view.now) }
{
    let mut columns = List::new(alloc);
    'terms: for term in view.head.items() {
        let column = column_of(alloc, view.names.items(), term)?;
        columns.push(column)?;
    }
    Ok(columns)
}

// Whether the texts are columns of a table, as many as the view has.
fn are_fit(columns: &TextRow, view: &Query) -> bool
    ensures { IsTrue result ↔ (AreColumns columns.now
        × (length columns.now ≡ length view.now.head)) }
{
    are_columns(columns.items()) && columns.len() == view.head.len()
}

// The columns that are written are as many as the view has, and columns of a table.
#[tactic(auto, using(crate::proofs::RowLemmas::rows))]
fn written_columns(
    alloc: Global,
    place: Place,
    view: &Query,
    columns: &TextRow,
) -> Result<TextRow, CatalogueError>
    ensures { Walks (store_columns place view.now (Some (Texts columns.now))) result }
{
    let are_fit = are_fit(columns, view);
    demand(alloc, are_fit, CatalogueKind::BadColumns, place, "columns")?;
    Ok(columns.copy(alloc)?)
}

// The columns: those that are written, or those that are named as the head's variables are.
#[tactic(auto, using(crate::proofs::RowLemmas::rows))]
fn columns(
    alloc: Global,
    place: Place,
    view: &Query,
    entry: &[Field],
) -> Result<TextRow, CatalogueError>
    ensures { Walks (store_columns_row place view.now entry.now) result }
{
    match setting_at("columns", entry) {
        None => Ok(head_columns(alloc, view)?),
        Some(Setting::Texts(columns)) => written_columns(alloc, place, view, columns),
        Some(_) => Err(fault(alloc, CatalogueKind::WrongType, place, "columns", None)),
    }
}

// No layout and no pattern are written, since they are for documents; else Unfit.
fn is_plain(alloc: Global, place: Place, entry: &[Field]) -> Result<(), CatalogueError>
    ensures { Walks (plain_rows place entry.now) result }
{
    unfit(alloc, "layout", place, entry)?;
    unfit(alloc, "pattern", place, entry)
}

// The shape of a table.
fn table(
    alloc: Global,
    place: Place,
    view: &Query,
    entry: &[Field],
) -> Result<Shape, CatalogueError>
    ensures { Walks (table_row place view.now entry.now) result }
{
    let columns = columns(alloc, place, view, entry)?;
    is_plain(alloc, place, entry).and(Ok(Shape::Table(columns)))
}

// The names of the columns that are named as the variables of the view's head are.
fn head_names(alloc: Global, view: &Query) -> Result<Names, OutOfMemory>
    ensures { IfOk result (λ it. it ≡ map Name.Given (head_columns view.now)) }
{
    let mut names = List::new(alloc);
    'terms: for term in view.head.items() {
        let column = column_of(alloc, view.names.items(), term)?;
        names.push(Name::Given(column))?;
    }
    Ok(names)
}

// The pattern over the view's columns that the text is, or its first fault.
fn pattern_of_text(
    alloc: Global,
    place: Place,
    view: &Query,
    text: &Text,
) -> Result<Pattern, CatalogueError>
    requires { AreDistinctNames view.now }
    ensures { Walks (reads_pattern place view.now text.now) result }
{
    let names = head_names(alloc, view)?;
    match read_layout(alloc, text.bytes(), &names) {
        Ok(pattern) => Ok(pattern),
        Err(ReadError::Fault(found)) => Err(fault(
            alloc,
            CatalogueKind::BadText,
            place,
            "pattern",
            Some(found),
        )),
        Err(ReadError::OutOfMemory) => Err(CatalogueError::OutOfMemory),
    }
}

// The pattern, which is a layout for as many columns as the view has.
fn pattern(
    alloc: Global,
    place: Place,
    view: &Query,
    entry: &[Field],
) -> Result<Pattern, CatalogueError>
    requires { AreDistinctNames view.now }
    ensures { Walks (pattern_row place view.now entry.now) result }
{
    let text = needs_text(alloc, place, "pattern", entry)?;
    let pattern = pattern_of_text(alloc, place, view, text)?;
    let is_layout = is_layout(&pattern, view.head.len());
    demand(
        alloc,
        is_layout,
        CatalogueKind::BadPattern,
        place,
        "pattern",
    )
    .and(Ok(pattern))
}

// The shape of documents.
fn documents(
    alloc: Global,
    place: Place,
    view: &Query,
    entry: &[Field],
) -> Result<Shape, CatalogueError>
    requires { AreDistinctNames view.now }
    ensures { Walks (documents_row place view.now entry.now) result }
{
    unfit(alloc, "columns", place, entry)?;
    let layout = layout(alloc, place, DataModel::Documents, entry)?;
    let pattern = pattern(alloc, place, view, entry)?;
    Ok(Shape::Documents(layout, pattern))
}

// The shape of keys.
fn keys(alloc: Global, place: Place, entry: &[Field]) -> Result<Shape, CatalogueError>
    ensures { Walks (keys_row place entry.now) result }
{
    unfit(alloc, "columns", place, entry)?;
    is_plain(alloc, place, entry).and(Ok(Shape::Keys))
}

/// The shape of a store of this model: the columns of a table, the layout and the pattern of
/// documents.
pub fn shape(
    alloc: Global,
    place: Place,
    model: DataModel,
    view: &Query,
    entry: &[Field],
) -> Result<Shape, CatalogueError>
    requires { AreDistinctNames view.now }
    ensures { Walks (shape_row place model view.now entry.now) result }
{
    match model {
        DataModel::Table => table(alloc, place, view, entry),
        DataModel::Documents => documents(alloc, place, view, entry),
        DataModel::Keys => keys(alloc, place, entry),
    }
}
