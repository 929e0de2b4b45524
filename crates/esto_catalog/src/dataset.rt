//! Datasets, and the rows of one.
ghost use Rattle.std.specs.Prelude.{◌≡◌, ◌≤◌, length, IfOk, IfErr};
ghost use Rattle.esto_course.specs.Course.{Stops};
ghost use Rattle.esto_catalog.specs.Datasets.{AreDatasets, has_dataset, name_row, needs_columns, no_columns, columns_row};
ghost use Rattle.esto_mapping.specs.Datasets.{schema_of};
ghost use Rattle.esto_catalog.specs.Datasets.{layout_and_file_rows, rows_after_name, reads_dataset, reads_datasets};
ghost use Rattle.esto_catalog.specs.Rows.{IsAny, IsWant, Walks};
ghost use Rattle.esto_catalog.specs.declared.whole.TheConstants.{MAX_ENTRIES};

use crate::fault::{CatalogueError, Place, demand};
use crate::model::{layout, needs_model, unfit};
use crate::row::{Keys, allows_text, knows_keys, needs_text, needs_texts};
use esto_docmodel::{DataModel, Layout};
use esto_mapping::{Dataset, Datasets, are_columns, is_name, relation_count};
use esto_settings::{Field, KeyList, is_same};
use esto_status::{CatalogueKind, Section};
use esto_term::{List, Replicate, Text, TextRow};
use std::alloc::Global;

/// Whether a dataset has the name.
pub fn has_dataset(name: &Text, datasets: &[Dataset]) -> bool
    ensures { result ≡ has_dataset name.now datasets.now }
{
    datasets
        .iter()
        .any(|dataset| is_same(&dataset.name, name.as_str()))
}

// The name: a name, and no earlier dataset's.
fn name<'a>(
    alloc: Global,
    place: Place,
    earlier: &[Dataset],
    entry: &'a [Field],
) -> Result<&'a Text, CatalogueError>
    ensures goes { IfOk result (λ name. (name_row place earlier.now entry.now).goes name.now) }
    ensures error { IfErr result (Stops IsWant IsAny (name_row place earlier.now entry.now)) }
{
    let name = needs_text(alloc, place, "name", entry)?;
    let bytes = name.bytes();
    let is_name = is_name(bytes);
    demand(alloc, is_name, CatalogueKind::BadName, place, "name")?;
    let is_there = has_dataset(name, earlier);
    demand(alloc, !is_there, CatalogueKind::SameName, place, "name")?;
    Ok(name)
}

// The columns of a table.
#[tactic(auto, using(crate::proofs::RowLemmas::rows))]
fn needs_columns(alloc: Global, place: Place, entry: &[Field]) -> Result<TextRow, CatalogueError>
    ensures { Walks (needs_columns place entry.now) result }
{
    let columns = needs_texts(alloc, place, "columns", entry)?;
    let texts = columns.items();
    let are_columns = are_columns(texts);
    demand(
        alloc,
        are_columns,
        CatalogueKind::BadColumns,
        place,
        "columns",
    )?;
    Ok(columns.copy(alloc)?)
}

// No columns are written, since they are for tables; else Unfit.
#[tactic(auto, using(crate::proofs::RowLemmas::rows))]
fn no_columns(alloc: Global, place: Place, entry: &[Field]) -> Result<TextRow, CatalogueError>
    ensures { Walks (no_columns place entry.now) result }
{
    unfit(alloc, "columns", place, entry)?;
    Ok(List::new(alloc))
}

// The columns, which a table alone has.
fn columns(
    alloc: Global,
    place: Place,
    model: DataModel,
    entry: &[Field],
) -> Result<TextRow, CatalogueError>
    ensures { Walks (columns_row place model entry.now) result }
{
    match model {
        DataModel::Table => needs_columns(alloc, place, entry),
        DataModel::Documents => no_columns(alloc, place, entry),
        DataModel::Keys => no_columns(alloc, place, entry),
    }
}

// The rows of how a dataset's documents stand and of its file, in order: layout, file.
fn layout_and_file(
    alloc: Global,
    place: Place,
    model: DataModel,
    entry: &[Field],
) -> Result<(Layout, Option<Text>), CatalogueError>
    ensures { Walks (layout_and_file_rows place model entry.now) result }
{
    let layout = layout(alloc, place, model, entry)?;
    let file = allows_text(alloc, place, "file", entry)?;
    Ok((layout, file))
}

// The rows after the name, in order: model, columns, layout, file.
fn rows_after_name(
    alloc: Global,
    place: Place,
    entry: &[Field],
) -> Result<(DataModel, TextRow, Layout, Option<Text>), CatalogueError>
    ensures { Walks (rows_after_name place entry.now) result }
{
    let model = needs_model(alloc, CatalogueKind::BadModel, place, "model", entry)?;
    let columns = columns(alloc, place, model, entry)?;
    let (layout, file) = layout_and_file(alloc, place, model, entry)?;
    Ok((model, columns, layout, file))
}

// The rows of a dataset whose first relation is that of the base, in order: unknown keys, name,
// model, columns, layout, file.
fn read_dataset(
    alloc: Global,
    place: Place,
    earlier: &[Dataset],
    base: usize,
    entry: &[Field],
) -> Result<Dataset, CatalogueError>
    requires { base ≡ length (schema_of earlier.now) }
    ensures { Walks (reads_dataset place earlier.now entry.now) result }
{
    knows_keys(alloc, place, Keys::Dataset, entry)?;
    let said = name(alloc, place, earlier, entry)?;
    let name = said.copy(alloc)?;
    let (model, columns, layout, file) = rows_after_name(alloc, place, entry)?;
    Ok(Dataset {
        name,
        model,
        base,
        columns,
        layout,
        file,
    })
}

/// The datasets of the entries, in order, counted from 1.
pub fn read_datasets(alloc: Global, entries: &[KeyList]) -> Result<Datasets, CatalogueError>
    requires { length entries.now ≤ MAX_ENTRIES }
    ensures datasets { Walks (reads_datasets entries.now) result }
    ensures sound { IfOk result AreDatasets }
{
    let mut datasets = List::new(alloc);
    let mut base = 0;
    'entries: for (index, entry) in entries.iter().enumerate() {
        let place = Place::entry(Section::Dataset, index);
        let earlier = datasets.items();
        let fields = entry.items();
        let dataset = read_dataset(alloc, place, earlier, base, fields)?;
        base += relation_count(dataset.model);
        datasets.push(dataset)?;
    }
    Ok(datasets)
}
