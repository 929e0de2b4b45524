//! Models and layouts, as they are written, and the keys that not every model has.
ghost use Rattle.std.specs.Prelude.{◌≡◌, ◌≢◌, codes, MatchOption};
ghost use Rattle.esto_docmodel.specs.declared.file.Layout.{Layout};
ghost use Rattle.esto_docmodel.specs.declared.words.DataModel.{DataModel};
ghost use Rattle.esto_catalog.specs.Models.{model_word, layout_word, reads_model, needs_model, reads_layout, allows_layout, unfit_row, no_layout, layout_row};
ghost use Rattle.esto_catalog.specs.Rows.{Walks};
ghost use Rattle.esto_settings.specs.Settings.{setting_at};

use crate::fault::{CatalogueError, Place, demand, fault};
use crate::row::needs_text;
use esto_docmodel::{DataModel, Layout};
use esto_settings::{Field, Setting, has_key, is_same, setting_at};
use esto_status::CatalogueKind;
use esto_term::Text;
use std::alloc::Global;

// The model of which the text is the word, where there is one.
fn model_of(text: &Text) -> Option<DataModel>
    ensures { MatchOption result ((model : DataModel) → text.now ≢ model_word model)
        (λ model. text.now ≡ model_word model) }
{
    if is_same(text, "table") {
        return Some(DataModel::Table);
    }
    if is_same(text, "documents") {
        return Some(DataModel::Documents);
    }
    if is_same(text, "keys") {
        return Some(DataModel::Keys);
    }
    None
}

// The layout of which the text is the word, where there is one.
fn layout_of(text: &Text) -> Option<Layout>
    ensures { MatchOption result ((layout : Layout) → text.now ≢ layout_word layout)
        (λ layout. text.now ≡ layout_word layout) }
{
    if is_same(text, "array") {
        return Some(Layout::Array);
    }
    if is_same(text, "lines") {
        return Some(Layout::Lines);
    }
    None
}

// The model of which the text is the word; else a fault of this kind.
#[tactic(auto, using(crate::proofs::RowLemmas::rows))]
fn written_model(
    alloc: Global,
    kind: CatalogueKind,
    place: Place,
    key: &str,
    text: &Text,
) -> Result<DataModel, CatalogueError>
    ensures { Walks (reads_model kind place key.now text.now) result }
{
    match model_of(text) {
        Some(model) => Ok(model),
        None => Err(fault(alloc, kind, place, key, None)),
    }
}

/// The model of which the text at the key is the word; a fault of this kind where it is the word
/// for none.
pub fn needs_model(
    alloc: Global,
    kind: CatalogueKind,
    place: Place,
    key: &str,
    entry: &[Field],
) -> Result<DataModel, CatalogueError>
    ensures { Walks (needs_model kind place key.now entry.now) result }
{
    let text = needs_text(alloc, place, key, entry)?;
    written_model(alloc, kind, place, key, text)
}

// The layout of which the text is the word; else BadLayout.
#[tactic(auto, using(crate::proofs::RowLemmas::rows))]
fn written_layout(alloc: Global, place: Place, text: &Text) -> Result<Layout, CatalogueError>
    ensures { Walks (reads_layout place text.now) result }
{
    match layout_of(text) {
        Some(layout) => Ok(layout),
        None => Err(fault(alloc, CatalogueKind::BadLayout, place, "layout", None)),
    }
}

// The layout that is written, or one document a line.
#[tactic(auto, using(crate::proofs::RowLemmas::rows))]
fn allows_layout(alloc: Global, place: Place, entry: &[Field]) -> Result<Layout, CatalogueError>
    ensures { Walks (allows_layout place (setting_at (codes "layout") entry.now)) result }
{
    match setting_at("layout", entry) {
        None => Ok(Layout::Lines),
        Some(Setting::Text(text)) => written_layout(alloc, place, text),
        Some(_) => Err(fault(alloc, CatalogueKind::WrongType, place, "layout", None)),
    }
}

/// The key is absent, since it is for other models; else Unfit.
#[tactic(auto, using(crate::proofs::RowLemmas::rows))]
pub fn unfit(alloc: Global, key: &str, place: Place, entry: &[Field]) -> Result<(), CatalogueError>
    ensures { Walks (unfit_row key.now place entry.now) result }
{
    demand(
        alloc,
        !has_key(key, entry),
        CatalogueKind::Unfit,
        place,
        key,
    )
}

// No layout is written, since it is for documents; else Unfit.
#[tactic(auto, using(crate::proofs::RowLemmas::rows))]
fn no_layout(alloc: Global, place: Place, entry: &[Field]) -> Result<Layout, CatalogueError>
    ensures { Walks (no_layout place entry.now) result }
{
    unfit(alloc, "layout", place, entry)?;
    Ok(Layout::Lines)
}

/// The layout of documents; for another model Unfit where one is written, and else the layout of
/// lines.
#[tactic(auto, using(crate::proofs::RowLemmas::rows))]
pub fn layout(
    alloc: Global,
    place: Place,
    model: DataModel,
    entry: &[Field],
) -> Result<Layout, CatalogueError>
    ensures { Walks (layout_row place model entry.now) result }
{
    match model {
        DataModel::Table => no_layout(alloc, place, entry),
        DataModel::Documents => allows_layout(alloc, place, entry),
        DataModel::Keys => no_layout(alloc, place, entry),
    }
}
