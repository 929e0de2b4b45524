//! The rows of a fragment.
ghost use Rattle.std.specs.Prelude.{◌≡◌, ◌<◌, ◌+◌, ◌||◌, IfOk, IfErr, OnOk};
ghost use Rattle.esto_course.specs.Course.{Stops};
ghost use Rattle.esto_query.specs.Schemas.{arities_of};
ghost use Rattle.esto_catalog.specs.Datasets.{has_dataset};
ghost use Rattle.esto_catalog.specs.Fragments.{has_fragment, reads_view, view_row, file_row, access_and_weight_rows, rows_after_file, rows_after_store, rows_after_view, stored_fragment};
ghost use Rattle.esto_catalog.specs.Fragments.{reads_fragment, adds_fragment, reads_fragments};
ghost use Rattle.esto_catalog.specs.Rows.{IsAny, IsWant, Walks};
ghost use Rattle.esto_catalog.specs.Scope.{IsScope};
ghost use Rattle.esto_catalog.specs.Shapes.{AreDistinctNames};
ghost use Rattle.esto_catalog.specs.Soundness.{IsSoundView, IsSoundStored, AreSoundFragments};

use crate::access::{access, weight};
use crate::dataset::has_dataset;
use crate::fault::{CatalogueError, Place, demand, fault};
use crate::model::needs_model;
use crate::row::{Keys, knows_keys, needs_text};
use crate::scope::Scope;
use crate::shape::shape;
use esto_docmodel::DataModel;
use esto_mapping::{Shape, Store, Stores};
use esto_query::Query;
use esto_read::{NamedQuery, read_view, views_name_their_columns};
use esto_settings::{Field, KeyList, is_same};
use esto_status::{CatalogueKind, Section};
use esto_term::{List, Replicate, Text};
use esto_text::ReadError;
use esto_views::{AccessList, FragmentDef, FragmentDefs};
use std::alloc::Global;

/// A fragment, and where it is stored.
#[derive(Drop)]
pub struct Stored {
    pub definition: FragmentDef,
    pub store: Store,
}

/// The fragments, and where each is stored.
#[derive(Drop)]
pub struct Fragments {
    pub definitions: FragmentDefs,
    pub stores: Stores,
}

// Whether a fragment has the name.
fn has_fragment(name: &Text, fragments: &[FragmentDef]) -> bool
    ensures { result ≡ has_fragment name.now fragments.now }
{
    fragments
        .iter()
        .any(|fragment| is_same(&fragment.name, name.as_str()))
}

// Whether a dataset or a fragment has the name.
fn is_taken(name: &Text, scope: &Scope, earlier: &[FragmentDef]) -> bool
    ensures { result ≡ (has_dataset name.now scope.now.datasets
        || has_fragment name.now earlier.now) }
{
    has_dataset(name, scope.datasets.items()) || has_fragment(name, earlier)
}

// The view that the text is, or its first fault.
fn view_of_text(
    alloc: Global,
    place: Place,
    scope: &Scope,
    text: &Text,
) -> Result<NamedQuery, CatalogueError>
    requires { IsScope scope.now }
    ensures view { Walks (reads_view place scope.now.datasets text.now) result }
    ensures sound { IfOk result (IsSoundView (arities_of scope.now.schema)) }
{
    match read_view(alloc, text.bytes(), &scope.words, &scope.schema) {
        Ok(view) => Ok(view),
        Err(ReadError::Fault(found)) => Err(fault(
            alloc,
            CatalogueKind::BadText,
            place,
            "view",
            Some(found),
        )),
        Err(ReadError::OutOfMemory) => Err(CatalogueError::OutOfMemory),
    }
}

// The view, whose head has a name that no dataset and no earlier fragment has.
fn view(
    alloc: Global,
    place: Place,
    scope: &Scope,
    earlier: &[FragmentDef],
    entry: &[Field],
) -> Result<NamedQuery, CatalogueError>
    requires { IsScope scope.now }
    ensures view { Walks (view_row place scope.now.datasets earlier.now entry.now) result }
    ensures sound { IfOk result (IsSoundView (arities_of scope.now.schema)) }
{
    let text = needs_text(alloc, place, "view", entry)?;
    let view = view_of_text(alloc, place, scope, text)?;
    let is_taken = is_taken(&view.name, scope, earlier);
    demand(alloc, !is_taken, CatalogueKind::SameName, place, "view").and(Ok(view))
}

// The rows of a fragment's binding patterns and of its weight, in order: access, weight.
fn access_and_weight(
    alloc: Global,
    place: Place,
    model: DataModel,
    view: &Query,
    entry: &[Field],
) -> Result<(AccessList, u64), CatalogueError>
    ensures { Walks (access_and_weight_rows place model view.now entry.now) result }
{
    let access = access(alloc, place, model, view, entry)?;
    let weight = weight(alloc, place, entry)?;
    Ok((access, weight))
}

// The file.
fn file(alloc: Global, place: Place, entry: &[Field]) -> Result<Text, CatalogueError>
    ensures { Walks (file_row place entry.now) result }
{
    let file = needs_text(alloc, place, "file", entry)?;
    Ok(file.copy(alloc)?)
}

// The rows after the file, in order: columns, layout, pattern, access, weight.
fn rows_after_file(
    alloc: Global,
    place: Place,
    model: DataModel,
    view: &Query,
    entry: &[Field],
) -> Result<(Shape, AccessList, u64), CatalogueError>
    requires { AreDistinctNames view.now }
    ensures { Walks (rows_after_file place model view.now entry.now) result }
{
    let shape = shape(alloc, place, model, view, entry)?;
    let (access, weight) = access_and_weight(alloc, place, model, view, entry)?;
    Ok((shape, access, weight))
}

// The rows after the store, in order: file, columns, layout, pattern, access, weight.
fn rows_after_store(
    alloc: Global,
    place: Place,
    model: DataModel,
    view: &Query,
    entry: &[Field],
) -> Result<(Store, AccessList, u64), CatalogueError>
    requires { AreDistinctNames view.now }
    ensures { Walks (rows_after_store place model view.now entry.now) result }
{
    let file = file(alloc, place, entry)?;
    let (shape, access, weight) = rows_after_file(alloc, place, model, view, entry)?;
    Ok((Store { shape, file }, access, weight))
}

// The rows after the view, in order: store, file, columns, layout, pattern, access, weight.
fn rows_after_view(
    alloc: Global,
    place: Place,
    view: &Query,
    entry: &[Field],
) -> Result<(Store, AccessList, u64), CatalogueError>
    requires { AreDistinctNames view.now }
    ensures { Walks (rows_after_view place view.now entry.now) result }
{
    let model = needs_model(alloc, CatalogueKind::BadStore, place, "store", entry)?;
    rows_after_store(alloc, place, model, view, entry)
}

// The fragment of a view, its store, its binding patterns and its weight.
fn stored_fragment(view: NamedQuery, store: Store, access: AccessList, weight: u64) -> Stored
    ensures { result ≡ stored_fragment view store access weight }
{
    let NamedQuery { name, query } = view;
    Stored {
        definition: FragmentDef {
            name,
            view: query,
            access,
            weight,
        },
        store,
    }
}

// The rows of a fragment, in order: unknown keys, view, store, file, columns, layout, pattern,
// access, weight.
fn read_fragment(
    alloc: Global,
    place: Place,
    scope: &Scope,
    earlier: &[FragmentDef],
    entry: &[Field],
) -> Result<Stored, CatalogueError>
    requires { IsScope scope.now }
    ensures fragment { Walks
        (reads_fragment place scope.now.datasets earlier.now entry.now) result }
    ensures sound { IfOk result (IsSoundStored (arities_of scope.now.schema)) }
{
    views_name_their_columns();
    knows_keys(alloc, place, Keys::Fragment, entry)?;
    let view = view(alloc, place, scope, earlier, entry)?;
    let (store, access, weight) = rows_after_view(alloc, place, &view.query, entry)?;
    Ok(stored_fragment(view, store, access, weight))
}

// Adds the fragment of the entry at this index to those before.
fn add_fragment(
    alloc: Global,
    scope: &Scope,
    index: usize,
    entry: &[Field],
    fragments: &mut Fragments,
) -> Result<(), CatalogueError>
    requires scope { IsScope scope.now }
    requires index { index < usize.MAX }
    ensures goes { OnOk result
        ((adds_fragment scope.now.datasets (index + 1) fragments.old entry.now).goes
        fragments.new) }
    ensures sound { OnOk result (AreSoundFragments (arities_of scope.now.schema) fragments.old
        → AreSoundFragments (arities_of scope.now.schema) fragments.new) }
    ensures error { IfErr result (Stops IsWant IsAny
        (adds_fragment scope.now.datasets (index + 1) fragments.old entry.now)) }
{
    let place = Place::entry(Section::Fragment, index);
    let earlier = fragments.definitions.items();
    let stored = read_fragment(alloc, place, scope, earlier, entry)?;
    let Stored { definition, store } = stored;
    fragments.definitions.push(definition)?;
    fragments.stores.push(store)?;
    Ok(())
}

/// The fragments of the entries, in order, counted from 1.
pub fn read_fragments(
    alloc: Global,
    scope: &Scope,
    entries: &[KeyList],
) -> Result<Fragments, CatalogueError>
    requires { IsScope scope.now }
    ensures fragments { Walks (reads_fragments scope.now.datasets entries.now) result }
    ensures sound { IfOk result (AreSoundFragments (arities_of scope.now.schema)) }
{
    let mut fragments = Fragments {
        definitions: List::new(alloc),
        stores: List::new(alloc),
    };
    'entries: for (index, entry) in entries.iter().enumerate() {
        add_fragment(alloc, scope, index, entry.items(), &mut fragments)?;
    }
    Ok(fragments)
}
