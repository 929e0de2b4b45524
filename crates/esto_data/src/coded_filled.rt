//! A fragment's file, filled with the rows of its view over rows of codes.
ghost use Rattle.std.specs.Prelude.{◌<◌, length, slice_get, IfOk, IfSome};
ghost use Rattle.esto_query.specs.Making.{query_of};
ghost use Rattle.esto_semantics.specs.Queries.{IsAnswer};
ghost use Rattle.esto_columns.specs.Interned.{Grows};
ghost use Rattle.esto_data.specs.Coding.{IsCoded, IsCodedOf};
ghost use Rattle.esto_fill.specs.Databases.{database_of};
ghost use Rattle.esto_fill.specs.Filled.{Fills, IsOpenedAs};
ghost use Rattle.esto_fill.specs.declared.loaded.Loaded.{Loaded};
ghost use Rattle.esto_ports.specs.Marks.{without_mark};

use crate::coded_answering::answer_coded;
use crate::coded_data::CodedData;
use esto_fill::{FillError, marked, text_of};
use esto_mapping::{Catalogue, catalogues_are_sound};
use esto_term::Bytes;
use std::alloc::Global;

/// As `esto_fill::fill`, over whatever facts the rows of codes stand for.
pub fn fill_coded(
    alloc: Global,
    catalogue: &Catalogue,
    fragment: usize,
    coded: &mut CodedData,
) -> Result<Bytes, FillError>
    requires fragment { fragment < length catalogue.now.fragments }
    requires coded { IsCoded coded.old }
    ensures text { (loaded : Loaded) → IsCodedOf loaded coded.old
        → IfSome (slice_get catalogue.now.fragments fragment) (λ definition.
        IfSome (slice_get catalogue.now.stores fragment) (λ store. Fills store.shape
        (IsAnswer (query_of definition.view) (database_of loaded.facts)) result)) }
    // Read as a file is, it says exactly the rows.
    ensures opened { (loaded : Loaded) → IsCodedOf loaded coded.old → IfOk result (λ file.
        IfSome (slice_get catalogue.now.fragments fragment) (λ definition.
        IfSome (slice_get catalogue.now.stores fragment) (λ store.
        IsOpenedAs store.shape (length definition.view.head)
        (IsAnswer (query_of definition.view) (database_of loaded.facts))
        (without_mark file)))) }
    ensures kept { (loaded : Loaded) → IsCodedOf loaded coded.old → IsCodedOf loaded coded.new }
    ensures grown { Grows coded.old.facts.texts coded.new.facts.texts }
{
    catalogues_are_sound();
    let definition = catalogue.fragments.item(fragment);
    let store = catalogue.stores.item(fragment);
    let rows = answer_coded(alloc, &definition.view, coded)?;
    let text = text_of(alloc, &store.shape, &definition.view, &rows)?;
    let file = marked(alloc, text)?;
    Ok(file)
}
