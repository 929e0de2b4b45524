//! The rows of fragments' files, put as rows of codes.
ghost use Rattle.std.specs.Prelude.{◌≡◌, ◌++◌, ◌∷◌, [], List, length, Contains, OnOk};
ghost use Rattle.esto_docmodel.specs.Stores.{IsShapeFor};
ghost use Rattle.esto_columns.specs.Interned.{Grows};
ghost use Rattle.esto_docs.specs.Stores.{IsRowIn, first_fault_in};
ghost use Rattle.esto_stores.specs.Keys.{key_fault, key_rows};
ghost use Rattle.esto_stores.specs.Rows.{Row};
ghost use Rattle.esto_stores.specs.Table.{table_fault, table_rows};
ghost use Rattle.esto_data.specs.Coding.{AreCodedLists, CodesFile, IsCodedOf};
ghost use Rattle.esto_fill.specs.declared.loaded.Loaded.{Loaded};

use crate::coded_audit::CodedRowsList;
use crate::coded_data::CodedData;
use esto_docs::open_store;
use esto_mapping::{Shape, Store};
use esto_ports::FileError;
use esto_term::{OutOfMemory, TextRow, TextRows};
use esto_views::FragmentDef;
use std::alloc::Global;

// Puts the rows of a table's file at the end.
fn code_table(
    alloc: Global,
    columns: &TextRow,
    bytes: &[u8],
    coded: &mut CodedData,
    rows: &mut CodedRowsList,
) -> Result<(), FileError>
    ensures rows { CodesFile (Contains (table_rows columns.now bytes.now))
        (table_fault columns.now bytes.now) coded.old.facts.texts coded.new.facts.texts
        rows.old rows.new result }
    ensures kept { (loaded : Loaded) → IsCodedOf loaded coded.old → IsCodedOf loaded coded.new }
    ensures grown { Grows coded.old.facts.texts coded.new.facts.texts }
{
    let own = coded.facts.code_table(alloc, bytes, columns)?;
    rows.push(own)?;
    Ok(())
}

// Puts the rows of a key file with so many columns at the end.
fn code_keys(
    alloc: Global,
    cells: usize,
    bytes: &[u8],
    coded: &mut CodedData,
    rows: &mut CodedRowsList,
) -> Result<(), FileError>
    ensures rows { CodesFile (Contains (key_rows bytes.now)) (key_fault cells bytes.now)
        coded.old.facts.texts coded.new.facts.texts rows.old rows.new result }
    ensures kept { (loaded : Loaded) → IsCodedOf loaded coded.old → IsCodedOf loaded coded.new }
    ensures grown { Grows coded.old.facts.texts coded.new.facts.texts }
{
    let own = coded.facts.code_keys(alloc, bytes, cells)?;
    rows.push(own)?;
    Ok(())
}

// Puts the rows of texts, which have so many cells each, at the end.
fn code_texts(
    alloc: Global,
    texts: TextRows,
    arity: usize,
    coded: &mut CodedData,
    rows: &mut CodedRowsList,
) -> Result<(), OutOfMemory>
    requires { (row : Row) → Contains texts row → length row ≡ arity }
    ensures rows { OnOk result ((lists : List (List Row))
        → AreCodedLists coded.old.facts.texts rows.old lists
        → AreCodedLists coded.new.facts.texts rows.new (lists ++ texts ∷ [])) }
    ensures kept { (loaded : Loaded) → IsCodedOf loaded coded.old → IsCodedOf loaded coded.new }
    ensures grown { Grows coded.old.facts.texts coded.new.facts.texts }
{
    let own = coded.facts.code_rows(alloc, texts, arity)?;
    rows.push(own)
}

// Puts the rows of a file at the end, all of which are read as rows of texts first.
fn code_opened(
    alloc: Global,
    store: &Store,
    fragment: &FragmentDef,
    bytes: &[u8],
    coded: &mut CodedData,
    rows: &mut CodedRowsList,
) -> Result<(), FileError>
    requires { IsShapeFor store.now.shape fragment.now.view }
    ensures rows { CodesFile (IsRowIn store.now.shape bytes.now)
        (first_fault_in store.now.shape (length fragment.now.view.head) bytes.now)
        coded.old.facts.texts coded.new.facts.texts rows.old rows.new result }
    ensures kept { (loaded : Loaded) → IsCodedOf loaded coded.old → IsCodedOf loaded coded.new }
    ensures grown { Grows coded.old.facts.texts coded.new.facts.texts }
{
    let texts = open_store(alloc, store, fragment, bytes)?;
    code_texts(alloc, texts, fragment.view.head.len(), coded, rows)?;
    Ok(())
}

/// Puts the rows of a fragment's file, in the shape of its store, as rows of codes at the end; or answers the file's
/// first fault. The rows of a table's file and of a key file are coded as they are read.
pub fn code_store(
    alloc: Global,
    store: &Store,
    fragment: &FragmentDef,
    bytes: &[u8],
    coded: &mut CodedData,
    rows: &mut CodedRowsList,
) -> Result<(), FileError>
    requires { IsShapeFor store.now.shape fragment.now.view }
    ensures rows { CodesFile (IsRowIn store.now.shape bytes.now)
        (first_fault_in store.now.shape (length fragment.now.view.head) bytes.now)
        coded.old.facts.texts coded.new.facts.texts rows.old rows.new result }
    ensures kept { (loaded : Loaded) → IsCodedOf loaded coded.old → IsCodedOf loaded coded.new }
    ensures grown { Grows coded.old.facts.texts coded.new.facts.texts }
{
    match &store.shape {
        Shape::Table(columns) => code_table(alloc, columns, bytes, coded, rows),
        Shape::Documents(_, _) => code_opened(alloc, store, fragment, bytes, coded, rows),
        Shape::Keys => code_keys(alloc, fragment.view.head.len(), bytes, coded, rows),
    }
}
