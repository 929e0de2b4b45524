//! The rows of all fragments, opened one by one.
ghost use Rattle.std.specs.Prelude.{◌≡◌, ◌≢◌, ℕ, List, [], ◌∷◌, ◌++◌, ◌<◌, length, map, slice_get, IfOk, IfSome, OnOk, OnErr};
ghost use Rattle.esto_docmodel.specs.declared.file.Store.{Store};
ghost use Rattle.esto_ports.specs.FileFaults.{Gives};
ghost use Rattle.esto_steps.specs.Rows.{held_by};
ghost use Rattle.esto_run.specs.Opened.{AreRowsFor, AreOpened, rows_held, unopened};
ghost use Rattle.esto_docs.specs.Stores.{first_fault_in};

use crate::held::FragmentRows;
use crate::stored::stored_rows;
use esto_columns::Rows;
use esto_mapping::{Catalogue, catalogues_are_sound};
use esto_ports::FileError;
use esto_term::{List, OutOfMemory};
use esto_views::FragmentDefs;
use std::alloc::Global;

/// No rows for each of the fragments.
pub fn no_rows(alloc: Global, fragments: &FragmentDefs) -> Result<FragmentRows, OutOfMemory>
    ensures none { IfOk result (λ it. it ≡ map unopened fragments.now) }
    ensures rows { IfOk result (AreRowsFor fragments.now) }
    ensures opened { IfOk result (λ it.
        (stores : List Store) (files : ℕ → List ℕ)
        → AreOpened stores files [] (rows_held it)) }
{
    let mut stored = List::new(alloc);
    'fragments: for fragment in fragments.items() {
        let rows = Rows::new(alloc, fragment.view.head.len())?;
        let none = stored_rows(alloc, fragment, rows)?;
        stored.push(none)?;
    }
    Ok(FragmentRows::of_none(alloc, stored))
}

/// Puts the rows of the fragment's file, in the shape of its store, in place of what the fragment had; or the file has
/// a fault, and this is the first. Other fragments keep their rows, and after an error this one does too.
pub fn open_fragment(
    alloc: Global,
    catalogue: &Catalogue,
    number: usize,
    bytes: &[u8],
    opened: &mut FragmentRows,
) -> Result<(), FileError>
    requires there { number < length catalogue.now.fragments }
    requires rows { AreRowsFor catalogue.now.fragments opened.old }
    ensures rows { AreRowsFor catalogue.now.fragments opened.new }
    ensures others { (other : ℕ) → other ≢ number
        → held_by (rows_held opened.new) other ≡ held_by (rows_held opened.old) other }
    ensures kept { OnErr result (opened.new ≡ opened.old) }
    ensures opened { OnOk result ((files : ℕ → List ℕ) (numbers : List ℕ)
        → files number ≡ bytes.now
        → AreOpened catalogue.now.stores files numbers (rows_held opened.old)
        → AreOpened catalogue.now.stores files (numbers ++ number ∷ []) (rows_held opened.new)) }
    ensures fault { IfSome (slice_get catalogue.now.fragments number) (λ fragment.
        IfSome (slice_get catalogue.now.stores number) (λ store.
        Gives tt (first_fault_in store.shape (length fragment.view.head) bytes.now) result)) }
{
    catalogues_are_sound();
    let fragment = catalogue.fragments.item(number);
    let store = catalogue.stores.item(number);
    opened.put(alloc, number, fragment, &store.shape, bytes)
}
