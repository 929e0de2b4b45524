//! The files of the fragments that a set uses: each is fetched, and its content read, before the next is fetched.
ghost use Rattle.std.specs.Prelude.{◌≡◌, ◌≢◌, ◌<◌, ◌≤◌, ℕ, length, Contains, AllPairs};
ghost use Rattle.esto_ports.specs.Faults.{Rises};
ghost use Rattle.esto_run.specs.Opened.{AreRowsFor, rows_held};
ghost use Rattle.esto_run.specs.Fragments.{Stored, IsStoredAt, OpensAll, OpensNext, Reads};

use crate::held::FragmentRows;
use crate::opened::{no_rows, open_fragment};
use esto_mapping::{Catalogue, catalogues_are_sound};
use esto_ports::{FileError, Shelf};
use esto_status::{DATA_LIMIT, Status, fetch};
use esto_term::{Bytes, Places, Replicate};
use std::alloc::Global;

// Puts the rows of the content of the fragment's file in place of what the fragment had, or answers the status of the
// content's first fault.
fn read_content(
    alloc: Global,
    catalogue: &Catalogue,
    number: usize,
    bytes: &Bytes,
    opened: &mut FragmentRows,
) -> Result<(), Status>
    requires there { number < length catalogue.now.fragments }
    requires rows { AreRowsFor catalogue.now.fragments opened.old }
    ensures rows { AreRowsFor catalogue.now.fragments opened.new }
    ensures answer { (stored : Stored) → IsStoredAt catalogue.now number stored
        → Reads catalogue.now number stored bytes.now (rows_held opened.old) (rows_held opened.new)
        result }
{
    match open_fragment(alloc, catalogue, number, bytes.bytes(), opened) {
        Ok(()) => Ok(()),
        Err(FileError::Fault(fault)) => {
            let name = catalogue.fragments.item(number).name.copy(alloc)?;
            Err(Status::BadFragment(name, fault))
        }
        Err(FileError::OutOfMemory) => Err(Status::OutOfMemory),
    }
}

// Fetches the file of the fragment of the number, and reads its content.
fn open_next<S: Shelf>(
    alloc: Global,
    shelf: &mut S,
    catalogue: &Catalogue,
    number: usize,
    opened: &mut FragmentRows,
) -> Result<(), Status>
    requires there { number < length catalogue.now.fragments }
    requires rows { AreRowsFor catalogue.now.fragments opened.old }
    ensures rows { AreRowsFor catalogue.now.fragments opened.new }
    ensures answer { OpensNext (S.files shelf.old) catalogue.now number (rows_held opened.old)
        (rows_held opened.new) (Rises S.faults shelf.old shelf.new) (S.asked shelf.old)
        (S.asked shelf.new) result }
    ensures files { S.files shelf.new ≡ S.files shelf.old }
    ensures later { S.faults shelf.old ≤ S.faults shelf.new }
{
    catalogues_are_sound();
    let store = catalogue.stores.item(number);
    let bytes = fetch(alloc, shelf, &store.file, DATA_LIMIT)?;
    read_content(alloc, catalogue, number, &bytes, opened)
}

/// Opens the files of the fragments of the numbers, in order: each is fetched, and its content read, before the next is
/// fetched. Gives the rows of all fragments, of which the others have none. What stops it is the first file that can't
/// be fetched, with the status of `fetch`, or whose content has a fault, with BadFragment, the fragment's name and the
/// first fault.
pub fn open_fragments<S: Shelf>(
    alloc: Global,
    shelf: &mut S,
    catalogue: &Catalogue,
    numbers: &Places,
) -> Result<FragmentRows, Status>
    requires there { (number : ℕ) → Contains numbers.now number
        → number < length catalogue.now.fragments }
    requires distinct { AllPairs ◌≢◌ numbers.now }
    ensures answer { OpensAll (S.files shelf.old) catalogue.now numbers.now
        (Rises S.faults shelf.old shelf.new) (S.asked shelf.old) (S.asked shelf.new) result }
    ensures files { S.files shelf.new ≡ S.files shelf.old }
    ensures later { S.faults shelf.old ≤ S.faults shelf.new }
{
    let mut opened = no_rows(alloc, &catalogue.fragments)?;
    'numbers: for number in numbers.items() {
        open_next(alloc, shelf, catalogue, *number, &mut opened)?;
    }
    Ok(opened)
}
