//! A shelf in memory, at which chosen calls fail.
ghost use Rattle.std.specs.Prelude.{◌≡◌, ◌<◌, ◌≤◌, ◌^◌, ◌∷◌, ◌++◌, [], Some, None, OnOk, OnErr, MatchOption, true};
ghost use Rattle.std.specs.FinMap as map;
ghost use Rattle.std.specs.Ordering.{nat_cmp};
ghost use Rattle.std.specs.Cmp.Lexicographic.{slice_cmp};
ghost use Rattle.esto_ports.specs.Asked.{Asks};
ghost use Rattle.esto_ports.specs.Fetch.{Fetches};
ghost use Rattle.esto_ports.specs.MemoryShelf.{AfterFetch, AnswersFetch, GivesWithin, fails_at, HasFile};

use crate::calls::is_listed;
use crate::ports::{Shelf, ShelfError};
use esto_term::{Bytes, List, OutOfMemory, Replicate, Text, TextRow, Values};
use std::alloc::Global;
use std::marker::Model;

/// A shelf in memory. It tells its files and what was asked for, and fails at a name that it lacks and at the calls that
/// are listed to fail; at those that are listed to be refused memory is wanting.
#[derive(Drop)]
pub struct MemoryShelf {
    // The newest first, which hides the older ones of its name.
    files: List<(Text, Bytes)>,
    fails: Values<u64>,
    refuses: Values<u64>,
    calls: u64,
    faults: u64,
    asked: TextRow,
}

impl Model for MemoryShelf {
    ghost use Rattle.esto_ports.specs.MemoryShelf.{ShelfState, shelf_code};
    ghost use Rattle.std.specs.FinMap as map;

    ghost Value = { ShelfState };

    ghost coded = { shelf_code };

    ghost view = { λ s. record {
      files = map.from_entries s.files;
      fails = s.fails;
      refuses = s.refuses;
      calls = s.calls;
      faults = s.faults;
      asked = s.asked;
    } };
}

impl MemoryShelf {
    /// No file, no listed call, no call and no fault yet.
    pub fn new(alloc: Global) -> MemoryShelf
        ensures { result ≡ record {
          files = map.empty;
          fails = [];
          refuses = [];
          calls = 0;
          faults = 0;
          asked = [];
        } }
    {
        MemoryShelf {
            files: List::new(alloc),
            fails: Values::new(alloc),
            refuses: Values::new(alloc),
            calls: 0,
            faults: 0,
            asked: List::new(alloc),
        }
    }

    /// Keeps a file, in place of what the name had.
    pub fn keep(&mut self, name: Text, bytes: Bytes) -> Result<(), OutOfMemory>
        ensures ok { OnOk result
            (self.new ≡ record self.old { files = map.insert self.old.files name bytes }) }
        ensures err { OnErr result (self.new ≡ self.old) }
    {
        self.files.insert(0, (name, bytes))
    }

    /// Lists a call that is to fail. Calls are counted from 1.
    pub fn fail_at(&mut self, call: u64) -> Result<(), OutOfMemory>
        ensures ok { OnOk result
            (self.new ≡ record self.old { fails = self.old.fails ++ call ∷ [] }) }
        ensures err { OnErr result (self.new ≡ self.old) }
    {
        self.fails.push(call)
    }

    /// Lists a call at which memory is to be wanting, unless it fails. Calls are counted from 1.
    pub fn refuse_at(&mut self, call: u64) -> Result<(), OutOfMemory>
        ensures ok { OnOk result
            (self.new ≡ record self.old { refuses = self.old.refuses ++ call ∷ [] }) }
        ensures err { OnErr result (self.new ≡ self.old) }
    {
        self.refuses.push(call)
    }

    /// The names that were asked for, in order.
    pub fn asked(&self) -> &TextRow
        ensures { result.now ≡ self.now.asked }
    {
        &self.asked
    }
}

// The newest file of that name.
fn find_file<'a>(files: &'a [(Text, Bytes)], name: &[u8]) -> Option<&'a Bytes>
    ensures { let found = map.find (slice_cmp nat_cmp) name.now files.now in
        MatchOption result (found ≡ None) (λ bytes. found ≡ Some bytes.now) }
{
    'names: for file in files {
        if name.cmp(&file.0.bytes()).is_eq() {
            return Some(&file.1);
        }
    }
    None
}

// The file of that name, or None where the call fails.
fn look_up<'a>(
    files: &'a [(Text, Bytes)],
    fails: &[u64],
    call: u64,
    name: &[u8],
) -> Option<&'a Bytes>
    ensures { let held = map.from_entries files.now in
        MatchOption result (fails_at held fails.now call name.now ≡ true)
        (λ bytes. HasFile held fails.now call name.now bytes.now) }
{
    if is_listed(fails, call) {
        return None;
    }
    find_file(files, name)
}

// A copy of the file, if it is within the limit.
fn copy_within(alloc: Global, file: &Bytes, limit: u64) -> Result<Bytes, ShelfError>
    requires { limit < 2 ^ 32 }
    ensures { GivesWithin file.now limit result }
{
    if file.bytes().len() as u64 > limit {
        return Err(ShelfError::TooLong(limit + 1));
    }
    Ok(Bytes::from_slice(alloc, file.bytes())?)
}

impl Shelf for MemoryShelf {
    ghost files = { λ s. Some s.files };

    ghost faults = { λ s. s.faults };

    ghost asked = { λ s. Some s.asked };

    /// Failed comes only at a call that is listed to fail and at a name that the shelf lacks, and there no other answer
    /// comes but OutOfMemory. That comes at each other call that is listed to be refused. Every fetch counts as a call.
    fn fetch(&mut self, alloc: Global, name: &Text, limit: u64) -> Result<Bytes, ShelfError>
        requires { limit < 2 ^ 32 }
        ensures answer { Fetches (Some self.old.files) name.now limit
            self.old.faults self.new.faults result }
        ensures files { Some self.new.files ≡ Some self.old.files }
        ensures asked { Asks (Some self.old.asked) (Some self.new.asked) name.now result }
        ensures later { self.old.faults ≤ self.new.faults }
        ensures exact { AnswersFetch self.old name.now limit result }
        ensures after { AfterFetch self.old name.now result self.new }
    {
        self.calls = self.calls.saturating_add(1);
        let asked = name.copy(alloc)?;
        self.asked.push(asked)?;
        match look_up(
            self.files.items(),
            self.fails.items(),
            self.calls,
            name.bytes(),
        ) {
            Some(file) => {
                if is_listed(self.refuses.items(), self.calls) {
                    return Err(ShelfError::OutOfMemory);
                }
                copy_within(alloc, file, limit)
            }
            None => {
                self.faults = self.faults.saturating_add(1);
                Err(ShelfError::Failed)
            }
        }
    }
}
