//! Patterns of trees.
ghost use Rattle.std.specs.Prelude.{◌≡◌, IfOk};
ghost use Rattle.esto_docmodel.specs.declared.pattern.Entry.TheVariants as entry;

use esto_term::{List, OutOfMemory, Replicate, Term, Text};
use std::alloc::Global;

/// A step of a path, from a node of a tree.
#[derive(Drop)]
pub enum Step {
    /// To the field of that name, written `name` or `'name'`.
    Name(Text),
    /// To any item, written `[]`.
    Item,
    /// To any node strictly inside, written `**`.
    Below,
}

/// The steps of a path, in order.
pub type Path = List<Step>;

/// An entry of a pattern.
#[derive(Drop)]
pub enum Entry {
    /// At the end of the path stands the value of the term, written `path: term`.
    Value(Path, Term),
    /// At the end of the path stands a node in which each entry of a group is matched, written `path{..}`.
    Group(Path, List<Entry>),
}

/// The entries of a group, in order.
pub type Entries = List<Entry>;

/// A pattern of trees: a group of entries, each of which is matched in the tree.
#[derive(Drop)]
pub struct Pattern {
    pub entries: Entries,
}

impl Replicate for Step {
    fn copy(&self, alloc: Global) -> Result<Step, OutOfMemory> {
        match self {
            Step::Name(name) => {
                let name = name.copy(alloc)?;
                Ok(Step::Name(name))
            }
            Step::Item => Ok(Step::Item),
            Step::Below => Ok(Step::Below),
        }
    }
}

// A copy of an entry that has a value.
fn copied_value(alloc: Global, path: &Path, term: &Term) -> Result<Entry, OutOfMemory>
    ensures { IfOk result (λ it. it ≡ entry.Value path.now term.now) }
{
    let path = path.copy(alloc)?;
    let term = term.copy(alloc)?;
    Ok(Entry::Value(path, term))
}

// A copy of the entry.
#[cycle(copy)]
fn copied(alloc: Global, entry: &Entry) -> Result<Entry, OutOfMemory>
    ensures { IfOk result (λ it. it ≡ entry.now) }
{
    match entry {
        Entry::Value(path, term) => copied_value(alloc, path, term),
        Entry::Group(path, entries) => copied_group(alloc, path, entries.items()),
    }
}

// A copy of an entry that is a group of these.
#[cycle(copy)]
fn copied_group(alloc: Global, path: &Path, entries: &[Entry]) -> Result<Entry, OutOfMemory>
    ensures { IfOk result (λ it. it ≡ entry.Group path.now entries.now) }
{
    let entries = copied_entries(alloc, entries)?;
    let path = path.copy(alloc)?;
    Ok(Entry::Group(path, entries))
}

// A copy of the entries.
#[cycle(copy)]
fn copied_entries(alloc: Global, entries: &[Entry]) -> Result<Entries, OutOfMemory>
    ensures { IfOk result (λ it. it ≡ entries.now) }
{
    let mut own = List::new(alloc);
    'entries: for entry in entries {
        let entry = copied(alloc, entry)?;
        own.push(entry)?;
    }
    Ok(own)
}

impl Replicate for Entry {
    fn copy(&self, alloc: Global) -> Result<Entry, OutOfMemory> {
        copied(alloc, self)
    }
}

impl Replicate for Pattern {
    fn copy(&self, alloc: Global) -> Result<Pattern, OutOfMemory> {
        let entries = self.entries.copy(alloc)?;
        Ok(Pattern { entries })
    }
}
