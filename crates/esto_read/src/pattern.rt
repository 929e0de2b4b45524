//! Groups as patterns, and patterns as atoms.
ghost use Rattle.std.specs.Prelude.{◌≡◌, [], ◌∷◌, ◌+◌, ◌<◌, ◌++◌, ◌-◌, length, replicate, IfOk, OnOk, IsUtf8, MatchOption};
ghost use Rattle.std.specs.List.{AllZip};
ghost use Rattle.esto_docmodel.specs.Encodings.{atoms_of, used};
ghost use Rattle.esto_docmodel.specs.Shapes.{entry_shape, entries_of as pattern_of};
ghost use Rattle.esto_query.specs.declared.query.Name.TheVariants.{Hidden};
ghost use Rattle.esto_text.specs.Faults.{IsFieldIn, IsTermIn};
ghost use Rattle.esto_text.specs.Tokens.{text_of};
ghost use Rattle.esto_text.specs.Trees.{Value, EachOfPath, EachOfEntry, EachOfEntries};
ghost use Rattle.esto_text.specs.View.{entry_of, entries_of};
ghost use Rattle.esto_read.specs.Items.{entry_size, entries_size};
ghost use Rattle.esto_read.specs.Patterns.{IsFieldOf, IsStepOf, AreEntries, Puts, IsPatternOf};

use crate::constant::{bytes_of, plain, quoted};
use crate::term::term;
use esto_docmodel::{Entries, Entry, Path, Pattern, Step, encode_pattern};
use esto_query::{Name, Names};
use esto_semantics::Atoms;
use esto_term::{List, OutOfMemory, Text};
use esto_text::{EntrySyntax, StepSyntax, Token, TokenKind};
use std::alloc::Global;

/// The name of a field.
fn field(alloc: Global, bytes: &[u8], token: Token) -> Result<Text, OutOfMemory>
    requires utf8 { IsUtf8 bytes.now }
    requires stands { IsFieldIn bytes.now token }
    ensures { IfOk result (IsFieldOf token.kind (text_of bytes.now token)) }
{
    let text = bytes_of(bytes, token);
    match token.kind {
        TokenKind::Quoted => quoted(alloc, text),
        _ => plain(alloc, text),
    }
}

/// A step of a path.
fn step(alloc: Global, bytes: &[u8], step: StepSyntax) -> Result<Step, OutOfMemory>
    requires utf8 { IsUtf8 bytes.now }
    requires stands { EachOfPath (IsFieldIn bytes.now) (step ∷ []) }
    ensures { IfOk result (IsStepOf bytes.now step) }
{
    match step {
        StepSyntax::Field(token) => Ok(Step::Name(field(alloc, bytes, token)?)),
        StepSyntax::Item => Ok(Step::Item),
        StepSyntax::Below => Ok(Step::Below),
    }
}

/// The steps of a path.
fn path(alloc: Global, bytes: &[u8], steps: &[StepSyntax]) -> Result<Path, OutOfMemory>
    requires utf8 { IsUtf8 bytes.now }
    requires stand { EachOfPath (IsFieldIn bytes.now) steps.now }
    ensures { IfOk result (AllZip (IsStepOf bytes.now) steps.now) }
{
    let mut path = List::new(alloc);
    'steps: for each in steps {
        path.push(step(alloc, bytes, *each)?)?;
    }
    Ok(path)
}

/// The entry of a path and the term that stands there.
fn value(
    alloc: Global,
    bytes: &[u8],
    steps: &[StepSyntax],
    token: Token,
    names: &mut Names,
) -> Result<Entry, OutOfMemory>
    requires utf8 { IsUtf8 bytes.now }
    requires path { EachOfPath (IsFieldIn bytes.now) steps.now }
    requires term { IsTermIn bytes.now token }
    ensures { IfOk result (λ it.
        Puts bytes.now names.old (Value steps.now token) (entry_shape it) names.new) }
{
    let path = path(alloc, bytes, steps)?;
    Ok(Entry::Value(path, term(alloc, bytes, token, names)?))
}

/// An entry of a group.
#[cycle(entry)]
fn entry(
    alloc: Global,
    bytes: &[u8],
    entry: &EntrySyntax,
    names: &mut Names,
) -> Result<Entry, OutOfMemory>
    requires utf8 { IsUtf8 bytes.now }
    requires stands { EachOfEntry (IsFieldIn bytes.now) (IsTermIn bytes.now) (entry_of entry.now) }
    ensures { IfOk result (λ it.
        Puts bytes.now names.old (entry_of entry.now) (entry_shape it) names.new) }
{
    match entry {
        EntrySyntax::Value {
            path: steps,
            term: token,
        } => value(alloc, bytes, steps.items(), *token, names),
        EntrySyntax::Group {
            path: steps,
            entries: inner,
        } => {
            let path = path(alloc, bytes, steps.items())?;
            Ok(Entry::Group(path, entries(alloc, bytes, inner.items(), names)?))
        }
    }
}

/// The entries of a group, from left to right.
#[cycle(entry)]
pub fn entries(
    alloc: Global,
    bytes: &[u8],
    entries: &[EntrySyntax],
    names: &mut Names,
) -> Result<Entries, OutOfMemory>
    requires utf8 { IsUtf8 bytes.now }
    requires stand { EachOfEntries (IsFieldIn bytes.now) (IsTermIn bytes.now)
        (entries_of entries.now) }
    ensures { IfOk result (λ it. AreEntries
        bytes.now names.old (entries_of entries.now) (pattern_of it) names.new) }
{
    let mut it = List::new(alloc);
    'entries: for each in entries {
        it.push(entry(alloc, bytes, each, names)?)?;
    }
    Ok(it)
}

/// Puts variables that have no name, up to that count of variables.
fn hide(names: &mut Names, count: u64) -> Result<(), OutOfMemory>
    ensures { OnOk result
        (names.new ≡ names.old ++ replicate (count - length names.old) Hidden) }
{
    'names: while (names.len() as u64) < count {
        names.push(Name::Hidden)?;
    }
    Ok(())
}

/// The atoms of a pattern under that root, over the five relations from the base on. The variables of its nodes have no
/// name, and the next numbers.
fn pattern_atoms(
    alloc: Global,
    pattern: &Pattern,
    base: usize,
    root: u64,
    names: &mut Names,
) -> Result<Atoms, OutOfMemory>
    ensures { IfOk result (λ atoms.
        (atoms ≡ atoms_of base (pattern_of pattern.now.entries) root (length names.old))
        × (names.new ≡ names.old ++ replicate (used (pattern_of pattern.now.entries)) Hidden)) }
{
    let encoded = encode_pattern(alloc, base, pattern, root, names.len() as u64)?;
    hide(names, encoded.next)?;
    Ok(encoded.atoms)
}

/// The atoms of the pattern that a group writes, over the five relations from the base on.
pub fn pattern(
    alloc: Global,
    bytes: &[u8],
    group: &[EntrySyntax],
    base: usize,
    names: &mut Names,
) -> Result<Atoms, OutOfMemory>
    requires utf8 { IsUtf8 bytes.now }
    requires stand { EachOfEntries (IsFieldIn bytes.now) (IsTermIn bytes.now)
        (entries_of group.now) }
    ensures { IfOk result (λ atoms. IsPatternOf
        bytes.now names.old base (entries_of group.now) atoms names.new) }
{
    let root = names.len() as u64;
    names.push(Name::Hidden)?;
    let pattern = Pattern {
        entries: entries(alloc, bytes, group, names)?,
    };
    pattern_atoms(alloc, &pattern, base, root, names)
}

/// What is left of the room for atoms after those of the entry. None comes exactly where they are too many.
#[cycle(room)]
fn room_after_entry(entry: &EntrySyntax, room: usize) -> Option<usize>
    ensures { MatchOption result (room < entry_size (entry_of entry.now))
        (λ left. room ≡ left + entry_size (entry_of entry.now)) }
{
    match entry {
        EntrySyntax::Value { path, .. } => {
            let left = room.checked_sub(path.len())?;
            left.checked_sub(1)
        }
        EntrySyntax::Group { path, entries } => {
            let left = room.checked_sub(path.len())?;
            room_after_entries(entries.items(), left)
        }
    }
}

/// What is left of the room for atoms after those of the entries. None comes exactly where they are too many.
#[cycle(room)]
pub fn room_after_entries(entries: &[EntrySyntax], room: usize) -> Option<usize>
    ensures { MatchOption result (room < entries_size (entries_of entries.now))
        (λ left. room ≡ left + entries_size (entries_of entries.now)) }
{
    let mut left = room;
    'entries: for entry in entries {
        left = room_after_entry(entry, left)?;
    }
    Some(left)
}
