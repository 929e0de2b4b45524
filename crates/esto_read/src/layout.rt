//! Layouts, from their texts.
ghost use Rattle.std.specs.Prelude.{IfOk, IfErr, IsTrue, ◌↔◌, MatchOption};
ghost use Rattle.esto_text.specs.Faults.{IsFieldIn, IsTermIn, IsLayoutText, LayoutStandsAt};
ghost use Rattle.esto_text.specs.Trees.{EachOfEntry, EachOfEntries};
ghost use Rattle.esto_text.specs.View.{entry_of, entries_of};
ghost use Rattle.esto_read.specs.Layouts.{AreColumns, entry_terms, terms_of, IsStranger, AreKnown, IsFirstStranger, IsLayoutReading, IsLayoutError};
ghost use Rattle.esto_read.specs.Layouts.{HaveOneLayout, HaveNoLayoutFault, HaveOneLayoutFault};

use crate::constant::bytes_of;
use crate::pattern::entries;
use crate::term::number_of;
use esto_docmodel::Pattern;
use esto_query::{Name, Names};
use esto_term::Replicate;
use esto_text::{
    EntrySyntax, ReadError, TextFault, TextKind, Token, TokenKind, read_layout_tree,
    trees_are_determined,
};
use std::alloc::Global;

/// Whether the token is a name, and no column's.
fn is_stranger(bytes: &[u8], token: Token, columns: &[Name]) -> bool
    requires { IsTermIn bytes.now token }
    ensures { IsTrue result ↔ IsStranger bytes.now columns.now token }
{
    match token.kind {
        TokenKind::Name => number_of(columns, bytes_of(bytes, token)).is_none(),
        _ => false,
    }
}

/// The fault of the first name in the entry that is no column's.
#[cycle(stranger)]
fn stranger_in(bytes: &[u8], entry: &EntrySyntax, columns: &[Name]) -> Option<TextFault>
    requires { EachOfEntry (IsFieldIn bytes.now) (IsTermIn bytes.now) (entry_of entry.now) }
    ensures { MatchOption result
        (AreKnown bytes.now columns.now (entry_terms (entry_of entry.now)))
        (IsFirstStranger bytes.now columns.now (entry_terms (entry_of entry.now))) }
{
    match entry {
        EntrySyntax::Value { term, .. } => {
            if !is_stranger(bytes, *term, columns) {
                return None;
            }
            Some(TextFault {
                offset: term.start,
                kind: TextKind::Unknown,
            })
        }
        EntrySyntax::Group { entries, .. } => first_stranger(bytes, entries.items(), columns),
    }
}

/// The fault of the first name in the entries that is no column's.
#[cycle(stranger)]
fn first_stranger(bytes: &[u8], entries: &[EntrySyntax], columns: &[Name]) -> Option<TextFault>
    requires { EachOfEntries (IsFieldIn bytes.now) (IsTermIn bytes.now) (entries_of entries.now) }
    ensures { MatchOption result
        (AreKnown bytes.now columns.now (terms_of (entries_of entries.now)))
        (IsFirstStranger bytes.now columns.now (terms_of (entries_of entries.now))) }
{
    'entries: for entry in entries {
        if let Some(fault) = stranger_in(bytes, entry, columns) {
            return Some(fault);
        }
    }
    None
}

/// The pattern that the entries of the text say, whose variables are columns; or the fault of the first name after
/// `:` that is no column's.
fn said_layout(
    alloc: Global,
    bytes: &[u8],
    group: &[EntrySyntax],
    columns: &Names,
) -> Result<Pattern, ReadError>
    requires text { IsLayoutText bytes.now (entries_of group.now) }
    requires stand { LayoutStandsAt bytes.now (entries_of group.now) }
    ensures reading { IfOk result (IsLayoutReading columns.now bytes.now) }
    ensures error { IfErr result (IsLayoutError columns.now bytes.now) }
{
    if let Some(fault) = first_stranger(bytes, group, columns.items()) {
        return Err(ReadError::Fault(fault));
    }
    let mut names = columns.copy(alloc)?;
    let entries = entries(alloc, bytes, group, &mut names)?;
    Ok(Pattern { entries })
}

/// The pattern that a text of a layout is, whose variables are columns: each has its column's number, and the wildcards
/// have the numbers from the count of columns on. Or the text's first fault: Utf8, Syntax, then Unknown at the first name
/// after `:` that is no column's.
pub fn read_layout(alloc: Global, bytes: &[u8], columns: &Names) -> Result<Pattern, ReadError>
    requires { AreColumns columns.now }
    // The answer is the text's pattern.
    ensures reading { IfOk result (IsLayoutReading columns.now bytes.now) }
    // A fault is the text's first fault.
    ensures error { IfErr result (IsLayoutError columns.now bytes.now) }
{
    let group = read_layout_tree(alloc, bytes)?;
    said_layout(alloc, bytes, group.items(), columns)
}

/// A law: over the same columns a text of a layout has at most one pattern and at most one first fault, and never both.
pub fn layout_readings_are_determined()
    ensures reading { HaveOneLayout }
    ensures apart { HaveNoLayoutFault }
    ensures fault { HaveOneLayoutFault }
{
    trees_are_determined();
}
