//! Lines of a certificate in print.
ghost use Rattle.std.specs.Prelude.{◌≡◌, ◌+◌, ◌++◌, ◌<◌, ◌≤◌, ℕ, Contains, length, map, codes, OnOk};
ghost use Rattle.std.specs.Fmt.{decimal};
ghost use Rattle.esto_term.specs.Nesting.{greatest_u64};
ghost use Rattle.esto_cert.specs.declared.line.Line.TheVariants.{Expanded, Step, Match};
ghost use Rattle.esto_derive.specs.Printing.{line_text, list_text, LinesAreReadBack};
ghost use Rattle.esto_derive.specs.Writing.{lines_at, GoesOnByLinks};

use crate::lines::{lines_at, links_at};
use esto_term::{Bytes, OutOfMemory, Places};
use esto_views::{put_number, put_numbers};
use std::alloc::Global;

/// Puts numbers of lines at the end, which are given counted from 0, or a minus for none.
fn put_list(alloc: Global, text: &mut Bytes, lines: &[usize]) -> Result<(), OutOfMemory>
    ensures { OnOk result (text.new ≡ text.old ++ list_text (map (λ line. line + 1) lines.now)) }
{
    if lines.is_empty() {
        return text.append(b"-");
    }
    put_numbers(alloc, text, lines)
}

/// Puts a number and what follows it at the end.
fn put_word(alloc: Global, text: &mut Bytes, number: usize, after: &[u8]) -> Result<(), OutOfMemory>
    ensures { OnOk result (text.new ≡ text.old ++ (decimal number ++ after.now)) }
{
    put_number(alloc, text, number as u128)?;
    text.append(after)
}

/// Puts the numbers of the lines that stand for the entries at the places at the end.
fn put_lines(
    alloc: Global,
    text: &mut Bytes,
    lines: &[Places],
    places: &[usize],
) -> Result<(), OutOfMemory>
    requires { (place : ℕ) → Contains places.now place → place < length lines.now }
    ensures { OnOk result (text.new ≡ text.old
        ++ list_text (map (λ line. line + 1) (lines_at lines.now places.now))) }
{
    let named = lines_at(alloc, lines, places)?;
    put_list(alloc, text, named.items())
}

/// Puts the numbers of the lines that stand for the entries at the places at the end, each once.
fn put_links(
    alloc: Global,
    text: &mut Bytes,
    lines: &[Places],
    places: &[usize],
) -> Result<(), OutOfMemory>
    requires { (place : ℕ) → Contains places.now place → place < length lines.now }
    ensures { OnOk result
        (GoesOnByLinks lines.now places.now list_text text.old text.new) }
{
    let linked = links_at(alloc, lines, places)?;
    put_list(alloc, text, linked.items())
}

/// Puts the lists of the lines that stand for the entries of facts and of links at the end, and the end of the line.
fn put_lists(
    alloc: Global,
    text: &mut Bytes,
    lines: &[Places],
    facts: &[usize],
    links: &[usize],
) -> Result<(), OutOfMemory>
    requires facts { (place : ℕ) → Contains facts.now place → place < length lines.now }
    requires links { (place : ℕ) → Contains links.now place → place < length lines.now }
    ensures { OnOk result (GoesOnByLinks lines.now links.now (λ linked.
        list_text (map (λ line. line + 1) (lines_at lines.now facts.now))
        ++ (codes " " ++ (list_text linked ++ codes "\n"))) text.old text.new) }
{
    put_lines(alloc, text, lines, facts)?;
    text.append(b" ")?;
    put_links(alloc, text, lines, links)?;
    text.append(b"\n")
}

/// Puts the line of an expanded fact at the end.
pub fn put_expanded(
    alloc: Global,
    text: &mut Bytes,
    atom: usize,
    place: usize,
) -> Result<(), OutOfMemory>
    ensures text { OnOk result
        (text.new ≡ text.old ++ (line_text (Expanded atom place) ++ codes "\n")) }
    ensures atom { atom ≤ greatest_u64 }
    ensures place { place ≤ greatest_u64 }
{
    text.append(b"fact ")?;
    put_word(alloc, text, atom, b" ")?;
    put_word(alloc, text, place, b"\n")
}

/// Puts the line of a step at the end. The lines that it names are those that stand for the entries at the places.
pub fn put_step(
    alloc: Global,
    text: &mut Bytes,
    number: usize,
    place: usize,
    lines: &[Places],
    facts: &[usize],
    links: &[usize],
) -> Result<(), OutOfMemory>
    requires facts { (place : ℕ) → Contains facts.now place → place < length lines.now }
    requires links { (place : ℕ) → Contains links.now place → place < length lines.now }
    ensures text { OnOk result (GoesOnByLinks lines.now links.now (λ linked. line_text (Step number
        place (map (λ line. line + 1) (lines_at lines.now facts.now)) linked) ++ codes "\n")
        text.old text.new) }
    ensures number { number ≤ greatest_u64 }
    ensures place { place ≤ greatest_u64 }
{
    text.append(b"step ")?;
    put_word(alloc, text, number, b" ")?;
    put_word(alloc, text, place, b" ")?;
    put_lists(alloc, text, lines, facts, links)
}

/// Puts the line of a match at the end. The lines that it names are those that stand for the entries at the places.
pub fn put_match(
    alloc: Global,
    text: &mut Bytes,
    lines: &[Places],
    facts: &[usize],
    links: &[usize],
) -> Result<(), OutOfMemory>
    requires facts { (place : ℕ) → Contains facts.now place → place < length lines.now }
    requires links { (place : ℕ) → Contains links.now place → place < length lines.now }
    ensures { OnOk result (GoesOnByLinks lines.now links.now (λ linked. line_text (Match
        (map (λ line. line + 1) (lines_at lines.now facts.now)) linked) ++ codes "\n")
        text.old text.new) }
{
    text.append(b"match ")?;
    put_lists(alloc, text, lines, facts, links)
}

/// A law: a line in print says what the line says, where its numbers are at most the greatest of 64 bits, and it names
/// a fact unless it is an expanded one.
pub fn written_lines_are_read_back()
    ensures { LinesAreReadBack }
{}
