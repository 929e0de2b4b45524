//! Layouts of fragment files.
ghost use Rattle.std.specs.Prelude.{◌≡◌, ◌↔◌, [], ◌∷◌, ◌<◌, ◌≤◌, ℕ, List, length, Contains, IsTrue, MatchOption};
ghost use Rattle.esto_term.specs.declared.term.Term.TheVariants.{Plain};
ghost use Rattle.esto_docmodel.specs.Layouts.{paths, first_path, Begins, SomeBegins, AreFields, IsOneItem, FitTogether, IsColumn, AreLaidOut, StandsOnce, height, IsLayout};
ghost use Rattle.esto_docmodel.specs.Patterns.{Entries, done, Mentions};
ghost use Rattle.esto_docmodel.specs.Shapes.{entry_shape, entries_of};
ghost use Rattle.esto_docmodel.specs.declared.pattern.Step.TheVariants as steps;

use crate::pattern::{Entry, Pattern, Step};
use esto_term::{Term, Text};

/// The greatest number of path steps from the root of a layout to a column. A document that is written by it, with an
/// array around it, keeps within the nesting that JSON readers take.
pub const MAX_LAYOUT_DEPTH: usize = 126;

/// The path of an entry.
pub fn path_of(entry: &Entry) -> &[Step]
    ensures paths { (rest : Entries)
        → paths (entry_shape entry.now rest) ≡ result.now ∷ paths rest }
    ensures first { result.now ≡ first_path (entries_of (entry.now ∷ [])) }
{
    match entry {
        Entry::Value(path, _) => path.items(),
        Entry::Group(path, _) => path.items(),
    }
}

/// Whether the step is `**`.
fn leads_inside(step: &Step) -> bool
    ensures { IsTrue result ↔ (step.now ≡ steps.Below) }
{
    match step {
        Step::Below => true,
        Step::Name(_) => false,
        Step::Item => false,
    }
}

/// Whether the path has `**`.
fn has_below(path: &[Step]) -> bool
    ensures { IsTrue result ↔ Contains path.now steps.Below }
{
    let mut left = path;
    'steps: while let Some((step, rest)) = left.split_first() {
        if leads_inside(step) {
            return true;
        }
        left = rest;
    }
    false
}

/// Whether the path begins with an item.
fn begins_with_item(path: &[Step]) -> bool
    ensures { IsTrue result ↔ Begins steps.Item path.now }
{
    match path.first() {
        Some(Step::Item) => true,
        Some(Step::Name(_)) => false,
        Some(Step::Below) => false,
        None => false,
    }
}

/// The name of the field with which the path begins. None comes exactly where it begins with none.
fn first_name(path: &[Step]) -> Option<&Text>
    ensures { MatchOption result ((name : List ℕ) → ¬ (Begins (steps.Name name) path.now))
        (λ name. Begins (steps.Name name.now) path.now) }
{
    match path.first() {
        Some(Step::Name(name)) => Some(name),
        Some(Step::Item) => None,
        Some(Step::Below) => None,
        None => None,
    }
}

/// Whether the path begins with the field of that name.
fn begins_with(path: &[Step], name: &Text) -> bool
    ensures { IsTrue result ↔ Begins (steps.Name name.now) path.now }
{
    match first_name(path) {
        Some(first) => first.bytes() == name.bytes(),
        None => false,
    }
}

/// Whether one of the entries' paths begins with the field of that name.
fn some_begins_with(entries: &[Entry], name: &Text) -> bool
    ensures { IsTrue result ↔ SomeBegins (steps.Name name.now) (paths (entries_of entries.now)) }
{
    let mut left = entries;
    'entries: while let Some((entry, rest)) = left.split_first() {
        if begins_with(path_of(entry), name) {
            return true;
        }
        left = rest;
    }
    false
}

/// Whether the path begins with a field of another name than those with which the others' paths begin.
fn is_new_field(path: &[Step], others: &[Entry]) -> bool
    ensures { IsTrue result ↔ ((name : List ℕ) × Begins (steps.Name name) path.now
        × ¬ (SomeBegins (steps.Name name) (paths (entries_of others.now)))) }
{
    match first_name(path) {
        Some(name) => !some_begins_with(others, name),
        None => false,
    }
}

/// Whether each entry's path begins with a field, and no two with fields of one name.
fn are_fields(entries: &[Entry]) -> bool
    ensures { IsTrue result ↔ AreFields (paths (entries_of entries.now)) }
{
    let mut left = entries;
    'entries: while let Some((entry, rest)) = left.split_first() {
        if !is_new_field(path_of(entry), rest) {
            return false;
        }
        left = rest;
    }
    true
}

/// Whether there is one entry, whose path begins with an item.
fn is_one_item(entries: &[Entry]) -> bool
    ensures { IsTrue result ↔ IsOneItem (paths (entries_of entries.now)) }
{
    match entries.split_first() {
        Some((entry, rest)) => rest.is_empty() && begins_with_item(path_of(entry)),
        None => false,
    }
}

/// Whether the entries of a group fit together.
fn fit_together(entries: &[Entry]) -> bool
    ensures { IsTrue result ↔ FitTogether (paths (entries_of entries.now)) }
{
    is_one_item(entries) || (!entries.is_empty() && are_fields(entries))
}

/// Whether the term is the variable of a column.
fn is_column(term: &Term, columns: usize) -> bool
    ensures { IsTrue result ↔ IsColumn columns term.now }
{
    match term {
        Term::Plain(column) => *column < columns as u64,
        Term::Const(_) => false,
        Term::Made(_, _, _) => false,
    }
}

/// Whether the path has no `**`, and at most so many steps.
fn is_plain(path: &[Step], most: usize) -> bool
    ensures { IsTrue result ↔ (¬ (Contains path.now steps.Below) × (length path.now ≤ most)) }
{
    path.len() <= most && !has_below(path)
}

/// Whether the entry is laid out, within so many steps.
#[cycle(laid_out)]
fn is_laid_out(entry: &Entry, columns: usize, steps: usize) -> bool
    ensures { IsTrue result ↔ (AreLaidOut columns (entry_shape entry.now done)
        × (height (entry_shape entry.now done) ≤ steps)) }
{
    match entry {
        Entry::Value(path, term) => is_plain(path.items(), steps) && is_column(term, columns),
        Entry::Group(path, inner) => {
            is_plain(path.items(), steps)
                && (fit_together(inner.items())
                    && are_laid_out(inner.items(), columns, steps - path.len()))
        }
    }
}

/// Whether the entries are laid out, within so many steps.
#[cycle(laid_out)]
fn are_laid_out(entries: &[Entry], columns: usize, steps: usize) -> bool
    ensures { IsTrue result ↔ (AreLaidOut columns (entries_of entries.now)
        × (height (entries_of entries.now) ≤ steps)) }
{
    'entries: for entry in entries {
        if !is_laid_out(entry, columns, steps) {
            return false;
        }
    }
    true
}

/// Whether the term is the variable of that number.
fn is_variable(term: &Term, number: u64) -> bool
    ensures { IsTrue result ↔ (term.now ≡ Plain number) }
{
    match term {
        Term::Plain(variable) => *variable == number,
        Term::Const(_) => false,
        Term::Made(_, _, _) => false,
    }
}

/// Whether the variable stands after `:` in the entry.
#[cycle(mention)]
fn is_mentioned_in(entry: &Entry, variable: u64) -> bool
    ensures { IsTrue result ↔ Mentions (entry_shape entry.now done) (Plain variable) }
{
    match entry {
        Entry::Value(_, term) => is_variable(term, variable),
        Entry::Group(_, inner) => is_mentioned(inner.items(), variable),
    }
}

/// Whether the variable stands after `:` in the entries.
#[cycle(mention)]
fn is_mentioned(entries: &[Entry], variable: u64) -> bool
    ensures { IsTrue result ↔ Mentions (entries_of entries.now) (Plain variable) }
{
    'entries: for entry in entries {
        if is_mentioned_in(entry, variable) {
            return true;
        }
    }
    false
}

/// Whether the variable stands after `:` in exactly one place of the entry.
#[cycle(once)]
fn stands_once_in(entry: &Entry, variable: u64) -> bool
    ensures { IsTrue result ↔ StandsOnce (Plain variable) (entry_shape entry.now done) }
{
    match entry {
        Entry::Value(_, term) => is_variable(term, variable),
        Entry::Group(_, inner) => stands_once(inner.items(), variable),
    }
}

/// Whether the variable stands after `:` in exactly one place of the entries.
#[cycle(once)]
fn stands_once(entries: &[Entry], variable: u64) -> bool
    ensures { IsTrue result ↔ StandsOnce (Plain variable) (entries_of entries.now) }
{
    'entries: for (place, entry) in entries.iter().enumerate() {
        if is_mentioned_in(entry, variable) {
            return stands_once_in(entry, variable)
                && !is_mentioned(&entries[place + 1..], variable);
        }
    }
    false
}

/// Whether each column stands after `:` in exactly one place.
fn each_stands_once(entries: &[Entry], columns: usize) -> bool
    ensures { IsTrue result ↔ ((column : ℕ) → column < columns
        → StandsOnce (Plain column) (entries_of entries.now)) }
{
    'columns: for column in 0..columns {
        if !stands_once(entries, column as u64) {
            return false;
        }
    }
    true
}

/// Whether the pattern is a layout for so many columns, where the variable of a column has the column's number: no path
/// has `**`; after each `:` stands a column, and each column stands there once; in each group either there is one entry,
/// whose path begins with `[]`, or there is at least one and all paths begin with fields of distinct names; and each
/// column stands at most `MAX_LAYOUT_DEPTH` path steps below the root. It takes no memory.
pub fn is_layout(pattern: &Pattern, columns: usize) -> bool
    ensures { IsTrue result ↔ IsLayout columns (entries_of pattern.now.entries) }
{
    let entries = pattern.entries.items();
    fit_together(entries)
        && are_laid_out(entries, columns, MAX_LAYOUT_DEPTH)
        && each_stands_once(entries, columns)
}
