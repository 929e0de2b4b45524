//! What rows of the catalogue's table have in common.
ghost use Rattle.std.specs.Prelude.{◌≡◌, ℕ, List, IfOk, IfErr, MatchOption, option_copied};
ghost use Rattle.esto_course.specs.Course.{Stops};
ghost use Rattle.std.specs.List.{list_any};
ghost use Rattle.esto_catalog.specs.Rows.{IsAny, IsWant, Walks, is_known, IsUnknown, IsLeastUnknown, IsLesserOf, knows_keys, needs_text, allows_text};
ghost use Rattle.esto_catalog.specs.Rows.{needs_texts};
ghost use Rattle.esto_settings.specs.Settings.{is_same, setting_at};

use crate::fault::{CatalogueError, Place, fault};
use esto_settings::{Field, Setting, is_same, setting_at};
use esto_status::CatalogueKind;
use esto_term::{Replicate, Text, TextRow};
use std::alloc::Global;

/// The keys that a table of a catalogue may have, by what it is.
#[derive(Clone, Copy)]
pub enum Keys {
    /// The top of the file, where the version is not 2.
    Top,
    /// The top of the file, where the version is 2.
    TopOfTwo,
    Dataset,
    Fragment,
    Constraint,
}

// Whether the key is one of these words.
fn is_one_of(key: &Text, words: &[&str]) -> bool
    ensures { result ≡ list_any (λ word. is_same key.now word.now) words.now }
{
    words.iter().any(|word| is_same(key, word))
}

// Whether the key is one of these.
fn is_known(keys: Keys, key: &Text) -> bool
    ensures { result ≡ is_known keys key.now }
{
    match keys {
        Keys::Top => is_one_of(key, &["version", "dataset", "fragment", "constraint"]),
        Keys::TopOfTwo => {
            is_one_of(
                key,
                &["version", "core", "dataset", "fragment", "constraint"],
            )
        }
        Keys::Dataset => is_one_of(key, &["name", "model", "columns", "layout", "file"]),
        Keys::Fragment => is_one_of(
            key,
            &[
                "view", "store", "file", "columns", "layout", "pattern", "access", "weight",
            ],
        ),
        Keys::Constraint => is_one_of(key, &["rule"]),
    }
}

// The lesser of two keys by bytes, where there are two.
fn lesser<'a>(least: Option<&'a Text>, key: &'a Text) -> &'a Text
    ensures { IsLesserOf (option_copied least.entry) key.now result.now }
{
    match least {
        Some(other) => {
            if key.bytes().cmp(other.bytes()).is_lt() {
                key
            } else {
                other
            }
        }
        None => key,
    }
}

// The least unknown key of the entry, by bytes.
fn least_unknown<'a>(keys: Keys, entry: &'a [Field]) -> Option<&'a Text>
    ensures { MatchOption result ((key : List ℕ) → ¬ IsUnknown keys entry.now key) (λ key.
        IsLeastUnknown keys entry.now key.now) }
{
    let mut least: Option<&'a Text> = None;
    'fields: for field in entry {
        if !is_known(keys, &field.key) {
            least = Some(lesser(least, &field.key));
        }
    }
    least
}

/// Each key of the entry is one of these; else UnknownKey at the least one that is not.
pub fn knows_keys(
    alloc: Global,
    place: Place,
    keys: Keys,
    entry: &[Field],
) -> Result<(), CatalogueError>
    ensures { Walks (knows_keys place keys entry.now) result }
{
    match least_unknown(keys, entry) {
        Some(key) => Err(fault(alloc, CatalogueKind::UnknownKey, place, key.as_str(), None)),
        None => Ok(()),
    }
}

/// The text at the key; Missing where it is absent, WrongType where it is something else.
#[tactic(auto, using(crate::proofs::RowLemmas::rows))]
pub fn needs_text<'a>(
    alloc: Global,
    place: Place,
    key: &str,
    entry: &'a [Field],
) -> Result<&'a Text, CatalogueError>
    ensures goes { IfOk result (λ text.
        (needs_text place key.now (setting_at key.now entry.now)).goes text.now) }
    ensures error { IfErr result (Stops IsWant IsAny
        (needs_text place key.now (setting_at key.now entry.now))) }
{
    match setting_at(key, entry) {
        None => Err(fault(alloc, CatalogueKind::Missing, place, key, None)),
        Some(Setting::Text(text)) => Ok(text),
        Some(_) => Err(fault(alloc, CatalogueKind::WrongType, place, key, None)),
    }
}

/// The text at the key, where there is one; WrongType where it is something else.
#[tactic(auto, using(crate::proofs::RowLemmas::rows))]
pub fn allows_text(
    alloc: Global,
    place: Place,
    key: &str,
    entry: &[Field],
) -> Result<Option<Text>, CatalogueError>
    ensures { Walks (allows_text place key.now (setting_at key.now entry.now)) result }
{
    match setting_at(key, entry) {
        None => Ok(None),
        Some(Setting::Text(text)) => Ok(Some(text.copy(alloc)?)),
        Some(_) => Err(fault(alloc, CatalogueKind::WrongType, place, key, None)),
    }
}

/// The texts at the key; Missing where it is absent, WrongType where it is something else.
#[tactic(auto, using(crate::proofs::RowLemmas::rows))]
pub fn needs_texts<'a>(
    alloc: Global,
    place: Place,
    key: &str,
    entry: &'a [Field],
) -> Result<&'a TextRow, CatalogueError>
    ensures goes { IfOk result (λ texts.
        (needs_texts place key.now (setting_at key.now entry.now)).goes texts.now) }
    ensures error { IfErr result (Stops IsWant IsAny
        (needs_texts place key.now (setting_at key.now entry.now))) }
{
    match setting_at(key, entry) {
        None => Err(fault(alloc, CatalogueKind::Missing, place, key, None)),
        Some(Setting::Texts(texts)) => Ok(texts),
        Some(_) => Err(fault(alloc, CatalogueKind::WrongType, place, key, None)),
    }
}
