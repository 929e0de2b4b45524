//! The rows of a fragment's binding patterns and of its weight.
ghost use Rattle.std.specs.Prelude.{◌≡◌, ◌≢◌, ℕ, List, Bool, [], ◌∷◌, length, MatchOption, IfOk};
ghost use Rattle.esto_catalog.specs.Access.{letter_of, IsPattern, ArePatterns, IsWeight, is_usual_input, reads_patterns, usual_pattern, access_row};
ghost use Rattle.esto_catalog.specs.Access.{reads_weight, weight_row};
ghost use Rattle.esto_catalog.specs.Rows.{Walks};

use crate::fault::{CatalogueError, Place, fault};
use esto_docmodel::DataModel;
use esto_mapping::{MAX_PATTERNS, MAX_WEIGHT, are_distinct};
use esto_query::Query;
use esto_settings::{Field, Setting, setting_at};
use esto_status::CatalogueKind;
use esto_term::{List, OutOfMemory, Text, Values};
use esto_views::{Access, AccessList};
use std::alloc::Global;
use std::slice;

/// The weight of a fragment for which none is written.
const USUAL_WEIGHT: u64 = 1;

// Whether a column of this letter is an input, where the letter is `i` or `o`.
fn input_of(letter: u8) -> Option<bool>
    ensures { MatchOption result ((input : Bool) → letter ≢ letter_of input)
        (λ input. letter ≡ letter_of input) }
{
    match letter {
        b'i' => Some(true),
        b'o' => Some(false),
        _ => None,
    }
}

// The pattern of so many columns that the text is, where it is one.
fn pattern_of(alloc: Global, columns: usize, text: &[u8]) -> Result<Option<Access>, OutOfMemory>
    ensures { IfOk result (λ it. MatchOption it
        ((pattern : List Bool) → ¬ IsPattern columns text.now pattern)
        (IsPattern columns text.now)) }
{
    if text.len() != columns {
        return Ok(None);
    }
    let mut pattern = Values::new(alloc);
    'letters: for letter in text {
        let Some(input) = input_of(*letter) else {
            return Ok(None);
        };
        pattern.push(input)?;
    }
    Ok(Some(pattern))
}

// The patterns of so many columns that the texts are, where they are patterns of a fragment.
fn patterns_of(
    alloc: Global,
    columns: usize,
    texts: &[Text],
) -> Result<Option<AccessList>, OutOfMemory>
    ensures { IfOk result (λ it. MatchOption it
        ((patterns : List (List Bool)) → ¬ ArePatterns columns texts.now patterns)
        (ArePatterns columns texts.now)) }
{
    if texts.is_empty() || texts.len() > MAX_PATTERNS || !are_distinct(texts) {
        return Ok(None);
    }
    let mut patterns = List::new(alloc);
    'texts: for text in texts {
        let Some(pattern) = pattern_of(alloc, columns, text.bytes())? else {
            return Ok(None);
        };
        patterns.push(pattern)?;
    }
    Ok(Some(patterns))
}

// The patterns that the texts are; else BadAccess.
fn written_access(
    alloc: Global,
    place: Place,
    view: &Query,
    texts: &[Text],
) -> Result<AccessList, CatalogueError>
    ensures { Walks (reads_patterns place (length view.now.head) texts.now) result }
{
    match patterns_of(alloc, view.head.len(), texts)? {
        Some(patterns) => Ok(patterns),
        None => Err(fault(alloc, CatalogueKind::BadAccess, place, "access", None)),
    }
}

// Whether the column of this number is an input by the usual pattern of a store of this model.
fn is_usual_input(model: DataModel, column: usize) -> bool
    ensures { result ≡ is_usual_input model column }
{
    match model {
        DataModel::Table => false,
        DataModel::Documents => false,
        DataModel::Keys => column == 0,
    }
}

// The pattern of so many columns for which none is written.
fn usual_pattern(alloc: Global, model: DataModel, columns: usize) -> Result<Access, OutOfMemory>
    ensures { IfOk result (λ it. it ≡ usual_pattern model columns) }
{
    let mut pattern = Values::new(alloc);
    'columns: for column in 0..columns {
        pattern.push(is_usual_input(model, column))?;
    }
    Ok(pattern)
}

// The one usual pattern.
fn usual_access(alloc: Global, model: DataModel, view: &Query) -> Result<AccessList, OutOfMemory>
    ensures { IfOk result (λ it. it ≡ usual_pattern model (length view.now.head) ∷ []) }
{
    let pattern = usual_pattern(alloc, model, view.head.len())?;
    let mut access = List::new(alloc);
    access.push(pattern)?;
    Ok(access)
}

/// The binding patterns of the view's fragment: those that are written, or the one by which no
/// column is an input, but for the first column of keys.
#[tactic(auto, using(crate::proofs::RowLemmas::rows))]
pub fn access(
    alloc: Global,
    place: Place,
    model: DataModel,
    view: &Query,
    entry: &[Field],
) -> Result<AccessList, CatalogueError>
    ensures { Walks (access_row place model view.now entry.now) result }
{
    match setting_at("access", entry) {
        None => Ok(usual_access(alloc, model, view)?),
        Some(Setting::Text(text)) => written_access(alloc, place, view, slice::from_ref(text)),
        Some(Setting::Texts(texts)) => written_access(alloc, place, view, texts.items()),
        Some(_) => Err(fault(alloc, CatalogueKind::WrongType, place, "access", None)),
    }
}

// The weight that the integer is, where it is one.
fn weight_of(number: i64) -> Option<u64>
    ensures { MatchOption result ((weight : ℕ) → ¬ IsWeight number weight) (IsWeight number) }
{
    if number < 0 {
        return None;
    }
    let weight = number as u64;
    if weight > MAX_WEIGHT {
        return None;
    }
    Some(weight)
}

// The weight that the integer is; else BadWeight.
fn written_weight(alloc: Global, place: Place, number: i64) -> Result<u64, CatalogueError>
    ensures { Walks (reads_weight place number) result }
{
    match weight_of(number) {
        Some(weight) => Ok(weight),
        None => Err(fault(alloc, CatalogueKind::BadWeight, place, "weight", None)),
    }
}

/// The weight of the fragment: the one that is written, or 1.
#[tactic(auto, using(crate::proofs::RowLemmas::rows))]
pub fn weight(alloc: Global, place: Place, entry: &[Field]) -> Result<u64, CatalogueError>
    ensures { Walks (weight_row place entry.now) result }
{
    match setting_at("weight", entry) {
        None => Ok(USUAL_WEIGHT),
        Some(Setting::Integer(number)) => written_weight(alloc, place, *number),
        Some(_) => Err(fault(alloc, CatalogueKind::WrongType, place, "weight", None)),
    }
}
