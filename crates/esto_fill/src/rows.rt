//! Rows of terms as rows of texts.
ghost use Rattle.std.specs.Prelude.{◌≡◌, ◌+◌, [], ◌∷◌, map, IfOk};
ghost use Rattle.esto_query.specs.Rows.{IsAscending};
ghost use Rattle.esto_fill.specs.Placing.{text_of, IsImageOf, LeastOpen, NamesColumn, lesser};
ghost use Rattle.esto_fill.specs.Texts.{AreTextsOf, GivesTexts, HaveTextsOnly};
ghost use Rattle.esto_fill.specs.declared.rows.AnswerError.TheVariants as answer;

use esto_term::{List, OutOfMemory, Replicate, Term, Terms, Text, TextRow, TextRows};
use std::alloc::Global;

/// Why rows are not given as texts.
#[derive(Drop)]
pub enum AnswerError {
    /// A row holds a node in this column, counted from 1, and no row holds one in a lesser.
    NodeInRow(u64),
    OutOfMemory,
}

impl From<OutOfMemory> for AnswerError {
    ghost from_gives = { λ _ e. e ≡ answer.OutOfMemory };

    fn from(_: OutOfMemory) -> AnswerError {
        AnswerError::OutOfMemory
    }
}

// The first place, counted from 0, in which the row has another term than a constant.
fn open_place(row: &[Term]) -> Option<usize>
    ensures { LeastOpen (row.now ∷ []) result }
{
    'terms: for (place, term) in row.iter().enumerate() {
        if !term.is_constant() {
            return Some(place);
        }
    }
    None
}

// The lesser of two places, of which either may be absent.
fn lesser(place: Option<usize>, other: Option<usize>) -> Option<usize>
    ensures { result ≡ lesser place other }
{
    match place {
        None => other,
        Some(first) => match other {
            None => place,
            Some(second) => Some(first.min(second)),
        },
    }
}

/// The least place, counted from 0, in which one of the rows has another term than a constant.
pub fn least_open(rows: &[Terms]) -> Option<usize>
    ensures { LeastOpen rows.now result }
{
    let mut least = None;
    'rows: for row in rows {
        least = lesser(least, open_place(row.items()));
    }
    least
}

// The text of a constant; the empty text for another term.
fn text_of(alloc: Global, term: &Term) -> Result<Text, OutOfMemory>
    ensures { IfOk result (λ it. it ≡ text_of term.now) }
{
    match term {
        Term::Const(text) => text.copy(alloc),
        Term::Plain(_) => Ok(Text::new(alloc)),
        Term::Made(_, _, _) => Ok(Text::new(alloc)),
    }
}

// The row of the texts of the terms.
fn text_row(alloc: Global, terms: &[Term]) -> Result<TextRow, OutOfMemory>
    ensures { IfOk result (λ it. it ≡ map text_of terms.now) }
{
    let mut row = List::new(alloc);
    'terms: for term in terms {
        let text = text_of(alloc, term)?;
        row.push(text)?;
    }
    Ok(row)
}

// The rows of the texts of the terms.
fn text_rows(alloc: Global, rows: &[Terms]) -> Result<TextRows, OutOfMemory>
    ensures { IfOk result (λ it. it ≡ map (map text_of) rows.now) }
{
    let mut texts = List::new(alloc);
    'rows: for row in rows {
        let own = text_row(alloc, row.items())?;
        texts.push(own)?;
    }
    Ok(texts)
}

/// The number, counted from 1, of what stands at the place, counted from 0. Want of memory is answered for the greatest
/// place, at which nothing stands.
pub fn counted(place: usize) -> Result<u64, OutOfMemory>
    ensures { IfOk result (λ it. it ≡ place + 1) }
{
    match (place as u64).checked_add(1) {
        Some(it) => Ok(it),
        None => Err(OutOfMemory),
    }
}

/// The refusal of rows of which one has another term than a constant in that place, counted from 0.
pub fn node_at(place: usize) -> AnswerError
    ensures { NamesColumn place result }
{
    match counted(place) {
        Ok(column) => AnswerError::NodeInRow(column),
        Err(_) => AnswerError::OutOfMemory,
    }
}

/// The rows of terms as texts, in order, or the least column in which one of them has another term than a constant.
pub fn texts_of(alloc: Global, rows: &[Terms]) -> Result<TextRows, AnswerError>
    requires { IsAscending rows.now }
    ensures { GivesTexts (IsImageOf rows.now) result }
{
    if let Some(place) = least_open(rows) {
        return Err(node_at(place));
    }
    let texts = text_rows(alloc, rows)?;
    Ok(texts)
}

/// The rows of terms, which are of constants alone, as texts, in order.
pub fn constant_texts(alloc: Global, rows: &[Terms]) -> Result<TextRows, OutOfMemory>
    requires ascending { IsAscending rows.now }
    requires texts { HaveTextsOnly (IsImageOf rows.now) }
    ensures { IfOk result (AreTextsOf (IsImageOf rows.now)) }
{
    match texts_of(alloc, rows) {
        Ok(texts) => Ok(texts),
        Err(AnswerError::NodeInRow(_)) => unreachable!(),
        Err(AnswerError::OutOfMemory) => Err(OutOfMemory),
    }
}
