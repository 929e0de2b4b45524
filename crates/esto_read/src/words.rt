//! The names of datasets and of their parts.
ghost use Rattle.std.specs.Prelude.{◌≡◌, ◌<◌, ◌↔◌, ℕ, IsTrue, MatchOption, All};
ghost use Rattle.esto_query.specs.declared.schema.TheConstants.{MAX_RELATIONS};
ghost use Rattle.esto_docmodel.specs.declared.words.DataModel.{DataModel};
ghost use Rattle.esto_docmodel.specs.Words.{IsBaseOf, IsPart, IsPartOf};

use esto_docmodel::{DataModel, Word};

/// Whether it is the word of the dataset of that name and model.
fn is_dataset(word: &Word, name: &[u8], model: DataModel) -> bool
    ensures { IsTrue result ↔ ((word.now.name ≡ name.now) × (word.now.model ≡ model)) }
{
    word.name.bytes() == name && word.model == model
}

/// The first relation of the dataset of that name and model. None comes exactly where there is none.
pub fn base_of(words: &[Word], name: &[u8], model: DataModel) -> Option<usize>
    ensures { MatchOption result ((base : ℕ) → ¬ IsBaseOf words.now name.now model base)
        (IsBaseOf words.now name.now model) }
{
    'words: for word in words {
        if is_dataset(word, name, model) {
            return Some(word.base);
        }
    }
    None
}

/// Whether that is the part's name.
fn is_named(part: &[u8], name: &str) -> bool
    ensures { IsTrue result ↔ (part.now ≡ name.now) }
{
    part == name.as_bytes()
}

/// The place of the part of that name among the relations of documents. None comes exactly where there is none.
fn document_part(part: &[u8]) -> Option<usize>
    ensures { MatchOption result ((place : ℕ) → ¬ IsPart DataModel.Documents part.now place)
        (IsPart DataModel.Documents part.now) }
{
    if is_named(part, "root") {
        return Some(0);
    }
    if is_named(part, "field") {
        return Some(1);
    }
    if is_named(part, "item") {
        return Some(2);
    }
    if is_named(part, "value") {
        return Some(3);
    }
    if is_named(part, "below") {
        return Some(4);
    }
    None
}

/// The place of the part of that name among the relations of a key-value set. None comes exactly where there is none.
fn key_part(part: &[u8]) -> Option<usize>
    ensures { MatchOption result ((place : ℕ) → ¬ IsPart DataModel.Keys part.now place)
        (IsPart DataModel.Keys part.now) }
{
    if is_named(part, "pair") {
        return Some(0);
    }
    None
}

/// The place of the part of that name among the relations of a dataset of the model. None comes exactly where there is
/// none.
fn place_of(model: DataModel, part: &[u8]) -> Option<usize>
    ensures { MatchOption result ((place : ℕ) → ¬ IsPart model part.now place)
        (IsPart model part.now) }
{
    match model {
        DataModel::Table => None,
        DataModel::Documents => document_part(part),
        DataModel::Keys => key_part(part),
    }
}

/// The place of the part of that name, where it is the word of the dataset of the name. None comes exactly where it is
/// not, or the dataset has no such part.
fn part_in(word: &Word, name: &[u8], part: &[u8]) -> Option<usize>
    ensures { MatchOption result
        ((place : ℕ) → ¬ ((word.now.name ≡ name.now) × IsPart word.now.model part.now place))
        (λ place. (word.now.name ≡ name.now) × IsPart word.now.model part.now place) }
{
    if word.name.bytes() != name {
        return None;
    }
    place_of(word.model, part)
}

/// The relation of the part of that name of the dataset of the name. None comes exactly where there is none.
pub fn part_of(words: &[Word], name: &[u8], part: &[u8]) -> Option<usize>
    requires { All (λ word. word.base < MAX_RELATIONS) words.now }
    ensures { MatchOption result
        ((relation : ℕ) → ¬ IsPartOf words.now name.now part.now relation)
        (IsPartOf words.now name.now part.now) }
{
    'words: for word in words {
        if let Some(place) = part_in(word, name, part) {
            return Some(word.base + place);
        }
    }
    None
}
