//! Which facts of documents are kept.
ghost use Rattle.std.specs.Prelude.{◌≡◌, bytes_eq};
ghost use Rattle.std.specs.List.{list_any};
ghost use Rattle.esto_docmodel.specs.Encodings.{has_any, has_text};

use esto_term::{List, Text};

/// Texts of which facts are kept.
#[derive(Drop)]
pub enum KeptTexts {
    /// Each text.
    Every,
    /// These alone.
    These(List<Text>),
}

/// The five relations of documents, which stand from the base on, and which of their facts are kept: of `root`, `item` and
/// `below` all or none, of `field` those with these names, and of `value` those with these texts. Other facts are not put.
#[derive(Drop)]
pub struct Kept {
    pub base: usize,
    pub root: bool,
    pub field: KeptTexts,
    pub item: bool,
    pub value: KeptTexts,
    pub below: bool,
}

// Whether both are the same text.
fn is_same(own: &Text, text: &str) -> bool
    ensures { result ≡ bytes_eq own.now text.now }
{
    own.bytes() == text.as_bytes()
}

// Whether the text is one of these.
fn is_one_of(texts: &[Text], text: &str) -> bool
    ensures { result ≡ list_any (λ own. bytes_eq own text.now) texts.now }
{
    texts.iter().any(|own| is_same(own, text))
}

impl KeptTexts {
    /// Whether facts of some text are kept.
    pub fn has_any(&self) -> bool
        ensures { result ≡ has_any self.now }
    {
        match self {
            KeptTexts::Every => true,
            KeptTexts::These(texts) => !texts.is_empty(),
        }
    }

    /// Whether facts of the text are kept.
    pub fn has(&self, text: &str) -> bool
        ensures { result ≡ has_text self.now text.now }
    {
        match self {
            KeptTexts::Every => true,
            KeptTexts::These(texts) => is_one_of(texts.items(), text),
        }
    }
}
