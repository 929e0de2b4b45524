//! The names of datasets and the columns of tables.
ghost use Rattle.std.specs.Prelude.{◌≡◌, ◌≢◌, ◌↔◌, IsTrue, Contains, AllPairs};
ghost use Rattle.std.specs.List.{list_all};
ghost use Rattle.esto_mapping.specs.Datasets.{is_letter, is_name_byte, is_name, AreColumns};
ghost use Rattle.esto_docmodel.specs.Stores.{begins_plain};

use esto_ports::MARK;
use esto_query::MAX_COLUMNS;
use esto_term::Text;
use esto_text::MAX_NAME;

// Whether the byte is an ASCII letter.
fn is_letter(byte: u8) -> bool
    ensures { result ≡ is_letter byte }
{
    matches!(byte, b'A'..=b'Z' | b'a'..=b'z')
}

// Whether the byte is an ASCII letter, an ASCII digit or `_`.
fn is_name_byte(byte: u8) -> bool
    ensures { result ≡ is_name_byte byte }
{
    is_letter(byte) || matches!(byte, b'0'..=b'9' | b'_')
}

// Whether each byte is an ASCII letter, an ASCII digit or `_`.
fn are_name_bytes(bytes: &[u8]) -> bool
    ensures { result ≡ list_all is_name_byte bytes.now }
{
    'bytes: for byte in bytes {
        if !is_name_byte(*byte) {
            return false;
        }
    }
    true
}

/// Whether the text is a name: a letter, then letters, digits and `_`, at most `MAX_NAME` bytes in
/// all.
pub fn is_name(text: &[u8]) -> bool
    ensures { result ≡ is_name text.now }
{
    let Some((first, rest)) = text.split_first() else {
        return false;
    };
    is_letter(*first) && are_name_bytes(rest) && (rest.len() as u64) < MAX_NAME
}

// Whether the texts are the same.
fn is_same(text: &Text, other: &Text) -> bool
    ensures { IsTrue result ↔ (text.now ≡ other.now) }
{
    text.bytes() == other.bytes()
}

// Whether one of the texts is this one.
fn has_text(text: &Text, texts: &[Text]) -> bool
    ensures { IsTrue result ↔ Contains texts.now text.now }
{
    'texts: for other in texts {
        if is_same(other, text) {
            return true;
        }
    }
    false
}

/// Whether no two of the texts are the same.
pub fn are_distinct(texts: &[Text]) -> bool
    ensures { IsTrue result ↔ AllPairs ◌≢◌ texts.now }
{
    let mut rest = texts;
    'texts: while let Some((first, others)) = rest.split_first() {
        if has_text(first, others) {
            return false;
        }
        rest = others;
    }
    true
}

// Whether the first text, where there is one, does not begin with a byte-order mark.
fn begins_plain(texts: &[Text]) -> bool
    ensures { IsTrue result ↔ begins_plain texts.now }
{
    match texts.first() {
        Some(first) => !first.bytes().starts_with(&MARK),
        None => true,
    }
}

/// Whether the texts are the columns of a table: 1 to `MAX_COLUMNS` of them, no two the same, no
/// byte-order mark before the first.
pub fn are_columns(texts: &[Text]) -> bool
    ensures { IsTrue result ↔ AreColumns texts.now }
{
    !texts.is_empty() && texts.len() <= MAX_COLUMNS && are_distinct(texts) && begins_plain(texts)
}
