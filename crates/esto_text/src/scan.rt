//! Runs of bytes: words, gaps and what stands between quotes.
ghost use Rattle.std.specs.Prelude.{◌<◌, ◌≤◌, ◌≢◌, ◌↔◌, ℕ, length, slice_index, take, drop, IsTrue};
ghost use Rattle.esto_text.specs.Gaps.{IsIn, IsGap};
ghost use Rattle.esto_text.specs.Quotes.{LongestClosed};

/// The least character of a quoted constant.
const LEAST_QUOTED: u8 = 32;

/// A class of bytes.
#[derive(Clone, Copy)]
pub enum Class {
    /// An ASCII letter.
    Letter,
    /// An ASCII digit.
    Digit,
    /// What may stand in a name after its first letter.
    Word,
    /// What may stand between tokens.
    Blank,
}

/// Whether the byte is in the class.
pub fn is_in(class: Class, byte: u8) -> bool
    ensures { IsTrue result ↔ IsIn class byte }
{
    match class {
        Class::Letter => byte.is_ascii_alphabetic(),
        Class::Digit => byte.is_ascii_digit(),
        Class::Word => byte.is_ascii_alphanumeric() || byte == b'_',
        Class::Blank => byte == b' ' || byte == b'\t' || byte == b'\r' || byte == b'\n',
    }
}

/// How many bytes at the front are in the class.
pub fn run_len(bytes: &[u8], class: Class) -> usize
    ensures in_range { result ≤ length bytes.now }
    ensures each { (k : ℕ) → k < result → IsIn class (slice_index bytes.now k) }
    ensures stops { result < length bytes.now → ¬ IsIn class (slice_index bytes.now result) }
{
    'bytes: for (at, byte) in bytes.iter().enumerate() {
        if !is_in(class, *byte) {
            return at;
        }
    }
    bytes.len()
}

/// How long the gap at the front is.
pub fn gap_len(bytes: &[u8]) -> usize
    ensures in_range { result ≤ length bytes.now }
    ensures gap { IsGap (take result bytes.now) (drop result bytes.now) }
    ensures stops { result < length bytes.now → (slice_index bytes.now result ≢ 35)
        × (¬ IsIn Class.Blank (slice_index bytes.now result)) }
{
    let mut in_comment = false;
    'bytes: for (at, byte) in bytes.iter().enumerate() {
        let byte = *byte;
        if in_comment {
            if byte == b'\n' {
                in_comment = false;
            }
        } else if byte == b'#' {
            in_comment = true;
        } else if !is_in(Class::Blank, byte) {
            return at;
        }
    }
    bytes.len()
}

/// How long the longest quoted constant is whose first quote stands just before the bytes, without that quote.
pub fn quoted_len(bytes: &[u8]) -> Option<usize>
    ensures { LongestClosed bytes.now result }
{
    let mut found = None;
    let mut closed = false;
    'bytes: for (at, byte) in bytes.iter().enumerate() {
        let byte = *byte;
        if byte == b'\'' {
            if closed {
                closed = false;
            } else {
                closed = true;
                found = Some(at + 1);
            }
        } else if closed || byte < LEAST_QUOTED {
            return found;
        }
    }
    found
}
