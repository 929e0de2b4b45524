//! The longest token at a place.
ghost use Rattle.std.specs.Prelude.{◌≢◌, ◌∷◌};
ghost use Rattle.esto_text.specs.Gaps.{IsLetter, IsDigit};
ghost use Rattle.esto_text.specs.Lexemes.{Lexes};

use crate::scan::{Class, is_in, quoted_len, run_len};
use crate::token::TokenKind;

/// The token after `-`, and its length with it.
fn minus(rest: &[u8]) -> Option<(TokenKind, usize)>
    ensures { Lexes (45 ∷ rest.now) result }
{
    if !rest.is_empty() && rest[0] == b'>' {
        return Some((TokenKind::Arrow, 2));
    }
    let digits = run_len(rest, Class::Digit);
    if digits == 0 {
        None
    } else {
        Some((TokenKind::Number, digits + 1))
    }
}

/// The token after `:`, and its length with it.
fn colon(rest: &[u8]) -> Option<(TokenKind, usize)>
    ensures { Lexes (58 ∷ rest.now) result }
{
    if !rest.is_empty() && rest[0] == b'-' {
        Some((TokenKind::Turnstile, 2))
    } else {
        Some((TokenKind::Colon, 1))
    }
}

/// The token after `*`, and its length with it.
fn star(rest: &[u8]) -> Option<(TokenKind, usize)>
    ensures { Lexes (42 ∷ rest.now) result }
{
    if !rest.is_empty() && rest[0] == b'*' {
        Some((TokenKind::Stars, 2))
    } else {
        None
    }
}

/// The token after `_`, and its length with it.
fn wildcard(rest: &[u8]) -> Option<(TokenKind, usize)>
    ensures { Lexes (95 ∷ rest.now) result }
{
    if run_len(rest, Class::Word) == 0 {
        Some((TokenKind::Wildcard, 1))
    } else {
        None
    }
}

/// The token after `'`, and its length with it.
fn quoted(rest: &[u8]) -> Option<(TokenKind, usize)>
    ensures { Lexes (39 ∷ rest.now) result }
{
    match quoted_len(rest) {
        Some(len) => Some((TokenKind::Quoted, len + 1)),
        None => None,
    }
}

/// The sign of one byte that begins no longer sign, and its length.
fn sign(byte: u8, rest: &[u8]) -> Option<(TokenKind, usize)>
    requires letter { ¬ IsLetter byte }
    requires digit { ¬ IsDigit byte }
    requires longer { (byte ≢ 95) × (byte ≢ 45) × (byte ≢ 39) × (byte ≢ 58) × (byte ≢ 42) }
    ensures { Lexes (byte ∷ rest.now) result }
{
    let kind = match byte {
        b'(' => TokenKind::LeftParen,
        b')' => TokenKind::RightParen,
        b'{' => TokenKind::LeftBrace,
        b'}' => TokenKind::RightBrace,
        b'[' => TokenKind::LeftBracket,
        b']' => TokenKind::RightBracket,
        b',' => TokenKind::Comma,
        b'.' => TokenKind::Dot,
        b'=' => TokenKind::Equals,
        b';' => TokenKind::Semicolon,
        _ => return None,
    };
    Some((kind, 1))
}

/// The longest token at the front, and its length.
pub fn lexeme_at(bytes: &[u8]) -> Option<(TokenKind, usize)>
    ensures { Lexes bytes.now result }
{
    let Some((first, rest)) = bytes.split_first() else {
        return None;
    };
    let first = *first;
    if is_in(Class::Letter, first) {
        return Some((TokenKind::Name, run_len(rest, Class::Word) + 1));
    }
    if is_in(Class::Digit, first) {
        return Some((TokenKind::Number, run_len(rest, Class::Digit) + 1));
    }
    match first {
        b'_' => wildcard(rest),
        b'-' => minus(rest),
        b'\'' => quoted(rest),
        b':' => colon(rest),
        b'*' => star(rest),
        _ => sign(first, rest),
    }
}
