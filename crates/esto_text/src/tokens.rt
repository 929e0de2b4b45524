//! The tokens of a text.
ghost use Rattle.std.specs.Prelude.{IfOk, IfErr};
ghost use Rattle.esto_text.specs.Tokens.{Covers, AreTokens, AreOnlyTokens, AreDetermined, IsTokenError};

use crate::fault::{ReadError, TextFault, TextKind};
use crate::lexeme::lexeme_at;
use crate::scan::gap_len;
use crate::token::{Token, TokenKind, Tokens};
use esto_term::{List, OutOfMemory};
use std::alloc::Global;
use std::str;

/// The tokens that cover the bytes.
fn cut(alloc: Global, bytes: &[u8]) -> Result<Tokens, OutOfMemory>
    ensures { IfOk result (λ tokens. Covers 0 bytes.now tokens) }
{
    let mut tokens = List::new(alloc);
    let mut at = 0;
    'places: while at < bytes.len() {
        let start = at + gap_len(&bytes[at..]);
        if start == bytes.len() {
            break;
        }
        let (kind, end) = match lexeme_at(&bytes[start..]) {
            Some((kind, len)) => (kind, start + len),
            None => (TokenKind::Stray, bytes.len()),
        };
        tokens.push(Token {
            kind,
            start: start as u64,
            end: end as u64,
        })?;
        at = end;
    }
    Ok(tokens)
}

/// The tokens of a text: at each place the longest, with blanks and comments between, and from the first place
/// at which none stands the rest of the text as one Stray. The fault Utf8, at offset 0, comes exactly where the
/// bytes are not UTF-8; there is no other.
pub fn read_tokens(alloc: Global, bytes: &[u8]) -> Result<Tokens, ReadError>
    // The answer is the text's tokens.
    ensures tokens { IfOk result (λ tokens. AreTokens bytes.now tokens) }
    // Nothing else is the text's tokens.
    ensures only { IfOk result (λ tokens. AreOnlyTokens bytes.now tokens) }
    ensures error { IfErr result (λ e. IsTokenError bytes.now e) }
{
    if str::from_utf8(bytes).is_err() {
        return Err(ReadError::Fault(TextFault {
            offset: 0,
            kind: TextKind::Utf8,
        }));
    }
    let tokens = cut(alloc, bytes)?;
    Ok(tokens)
}

/// A law: a text has one list of tokens.
pub fn tokens_are_determined()
    ensures { AreDetermined }
{}
