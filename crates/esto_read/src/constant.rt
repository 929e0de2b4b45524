//! Texts of tokens, and what they say.
ghost use Rattle.std.specs.Prelude.{◌≡◌, [], ◌∷◌, IfOk, IsUtf8};
ghost use Rattle.std.specs.List.{flat_map};
ghost use Rattle.esto_text.specs.Lexemes.{IsLexeme};
ghost use Rattle.esto_text.specs.declared.token.TokenKind.{TokenKind};
ghost use Rattle.esto_text.specs.Quotes.{written, closed};
ghost use Rattle.esto_text.specs.Tokens.{text_of, StandsIn};
ghost use Rattle.esto_read.specs.Terms.{IsWritten};

use esto_term::{OutOfMemory, Text, Values};
use esto_text::Token;
use std::alloc::Global;

/// The bytes at which the token stands.
pub fn bytes_of(bytes: &[u8], token: Token) -> &[u8]
    requires { StandsIn bytes.now token }
    ensures { result.now ≡ text_of bytes.now token }
{
    let start = token.start as usize;
    let end = token.end as usize;
    &bytes[start..end]
}

/// The text of these bytes.
pub fn plain(alloc: Global, bytes: &[u8]) -> Result<Text, OutOfMemory>
    requires { IsUtf8 bytes.now }
    ensures { IfOk result (λ text. text ≡ bytes.now) }
{
    match Text::from_bytes(alloc, bytes) {
        Ok(text) => Ok(text),
        Err(_) => Err(OutOfMemory),
    }
}

/// What is between the quotes, where each quote that is written twice stands once.
fn unquoted(alloc: Global, inside: &[u8]) -> Result<Values<u8>, OutOfMemory>
    requires { IsWritten inside.now }
    ensures { IfOk result (λ content. inside.now ≡ flat_map written content) }
{
    let mut content = Values::new(alloc);
    let mut in_pair = false;
    'bytes: for byte in inside {
        if in_pair {
            in_pair = false;
        } else {
            content.push(*byte)?;
            in_pair = *byte == b'\'';
        }
    }
    Ok(content)
}

/// What a quoted constant says.
pub fn quoted(alloc: Global, text: &[u8]) -> Result<Text, OutOfMemory>
    requires utf8 { IsUtf8 text.now }
    requires quoted { IsLexeme TokenKind.Quoted text.now [] }
    ensures { IfOk result (λ content. text.now ≡ 39 ∷ closed content) }
{
    let inside = &text[1..text.len() - 1];
    let content = unquoted(alloc, inside)?;
    plain(alloc, content.items())
}
