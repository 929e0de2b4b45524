//! Tokens.
use esto_term::{List, OutOfMemory, Replicate};
use std::alloc::Global;

/// What a token is.
#[derive(Clone, Copy, PartialEq, Eq)]
pub enum TokenKind {
    /// An ASCII letter, then ASCII letters, digits and `_`.
    Name,
    /// `_`, with no letter, digit or `_` after it.
    Wildcard,
    /// A constant between quotes, in which a quote is written twice.
    Quoted,
    /// A number: `-` or nothing, then digits.
    Number,
    /// `(`
    LeftParen,
    /// `)`
    RightParen,
    /// `{`
    LeftBrace,
    /// `}`
    RightBrace,
    /// `[`
    LeftBracket,
    /// `]`
    RightBracket,
    /// `,`
    Comma,
    /// `.`
    Dot,
    /// `:`
    Colon,
    /// `:-`
    Turnstile,
    /// `->`
    Arrow,
    /// `=`
    Equals,
    /// `**`
    Stars,
    /// `;`, which parts the queries of a union and fits nowhere else.
    Semicolon,
    /// The rest of the text from the first place at which no other token stands.
    Stray,
}

/// A token: the bytes of the text from `start` up to `end`, counted from 0.
#[derive(Clone, Copy)]
pub struct Token {
    pub kind: TokenKind,
    pub start: u64,
    pub end: u64,
}

/// A list of tokens.
pub type Tokens = List<Token>;

impl Replicate for Token {
    fn copy(&self, _alloc: Global) -> Result<Token, OutOfMemory> {
        Ok(*self)
    }
}
