//! Terms, and the numbers of variables.
ghost use Rattle.std.specs.Prelude.{◌≡◌, [], ◌∷◌, ◌++◌, length, slice_get, Contains, Some, MatchOption, IfOk, IsTrue, ◌↔◌, IsUtf8};
ghost use Rattle.std.specs.List.{AllByRecursion};
ghost use Rattle.esto_query.specs.declared.query.Name.TheVariants.{Given, Hidden};
ghost use Rattle.esto_text.specs.Faults.{IsTermIn};
ghost use Rattle.esto_text.specs.Tokens.{text_of};
ghost use Rattle.esto_read.specs.Terms.{IsVariableOf, IsTermOf, AreTerms};

use crate::constant::{bytes_of, plain, quoted};
use esto_query::{Name, Names};
use esto_term::{List, OutOfMemory, Term, Terms};
use esto_text::{Token, TokenKind};
use std::alloc::Global;

/// Whether the name is that one.
fn is_given(name: &Name, text: &[u8]) -> bool
    ensures { IsTrue result ↔ (name.now ≡ Given text.now) }
{
    match name {
        Name::Given(given) => given.bytes() == text,
        Name::Hidden => false,
    }
}

/// The number of the variable of that name. None comes exactly where there is none.
pub fn number_of(names: &[Name], text: &[u8]) -> Option<usize>
    ensures { MatchOption result (¬ Contains names.now (Given text.now))
        (λ number. slice_get names.now number ≡ Some (Given text.now)) }
{
    'names: for (number, name) in names.iter().enumerate() {
        if is_given(name, text) {
            return Some(number);
        }
    }
    None
}

/// The variable of that name: the one that is there, or a new one.
fn variable(alloc: Global, text: &[u8], names: &mut Names) -> Result<Term, OutOfMemory>
    requires { IsUtf8 text.now }
    ensures { IfOk result (λ term. IsVariableOf text.now names.old term names.new) }
{
    if let Some(number) = number_of(names.items(), text) {
        return Ok(Term::Plain(number as u64));
    }
    let number = names.len();
    names.push(Name::Given(plain(alloc, text)?))?;
    Ok(Term::Plain(number as u64))
}

/// A new variable with no name.
fn wildcard(names: &mut Names) -> Result<Term, OutOfMemory>
    ensures { IfOk result (λ term.
        (term ≡ Term.Plain (length names.old)) × (names.new ≡ names.old ++ Hidden ∷ [])) }
{
    let number = names.len();
    names.push(Name::Hidden)?;
    Ok(Term::Plain(number as u64))
}

/// The term that a token is.
pub fn term(
    alloc: Global,
    bytes: &[u8],
    token: Token,
    names: &mut Names,
) -> Result<Term, OutOfMemory>
    requires utf8 { IsUtf8 bytes.now }
    requires stands { IsTermIn bytes.now token }
    ensures { IfOk result (λ term. IsTermOf
        token.kind (text_of bytes.now token) names.old term names.new) }
{
    let text = bytes_of(bytes, token);
    match token.kind {
        TokenKind::Name => variable(alloc, text, names),
        TokenKind::Wildcard => wildcard(names),
        TokenKind::Quoted => Ok(Term::Const(quoted(alloc, text)?)),
        _ => Ok(Term::Const(plain(alloc, text)?)),
    }
}

/// The terms that tokens are, from left to right.
pub fn terms(
    alloc: Global,
    bytes: &[u8],
    tokens: &[Token],
    names: &mut Names,
) -> Result<Terms, OutOfMemory>
    requires utf8 { IsUtf8 bytes.now }
    requires stand { AllByRecursion (IsTermIn bytes.now) tokens.now }
    ensures { IfOk result (λ terms. AreTerms bytes.now names.old tokens.now terms names.new) }
{
    let mut terms = List::new(alloc);
    'tokens: for token in tokens {
        terms.push(term(alloc, bytes, *token, names)?)?;
    }
    Ok(terms)
}
