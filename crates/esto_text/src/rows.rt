//! Rows of names and of terms.
ghost use Rattle.std.specs.Prelude.{◌≡◌, ◌<◌, ◌-◌, [], ◌∷◌, ◌++◌, length, IfOk, IfErr, if◌then◌else◌};
ghost use Rattle.esto_text.specs.declared.token.Token.{Token};
ghost use Rattle.esto_text.specs.Grammar.{class_of, IsName, IsTerm, IsRow};
ghost use Rattle.esto_text.specs.Limits.{limited_row};
ghost use Rattle.esto_text.specs.Machine.{AName, ATerm, MoreNames, MoreTerms, Takes, Fails};

use crate::parts::{separator, sign, term};
use crate::stop::Stop;
use crate::token::{Token, TokenKind, Tokens};
use esto_term::List;
use std::alloc::Global;

/// The greatest number of names of a head.
pub const MAX_NAMES: usize = 32;

/// Adds the name with which the tokens begin to the names of a head, where there is room; gives
/// whether a comma comes then, and not the parenthesis, and what comes after that.
fn add_name<'a>(tokens: &'a [Token], names: &mut Tokens) -> Result<(bool, &'a [Token]), Stop>
    ensures ok { IfOk result (λ x. (name : Token) × (sign : Token)
        × (tokens.now ≡ name ∷ sign ∷ x.1.now) × (class_of name ≡ TokenKind.Name)
        × (class_of sign ≡ (if x.0 then TokenKind.Comma else TokenKind.RightParen))
        × (names.new ≡ names.old ++ name ∷ []) × (length names.old < MAX_NAMES)) }
    ensures err { IfErr result (λ e. Fails (AName ∷ MoreNames ∷ [])
        (limited_row (MAX_NAMES - length names.old) tokens.now) e) }
{
    if names.len() >= MAX_NAMES {
        return Err(Stop::Syntax(tokens.len()));
    }
    let (name, rest) = sign(tokens, TokenKind::Name)?;
    names.push(name)?;
    separator(rest, TokenKind::RightParen)
}

/// The names of a head, of which there are not too many, and what comes after its parenthesis.
pub fn names(alloc: Global, tokens: &[Token]) -> Result<(Tokens, &[Token]), Stop>
    ensures ok { IfOk result (λ x.
        Takes (IsRow IsName x.0) (limited_row MAX_NAMES tokens.now) x.1.now) }
    ensures err { IfErr result (λ e.
        Fails (AName ∷ MoreNames ∷ []) (limited_row MAX_NAMES tokens.now) e) }
{
    let mut names = List::new(alloc);
    let mut rest = tokens;
    let mut more = true;
    'names: while more {
        (more, rest) = add_name(rest, &mut names)?;
    }
    Ok((names, rest))
}

/// Adds the term with which the tokens begin to the terms of an atom; gives whether a comma comes
/// then, and not the parenthesis, and what comes after that.
fn add_term<'a>(tokens: &'a [Token], terms: &mut Tokens) -> Result<(bool, &'a [Token]), Stop>
    ensures ok { IfOk result (λ x. (term : Token) × (sign : Token)
        × (tokens.now ≡ term ∷ sign ∷ x.1.now) × IsTerm term
        × (class_of sign ≡ (if x.0 then TokenKind.Comma else TokenKind.RightParen))
        × (terms.new ≡ terms.old ++ term ∷ [])) }
    ensures err { IfErr result (λ e. Fails (ATerm ∷ MoreTerms ∷ []) tokens.now e) }
{
    let (term, rest) = term(tokens)?;
    terms.push(term)?;
    separator(rest, TokenKind::RightParen)
}

/// The terms of an atom, and what comes after its parenthesis.
pub fn terms(alloc: Global, tokens: &[Token]) -> Result<(Tokens, &[Token]), Stop>
    ensures ok { IfOk result (λ x. Takes (IsRow IsTerm x.0) tokens.now x.1.now) }
    ensures err { IfErr result (λ e. Fails (ATerm ∷ MoreTerms ∷ []) tokens.now e) }
{
    let mut terms = List::new(alloc);
    let mut rest = tokens;
    let mut more = true;
    'terms: while more {
        (more, rest) = add_term(rest, &mut terms)?;
    }
    Ok((terms, rest))
}
