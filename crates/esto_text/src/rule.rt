//! Constraints.
ghost use Rattle.std.specs.List.{AllByRecursion};
ghost use Rattle.std.specs.Prelude.{◌↔◌, [], ◌∷◌, map, IfOk, IfErr, IsTrue};
ghost use Rattle.esto_text.specs.Faults.{IsFalse};
ghost use Rattle.esto_text.specs.Grammar.{IsRuleBody, IsHead, IsConstraint, NoFalse};
ghost use Rattle.esto_text.specs.Machine.{AnItem, MoreBody, AHead, ConstraintFails, Takes, Fails, FailsAt};
ghost use Rattle.esto_text.specs.Tokens.{StandsIn};
ghost use Rattle.esto_text.specs.Trees.{Never};
ghost use Rattle.esto_text.specs.View.{item_of, head_of, constraint_of};

use crate::parts::{class_at, separator, sign, term};
use crate::reader::{add_item, items};
use crate::stop::Stop;
use crate::token::{Token, TokenKind};
use crate::tree::{ConstraintSyntax, HeadSyntax, ItemSyntax};
use crate::version::Version;
use esto_term::List;
use std::alloc::Global;

/// The word that stands for what never holds.
const FALSE: &[u8] = b"false";

/// The items of a body, and what comes after its arrow.
fn body(alloc: Global, tokens: &[Token]) -> Result<(List<ItemSyntax>, &[Token]), Stop>
    ensures ok { IfOk result (λ x. Takes (IsRuleBody (map item_of x.0)) tokens.now x.1.now) }
    ensures err { IfErr result (λ e. Fails (AnItem ∷ MoreBody ∷ []) tokens.now e) }
{
    let mut items = List::new(alloc);
    let mut rest = tokens;
    let mut more = true;
    'items: while more {
        let after = add_item(alloc, rest, &mut items)?;
        (more, rest) = separator(after, TokenKind::Arrow)?;
    }
    Ok((items, rest))
}

/// The head of a tuple rule or of an equality that the tokens are.
fn rule_head(alloc: Global, tokens: &[Token]) -> Result<HeadSyntax, Stop>
    ensures ok { IfOk result (λ head. IsHead NoFalse (head_of head) tokens.now) }
    ensures err { IfErr result (λ e. FailsAt (AHead ∷ []) tokens.now e) }
{
    let (left, rest) = sign(tokens, TokenKind::Name)?;
    match class_at(rest) {
        TokenKind::Equals => {
            let (_, rest) = rest.split_at(1);
            let (right, rest) = term(rest)?;
            if !rest.is_empty() {
                return Err(Stop::Syntax(rest.len()));
            }
            Ok(HeadSyntax::Equality { left, right })
        }
        _ => {
            let items = items(alloc, tokens)?;
            Ok(HeadSyntax::Items(items))
        }
    }
}

/// Whether the token is the word `false`, which version 2 has and version 1 has not.
fn is_false(bytes: &[u8], token: &Token, version: Version) -> bool
    requires { StandsIn bytes.now token.now }
    ensures { IsTrue result ↔ IsFalse version bytes.now token.now }
{
    match version {
        Version::One => false,
        Version::Two => {
            let start = token.start as usize;
            let end = token.end as usize;
            &bytes[start..end] == FALSE
        }
    }
}

/// Whether the tokens are the head of a denial.
fn is_denial(bytes: &[u8], tokens: &[Token], version: Version) -> bool
    requires { AllByRecursion (StandsIn bytes.now) tokens.now }
    ensures { IsTrue result ↔ IsHead (IsFalse version bytes.now) Never tokens.now }
{
    let Some((word, rest)) = tokens.split_first() else {
        return false;
    };
    rest.is_empty() && class_at(tokens) == TokenKind::Name && is_false(bytes, word, version)
}

/// The head that the tokens are.
fn head(alloc: Global, bytes: &[u8], tokens: &[Token], version: Version) -> Result<HeadSyntax, Stop>
    requires { AllByRecursion (StandsIn bytes.now) tokens.now }
    ensures ok { IfOk result (λ head. IsHead
        (IsFalse version bytes.now) (head_of head) tokens.now) }
    ensures none { IfErr result (λ e. ¬ IsHead (IsFalse version bytes.now) Never tokens.now) }
    ensures err { IfErr result (λ e. FailsAt (AHead ∷ []) tokens.now e) }
{
    if is_denial(bytes, tokens, version) {
        return Ok(HeadSyntax::Never);
    }
    rule_head(alloc, tokens)
}

/// The constraint that the tokens of the bytes are.
pub fn constraint(
    alloc: Global,
    bytes: &[u8],
    tokens: &[Token],
    version: Version,
) -> Result<ConstraintSyntax, Stop>
    requires { AllByRecursion (StandsIn bytes.now) tokens.now }
    ensures ok { IfOk result (λ constraint. IsConstraint
        (IsFalse version bytes.now) (constraint_of constraint) tokens.now) }
    ensures err { IfErr result (ConstraintFails (IsFalse version bytes.now) tokens.now) }
{
    let (body, rest) = body(alloc, tokens)?;
    let head = head(alloc, bytes, rest, version)?;
    Ok(ConstraintSyntax { body, head })
}
