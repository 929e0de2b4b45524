//! Paths.
ghost use Rattle.std.specs.Prelude.{◌≡◌, ◌<◌, ℕ, [], ◌∷◌, length, IfOk, IfErr, MatchOption};
ghost use Rattle.esto_text.specs.Grammar.{IsFirst, IsLater, IsPath};
ghost use Rattle.esto_text.specs.Machine.{AnEntry, PathRest, Takes, Fails, EndsPath};

use crate::parts::{class_at, next_step, sign};
use crate::stop::Stop;
use crate::token::{Token, TokenKind};
use crate::tree::StepSyntax;
use esto_term::List;
use std::alloc::Global;

/// The first step of a path, and what comes after it.
fn first_step(tokens: &[Token]) -> Result<(StepSyntax, &[Token]), Stop>
    ensures ok { IfOk result (λ x. Takes (IsFirst x.0) tokens.now x.1.now) }
    ensures shorter { IfOk result (λ x. length x.1.now < length tokens.now) }
    ensures err { IfErr result (λ e. (n : ℕ) → Fails (AnEntry n ∷ []) tokens.now e) }
{
    match class_at(tokens) {
        TokenKind::LeftBracket => {
            let (_, rest) = tokens.split_at(1);
            let (_, rest) = sign(rest, TokenKind::RightBracket)?;
            Ok((StepSyntax::Item, rest))
        }
        _ => next_step(tokens),
    }
}

/// A later step of a path, and what comes after it, or None where the path ends.
fn later_step(tokens: &[Token]) -> Result<Option<(StepSyntax, &[Token])>, Stop>
    ensures ok { IfOk result (λ x. MatchOption x (EndsPath tokens.now)
        (λ y. Takes (IsLater y.0) tokens.now y.1.now)) }
    ensures shorter { IfOk result (λ x. MatchOption x Unit
        (λ y. length y.1.now < length tokens.now)) }
    ensures err { IfErr result (λ e. (n : ℕ) → Fails (PathRest n ∷ []) tokens.now e) }
{
    match class_at(tokens) {
        TokenKind::LeftBracket => {
            let (_, rest) = tokens.split_at(1);
            let (_, rest) = sign(rest, TokenKind::RightBracket)?;
            Ok(Some((StepSyntax::Item, rest)))
        }
        TokenKind::Dot => {
            let (_, rest) = tokens.split_at(1);
            let (step, rest) = next_step(rest)?;
            Ok(Some((step, rest)))
        }
        _ => Ok(None),
    }
}

/// Puts the steps of a path into an empty list; gives what comes after them.
fn put_path<'a>(tokens: &'a [Token], path: &mut List<StepSyntax>) -> Result<&'a [Token], Stop>
    requires { path.old ≡ [] }
    ensures ok { IfOk result (λ rest. Takes (IsPath path.new) tokens.now rest.now) }
    ensures ends { IfOk result (λ rest. EndsPath rest.now) }
    ensures shorter { IfOk result (λ rest. length rest.now < length tokens.now) }
    ensures err { IfErr result (λ e. (n : ℕ) → Fails (AnEntry n ∷ []) tokens.now e) }
{
    let (step, mut rest) = first_step(tokens)?;
    path.push(step)?;
    'steps: while let Some((step, after)) = later_step(rest)? {
        path.push(step)?;
        rest = after;
    }
    Ok(rest)
}

/// A path, and what comes after it.
pub fn path(alloc: Global, tokens: &[Token]) -> Result<(List<StepSyntax>, &[Token]), Stop>
    ensures ok { IfOk result (λ x. Takes (IsPath x.0) tokens.now x.1.now) }
    ensures ends { IfOk result (λ x. EndsPath x.1.now) }
    ensures shorter { IfOk result (λ x. length x.1.now < length tokens.now) }
    ensures err { IfErr result (λ e. (n : ℕ) → Fails (AnEntry n ∷ []) tokens.now e) }
{
    let mut path = List::new(alloc);
    let rest = put_path(tokens, &mut path)?;
    Ok((path, rest))
}
