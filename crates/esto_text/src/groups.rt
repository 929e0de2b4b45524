//! Groups and their entries.
ghost use Rattle.std.specs.Prelude.{◌≡◌, ◌<◌, [], ◌∷◌, drop, length, true, false, IfOk, IfErr};
ghost use Rattle.esto_text.specs.declared.stop.Stop.TheVariants.{Syntax};
ghost use Rattle.esto_text.specs.declared.token.Token.{Token};
ghost use Rattle.esto_text.specs.Grammar.{class_of, is_term, IsEntry, IsGroup};
ghost use Rattle.esto_text.specs.Machine.{class_at, AnEntry, MoreEntries, Takes, Fails};
ghost use Rattle.esto_text.specs.View.{entry_of, entries_of};

use crate::parts::{class_at, separator, term};
use crate::paths::path;
use crate::stop::Stop;
use crate::token::{Token, TokenKind};
use crate::tree::{EntrySyntax, StepSyntax};
use esto_term::List;
use std::alloc::Global;

/// The greatest number of braces that are open at one time.
pub const MAX_OPEN: u32 = 32;

/// The entry of this path and of the term behind the colon, and what comes after it.
fn term_entry(path: List<StepSyntax>, tokens: &[Token]) -> Result<(EntrySyntax, &[Token]), Stop>
    requires { class_at tokens.now ≡ TokenKind.Colon }
    ensures ok { IfOk result (λ x. (term : Token) × (drop 1 tokens.now ≡ term ∷ x.1.now)
        × (is_term (class_of term) ≡ true) × (x.0 ≡ EntrySyntax.Value path term)) }
    ensures err { IfErr result (λ e. (e ≡ Syntax (length (drop 1 tokens.now)))
        × (is_term (class_at (drop 1 tokens.now)) ≡ false)) }
{
    let (_, rest) = tokens.split_at(1);
    let (term, rest) = term(rest)?;
    Ok((EntrySyntax::Value { path, term }, rest))
}

/// An entry, where so many braces are open, and what comes after it.
#[cycle(group)]
fn entry(alloc: Global, tokens: &[Token], depth: u32) -> Result<(EntrySyntax, &[Token]), Stop>
    ensures ok { IfOk result (λ x. Takes (IsEntry depth (entry_of x.0)) tokens.now x.1.now) }
    ensures shorter { IfOk result (λ x. length x.1.now < length tokens.now) }
    ensures err { IfErr result (λ e. Fails (AnEntry depth ∷ []) tokens.now e) }
{
    let (path, rest) = path(alloc, tokens)?;
    match class_at(rest) {
        TokenKind::Colon => term_entry(path, rest),
        TokenKind::LeftBrace => {
            if depth >= MAX_OPEN {
                return Err(Stop::Syntax(rest.len()));
            }
            let (_, rest) = rest.split_at(1);
            let (entries, rest) = group(alloc, rest, depth + 1)?;
            Ok((EntrySyntax::Group { path, entries }, rest))
        }
        _ => Err(Stop::Syntax(rest.len())),
    }
}

/// The entries of a group from behind its opening brace, which is counted, and what comes after the closing one.
#[cycle(group)]
pub fn group(
    alloc: Global,
    tokens: &[Token],
    depth: u32,
) -> Result<(List<EntrySyntax>, &[Token]), Stop>
    ensures ok { IfOk result (λ x. Takes (IsGroup depth (entries_of x.0)) tokens.now x.1.now) }
    ensures shorter { IfOk result (λ x. length x.1.now < length tokens.now) }
    ensures err { IfErr result (λ e. Fails (AnEntry depth ∷ MoreEntries depth ∷ []) tokens.now e) }
{
    let mut entries = List::new(alloc);
    let mut rest = tokens;
    let mut more = true;
    'entries: while more {
        let (entry, after) = entry(alloc, rest, depth)?;
        entries.push(entry)?;
        (more, rest) = separator(after, TokenKind::RightBrace)?;
    }
    Ok((entries, rest))
}
