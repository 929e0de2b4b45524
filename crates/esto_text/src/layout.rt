//! Layouts.
ghost use Rattle.std.specs.Prelude.{IfOk, IfErr};
ghost use Rattle.esto_text.specs.Grammar.{IsLayout};
ghost use Rattle.esto_text.specs.Machine.{layout_start, FailsAt};
ghost use Rattle.esto_text.specs.View.{entries_of};

use crate::groups::group;
use crate::parts::sign;
use crate::stop::Stop;
use crate::token::{Token, TokenKind};
use crate::tree::EntrySyntax;
use esto_term::List;
use std::alloc::Global;

/// The entries of the layout that the tokens are.
pub fn layout(alloc: Global, tokens: &[Token]) -> Result<List<EntrySyntax>, Stop>
    ensures ok { IfOk result (λ entries. IsLayout (entries_of entries) tokens.now) }
    ensures err { IfErr result (λ e. FailsAt layout_start tokens.now e) }
{
    let (_, rest) = sign(tokens, TokenKind::LeftBrace)?;
    let (entries, rest) = group(alloc, rest, 1)?;
    if !rest.is_empty() {
        return Err(Stop::Syntax(rest.len()));
    }
    Ok(entries)
}
