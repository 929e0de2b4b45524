//! Single tokens.
ghost use Rattle.std.specs.Prelude.{◌≡◌, ◌≢◌, ◌∷◌, length, IfOk, IfErr, true, false, if◌then◌else◌};
ghost use Rattle.esto_text.specs.declared.stop.Stop.TheVariants.{Syntax};
ghost use Rattle.esto_text.specs.declared.token.Token.{Token};
ghost use Rattle.esto_text.specs.Grammar.{class_of, is_term, step_at, IsNext};
ghost use Rattle.esto_text.specs.Machine.{class_at};

use crate::stop::Stop;
use crate::token::{Token, TokenKind};
use crate::tree::StepSyntax;

/// The greatest number of bytes of a name.
pub const MAX_NAME: u64 = 64;

/// What the token is to the grammar: a name that is too long fits nowhere.
pub fn class_of(token: &Token) -> TokenKind
    ensures { result ≡ class_of token.now }
{
    match token.kind {
        TokenKind::Name => {
            if token.end.saturating_sub(token.start) > MAX_NAME {
                TokenKind::Stray
            } else {
                TokenKind::Name
            }
        }
        kind => kind,
    }
}

/// What the next token is to the grammar, and Stray where there is none.
pub fn class_at(tokens: &[Token]) -> TokenKind
    ensures { result ≡ class_at tokens.now }
{
    if tokens.is_empty() {
        TokenKind::Stray
    } else {
        class_of(&tokens[0])
    }
}

/// The next token, which is to be of this kind, and what comes after it.
pub fn sign(tokens: &[Token], kind: TokenKind) -> Result<(Token, &[Token]), Stop>
    requires { kind ≢ TokenKind.Stray }
    ensures ok { IfOk result (λ x. (tokens.now ≡ x.0 ∷ x.1.now) × (class_of x.0 ≡ kind)) }
    ensures err { IfErr result (λ e. (e ≡ Syntax (length tokens.now))
        × (class_at tokens.now ≢ kind)) }
{
    if class_at(tokens) == kind {
        let (_, rest) = tokens.split_at(1);
        Ok((tokens[0], rest))
    } else {
        Err(Stop::Syntax(tokens.len()))
    }
}

/// The next token, which is to be a term, and what comes after it.
pub fn term(tokens: &[Token]) -> Result<(Token, &[Token]), Stop>
    ensures ok { IfOk result (λ x. (tokens.now ≡ x.0 ∷ x.1.now) × (is_term (class_of x.0) ≡ true)) }
    ensures err { IfErr result (λ e. (e ≡ Syntax (length tokens.now))
        × (is_term (class_at tokens.now) ≡ false)) }
{
    match class_at(tokens) {
        TokenKind::Name | TokenKind::Wildcard | TokenKind::Quoted | TokenKind::Number => {
            let (_, rest) = tokens.split_at(1);
            Ok((tokens[0], rest))
        }
        _ => Err(Stop::Syntax(tokens.len())),
    }
}

/// Whether a comma stands there, and not the closing sign, and what comes after it.
pub fn separator(tokens: &[Token], close: TokenKind) -> Result<(bool, &[Token]), Stop>
    requires { close ≢ TokenKind.Stray }
    ensures ok { IfOk result (λ x. (t : Token) × (tokens.now ≡ t ∷ x.1.now)
        × (class_of t ≡ (if x.0 then TokenKind.Comma else close))) }
    ensures err { IfErr result (λ e. (e ≡ Syntax (length tokens.now))
        × (class_at tokens.now ≢ TokenKind.Comma)
        × (class_at tokens.now ≢ close)) }
{
    match sign(tokens, TokenKind::Comma) {
        Ok((_, rest)) => Ok((true, rest)),
        Err(_) => {
            let (_, rest) = sign(tokens, close)?;
            Ok((false, rest))
        }
    }
}

/// The step that a name, a quoted constant or `**` says, and what comes after it.
pub fn next_step(tokens: &[Token]) -> Result<(StepSyntax, &[Token]), Stop>
    ensures ok { IfOk result (λ x. (t : Token) × (tokens.now ≡ t ∷ x.1.now) × IsNext x.0 t) }
    ensures err { IfErr result (λ e. (e ≡ Syntax (length tokens.now))
        × ((t : Token) → step_at (class_at tokens.now) t ≡ None)) }
{
    match class_at(tokens) {
        TokenKind::Name | TokenKind::Quoted => {
            let (_, rest) = tokens.split_at(1);
            Ok((StepSyntax::Field(tokens[0]), rest))
        }
        TokenKind::Stars => {
            let (_, rest) = tokens.split_at(1);
            Ok((StepSyntax::Below, rest))
        }
        _ => Err(Stop::Syntax(tokens.len())),
    }
}
