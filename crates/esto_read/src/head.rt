//! What is wrong with a head.
ghost use Rattle.std.specs.Prelude.{◌≡◌, ◌↔◌, IsTrue, MatchOption};
ghost use Rattle.std.specs.List.{AllByRecursion};
ghost use Rattle.esto_text.specs.Faults.{IsNameIn};
ghost use Rattle.esto_read.specs.Heads.{HasText, AreDifferent, IsFirstRepeat, AreMentioned, IsFirstMissing};

use crate::constant::bytes_of;
use esto_query::mentions;
use esto_semantics::Atom;
use esto_term::Term;
use esto_text::Token;

/// Whether the bytes are the same.
fn same(text: &[u8], other: &[u8]) -> bool
    ensures { IsTrue result ↔ (text.now ≡ other.now) }
{
    text == other
}

/// Whether one of the tokens has that text.
fn has_text(bytes: &[u8], tokens: &[Token], text: &[u8]) -> bool
    requires { AllByRecursion (IsNameIn bytes.now) tokens.now }
    ensures { IsTrue result ↔ HasText bytes.now tokens.now text.now }
{
    'tokens: for token in tokens {
        if same(bytes_of(bytes, *token), text) {
            return true;
        }
    }
    false
}

/// Where the first name stands that stands earlier in the head too.
pub fn first_repeat(bytes: &[u8], variables: &[Token]) -> Option<u64>
    requires { AllByRecursion (IsNameIn bytes.now) variables.now }
    ensures { MatchOption result (AreDifferent bytes.now variables.now)
        (IsFirstRepeat bytes.now variables.now) }
{
    'variables: for (place, token) in variables.iter().enumerate() {
        let (earlier, _) = variables.split_at(place);
        if has_text(bytes, earlier, bytes_of(bytes, *token)) {
            return Some(token.start);
        }
    }
    None
}

/// The place of the first term of the head that no atom of the body mentions.
pub fn first_missing(head: &[Term], body: &[Atom]) -> Option<usize>
    ensures { MatchOption result (AreMentioned body.now head.now)
        (IsFirstMissing body.now head.now) }
{
    'terms: for (place, term) in head.iter().enumerate() {
        if !mentions(body, term) {
            return Some(place);
        }
    }
    None
}
