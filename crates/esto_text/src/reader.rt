//! Items, bodies and whole queries.
ghost use Rattle.std.specs.Prelude.{◌≡◌, ◌<◌, [], ◌∷◌, ◌++◌, length, map, IfOk, IfErr};
ghost use Rattle.esto_text.specs.declared.tree.ItemSyntax.{ItemSyntax};
ghost use Rattle.esto_text.specs.Grammar.{class_of, IsItem, IsBody, IsQuery};
ghost use Rattle.esto_text.specs.Limits.{limited};
ghost use Rattle.esto_text.specs.Machine.{AnItem, MoreItems, start, class_at, Takes, Fails, FailsAt};
ghost use Rattle.esto_text.specs.View.{item_of, tree_of};

use crate::groups::group;
use crate::parts::{class_at, sign};
use crate::rows::{names, terms};
use crate::stop::Stop;
use crate::token::{Token, TokenKind};
use crate::tree::{ItemSyntax, QuerySyntax};
use esto_term::List;
use std::alloc::Global;

/// An item of a dataset with parts, from the dot behind its name on, and what comes after it.
fn part(alloc: Global, name: Token, tokens: &[Token]) -> Result<(ItemSyntax, &[Token]), Stop>
    requires name { class_of name ≡ TokenKind.Name }
    requires dot { class_at tokens.now ≡ TokenKind.Dot }
    ensures ok { IfOk result (λ x. Takes (IsItem (item_of x.0)) (name ∷ tokens.now) x.1.now) }
    ensures shorter { IfOk result (λ x. length x.1.now < length (name ∷ tokens.now)) }
    ensures err { IfErr result (λ e. Fails (AnItem ∷ []) (name ∷ tokens.now) e) }
{
    let (_, rest) = tokens.split_at(1);
    let (part, rest) = sign(rest, TokenKind::Name)?;
    let (_, rest) = sign(rest, TokenKind::LeftParen)?;
    let (terms, rest) = terms(alloc, rest)?;
    Ok((ItemSyntax::Part { name, part, terms }, rest))
}

/// An item, and what comes after it.
pub fn item(alloc: Global, tokens: &[Token]) -> Result<(ItemSyntax, &[Token]), Stop>
    ensures ok { IfOk result (λ x. Takes (IsItem (item_of x.0)) tokens.now x.1.now) }
    ensures shorter { IfOk result (λ x. length x.1.now < length tokens.now) }
    ensures err { IfErr result (λ e. Fails (AnItem ∷ []) tokens.now e) }
{
    let (name, rest) = sign(tokens, TokenKind::Name)?;
    match class_at(rest) {
        TokenKind::LeftParen => {
            let (_, rest) = rest.split_at(1);
            let (terms, rest) = terms(alloc, rest)?;
            Ok((ItemSyntax::Atom { name, terms }, rest))
        }
        TokenKind::Dot => part(alloc, name, rest),
        TokenKind::LeftBrace => {
            let (_, rest) = rest.split_at(1);
            let (entries, rest) = group(alloc, rest, 1)?;
            Ok((ItemSyntax::Pattern { name, entries }, rest))
        }
        _ => Err(Stop::Syntax(rest.len())),
    }
}

/// Adds the item with which the tokens begin to the end of the items; gives what comes after it.
pub fn add_item<'a>(
    alloc: Global,
    tokens: &'a [Token],
    items: &mut List<ItemSyntax>,
) -> Result<&'a [Token], Stop>
    ensures ok { IfOk result (λ after. (item : ItemSyntax)
        × Takes (IsItem (item_of item)) tokens.now after.now
        × (items.new ≡ items.old ++ item ∷ [])) }
    ensures shorter { IfOk result (λ after. length after.now < length tokens.now) }
    ensures err { IfErr result (λ e. Fails (AnItem ∷ []) tokens.now e) }
{
    let (item, after) = item(alloc, tokens)?;
    items.push(item)?;
    Ok(after)
}

/// The items up to the end.
pub fn items(alloc: Global, tokens: &[Token]) -> Result<List<ItemSyntax>, Stop>
    ensures ok { IfOk result (λ items. IsBody (map item_of items) tokens.now) }
    ensures err { IfErr result (λ e. FailsAt (AnItem ∷ MoreItems ∷ []) tokens.now e) }
{
    let mut items = List::new(alloc);
    let mut rest = tokens;
    'items: loop {
        let after = add_item(alloc, rest, &mut items)?;
        if after.is_empty() {
            return Ok(items);
        }
        (_, rest) = sign(after, TokenKind::Comma)?;
    }
}

/// The query that the tokens are.
pub fn query(alloc: Global, tokens: &[Token]) -> Result<QuerySyntax, Stop>
    ensures ok { IfOk result (λ query. IsQuery (tree_of query) (limited tokens.now)) }
    ensures err { IfErr result (λ e. FailsAt start (limited tokens.now) e) }
{
    let (name, rest) = sign(tokens, TokenKind::Name)?;
    let (_, rest) = sign(rest, TokenKind::LeftParen)?;
    let (variables, rest) = names(alloc, rest)?;
    let (_, rest) = sign(rest, TokenKind::Turnstile)?;
    let items = items(alloc, rest)?;
    Ok(QuerySyntax {
        name,
        variables,
        items,
    })
}
