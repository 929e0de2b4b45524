//! Unions of queries.
ghost use Rattle.std.specs.Prelude.{◌≡◌, ◌≤◌, [], length, map, IfOk, IfErr};
ghost use Rattle.esto_text.specs.Grammar.{class_of, IsUnion};
ghost use Rattle.esto_text.specs.Limits.{is_semicolon, limited_union};
ghost use Rattle.esto_text.specs.Machine.{IsCut, TakesQuery, QueryFails, UnionFails};
ghost use Rattle.esto_text.specs.View.{tree_of};

use crate::parts::class_of;
use crate::reader::query;
use crate::stop::Stop;
use crate::token::{Token, TokenKind};
use crate::tree::QuerySyntax;
use esto_term::List;
use std::alloc::Global;

/// The greatest number of queries of a union.
pub const MAX_QUERIES: usize = 16;

/// Whether the token parts two queries.
fn is_semicolon(token: &Token) -> bool
    ensures { result ≡ is_semicolon (class_of token.now) }
{
    matches!(class_of(token), TokenKind::Semicolon)
}

/// The tokens up to the next one that parts two queries, and those from it on.
fn cut(tokens: &[Token]) -> (&[Token], &[Token])
    ensures { IsCut tokens.now result.0.now result.1.now }
{
    'tokens: for (index, token) in tokens.iter().enumerate() {
        if is_semicolon(token) {
            return tokens.split_at(index);
        }
    }
    tokens.split_at(tokens.len())
}

/// The query up to the next token that parts two queries, and the tokens from that one on.
fn next_query(alloc: Global, tokens: &[Token]) -> Result<(QuerySyntax, &[Token]), Stop>
    ensures ok { IfOk result (λ x. TakesQuery (tree_of x.0) tokens.now x.1.now) }
    ensures shorter { IfOk result (λ x. length x.1.now ≤ length tokens.now) }
    ensures err { IfErr result (QueryFails tokens.now) }
{
    let (part, rest) = cut(tokens);
    match query(alloc, part) {
        Ok(query) => Ok((query, rest)),
        Err(Stop::Syntax(left)) => Err(Stop::Syntax(left + rest.len())),
        Err(Stop::OutOfMemory) => Err(Stop::OutOfMemory),
    }
}

/// Puts the queries of the union that the tokens are into an empty list.
fn put_queries(alloc: Global, tokens: &[Token], queries: &mut List<QuerySyntax>) -> Result<(), Stop>
    requires { queries.old ≡ [] }
    ensures ok { IfOk result (λ _. IsUnion (map tree_of queries.new) (limited_union tokens.now)) }
    ensures err { IfErr result (UnionFails tokens.now) }
{
    let mut rest = tokens;
    'queries: loop {
        let (query, after) = next_query(alloc, rest)?;
        queries.push(query)?;
        if after.is_empty() {
            return Ok(());
        }
        if queries.len() == MAX_QUERIES {
            return Err(Stop::Syntax(after.len()));
        }
        (_, rest) = after.split_at(1);
    }
}

/// The queries of the union that the tokens are.
pub fn queries(alloc: Global, tokens: &[Token]) -> Result<List<QuerySyntax>, Stop>
    ensures ok { IfOk result (λ queries.
        IsUnion (map tree_of queries) (limited_union tokens.now)) }
    ensures err { IfErr result (UnionFails tokens.now) }
{
    let mut queries = List::new(alloc);
    put_queries(alloc, tokens, &mut queries)?;
    Ok(queries)
}
