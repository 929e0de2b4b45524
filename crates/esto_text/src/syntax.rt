//! Texts as syntax trees.
ghost use Rattle.std.specs.Prelude.{◌≡◌, ◌≤◌, ◌-◌, length, drop, map, IfOk, IfErr};
ghost use Rattle.esto_text.specs.Faults.{place_of, IsErrorOf, IsOnlyTree, IsQueryText, IsGrammarFault, StandsAt, IsConstraintText, IsConstraintGrammarFault};
ghost use Rattle.esto_text.specs.Faults.{ConstraintStandsAt, IsLayoutText, IsLayoutGrammarFault, LayoutStandsAt, IsUnionText, IsUnionGrammarFault};
ghost use Rattle.esto_text.specs.Faults.{error_of, LeavesWithin};
ghost use Rattle.esto_text.specs.Faults.{UnionStandsAt, UnionOfOneIsQueryText, HaveOneTree, HaveNoFault, HaveOneFault};
ghost use Rattle.esto_text.specs.View.{entries_of, tree_of, constraint_of};

use crate::fault::{ReadError, TextFault, TextKind};
use crate::layout::layout;
use crate::reader::query;
use crate::rule::constraint;
use crate::stop::Stop;
use crate::token::Token;
use crate::tokens::read_tokens;
use crate::tree::{ConstraintSyntax, EntrySyntax, QuerySyntax};
use crate::unions::queries;
use crate::version::Version;
use esto_term::List;
use std::alloc::Global;

/// The place at which the last `left` tokens begin, in a text of so many bytes.
fn place(tokens: &[Token], left: usize, bytes: usize) -> u64
    requires { left ≤ length tokens.now }
    ensures { result ≡ place_of (drop (length tokens.now - left) tokens.now) bytes }
{
    if left == 0 {
        bytes as u64
    } else {
        tokens[tokens.len() - left].start
    }
}

/// Why a text of so many bytes is not read, whose tokens were not read for this cause.
fn read_error(stop: Stop, tokens: &[Token], bytes: usize) -> ReadError
    requires { LeavesWithin tokens.now stop }
    ensures { result ≡ error_of tokens.now bytes stop }
{
    match stop {
        Stop::OutOfMemory => ReadError::OutOfMemory,
        Stop::Syntax(left) => ReadError::Fault(TextFault {
            offset: place(tokens, left, bytes),
            kind: TextKind::Syntax,
        }),
    }
}

/// The syntax tree of a query or a view. The fault Utf8, at offset 0, comes exactly where the bytes are not UTF-8;
/// the fault Syntax exactly where the text is outside the grammar, at the start of the first token at which the
/// tokens so far stop being a prefix of a text of the grammar, or at the end of a text that ends too early.
pub fn read_query_tree(alloc: Global, bytes: &[u8]) -> Result<QuerySyntax, ReadError>
    // The text is in the grammar, with this tree.
    ensures tree { IfOk result (λ query. IsQueryText bytes.now (tree_of query)) }
    // It is no other tree's.
    ensures only { IfOk result (λ query. IsOnlyTree IsQueryText bytes.now (tree_of query)) }
    // Each token of the tree stands in the text.
    ensures tokens { IfOk result (λ query. StandsAt bytes.now (tree_of query)) }
    ensures error { IfErr result (λ e. IsErrorOf IsGrammarFault bytes.now e) }
{
    let tokens = read_tokens(alloc, bytes)?;
    let tokens = tokens.items();
    match query(alloc, tokens) {
        Ok(query) => Ok(query),
        Err(stop) => Err(read_error(stop, tokens, bytes.len())),
    }
}

/// The syntax trees of the queries of a union, which are parted by `;`. The fault Utf8, at offset 0, comes exactly where the
/// bytes are not UTF-8; the fault Syntax exactly where the text is outside the grammar, at the start of the first token at
/// which the tokens so far stop being a prefix of a text of the grammar, or at the end of a text that ends too early. The
/// sixteenth `;` is such a token.
pub fn read_union_tree(alloc: Global, bytes: &[u8]) -> Result<List<QuerySyntax>, ReadError>
    // The text is in the grammar, with these trees.
    ensures trees { IfOk result (λ queries. IsUnionText bytes.now (map tree_of queries)) }
    // It is no other trees'.
    ensures only { IfOk result (λ queries.
        IsOnlyTree IsUnionText bytes.now (map tree_of queries)) }
    // Each token of the trees stands in the text.
    ensures tokens { IfOk result (λ queries. UnionStandsAt bytes.now (map tree_of queries)) }
    ensures error { IfErr result (IsErrorOf IsUnionGrammarFault bytes.now) }
{
    let tokens = read_tokens(alloc, bytes)?;
    let tokens = tokens.items();
    match queries(alloc, tokens) {
        Ok(queries) => Ok(queries),
        Err(stop) => Err(read_error(stop, tokens, bytes.len())),
    }
}

/// The syntax tree of a constraint in this version. The fault Utf8, at offset 0, comes exactly where the bytes are not
/// UTF-8; the fault Syntax exactly where the text is outside the version's grammar, at the start of the first token at
/// which the tokens so far stop being a prefix of a text of it, or at the end of a text that ends too early.
pub fn read_constraint_tree(
    alloc: Global,
    bytes: &[u8],
    version: Version,
) -> Result<ConstraintSyntax, ReadError>
    // The text is in the grammar, with this tree.
    ensures tree { IfOk result (λ constraint.
        IsConstraintText version bytes.now (constraint_of constraint)) }
    // It is no other tree's.
    ensures only { IfOk result (λ constraint.
        IsOnlyTree (IsConstraintText version) bytes.now (constraint_of constraint)) }
    // Each token of the tree stands in the text.
    ensures tokens { IfOk result (λ constraint.
        ConstraintStandsAt bytes.now (constraint_of constraint)) }
    ensures error { IfErr result (IsErrorOf (IsConstraintGrammarFault version) bytes.now) }
{
    let tokens = read_tokens(alloc, bytes)?;
    let tokens = tokens.items();
    match constraint(alloc, bytes, tokens, version) {
        Ok(constraint) => Ok(constraint),
        Err(stop) => Err(read_error(stop, tokens, bytes.len())),
    }
}

/// The entries of a layout. The fault Utf8, at offset 0, comes exactly where the bytes are not UTF-8; the fault Syntax
/// exactly where the text is outside the grammar, at the start of the first token at which the tokens so far stop being
/// a prefix of a text of the grammar, or at the end of a text that ends too early.
pub fn read_layout_tree(alloc: Global, bytes: &[u8]) -> Result<List<EntrySyntax>, ReadError>
    // The text is in the grammar, with these entries.
    ensures tree { IfOk result (λ entries. IsLayoutText bytes.now (entries_of entries)) }
    // It is no other entries'.
    ensures only { IfOk result (λ entries.
        IsOnlyTree IsLayoutText bytes.now (entries_of entries)) }
    // Each token of the entries stands in the text.
    ensures tokens { IfOk result (λ entries. LayoutStandsAt bytes.now (entries_of entries)) }
    ensures error { IfErr result (λ e. IsErrorOf IsLayoutGrammarFault bytes.now e) }
{
    let tokens = read_tokens(alloc, bytes)?;
    let tokens = tokens.items();
    match layout(alloc, tokens) {
        Ok(entries) => Ok(entries),
        Err(stop) => Err(read_error(stop, tokens, bytes.len())),
    }
}

/// A law: a text of a query or a view, of a constraint in one version, or of a layout, has at most one tree and at most one fault of
/// its grammar, and never both.
pub fn trees_are_determined()
    ensures tree { HaveOneTree IsQueryText }
    ensures apart { HaveNoFault IsQueryText IsGrammarFault }
    ensures fault { HaveOneFault IsGrammarFault }
    ensures constraint_tree { (version : Version) → HaveOneTree (IsConstraintText version) }
    ensures constraint_apart { (version : Version) →
        HaveNoFault (IsConstraintText version) (IsConstraintGrammarFault version) }
    ensures constraint_fault { (version : Version) →
        HaveOneFault (IsConstraintGrammarFault version) }
    ensures layout_tree { HaveOneTree IsLayoutText }
    ensures layout_apart { HaveNoFault IsLayoutText IsLayoutGrammarFault }
    ensures layout_fault { HaveOneFault IsLayoutGrammarFault }
{}

/// A law: a text of a union has at most one list of trees and at most one fault of its grammar, and never both. It is a
/// union of one query exactly where it is a text of that query.
pub fn unions_are_determined()
    ensures one { UnionOfOneIsQueryText }
    ensures trees { HaveOneTree IsUnionText }
    ensures apart { HaveNoFault IsUnionText IsUnionGrammarFault }
    ensures fault { HaveOneFault IsUnionGrammarFault }
{}
