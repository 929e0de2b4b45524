//! Laws of tokens and trees.
ghost use Rattle.esto_input_laws.specs.GrammarLaws.{HaveTokens, QueriesHaveTreeOrStop, UnionsHaveTreeOrStop, ConstraintsHaveTreeOrStop};
ghost use Rattle.esto_input_laws.specs.GrammarLaws.{LayoutsHaveTreeOrStop, QueryTextsAreAFunction, UnionTextsAreAFunction};
ghost use Rattle.esto_input_laws.specs.GrammarLaws.{ConstraintTextsAreAFunction, LayoutTextsAreAFunction};

use esto_text::{trees_are_determined, unions_are_determined};

/// A law: whatever the bytes are, they are not UTF-8, or they have tokens.
pub fn texts_have_tokens()
    ensures { HaveTokens }
{}

/// A law: whatever the tokens are, they have a tree as a query or a view, as a union, as a constraint and as a layout, or there
/// is a first place at which they leave its grammar.
pub fn tokens_have_trees_or_stops()
    ensures query { QueriesHaveTreeOrStop }
    ensures union { UnionsHaveTreeOrStop }
    ensures constraint { ConstraintsHaveTreeOrStop }
    ensures layout { LayoutsHaveTreeOrStop }
{}

/// A law: whatever the bytes are, they have one tree or one first fault of the grammar, and not both, as a query or a view, as
/// a union, as a constraint in each version, and as a layout.
pub fn texts_have_one_tree_or_fault()
    ensures query { QueryTextsAreAFunction }
    ensures union { UnionTextsAreAFunction }
    ensures constraint { ConstraintTextsAreAFunction }
    ensures layout { LayoutTextsAreAFunction }
{
    trees_are_determined();
    unions_are_determined();
}
