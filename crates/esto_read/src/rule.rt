//! Constraints, from their texts.
ghost use Rattle.std.specs.Prelude.{◌≡◌, ◌↔◌, ◌⊎◌, ℕ, List, [], ◌∷◌, All, IsTrue, IsUtf8, Ok, IfOk, IfErr};
ghost use Rattle.esto_constraint.specs.Constraints.{rule_of};
ghost use Rattle.esto_constraint.specs.Making.{MakesEquality};
ghost use Rattle.esto_query.specs.Schemas.{arities_of};
ghost use Rattle.esto_query.specs.declared.query.Name.{Name};
ghost use Rattle.esto_semantics.specs.Maps.{IsFixedBy};
ghost use Rattle.esto_semantics.specs.WellFormed.{IsRuleOver};
ghost use Rattle.esto_term.specs.declared.term.Term.{Term};
ghost use Rattle.esto_text.specs.Faults.{IsTermIn, IsConstraintText, ConstraintStandsAt};
ghost use Rattle.esto_text.specs.View.{constraint_of};
ghost use Rattle.esto_text.specs.declared.version.Version.{Version};
ghost use Rattle.esto_read.specs.Parts.{AreEqualityParts};
ghost use Rattle.esto_read.specs.Terms.{AreTerms};
ghost use Rattle.esto_docmodel.specs.Words.{HasRelations, IsVocabulary};
ghost use Rattle.esto_read.specs.Constraints.{IsUnsafeSide, IsRuleOf, IsRuleError, IsConstraintReading, IsConstraintError, HaveOneRule, HaveNoRuleFault};
ghost use Rattle.esto_read.specs.Constraints.{HaveOneRuleFault};

use crate::body::{body, fault_at};
use crate::make::{denial, equal_rule, tuple_rule};
use crate::term::term;
use esto_constraint::Constraint;
use esto_docmodel::{Vocabulary, Word};
use esto_query::{Names, Schema, mentions};
use esto_semantics::{Atom, Atoms};
use esto_term::{List, Term};
use esto_text::{
    ConstraintSyntax, HeadSyntax, ReadError, TextKind, Token, Version, read_constraint_tree,
    trees_are_determined,
};
use std::alloc::Global;

/// Whether the term is a constant, or one of the atoms mentions it.
fn is_fixed(term: &Term, body: &[Atom]) -> bool
    ensures { IsTrue result ↔ IsFixedBy body.now term.now }
{
    term.is_constant() || mentions(body, term)
}

/// The fault of the first side of an equality, left and then right, that is no constant and not in the body.
fn demand_fixed(
    left: Token,
    right: Token,
    left_term: &Term,
    right_term: &Term,
    body: &[Atom],
) -> Result<(), ReadError>
    ensures fixed { IfOk result (λ _.
        IsFixedBy body.now left_term.now × IsFixedBy body.now right_term.now) }
    ensures error { IfErr result (λ error. (offset : ℕ)
        × IsUnsafeSide body.now left right left_term.now right_term.now offset
        × (error ≡ ReadError.Fault (record { offset = offset; kind = TextKind.Unsafe }))) }
{
    if !is_fixed(left_term, body) {
        return Err(fault_at(left, TextKind::Unsafe));
    }
    if !is_fixed(right_term, body) {
        return Err(fault_at(right, TextKind::Unsafe));
    }
    Ok(())
}

/// The terms at the two sides of an equality over the atoms; or the fault of the first side that is no constant and not
/// in them.
fn safe_sides(
    alloc: Global,
    bytes: &[u8],
    left: Token,
    right: Token,
    body: &[Atom],
    names: &mut Names,
) -> Result<(Term, Term), ReadError>
    requires utf8 { IsUtf8 bytes.now }
    requires left { IsTermIn bytes.now left }
    requires right { IsTermIn bytes.now right }
    ensures sides { IfOk result (λ it.
        AreTerms bytes.now names.old (left ∷ right ∷ []) (it.0 ∷ it.1 ∷ []) names.new) }
    ensures fixed { IfOk result (λ it.
        IsFixedBy body.now it.0 × IsFixedBy body.now it.1) }
    ensures error { IfErr result (λ error. (error ≡ ReadError.OutOfMemory)
        ⊎ ((after : List Name) × (one other : Term) × (offset : ℕ)
        × AreTerms bytes.now names.old (left ∷ right ∷ []) (one ∷ other ∷ []) after
        × IsUnsafeSide body.now left right one other offset
        × (error ≡ ReadError.Fault (record { offset = offset; kind = TextKind.Unsafe })))) }
{
    let left_term = term(alloc, bytes, left, names)?;
    let right_term = term(alloc, bytes, right, names)?;
    demand_fixed(left, right, &left_term, &right_term, body).and(Ok((left_term, right_term)))
}

/// The equality rule of the atoms and of the terms at the two sides; or the fault of the first side that is no constant
/// and not in the atoms.
fn said_equality(
    alloc: Global,
    bytes: &[u8],
    sides: (Token, Token),
    schema: &Schema,
    atoms: Atoms,
    names: Names,
) -> Result<Constraint, ReadError>
    requires utf8 { IsUtf8 bytes.now }
    requires left { IsTermIn bytes.now sides.0 }
    requires right { IsTermIn bytes.now sides.1 }
    requires parts { (one other : Term) (after : List Name)
        → AreTerms bytes.now names (sides.0 ∷ sides.1 ∷ []) (one ∷ other ∷ []) after
        → IsFixedBy atoms one × IsFixedBy atoms other
        → AreEqualityParts (arities_of schema.now) atoms one other after }
    ensures said { IfOk result (λ rule. (one other : Term) × (after : List Name)
        × AreTerms bytes.now names (sides.0 ∷ sides.1 ∷ []) (one ∷ other ∷ []) after
        × MakesEquality (arities_of schema.now) atoms one other after (Ok rule)) }
    ensures over { IfOk result (λ rule. IsRuleOver (arities_of schema.now) (rule_of rule)) }
    ensures error { IfErr result (λ error. (error ≡ ReadError.OutOfMemory)
        ⊎ ((after : List Name) × (one other : Term) × (offset : ℕ)
        × AreTerms bytes.now names (sides.0 ∷ sides.1 ∷ []) (one ∷ other ∷ []) after
        × IsUnsafeSide atoms sides.0 sides.1 one other offset
        × (error ≡ ReadError.Fault (record { offset = offset; kind = TextKind.Unsafe })))) }
{
    let mut names = names;
    let (left, right) = safe_sides(alloc, bytes, sides.0, sides.1, atoms.items(), &mut names)?;
    Ok(equal_rule(alloc, schema, atoms, left, right, names))
}

/// The constraint that a tree of the text says.
fn said_rule(
    alloc: Global,
    bytes: &[u8],
    tree: &ConstraintSyntax,
    words: &[Word],
    schema: &Schema,
) -> Result<Constraint, ReadError>
    requires relations { All (λ word.
        HasRelations (arities_of schema.now) word.model word.base) words.now }
    requires text { (version : Version)
        × IsConstraintText version bytes.now (constraint_of tree.now) }
    requires stands { ConstraintStandsAt bytes.now (constraint_of tree.now) }
    ensures said { IfOk result (IsRuleOf words.now (arities_of schema.now)
        bytes.now (constraint_of tree.now).body (constraint_of tree.now).head) }
    ensures over { IfOk result (λ rule. IsRuleOver (arities_of schema.now) (rule_of rule)) }
    ensures error { IfErr result (IsRuleError
        words.now (arities_of schema.now) bytes.now (constraint_of tree.now)) }
{
    let mut names = List::new(alloc);
    let atoms = body(alloc, bytes, tree.body.items(), words, schema, &mut names)?;
    match &tree.head {
        HeadSyntax::Items(items) => {
            let head = body(alloc, bytes, items.items(), words, schema, &mut names)?;
            Ok(tuple_rule(alloc, schema, atoms, head, names))
        }
        HeadSyntax::Equality { left, right } => {
            said_equality(alloc, bytes, (*left, *right), schema, atoms, names)
        }
        HeadSyntax::Never => Ok(denial(alloc, schema, atoms, names)),
    }
}

/// The constraint that a text of this version is.
fn read_rule(
    alloc: Global,
    bytes: &[u8],
    words: &Vocabulary,
    schema: &Schema,
    version: Version,
) -> Result<Constraint, ReadError>
    requires words { IsVocabulary (arities_of schema.now) words.now }
    ensures reading { IfOk result (IsConstraintReading
        version words.now (arities_of schema.now) bytes.now) }
    ensures over { IfOk result (λ rule. IsRuleOver (arities_of schema.now) (rule_of rule)) }
    ensures error { IfErr result (IsConstraintError
        version words.now (arities_of schema.now) bytes.now) }
{
    let tree = read_constraint_tree(alloc, bytes, version)?;
    said_rule(alloc, bytes, &tree, words.items(), schema)
}

/// The constraint that a text of version 1 is, over the datasets that the words name; or the text's first fault: Utf8,
/// Syntax, then for each item in order, the body before the head, Unknown, Arity and TooLarge, then Unsafe. Unsafe comes
/// for an equality alone, at the first side that is no constant and not in the body.
pub fn read_constraint(
    alloc: Global,
    bytes: &[u8],
    words: &Vocabulary,
    schema: &Schema,
) -> Result<Constraint, ReadError>
    requires words { IsVocabulary (arities_of schema.now) words.now }
    // The answer is the text's reading.
    ensures reading { IfOk result (IsConstraintReading
        Version.One words.now (arities_of schema.now) bytes.now) }
    // It is over the schema, and its constants are UTF-8.
    ensures over { IfOk result (λ rule. IsRuleOver (arities_of schema.now) (rule_of rule)) }
    // A fault is the text's first fault.
    ensures error { IfErr result (IsConstraintError
        Version.One words.now (arities_of schema.now) bytes.now) }
{
    read_rule(alloc, bytes, words, schema, Version::One)
}

/// The constraint that a text of version 2 is, in which the head may be the one word `false`, which makes it a denial; or
/// the text's first fault: those of version 1, of which Unsafe never comes for a denial.
pub fn read_constraint_2(
    alloc: Global,
    bytes: &[u8],
    words: &Vocabulary,
    schema: &Schema,
) -> Result<Constraint, ReadError>
    requires words { IsVocabulary (arities_of schema.now) words.now }
    // The answer is the text's reading.
    ensures reading { IfOk result (IsConstraintReading
        Version.Two words.now (arities_of schema.now) bytes.now) }
    // It is over the schema, and its constants are UTF-8.
    ensures over { IfOk result (λ rule. IsRuleOver (arities_of schema.now) (rule_of rule)) }
    // A fault is the text's first fault.
    ensures error { IfErr result (IsConstraintError
        Version.Two words.now (arities_of schema.now) bytes.now) }
{
    read_rule(alloc, bytes, words, schema, Version::Two)
}

/// A law: in each version a text of a constraint has at most one reading and at most one first fault, and never both.
pub fn constraint_readings_are_determined()
    ensures reading { HaveOneRule }
    ensures apart { HaveNoRuleFault }
    ensures fault { HaveOneRuleFault }
{
    trees_are_determined();
}
