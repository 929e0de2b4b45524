//! Items as atoms.
ghost use Rattle.std.specs.Prelude.{◌≡◌, ◌<◌, ◌≤◌, ◌+◌, ◌↔◌, ℕ, length, map, All, IfOk, IfErr, IsTrue, IsUtf8, MatchOption};
ghost use Rattle.std.specs.List.{AllByRecursion};
ghost use Rattle.esto_query.specs.Schemas.{arities_of};
ghost use Rattle.esto_query.specs.declared.make.TheConstants.{MAX_ATOMS};
ghost use Rattle.esto_text.specs.Faults.{IsNameIn, IsFieldIn, IsTermIn};
ghost use Rattle.esto_text.specs.Trees.{EachOfItem};
ghost use Rattle.esto_text.specs.View.{item_of};
ghost use Rattle.esto_docmodel.specs.Words.{HasRelations};
ghost use Rattle.esto_read.specs.Items.{name_of, IsRelationOf, HasArity, item_size, IsMisfit, IsFitting, AreFitting, IsAtomOf, AreAtomsOf, IsItemOf, AreItems};
ghost use Rattle.esto_read.specs.Items.{IsItemError, IsBodyError};

use crate::constant::bytes_of;
use crate::pattern::{pattern, room_after_entries};
use crate::term::terms;
use crate::words::{base_of, part_of};
use esto_docmodel::{DataModel, Word};
use esto_query::{MAX_ATOMS, Names, Schema};
use esto_semantics::{Atoms, Fact};
use esto_term::{List, OutOfMemory};
use esto_text::{ItemSyntax, ReadError, TextFault, TextKind, Token};
use std::alloc::Global;

/// The token at which an item begins.
fn name_of(item: &ItemSyntax) -> Token
    ensures { result ≡ name_of (item_of item.now) }
{
    match item {
        ItemSyntax::Atom { name, .. } => *name,
        ItemSyntax::Part { name, .. } => *name,
        ItemSyntax::Pattern { name, .. } => *name,
    }
}

/// The relation that an item names. None comes exactly where it names none.
fn relation_of(bytes: &[u8], item: &ItemSyntax, words: &[Word], schema: &Schema) -> Option<usize>
    requires stands { EachOfItem (IsNameIn bytes.now) (IsFieldIn bytes.now) (IsTermIn bytes.now)
        (item_of item.now) }
    requires relations { All (λ word.
        HasRelations (arities_of schema.now) word.model word.base) words.now }
    ensures named { MatchOption result
        ((relation : ℕ) → ¬ IsRelationOf words.now bytes.now (item_of item.now) relation)
        (IsRelationOf words.now bytes.now (item_of item.now)) }
    ensures inside { MatchOption result Unit (λ relation. relation < length schema.now) }
{
    // A schema's relations are few, so that no sum of their numbers overflows.
    let _few = schema.len();
    match item {
        ItemSyntax::Atom { name, .. } => base_of(words, bytes_of(bytes, *name), DataModel::Table),
        ItemSyntax::Part { name, part, .. } => {
            part_of(words, bytes_of(bytes, *name), bytes_of(bytes, *part))
        }
        ItemSyntax::Pattern { name, .. } => {
            base_of(words, bytes_of(bytes, *name), DataModel::Documents)
        }
    }
}

/// Whether the item has as many terms as the relation has columns.
fn has_arity(item: &ItemSyntax, relation: usize, schema: &Schema) -> bool
    requires { relation < length schema.now }
    ensures { IsTrue result ↔ HasArity (arities_of schema.now) (item_of item.now) relation }
{
    match item {
        ItemSyntax::Atom { terms, .. } => schema.arity(relation) == terms.len(),
        ItemSyntax::Part { terms, .. } => schema.arity(relation) == terms.len(),
        ItemSyntax::Pattern { .. } => true,
    }
}

/// Whether there is room for so many atoms and those of the item.
fn has_room(item: &ItemSyntax, atoms: usize) -> bool
    ensures { IsTrue result ↔ (atoms + item_size (item_of item.now) ≤ MAX_ATOMS) }
{
    let Some(room) = MAX_ATOMS.checked_sub(atoms) else {
        return false;
    };
    let Some(room) = room.checked_sub(1) else {
        return false;
    };
    match item {
        ItemSyntax::Atom { .. } => true,
        ItemSyntax::Part { .. } => true,
        ItemSyntax::Pattern { entries, .. } => room_after_entries(entries.items(), room).is_some(),
    }
}

/// The relation that an item names, where so many atoms come before it, or what is wrong.
fn fitting(
    bytes: &[u8],
    item: &ItemSyntax,
    words: &[Word],
    schema: &Schema,
    atoms: usize,
) -> Result<usize, TextKind>
    requires stands { EachOfItem (IsNameIn bytes.now) (IsFieldIn bytes.now) (IsTermIn bytes.now)
        (item_of item.now) }
    requires relations { All (λ word.
        HasRelations (arities_of schema.now) word.model word.base) words.now }
    ensures ok { IfOk result (λ relation.
        IsRelationOf words.now bytes.now (item_of item.now) relation
        × HasArity (arities_of schema.now) (item_of item.now) relation
        × (atoms + item_size (item_of item.now) ≤ MAX_ATOMS)) }
    ensures err { IfErr result (IsMisfit
        words.now (arities_of schema.now) bytes.now atoms (item_of item.now)) }
{
    let Some(relation) = relation_of(bytes, item, words, schema) else {
        return Err(TextKind::Unknown);
    };
    if !has_arity(item, relation, schema) {
        return Err(TextKind::Arity);
    }
    if !has_room(item, atoms) {
        return Err(TextKind::TooLarge);
    }
    Ok(relation)
}

/// The atom of a relation over these terms.
fn atom(
    alloc: Global,
    bytes: &[u8],
    relation: usize,
    tokens: &[Token],
    names: &mut Names,
) -> Result<Atoms, OutOfMemory>
    requires utf8 { IsUtf8 bytes.now }
    requires stand { AllByRecursion (IsTermIn bytes.now) tokens.now }
    ensures { IfOk result (λ atoms. IsAtomOf
        bytes.now names.old relation tokens.now atoms names.new) }
{
    let mut atoms = List::new(alloc);
    let terms = terms(alloc, bytes, tokens, names)?;
    atoms.push(Fact { relation, terms })?;
    Ok(atoms)
}

/// The atoms of an item over the relation.
fn atoms_of(
    alloc: Global,
    bytes: &[u8],
    item: &ItemSyntax,
    relation: usize,
    names: &mut Names,
) -> Result<Atoms, OutOfMemory>
    requires utf8 { IsUtf8 bytes.now }
    requires stands { EachOfItem (IsNameIn bytes.now) (IsFieldIn bytes.now) (IsTermIn bytes.now)
        (item_of item.now) }
    ensures { IfOk result (λ atoms. AreAtomsOf
        bytes.now names.old (item_of item.now) relation atoms names.new) }
{
    match item {
        ItemSyntax::Atom { terms, .. } => atom(alloc, bytes, relation, terms.items(), names),
        ItemSyntax::Part { terms, .. } => atom(alloc, bytes, relation, terms.items(), names),
        ItemSyntax::Pattern { entries, .. } => {
            pattern(alloc, bytes, entries.items(), relation, names)
        }
    }
}

/// The fault of this kind at a token.
pub fn fault_at(name: Token, kind: TextKind) -> ReadError
    ensures { result ≡ ReadError.Fault (record { offset = name.start; kind = kind }) }
{
    ReadError::Fault(TextFault {
        offset: name.start,
        kind,
    })
}

/// The atoms of an item, where so many atoms come before it.
fn item(
    alloc: Global,
    bytes: &[u8],
    item: &ItemSyntax,
    words: &[Word],
    schema: &Schema,
    atoms: usize,
    names: &mut Names,
) -> Result<Atoms, ReadError>
    requires utf8 { IsUtf8 bytes.now }
    requires stands { EachOfItem (IsNameIn bytes.now) (IsFieldIn bytes.now) (IsTermIn bytes.now)
        (item_of item.now) }
    requires relations { All (λ word.
        HasRelations (arities_of schema.now) word.model word.base) words.now }
    ensures ok { IfOk result (λ own. IsItemOf words.now (arities_of schema.now)
        bytes.now names.old (item_of item.now) own names.new) }
    ensures fits { IfOk result (λ own. IsFitting
        words.now (arities_of schema.now) bytes.now atoms (item_of item.now)) }
    ensures err { IfErr result (IsItemError
        words.now (arities_of schema.now) bytes.now atoms (item_of item.now)) }
{
    match fitting(bytes, item, words, schema, atoms) {
        Ok(relation) => {
            let own = atoms_of(alloc, bytes, item, relation, names)?;
            Ok(own)
        }
        Err(kind) => Err(fault_at(name_of(item), kind)),
    }
}

/// The atoms of the items, from left to right.
pub fn body(
    alloc: Global,
    bytes: &[u8],
    items: &[ItemSyntax],
    words: &[Word],
    schema: &Schema,
    names: &mut Names,
) -> Result<Atoms, ReadError>
    requires utf8 { IsUtf8 bytes.now }
    requires stand { AllByRecursion
        (EachOfItem (IsNameIn bytes.now) (IsFieldIn bytes.now) (IsTermIn bytes.now))
        (map item_of items.now) }
    requires relations { All (λ word.
        HasRelations (arities_of schema.now) word.model word.base) words.now }
    ensures ok { IfOk result (λ body. AreItems words.now (arities_of schema.now)
        bytes.now names.old (map item_of items.now) body names.new) }
    ensures fits { IfOk result (λ body. AreFitting
        words.now (arities_of schema.now) bytes.now 0 (map item_of items.now)) }
    ensures err { IfErr result (λ e. IsBodyError
        words.now (arities_of schema.now) bytes.now (map item_of items.now) e) }
{
    let mut body = List::new(alloc);
    'items: for each in items {
        let own = item(alloc, bytes, each, words, schema, body.len(), names)?;
        body.append(own)?;
    }
    Ok(body)
}
