//! The encoding of documents.
ghost use Rattle.std.specs.Prelude.{◌≡◌, ◌≤◌, ◌+◌, suc, [], ◌∷◌, ◌++◌, map, IfOk, OnOk};
ghost use Rattle.esto_semantics.specs.DocumentRules.{document_rules_2};
ghost use Rattle.esto_semantics.specs.Rules.{AreMet};
ghost use Rattle.esto_docmodel.specs.Encodings.{every, facts_from, facts_of, kept, kept_of, size};
ghost use Rattle.esto_docmodel.specs.Gaining.{Gains, HaveRoom};
ghost use Rattle.esto_docmodel.specs.Meanings.{HaveRootsOnTop};
ghost use Rattle.esto_docmodel.specs.Putting.{Encodes, PutsDocuments, turned, node_facts};
ghost use Rattle.esto_docmodel.specs.Rising.{IsRising, AreRising};
ghost use Rattle.esto_docmodel.specs.Shapes.{shape, row, named_row, shaped_field, documents};

use crate::encode::{Encoded, LAST_BASE, after};
use crate::fact_sink::FactSink;
use crate::kept::{Kept, KeptTexts};
use crate::nodes::{put_belows, put_field, put_item, put_root, put_value, with_node};
use crate::tree::{Fields, Tree, Trees};
use esto_semantics::Facts;
use esto_term::{List, OutOfMemory, Values};
use std::alloc::Global;

/// Puts the facts of a node and of all that stands inside it, but for how it is entered.
#[cycle(put)]
fn put_node<S: FactSink>(
    alloc: Global,
    sink: &mut S,
    relations: &Kept,
    tree: &Tree,
    above: &Values<u64>,
    number: u64,
) -> Result<u64, OutOfMemory>
    requires base { relations.now.base + 4 ≤ 18446744073709551615 }
    requires room { HaveRoom (S.arities sink.old) relations.now.base }
    ensures facts { OnOk result (Gains S.Holds S.arities
        (kept relations.now (node_facts (turned above.now) number (shape tree.now)))
        sink.old sink.new) }
    ensures rising { OnOk result (IsRising (shape tree.now).inside) }
    ensures next { IfOk result (λ next. next ≡ suc number + size (shape tree.now).inside) }
{
    put_belows(alloc, sink, relations, above.items(), number)?;
    let next = after(number)?;
    match tree {
        Tree::Value(text) => {
            put_value(alloc, sink, relations, number, text.as_str())?;
            Ok(next)
        }
        Tree::Nothing => Ok(next),
        Tree::Fields(fields) => {
            let inner = with_node(alloc, above, number)?;
            put_fields(alloc, sink, relations, fields, above, &inner, number, next)
        }
        Tree::Items(items) => {
            let inner = with_node(alloc, above, number)?;
            put_items(
                alloc,
                sink,
                relations,
                items.items(),
                above,
                &inner,
                number,
                next,
            )
        }
    }
}

/// Puts the facts of the fields of a node.
#[cycle(put)]
fn put_fields<S: FactSink>(
    alloc: Global,
    sink: &mut S,
    relations: &Kept,
    fields: &Fields,
    above: &Values<u64>,
    inner: &Values<u64>,
    number: u64,
    first: u64,
) -> Result<u64, OutOfMemory>
    requires base { relations.now.base + 4 ≤ 18446744073709551615 }
    requires room { HaveRoom (S.arities sink.old) relations.now.base }
    requires inside { inner.now ≡ above.now ++ number ∷ [] }
    ensures facts { OnOk result (Gains S.Holds S.arities
        (kept relations.now (facts_from (number ∷ turned above.now) first
        (named_row (map shaped_field fields.now)))) sink.old sink.new) }
    ensures rising { OnOk result (IsRising (named_row (map shaped_field fields.now))) }
    ensures next { IfOk result (λ next. next ≡ first + size
        (named_row (map shaped_field fields.now))) }
{
    let mut next = first;
    'fields: for field in fields.items() {
        put_field(alloc, sink, relations, number, field.name.as_str(), next)?;
        next = put_node(alloc, sink, relations, &field.tree, inner, next)?;
    }
    Ok(next)
}

/// Puts the facts of the items of a node.
#[cycle(put)]
fn put_items<S: FactSink>(
    alloc: Global,
    sink: &mut S,
    relations: &Kept,
    items: &[Tree],
    above: &Values<u64>,
    inner: &Values<u64>,
    number: u64,
    first: u64,
) -> Result<u64, OutOfMemory>
    requires base { relations.now.base + 4 ≤ 18446744073709551615 }
    requires room { HaveRoom (S.arities sink.old) relations.now.base }
    requires inside { inner.now ≡ above.now ++ number ∷ [] }
    ensures facts { OnOk result (Gains S.Holds S.arities
        (kept relations.now (facts_from (number ∷ turned above.now) first
        (row (map shape items.now)))) sink.old sink.new) }
    ensures rising { OnOk result (IsRising (row (map shape items.now))) }
    ensures next { IfOk result (λ next. next ≡ first + size (row (map shape items.now))) }
{
    let mut next = first;
    'items: for item in items {
        put_item(alloc, sink, relations, number, next)?;
        next = put_node(alloc, sink, relations, item, inner, next)?;
    }
    Ok(next)
}

/// Puts the facts of a document, all five relations of which have numbers.
fn put_tree<S: FactSink>(
    alloc: Global,
    sink: &mut S,
    relations: &Kept,
    tree: &Tree,
    first: u64,
) -> Result<u64, OutOfMemory>
    requires base { relations.now.base + 4 ≤ 18446744073709551615 }
    requires room { HaveRoom (S.arities sink.old) relations.now.base }
    ensures { IfOk result (λ next. PutsDocuments S.Holds S.arities relations.now (tree.now ∷ [])
        first next sink.old sink.new) }
{
    let above = Values::new(alloc);
    put_root(alloc, sink, relations, first)?;
    put_node(alloc, sink, relations, tree, &above, first)
}

/// Puts the facts of a document into the sink, as `encode_document` does, with numbers from `first` on; the answer is the
/// first number that is not used.
fn put_document<S: FactSink>(
    alloc: Global,
    sink: &mut S,
    relations: &Kept,
    tree: &Tree,
    first: u64,
) -> Result<u64, OutOfMemory>
    requires { HaveRoom (S.arities sink.old) relations.now.base }
    ensures { IfOk result (λ next. PutsDocuments S.Holds S.arities relations.now (tree.now ∷ [])
        first next sink.old sink.new) }
{
    if relations.base > LAST_BASE {
        return Err(OutOfMemory);
    }
    put_tree(alloc, sink, relations, tree, first)
}

/// Puts the facts of a document after those that are there, as far as they are kept: root, field, item, value and below,
/// from the base on. Nodes are numbered in preorder from `next` on, fields and items in order, and `next` then is the first
/// number that is not used. The facts of a node follow one another: how it is entered, what it stands below from the
/// document down, and what it holds. OutOfMemory comes too where a relation or a node has no number of 64 bits. After an
/// error some of the facts may be put.
pub fn encode_document(
    alloc: Global,
    encoded: &mut Encoded,
    relations: &Kept,
    tree: &Tree,
) -> Result<(), OutOfMemory>
    ensures { OnOk result (Encodes relations.now (tree.now ∷ []) encoded.old encoded.new) }
{
    encoded.next = put_document(alloc, &mut encoded.facts, relations, tree, encoded.next)?;
    Ok(())
}

/// All five relations, from the base on.
fn every(base: usize) -> Kept
    ensures { result ≡ every base }
{
    Kept {
        base,
        root: true,
        field: KeptTexts::Every,
        item: true,
        value: KeptTexts::Every,
        below: true,
    }
}

/// The facts of a document that are kept, with numbers from 0 on.
pub fn document_facts(alloc: Global, relations: &Kept, tree: &Tree) -> Result<Facts, OutOfMemory>
    requires { relations.now.base + 4 ≤ 18446744073709551615 }
    ensures { IfOk result (λ it. it ≡ kept_of relations.now 0 (documents (tree.now ∷ []))) }
{
    let mut facts = List::new(alloc);
    put_tree(alloc, &mut facts, relations, tree, 0)?;
    Ok(facts)
}

/// Puts the facts of documents, one after another.
fn put_documents(
    alloc: Global,
    encoded: &mut Encoded,
    relations: &Kept,
    trees: &[Tree],
) -> Result<(), OutOfMemory>
    ensures { OnOk result (Encodes relations.now trees.now encoded.old encoded.new) }
{
    'trees: for tree in trees {
        encode_document(alloc, encoded, relations, tree)?;
    }
    Ok(())
}

/// The facts of documents in the five relations from the base on: root, field, item, value and below. Nodes are numbered
/// in preorder from `next` on, documents, fields and items in order, and the answer's `next` is the first number that is
/// not used. The facts of a node follow one another: how it is entered, what it stands below from the document down, and
/// what it holds. They meet the rules of documents, and no node that stands below another is a document. OutOfMemory
/// comes too where a relation or a node has no number of 64 bits.
pub fn encode_documents(
    alloc: Global,
    base: usize,
    trees: &Trees,
    next: u64,
) -> Result<Encoded, OutOfMemory>
    ensures facts { IfOk result (λ it. it.facts ≡ facts_of base next (documents trees.now)) }
    ensures next { IfOk result (λ it. it.next ≡ next + size (documents trees.now)) }
    ensures rising { OnOk result (AreRising trees.now) }
    ensures rules { IfOk result (λ it. AreMet it.facts (document_rules_2 base)) }
    ensures roots { IfOk result (λ it. HaveRootsOnTop base it.facts) }
{
    let facts = List::new(alloc);
    let mut encoded = Encoded { facts, next };
    let put = put_documents(alloc, &mut encoded, &every(base), trees.items());
    put?;
    Ok(encoded)
}
