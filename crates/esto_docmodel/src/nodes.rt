//! The facts of a node of documents, as far as they are kept.
ghost use Rattle.std.specs.Prelude.{◌≡◌, ◌≤◌, ◌+◌, [], ◌∷◌, ◌++◌, map, IfOk, OnOk};
ghost use Rattle.esto_term.specs.declared.term.Term.TheVariants.{Const, Plain};
ghost use Rattle.esto_docmodel.specs.DocumentFacts.{root, field, item, value, flat};
ghost use Rattle.esto_docmodel.specs.Encodings.{belows, kept};
ghost use Rattle.esto_docmodel.specs.Gaining.{Gains, HaveRoom};
ghost use Rattle.esto_docmodel.specs.Putting.{turned};

use crate::fact_sink::FactSink;
use crate::kept::Kept;
use esto_term::{OutOfMemory, Values};
use std::alloc::Global;

/// Puts that the node is a document.
pub fn put_root<S: FactSink>(
    alloc: Global,
    sink: &mut S,
    relations: &Kept,
    node: u64,
) -> Result<(), OutOfMemory>
    requires { HaveRoom (S.arities sink.old) relations.now.base }
    ensures { OnOk result (Gains S.Holds S.arities
        (kept relations.now (root (Plain node) ∷ [])) sink.old sink.new) }
{
    if !relations.root {
        return Ok(());
    }
    sink.put_one(alloc, relations.base, node)
}

/// Puts that a node is the field of another by that name, if facts of the name are kept.
pub fn put_field<S: FactSink>(
    alloc: Global,
    sink: &mut S,
    relations: &Kept,
    parent: u64,
    name: &str,
    node: u64,
) -> Result<(), OutOfMemory>
    requires base { relations.now.base + 4 ≤ 18446744073709551615 }
    requires room { HaveRoom (S.arities sink.old) relations.now.base }
    ensures { OnOk result (Gains S.Holds S.arities
        (kept relations.now (field (Plain parent) (Const name.now) (Plain node) ∷ []))
        sink.old sink.new) }
{
    if !relations.field.has(name) {
        return Ok(());
    }
    sink.put_named(alloc, relations.base + 1, parent, name, node)
}

/// Puts that a node is an item of another.
pub fn put_item<S: FactSink>(
    alloc: Global,
    sink: &mut S,
    relations: &Kept,
    parent: u64,
    node: u64,
) -> Result<(), OutOfMemory>
    requires base { relations.now.base + 4 ≤ 18446744073709551615 }
    requires room { HaveRoom (S.arities sink.old) relations.now.base }
    ensures { OnOk result (Gains S.Holds S.arities
        (kept relations.now (item (Plain parent) (Plain node) ∷ [])) sink.old sink.new) }
{
    if !relations.item {
        return Ok(());
    }
    sink.put_two(alloc, relations.base + 2, parent, node)
}

/// Puts that the node holds the text, if facts of the text are kept.
pub fn put_value<S: FactSink>(
    alloc: Global,
    sink: &mut S,
    relations: &Kept,
    node: u64,
    text: &str,
) -> Result<(), OutOfMemory>
    requires base { relations.now.base + 4 ≤ 18446744073709551615 }
    requires room { HaveRoom (S.arities sink.old) relations.now.base }
    ensures { OnOk result (Gains S.Holds S.arities
        (kept relations.now (value (Plain node) (Const text.now) ∷ [])) sink.old sink.new) }
{
    if !relations.value.has(text) {
        return Ok(());
    }
    sink.put_text(alloc, relations.base + 3, node, text)
}

// Puts one fact for each node above, the outermost first.
fn put_each_below<S: FactSink>(
    alloc: Global,
    sink: &mut S,
    base: usize,
    above: &[u64],
    number: u64,
) -> Result<(), OutOfMemory>
    requires base { base + 4 ≤ 18446744073709551615 }
    requires room { HaveRoom (S.arities sink.old) base }
    ensures { OnOk result (Gains S.Holds S.arities
        (map (flat base) (belows (turned above.now) number)) sink.old sink.new) }
{
    'above: for ancestor in above {
        sink.put_two(alloc, base + 4, *ancestor, number)?;
    }
    Ok(())
}

/// Puts that the node stands below each of these, the outermost first.
pub fn put_belows<S: FactSink>(
    alloc: Global,
    sink: &mut S,
    relations: &Kept,
    above: &[u64],
    node: u64,
) -> Result<(), OutOfMemory>
    requires base { relations.now.base + 4 ≤ 18446744073709551615 }
    requires room { HaveRoom (S.arities sink.old) relations.now.base }
    ensures { OnOk result (Gains S.Holds S.arities
        (kept relations.now (belows (turned above.now) node)) sink.old sink.new) }
{
    if !relations.below {
        return Ok(());
    }
    put_each_below(alloc, sink, relations.base, above, node)
}

/// These nodes, and that one after them.
pub fn with_node(alloc: Global, above: &Values<u64>, node: u64) -> Result<Values<u64>, OutOfMemory>
    ensures { IfOk result (λ it. it ≡ above.now ++ node ∷ []) }
{
    let mut it = Values::from_slice(alloc, above.items())?;
    it.push(node)?;
    Ok(it)
}
