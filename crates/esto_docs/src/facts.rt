//! The facts of the document that a JSON value is, put as the value is walked, with no tree of it.
ghost use Rattle.std.specs.Prelude.{◌≡◌, ◌≤◌, ◌+◌, [], ◌∷◌, map, Some, decimal, IfOk, OnOk};
ghost use Rattle.std.specs.Fmt.{signed_decimal};
ghost use Rattle.serde_json.specs.Data.{number as number_data};
ghost use Rattle.serde_json.specs.View.{view, number_view, items_view, members_view};
ghost use Rattle.esto_docmodel.specs.Encodings.{holding, kept};
ghost use Rattle.esto_docmodel.specs.Gaining.{Gains, HaveRoom};
ghost use Rattle.esto_docmodel.specs.Putting.{PutsDocuments, turned};
ghost use Rattle.esto_docmodel.specs.Shapes.{shape, row, named_row, shaped_field};
ghost use Rattle.esto_docs.specs.Encoding.{PutsNode, PutsRow};
ghost use Rattle.esto_docs.specs.Filling.{value_node};
ghost use Rattle.esto_docs.specs.Trees.{tree_of, trees_of, fields_of};

use esto_docmodel::{
    FactSink, Kept, LAST_BASE, after, put_belows, put_field, put_item, put_root, put_value,
};
use esto_term::{OutOfMemory, Values};
use serde_json::{Map, Number, Value};
use std::alloc::Global;

// Puts that the node holds the digits of an unsigned number.
fn put_unsigned<S: FactSink>(
    alloc: Global,
    sink: &mut S,
    relations: &Kept,
    node: u64,
    n: u64,
) -> Result<(), OutOfMemory>
    requires base { relations.now.base + 4 ≤ 18446744073709551615 }
    requires room { HaveRoom (S.arities sink.old) relations.now.base }
    ensures { OnOk result (Gains S.Holds S.arities
        (kept relations.now (holding (Some (decimal n)) node)) sink.old sink.new) }
{
    let digits = format!(in alloc; "{n}")?;
    put_value(alloc, sink, relations, node, digits.as_str())
}

// Puts that the node holds the digits of a signed number.
fn put_signed<S: FactSink>(
    alloc: Global,
    sink: &mut S,
    relations: &Kept,
    node: u64,
    n: i64,
) -> Result<(), OutOfMemory>
    requires base { relations.now.base + 4 ≤ 18446744073709551615 }
    requires room { HaveRoom (S.arities sink.old) relations.now.base }
    ensures { OnOk result (Gains S.Holds S.arities
        (kept relations.now (holding (Some (signed_decimal n)) node)) sink.old sink.new) }
{
    let digits = format!(in alloc; "{n}")?;
    put_value(alloc, sink, relations, node, digits.as_str())
}

// Puts that the node holds the text of a number, if it has one. Its digits are made only where facts of texts are kept.
fn put_number<S: FactSink>(
    alloc: Global,
    sink: &mut S,
    relations: &Kept,
    node: u64,
    number: &Number,
) -> Result<(), OutOfMemory>
    requires base { relations.now.base + 4 ≤ 18446744073709551615 }
    requires room { HaveRoom (S.arities sink.old) relations.now.base }
    ensures { OnOk result (Gains S.Holds S.arities (kept relations.now
        (holding (value_node (number_data (number_view number.now))).content node))
        sink.old sink.new) }
{
    if !relations.value.has_any() {
        return Ok(());
    }
    if let Some(n) = number.as_u64() {
        return put_unsigned(alloc, sink, relations, node, n);
    }
    if let Some(n) = number.as_i64() {
        return put_signed(alloc, sink, relations, node, n);
    }
    Ok(())
}

// Puts that the node holds the text of a value, if it has one.
fn put_content<S: FactSink>(
    alloc: Global,
    sink: &mut S,
    relations: &Kept,
    node: u64,
    value: &Value,
) -> Result<(), OutOfMemory>
    requires base { relations.now.base + 4 ≤ 18446744073709551615 }
    requires room { HaveRoom (S.arities sink.old) relations.now.base }
    ensures { OnOk result (Gains S.Holds S.arities
        (kept relations.now (holding (value_node (view value.now)).content node))
        sink.old sink.new) }
{
    match value {
        Value::Null => Ok(()),
        Value::Bool(true) => put_value(alloc, sink, relations, node, "true"),
        Value::Bool(false) => put_value(alloc, sink, relations, node, "false"),
        Value::Number(number) => put_number(alloc, sink, relations, node, number),
        Value::String(text) => put_value(alloc, sink, relations, node, text.as_str()),
        Value::Array(_) => Ok(()),
        Value::Object(_) => Ok(()),
    }
}

// Puts the facts of the node of a value and of all that stands inside it, but for how it is entered: the first number that
// is not used. The nodes above, the outermost first, are afterwards what they were.
#[cycle(put)]
fn put_node<S: FactSink>(
    alloc: Global,
    sink: &mut S,
    relations: &Kept,
    value: &Value,
    above: &mut Values<u64>,
    number: u64,
) -> Result<u64, OutOfMemory>
    requires base { relations.now.base + 4 ≤ 18446744073709551615 }
    requires room { HaveRoom (S.arities sink.old) relations.now.base }
    ensures same { OnOk result (above.new ≡ above.old) }
    ensures puts { IfOk result (λ next. PutsNode S.Holds S.arities relations.now
        (turned above.old) number (value_node (view value.now)) next sink.old sink.new) }
{
    put_belows(alloc, sink, relations, above.items(), number)?;
    put_content(alloc, sink, relations, number, value)?;
    let first = after(number)?;
    put_inside(alloc, sink, relations, value, above, number, first)
}

// Puts the facts of what stands inside the node of a value.
#[cycle(put)]
fn put_inside<S: FactSink>(
    alloc: Global,
    sink: &mut S,
    relations: &Kept,
    value: &Value,
    above: &mut Values<u64>,
    number: u64,
    first: u64,
) -> Result<u64, OutOfMemory>
    requires base { relations.now.base + 4 ≤ 18446744073709551615 }
    requires room { HaveRoom (S.arities sink.old) relations.now.base }
    ensures same { OnOk result (above.new ≡ above.old) }
    ensures puts { IfOk result (λ next. PutsRow S.Holds S.arities relations.now
        (number ∷ turned above.old) first (value_node (view value.now)).inside
        next sink.old sink.new) }
{
    match value {
        Value::Null => Ok(first),
        Value::Bool(_) => Ok(first),
        Value::Number(_) => Ok(first),
        Value::String(_) => Ok(first),
        Value::Array(items) => {
            put_items(
                alloc,
                sink,
                relations,
                items.as_slice(),
                above,
                number,
                first,
            )
        }
        Value::Object(members) => {
            put_members(alloc, sink, relations, members, above, number, first)
        }
    }
}

// Puts the facts of the fields of a node.
#[cycle(put)]
fn put_members<S: FactSink>(
    alloc: Global,
    sink: &mut S,
    relations: &Kept,
    members: &Map<String, Value>,
    above: &mut Values<u64>,
    number: u64,
    first: u64,
) -> Result<u64, OutOfMemory>
    requires base { relations.now.base + 4 ≤ 18446744073709551615 }
    requires room { HaveRoom (S.arities sink.old) relations.now.base }
    ensures same { OnOk result (above.new ≡ above.old) }
    ensures puts { IfOk result (λ next. PutsRow S.Holds S.arities relations.now
        (number ∷ turned above.old) first
        (named_row (map shaped_field (fields_of (members_view members.now.entries))))
        next sink.old sink.new) }
{
    let depth = above.len();
    above.push(number)?;
    let mut next = first;
    'members: for (name, value) in members.iter() {
        put_field(alloc, sink, relations, number, name.as_str(), next)?;
        next = put_node(alloc, sink, relations, value, above, next)?;
    }
    above.truncate(depth);
    Ok(next)
}

// Puts the facts of the items of a node.
#[cycle(put)]
fn put_items<S: FactSink>(
    alloc: Global,
    sink: &mut S,
    relations: &Kept,
    items: &[Value],
    above: &mut Values<u64>,
    number: u64,
    first: u64,
) -> Result<u64, OutOfMemory>
    requires base { relations.now.base + 4 ≤ 18446744073709551615 }
    requires room { HaveRoom (S.arities sink.old) relations.now.base }
    ensures same { OnOk result (above.new ≡ above.old) }
    ensures puts { IfOk result (λ next. PutsRow S.Holds S.arities relations.now
        (number ∷ turned above.old) first (row (map shape (trees_of (items_view items.now))))
        next sink.old sink.new) }
{
    let depth = above.len();
    above.push(number)?;
    let mut next = first;
    'items: for item in items {
        put_item(alloc, sink, relations, number, next)?;
        next = put_node(alloc, sink, relations, item, above, next)?;
    }
    above.truncate(depth);
    Ok(next)
}

// Puts the facts of a document, all five relations of which have numbers.
fn put_whole<S: FactSink>(
    alloc: Global,
    sink: &mut S,
    relations: &Kept,
    value: &Value,
    first: u64,
) -> Result<u64, OutOfMemory>
    requires base { relations.now.base + 4 ≤ 18446744073709551615 }
    requires room { HaveRoom (S.arities sink.old) relations.now.base }
    ensures { IfOk result (λ next. PutsDocuments S.Holds S.arities relations.now
        (tree_of (view value.now) ∷ []) first next sink.old sink.new) }
{
    put_root(alloc, sink, relations, first)?;
    let mut above = Values::new(alloc);
    put_node(alloc, sink, relations, value, &mut above, first)
}

/// Puts the facts of the document that a JSON value is into the sink, as `encode_document` of `esto_docmodel` puts those of
/// its tree, with numbers from `first` on; the answer is the first number that is not used. OutOfMemory comes too where a relation or a node has no number of 64 bits.
/// After an error some of the facts may be put.
pub fn put_document<S: FactSink>(
    alloc: Global,
    sink: &mut S,
    relations: &Kept,
    value: &Value,
    first: u64,
) -> Result<u64, OutOfMemory>
    requires { HaveRoom (S.arities sink.old) relations.now.base }
    ensures { IfOk result (λ next. PutsDocuments S.Holds S.arities relations.now
        (tree_of (view value.now) ∷ []) first next sink.old sink.new) }
{
    if relations.base > LAST_BASE {
        return Err(OutOfMemory);
    }
    put_whole(alloc, sink, relations, value, first)
}
