//! What stands in JSON values.
ghost use Rattle.std.specs.Prelude.{◌≡◌, ◌↔◌, Contains, IfOk, MatchOption, map, option_map, string_cmp};
ghost use Rattle.std.specs.List.Sorted.{IsStrictlySortedBy};
ghost use Rattle.std.specs.Map.{keys_of};
ghost use Rattle.serde_json.specs.Find.{get_member};
ghost use Rattle.serde_json.specs.View.{view, number_view, members_view};
ghost use Rattle.esto_docmodel.specs.Forests.{HasKid, Node, name as named, place};
ghost use Rattle.esto_docs.specs.Filling.{value_node, is_whole, holds_text, value_text, cells_of};

use crate::from_json::tree_of;
use esto_docmodel::Tree;
use esto_term::{List, OutOfMemory, Text, TextRow};
use serde_json::{Map, Number, Value};
use std::alloc::Global;

// Whether the number is a whole one of 64 bits.
fn is_whole(number: &Number) -> bool
    ensures { result ≡ is_whole (number_view number.now) }
{
    number.as_u64().is_some() || number.as_i64().is_some()
}

/// Whether the value holds a text: it is a string, a truth value or a whole number of 64 bits.
pub fn holds_text(value: &Value) -> bool
    ensures { result ≡ holds_text (view value.now) }
{
    match value {
        Value::Null => false,
        Value::Bool(_) => true,
        Value::Number(number) => is_whole(number),
        Value::String(_) => true,
        Value::Array(_) => false,
        Value::Object(_) => false,
    }
}

// The text that the value holds, or no text where it holds none.
fn text_of(alloc: Global, value: &Value) -> Result<Text, OutOfMemory>
    ensures { IfOk result (λ text. text ≡ value_text (view value.now)) }
{
    match tree_of(alloc, value)? {
        Tree::Value(text) => Ok(text),
        Tree::Nothing => Ok(Text::new(alloc)),
        Tree::Fields(_) => Ok(Text::new(alloc)),
        Tree::Items(_) => Ok(Text::new(alloc)),
    }
}

/// The row of the texts that values hold.
pub fn row_of(alloc: Global, values: &[&Value]) -> Result<TextRow, OutOfMemory>
    ensures { IfOk result (λ row. row ≡ cells_of values.now) }
{
    let mut row = List::new(alloc);
    'values: for value in values {
        let text = text_of(alloc, value)?;
        row.push(text)?;
    }
    Ok(row)
}

// The member of that name. The names of a map are distinct, as its iterator says.
fn member_in<'a>(members: &'a Map<String, Value>, name: &str) -> Option<&'a Value>
    ensures value { option_map (λ member. view member.now) result
        ≡ get_member name.now (members_view members.now.entries) }
    ensures ordered { IsStrictlySortedBy string_cmp (keys_of members.now.entries) }
{
    let _members = members.iter();
    members.get(name)
}

/// The member of that name, where the value is an object that has it.
pub fn member_of<'a>(value: &'a Value, name: &str) -> Option<&'a Value>
    ensures { MatchOption result
        ((found : Node) → ¬ (HasKid (value_node (view value.now)).inside (named name.now) found))
        (λ member. (found : Node)
        → HasKid (value_node (view value.now)).inside (named name.now) found
        ↔ (value_node (view member.now) ≡ found)) }
{
    match value.as_object() {
        Some(members) => member_in(members, name),
        None => None,
    }
}

/// The items of the value, where it is an array; and else none.
pub fn items_of(value: &Value) -> &[Value]
    ensures { (found : Node) → HasKid (value_node (view value.now)).inside place found
        ↔ Contains (map (λ item. value_node (view item)) result.now) found }
{
    match value.as_array() {
        Some(items) => items.as_slice(),
        None => &[],
    }
}
