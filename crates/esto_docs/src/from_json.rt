//! The tree of a JSON value.
ghost use Rattle.std.specs.Prelude.{◌≡◌, ◌++◌, ◌∷◌, [], IfOk, OnOk, decimal};
ghost use Rattle.std.specs.Fmt.{signed_decimal};
ghost use Rattle.serde_json.specs.View.{view, number_view, items_view, members_view};
ghost use Rattle.esto_docmodel.specs.Names.{Rise};
ghost use Rattle.esto_docs.specs.Trees.{field_of, number_tree, tree_of, trees_of, fields_of};
ghost use Rattle.esto_docmodel.specs.declared.tree.Tree.TheVariants as variants;

use esto_docmodel::{Field, Fields, Tree, Trees};
use esto_term::{List, OutOfMemory, Text};
use serde_json::{Map, Number, Value};
use std::alloc::Global;

// The tree of a text.
fn value_of(alloc: Global, text: &str) -> Result<Tree, OutOfMemory>
    ensures { IfOk result (λ tree. tree ≡ variants.Value text.now) }
{
    Ok(Tree::Value(Text::from_str(alloc, text)?))
}

// The tree of an unsigned number.
fn unsigned_of(alloc: Global, n: u64) -> Result<Tree, OutOfMemory>
    ensures { IfOk result (λ tree. tree ≡ variants.Value (decimal n)) }
{
    let digits = format!(in alloc; "{n}")?;
    value_of(alloc, digits.as_str())
}

// The tree of a signed number.
fn signed_of(alloc: Global, n: i64) -> Result<Tree, OutOfMemory>
    ensures { IfOk result (λ tree. tree ≡ variants.Value (signed_decimal n)) }
{
    let digits = format!(in alloc; "{n}")?;
    value_of(alloc, digits.as_str())
}

// The tree of a number.
fn number_of(alloc: Global, number: &Number) -> Result<Tree, OutOfMemory>
    ensures { IfOk result (λ tree. tree ≡ number_tree (number_view number.now)) }
{
    if let Some(n) = number.as_u64() {
        return unsigned_of(alloc, n);
    }
    if let Some(n) = number.as_i64() {
        return signed_of(alloc, n);
    }
    Ok(Tree::Nothing)
}

// Puts a field at the end, whose name is greater than those before.
fn push_field(alloc: Global, fields: &mut Fields, name: &str, tree: Tree) -> Result<(), OutOfMemory>
    requires { Rise (fields.old ++ field_of name.now tree ∷ []) }
    ensures { OnOk result (fields.new ≡ fields.old ++ field_of name.now tree ∷ []) }
{
    let name = Text::from_str(alloc, name)?;
    fields.push(Field { name, tree })
}

/// The tree of a JSON value.
#[cycle(trees)]
pub fn tree_of(alloc: Global, value: &Value) -> Result<Tree, OutOfMemory>
    ensures { IfOk result (λ tree. tree ≡ tree_of (view value.now)) }
{
    match value {
        Value::Null => Ok(Tree::Nothing),
        Value::Bool(true) => value_of(alloc, "true"),
        Value::Bool(false) => value_of(alloc, "false"),
        Value::Number(number) => number_of(alloc, number),
        Value::String(text) => value_of(alloc, text.as_str()),
        Value::Array(items) => Ok(Tree::Items(trees_of(alloc, items)?)),
        Value::Object(members) => Ok(Tree::Fields(fields_of(alloc, members)?)),
    }
}

/// The trees of JSON values.
#[cycle(trees)]
pub fn trees_of(alloc: Global, items: &Vec<Value>) -> Result<Trees, OutOfMemory>
    ensures { IfOk result (λ trees. trees ≡ trees_of (items_view items.now.items)) }
{
    let mut trees = List::new(alloc);
    'items: for item in items {
        let tree = tree_of(alloc, item)?;
        trees.push(tree)?;
    }
    Ok(trees)
}

// The fields of members, whose names rise.
#[cycle(trees)]
fn fields_of(alloc: Global, members: &Map<String, Value>) -> Result<Fields, OutOfMemory>
    ensures { IfOk result (λ fields. fields ≡ fields_of (members_view members.now.entries)) }
{
    let mut fields = Fields::new(alloc);
    'members: for (name, value) in members.iter() {
        let tree = tree_of(alloc, value)?;
        push_field(alloc, &mut fields, name.as_str(), tree)?;
    }
    Ok(fields)
}
