//! Trees of documents.
ghost use Rattle.std.specs.Prelude.{◌≡◌, IfOk};
ghost use Rattle.esto_docmodel.specs.declared.tree.Tree.TheVariants as tree;

use crate::field::FieldOf;
use crate::fields;
use esto_term::{List, OutOfMemory, Replicate, Text};
use std::alloc::Global;

/// A document, or a part of one.
#[derive(Drop)]
pub enum Tree {
    /// A string, a whole number of 64 bits or a truth value, as its text.
    Value(Text),
    /// Null, or another number.
    Nothing,
    /// An object: fields, whose names rise strictly in the order of their bytes.
    Fields(fields::Fields<Tree>),
    /// An array: items, in order.
    Items(List<Tree>),
}

/// A field of a document.
pub type Field = FieldOf<Tree>;

/// Fields of documents, whose names rise strictly in the order of their bytes.
pub type Fields = fields::Fields<Tree>;

/// A list of documents or of items.
pub type Trees = List<Tree>;

// A copy of a value.
fn copied_value(alloc: Global, text: &Text) -> Result<Tree, OutOfMemory>
    ensures { IfOk result (λ it. it ≡ tree.Value text.now) }
{
    let text = text.copy(alloc)?;
    Ok(Tree::Value(text))
}

// A copy of the tree.
#[cycle(copy)]
fn copied(alloc: Global, tree: &Tree) -> Result<Tree, OutOfMemory>
    ensures { IfOk result (λ it. it ≡ tree.now) }
{
    match tree {
        Tree::Value(text) => copied_value(alloc, text),
        Tree::Nothing => Ok(Tree::Nothing),
        Tree::Fields(fields) => copied_fields(alloc, fields),
        Tree::Items(items) => copied_items(alloc, items.items()),
    }
}

// A copy of an object of these fields.
#[cycle(copy)]
fn copied_fields(alloc: Global, fields: &Fields) -> Result<Tree, OutOfMemory>
    ensures { IfOk result (λ it. it ≡ tree.Fields fields.now) }
{
    let mut own = Fields::new(alloc);
    'fields: for field in fields.items() {
        let name = field.name.copy(alloc)?;
        let tree = copied(alloc, &field.tree)?;
        own.push(FieldOf { name, tree })?;
    }
    Ok(Tree::Fields(own))
}

// A copy of an array of these items.
#[cycle(copy)]
fn copied_items(alloc: Global, items: &[Tree]) -> Result<Tree, OutOfMemory>
    ensures { IfOk result (λ it. it ≡ tree.Items items.now) }
{
    let mut own = List::new(alloc);
    'items: for item in items {
        let tree = copied(alloc, item)?;
        own.push(tree)?;
    }
    Ok(Tree::Items(own))
}

impl Replicate for Tree {
    fn copy(&self, alloc: Global) -> Result<Tree, OutOfMemory> {
        copied(alloc, self)
    }
}
