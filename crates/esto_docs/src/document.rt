//! The document that a layout writes for a row.
ghost use Rattle.std.specs.Prelude.{◌≡◌, [], ◌∷◌, IfOk, OnOk, string_bytes, slice_index_or};
ghost use Rattle.serde_json.specs.Data.{put};
ghost use Rattle.serde_json.specs.View.{view, members_view};
ghost use Rattle.esto_docmodel.specs.Shapes.{entries_of};
ghost use Rattle.esto_docmodel.specs.declared.pattern.Step.TheVariants as step;
ghost use Rattle.esto_docs.specs.Rows.{text_in};
ghost use Rattle.esto_docs.specs.Documents.{path_data, begins_with_field, first_name, later_steps, document, members, first_data, step_data};

use esto_docmodel::{Entry, Step, path_of};
use esto_term::{OutOfMemory, Term, Text, push};
use serde_json::{Map, Value};
use std::alloc::Global;

// Rust's own text of a text.
fn string_of(alloc: Global, text: &str) -> Result<String, OutOfMemory>
    ensures { IfOk result (λ it. string_bytes it ≡ text.now) }
{
    match String::from_str(alloc, text) {
        Ok(text) => Ok(text),
        Err(_) => Err(OutOfMemory),
    }
}

// The cell of a column, or no text where the row has none.
fn cell_at(row: &[Text], column: u64) -> &str
    ensures { result.now ≡ slice_index_or row.now column [] }
{
    match row.get(column as usize) {
        Some(cell) => cell.as_str(),
        None => "",
    }
}

// The text of a term in a row.
fn text_in<'a>(row: &'a [Text], term: &'a Term) -> &'a str
    ensures { result.now ≡ text_in row.now term.now }
{
    match term {
        Term::Const(text) => text.as_str(),
        Term::Plain(column) => cell_at(row, *column),
        Term::Made(_, _, _) => "",
    }
}

// Puts a member in place of what its name had.
fn put_member(
    members: &mut Map<String, Value>,
    name: String,
    value: Value,
) -> Result<(), OutOfMemory>
    ensures { OnOk result (members_view members.new.entries
        ≡ put (string_bytes name) (view value) (members_view members.old.entries)) }
{
    match members.insert(name, value) {
        Ok(_) => Ok(()),
        Err(_) => Err(OutOfMemory),
    }
}

// The same, where the name is copied.
fn put_named(
    alloc: Global,
    members: &mut Map<String, Value>,
    name: &str,
    value: Value,
) -> Result<(), OutOfMemory>
    ensures { OnOk result (members_view members.new.entries
        ≡ put name.now (view value) (members_view members.old.entries)) }
{
    let own = string_of(alloc, name)?;
    put_member(members, own, value)
}

// The object of one field.
fn object_of(alloc: Global, name: &Text, value: Value) -> Result<Value, OutOfMemory>
    ensures { IfOk result (λ it. view it ≡ step_data (step.Name name.now) (view value)) }
{
    let mut members = Map::new(alloc);
    put_named(alloc, &mut members, name.as_str(), value)?;
    Ok(Value::Object(members))
}

// The array of one item.
fn array_of(alloc: Global, value: Value) -> Result<Value, OutOfMemory>
    ensures { IfOk result (λ it. view it ≡ step_data step.Item (view value)) }
{
    let mut items = Vec::new(alloc);
    push(&mut items, value)?;
    Ok(Value::Array(items))
}

// What a step writes round a value.
fn wrap(alloc: Global, step: &Step, value: Value) -> Result<Value, OutOfMemory>
    ensures { IfOk result (λ it. view it ≡ step_data step.now (view value)) }
{
    match step {
        Step::Name(name) => object_of(alloc, name, value),
        Step::Item => array_of(alloc, value),
        Step::Below => Ok(value),
    }
}

// What the steps of a path write round a value.
fn wrap_all(alloc: Global, steps: &[Step], value: Value) -> Result<Value, OutOfMemory>
    ensures { IfOk result (λ it. view it ≡ path_data steps.now (view value)) }
{
    let mut value = value;
    let mut left = steps.len();
    'steps: while left > 0 {
        left -= 1;
        value = wrap(alloc, &steps[left], value)?;
    }
    Ok(value)
}

// Whether a path begins with a field.
fn begins_with_field(path: &[Step]) -> bool
    ensures { result ≡ begins_with_field path.now }
{
    match path.first() {
        Some(Step::Name(_)) => true,
        _ => false,
    }
}

// The name of the field with which a path begins, or no text.
fn first_name(path: &[Step]) -> &str
    ensures { result.now ≡ first_name path.now }
{
    match path.first() {
        Some(Step::Name(name)) => name.as_str(),
        _ => "",
    }
}

// The steps after the first.
fn later_steps(path: &[Step]) -> &[Step]
    ensures { result.now ≡ later_steps path.now }
{
    match path.split_first() {
        Some((_, rest)) => rest,
        None => path,
    }
}

// What an entry writes after its first step.
#[cycle(write)]
fn entry_value(alloc: Global, entry: &Entry, row: &[Text]) -> Result<Value, OutOfMemory>
    ensures { IfOk result (λ value.
        view value ≡ first_data (entries_of (entry.now ∷ [])) row.now) }
{
    match entry {
        Entry::Value(path, term) => {
            let cell = Value::String(string_of(alloc, text_in(row, term))?);
            wrap_all(alloc, later_steps(path.items()), cell)
        }
        Entry::Group(path, entries) => {
            let inner = document_of(alloc, entries.items(), row)?;
            wrap_all(alloc, later_steps(path.items()), inner)
        }
    }
}

// What the entries of a group write as the fields of an object.
#[cycle(write)]
fn members_of(
    alloc: Global,
    entries: &[Entry],
    row: &[Text],
) -> Result<Map<String, Value>, OutOfMemory>
    ensures { IfOk result (λ it.
        members_view it.entries ≡ members (entries_of entries.now) row.now) }
{
    let mut members = Map::new(alloc);
    let mut left = entries.len();
    'entries: while left > 0 {
        left -= 1;
        let entry = &entries[left];
        let value = entry_value(alloc, entry, row)?;
        put_named(alloc, &mut members, first_name(path_of(entry)), value)?;
    }
    Ok(members)
}

/// The document that a layout writes for a row: a column is the cell as a string, a path or a group that begins with a
/// field gives an object, and one that begins with an item gives an array of one item.
#[cycle(write)]
pub fn document_of(alloc: Global, entries: &[Entry], row: &[Text]) -> Result<Value, OutOfMemory>
    ensures { IfOk result (λ value. view value ≡ document (entries_of entries.now) row.now) }
{
    let Some(first) = entries.first() else {
        return Ok(Value::Object(Map::new(alloc)));
    };
    if begins_with_field(path_of(first)) {
        return Ok(Value::Object(members_of(alloc, entries, row)?));
    }
    let value = entry_value(alloc, first, row)?;
    array_of(alloc, value)
}
