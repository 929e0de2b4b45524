//! Whether a layout has a place in a value, whatever the texts there.
ghost use Rattle.std.specs.Prelude.{◌∷◌, [], map, Contains};
ghost use Rattle.serde_json.specs.View.{view};
ghost use Rattle.esto_docmodel.specs.Forests.{Node};
ghost use Rattle.esto_docmodel.specs.Shapes.{entries_of};
ghost use Rattle.esto_docs.specs.Filling.{value_node, with_path, RulesOut};

use crate::holding::{holds_text, items_of, member_of};
use esto_docmodel::{Entry, Step, path_of};
use serde_json::Value;

/// Whether each of the entries has a place in the value.
#[cycle(can_match)]
pub fn can_match(entries: &[Entry], value: &Value) -> bool
    ensures { RulesOut result (entries_of entries.now) (value_node (view value.now)) }
{
    let Some((entry, rest)) = entries.split_first() else {
        return true;
    };
    if !can_follow(entry, path_of(entry), value) {
        return false;
    }
    can_match(rest, value)
}

// Whether the entry has a place in the value, by what is left of its path.
#[cycle(can_match)]
fn can_follow(entry: &Entry, path: &[Step], value: &Value) -> bool
    ensures { RulesOut result (with_path path.now (entries_of (entry.now ∷ [])))
        (value_node (view value.now)) }
{
    let Some((step, rest)) = path.split_first() else {
        return can_reach(entry, value);
    };
    match step {
        Step::Name(name) => match member_of(value, name.as_str()) {
            Some(member) => can_follow(entry, rest, member),
            None => false,
        },
        Step::Item => can_follow_items(entry, rest, items_of(value)),
        Step::Below => true,
    }
}

// Whether the entry has a place in one of the items.
#[cycle(can_match)]
fn can_follow_items(entry: &Entry, path: &[Step], items: &[Value]) -> bool
    ensures { (node : Node) → Contains (map (λ item. value_node (view item)) items.now) node
        → RulesOut result (with_path path.now (entries_of (entry.now ∷ []))) node }
{
    'items: for item in items {
        if can_follow(entry, path, item) {
            return true;
        }
    }
    false
}

// Whether the entry has a place in the value, where its path ends.
#[cycle(can_match)]
fn can_reach(entry: &Entry, value: &Value) -> bool
    ensures { RulesOut result (with_path [] (entries_of (entry.now ∷ [])))
        (value_node (view value.now)) }
{
    match entry {
        Entry::Value(_, _) => holds_text(value),
        Entry::Group(_, inner) => can_match(inner.items(), value),
    }
}
