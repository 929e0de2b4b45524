//! The text that is printed of a list.
ghost use Rattle.std.specs.Prelude.{◌≡◌, ◌++◌, slice_get, IfOk, OnOk};
ghost use Rattle.esto_views.specs.Names.{nameless_of};
ghost use Rattle.esto_list.specs.Text.{atom_line, fragment_name, item_line, list_text, pick_line, plan_lines, plan_lines_with};
ghost use Rattle.esto_views.specs.Printing.{each_from, numbers_text};
ghost use Rattle.esto_term.specs.Sets.{numbers};

use crate::listing::Listed;
use esto_bits::RowBits;
use esto_query::Names;
use esto_term::{Bytes, OutOfMemory, Values};
use esto_views::{
    FragmentDefs, Plan, PlanAtom, meet_terms, put_count, put_number, put_numbers, put_terms,
};
use std::alloc::Global;

/// The variables of the plan that have no name, in the order in which they are printed first.
fn nameless_variables(alloc: Global, plan: &Plan) -> Result<Values<u64>, OutOfMemory>
    ensures { IfOk result (λ it. it ≡ nameless_of plan.now) }
{
    let mut met = Values::new(alloc);
    'atoms: for atom in plan.atoms.items() {
        meet_terms(&plan.names, &mut met, atom.terms.items())?;
    }
    meet_terms(&plan.names, &mut met, plan.head.items())?;
    Ok(met)
}

/// Puts the name of a fragment at the end, where there is one.
fn put_fragment_name(
    text: &mut Bytes,
    fragments: &FragmentDefs,
    fragment: usize,
) -> Result<(), OutOfMemory>
    ensures { OnOk result (text.new ≡ text.old
        ++ fragment_name (slice_get fragments.now fragment)) }
{
    if fragment >= fragments.len() {
        return Ok(());
    }
    text.append(fragments.item(fragment).name.bytes())
}

/// Puts the line of an atom at the end.
fn put_atom(
    alloc: Global,
    text: &mut Bytes,
    fragments: &FragmentDefs,
    names: &Names,
    nameless: &[u64],
    place: usize,
    atom: &PlanAtom,
) -> Result<(), OutOfMemory>
    ensures { OnOk result (text.new ≡ text.old
        ++ atom_line fragments.now names.now nameless.now place atom.now) }
{
    put_number(alloc, text, place as u128 + 1)?;
    text.append(b" ")?;
    put_fragment_name(text, fragments, atom.fragment)?;
    put_terms(alloc, text, names, nameless, atom.terms.items())?;
    text.append(b"\n")
}

/// Puts the lines of the atoms at the end.
fn put_atoms(
    alloc: Global,
    text: &mut Bytes,
    fragments: &FragmentDefs,
    names: &Names,
    nameless: &[u64],
    atoms: &[PlanAtom],
) -> Result<(), OutOfMemory>
    ensures { OnOk result (text.new ≡ text.old
        ++ each_from (atom_line fragments.now names.now nameless.now) 0 atoms.now) }
{
    'atoms: for (place, atom) in atoms.iter().enumerate() {
        put_atom(alloc, text, fragments, names, nameless, place, atom)?;
    }
    Ok(())
}

/// Puts the lines of the plan at the end. Its variables without a name are numbered by their places
/// in the list.
fn put_plan_lines(
    alloc: Global,
    text: &mut Bytes,
    fragments: &FragmentDefs,
    plan: &Plan,
    nameless: &[u64],
) -> Result<(), OutOfMemory>
    ensures { OnOk result (text.new ≡ text.old
        ++ plan_lines_with fragments.now plan.now nameless.now) }
{
    put_count(alloc, text, b"plan ", plan.atoms.len() as u128)?;
    put_atoms(
        alloc,
        text,
        fragments,
        &plan.names,
        nameless,
        plan.atoms.items(),
    )?;
    text.append(b"head ")?;
    put_terms(alloc, text, &plan.names, nameless, plan.head.items())?;
    text.append(b"\n")
}

/// Puts the lines of the plan at the end.
fn put_plan(
    alloc: Global,
    text: &mut Bytes,
    fragments: &FragmentDefs,
    plan: &Plan,
) -> Result<(), OutOfMemory>
    ensures { OnOk result (text.new ≡ text.old ++ plan_lines fragments.now plan.now) }
{
    let met = nameless_variables(alloc, plan)?;
    put_plan_lines(alloc, text, fragments, plan, met.items())
}

/// Puts the numbers of a set at the end, counted from 1 and between commas.
fn put_set(alloc: Global, text: &mut Bytes, set: &RowBits) -> Result<(), OutOfMemory>
    ensures { OnOk result (text.new ≡ text.old ++ numbers_text (numbers set.now)) }
{
    let numbers = set.numbers(alloc)?;
    put_numbers(alloc, text, numbers.items())
}

/// Puts the line of an item at the end.
fn put_item(alloc: Global, text: &mut Bytes, place: usize, item: &Listed) -> Result<(), OutOfMemory>
    ensures { OnOk result (text.new ≡ text.old ++ item_line place item.now) }
{
    put_number(alloc, text, place as u128 + 1)?;
    text.append(b" {")?;
    put_set(alloc, text, &item.set)?;
    text.append(b"} order ")?;
    put_numbers(alloc, text, item.order.items())?;
    put_count(alloc, text, b" weight ", item.weight)
}

/// Puts the lines of the items at the end.
fn put_items(alloc: Global, text: &mut Bytes, items: &[Listed]) -> Result<(), OutOfMemory>
    ensures { OnOk result (text.new ≡ text.old ++ each_from item_line 0 items.now) }
{
    'items: for (place, item) in items.iter().enumerate() {
        put_item(alloc, text, place, item)?;
    }
    Ok(())
}

/// Puts the line of the pick at the end.
fn put_pick(alloc: Global, text: &mut Bytes, pick: Option<usize>) -> Result<(), OutOfMemory>
    ensures { OnOk result (text.new ≡ text.old ++ pick_line pick) }
{
    match pick {
        Some(place) => put_count(alloc, text, b"pick ", place as u128 + 1),
        None => text.append(b"pick none\n"),
    }
}

/// Puts the text of a list at the end.
pub(crate) fn put_list(
    alloc: Global,
    text: &mut Bytes,
    plan: &Plan,
    fragments: &FragmentDefs,
    items: &[Listed],
    pick: Option<usize>,
) -> Result<(), OutOfMemory>
    ensures { OnOk result (text.new ≡ text.old ++ list_text fragments.now plan.now items.now pick) }
{
    put_plan(alloc, text, fragments, plan)?;
    put_count(alloc, text, b"rewritings ", items.len() as u128)?;
    put_items(alloc, text, items)?;
    put_pick(alloc, text, pick)
}
