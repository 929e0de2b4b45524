//! The rows of all views.
ghost use Rattle.std.specs.Prelude.{◌≡◌, ◌++◌, List, map, IfOk, OnOk};
ghost use Rattle.esto_term.specs.declared.term.Term.{Term};
ghost use Rattle.esto_query.specs.Making.{query_of};
ghost use Rattle.esto_views.specs.Fragments.{views_of};
ghost use Rattle.esto_universal.specs.Rows.{AreRows, AreRowsOf, over};

use esto_query::{Atom, Facts};
use esto_term::{List, OutOfMemory, Replicate, TermRows};
use esto_views::{FragmentDef, FragmentDefs, rows_of_view};
use std::alloc::Global;

/// Adds the rows, as rows of the fragment of that number.
fn push_rows(
    alloc: Global,
    number: usize,
    rows: &TermRows,
    facts: &mut Facts,
) -> Result<(), OutOfMemory>
    ensures { OnOk result (facts.new ≡ facts.old ++ map (over number) rows.now) }
{
    'rows: for row in rows.items() {
        let terms = row.copy(alloc)?;
        facts.push(Atom {
            relation: number,
            terms,
        })?;
    }
    Ok(())
}

/// Adds the rows of the view of the fragment of that number.
fn push_view_rows(
    alloc: Global,
    number: usize,
    fragment: &FragmentDef,
    facts: &Facts,
    all: &mut Facts,
) -> Result<(), OutOfMemory>
    ensures { OnOk result ((rows : List (List Term))
        × AreRowsOf (query_of fragment.now.view) facts.now rows
        × (all.new ≡ all.old ++ map (over number) rows)) }
{
    let rows = rows_of_view(alloc, fragment, facts)?;
    push_rows(alloc, number, &rows, all)
}

/// The rows of all views over the facts: for each fragment in order, the rows of its view, in the order of terms.
pub fn view_rows(
    alloc: Global,
    facts: &Facts,
    fragments: &FragmentDefs,
) -> Result<Facts, OutOfMemory>
    ensures { IfOk result (λ rows. AreRows (views_of fragments.now) facts.now rows) }
{
    let mut all = List::new(alloc);
    'fragments: for (number, fragment) in fragments.items().iter().enumerate() {
        push_view_rows(alloc, number, fragment, facts, &mut all)?;
    }
    Ok(all)
}
