//! Plans under new names.
ghost use Rattle.std.specs.Prelude.{◌≢◌, [], IfOk};
ghost use Rattle.esto_views.specs.Reading.{terms_read, AreFirstOccurrences};
ghost use Rattle.esto_views.specs.Renamed.{IsRenamedPlan};
ghost use Rattle.esto_views.specs.RenamedLaws.{RenamedIsOne, RenamingIsUndone, RenamedPlanIsOne, RenamedPlanIsRenamed};

use crate::indexed::IndexedTerms;
use crate::plan::Plan;
use crate::reading::first_occurrences;
use crate::renaming::{names_of, rename_row, rename_rows};
use esto_query::{Facts, Names};
use esto_term::{OutOfMemory, Terms};
use std::alloc::Global;

/// The plan of the rows and the head, where the terms seen are renamed, with their names.
fn plan_of_seen(
    alloc: Global,
    seen: &IndexedTerms,
    rows: &Facts,
    head: &Terms,
    names: &Names,
) -> Result<Plan, OutOfMemory>
    requires head { head.now ≢ [] }
    requires seen { AreFirstOccurrences (terms_read rows.now head.now) seen.now }
    ensures { IfOk result (λ plan. IsRenamedPlan names.now rows.now head.now plan) }
{
    let atoms = rename_rows(alloc, seen, rows)?;
    let new_head = rename_row(alloc, seen, head.items())?;
    let new_names = names_of(alloc, names, seen.items())?;
    Ok(Plan {
        atoms,
        head: new_head,
        names: new_names,
    })
}

/// The plan whose atoms are the rows over fragments, and whose head is the given one, renamed: each term that is no
/// constant becomes a variable, whose number is the place of its first occurrence among those of the others, reading the
/// rows in order and then the head, with the name that the term's variable has.
pub fn renamed_plan(
    alloc: Global,
    rows: &Facts,
    head: &Terms,
    names: &Names,
) -> Result<Plan, OutOfMemory>
    requires { head.now ≢ [] }
    ensures { IfOk result (λ plan. IsRenamedPlan names.now rows.now head.now plan) }
{
    let seen = first_occurrences(alloc, rows, head)?;
    let indexed = IndexedTerms::of(alloc, &seen)?;
    plan_of_seen(alloc, &indexed, rows, head, names)
}

/// A law: there is one query that is another under new names, and so one plan of some rows and a head. The renaming of
/// the terms can be undone.
pub fn renamed_plans_are_one()
    ensures query { RenamedIsOne }
    ensures undone { RenamingIsUndone }
    ensures one { RenamedPlanIsOne }
    ensures renamed { RenamedPlanIsRenamed }
{}
