//! The run of a set of a plan's atoms over the rows of fragments.
ghost use Rattle.std.specs.Prelude.{◌≡◌, ◌↔◌, ℕ, List, Bool, length, map, Contains, IfOk};
ghost use Rattle.esto_columns.specs.Interned.{Grows};
ghost use Rattle.esto_steps.specs.Planned.{IsSafeOrder};
ghost use Rattle.esto_steps.specs.Rows.{IsRowOf, held_by};
ghost use Rattle.esto_semantics.specs.Access.{IsOrder};
ghost use Rattle.esto_semantics.specs.Listed.{candidate};
ghost use Rattle.esto_views.specs.Fragments.{patterns_of};
ghost use Rattle.esto_views.specs.Plans.{plan_query, IsPlanOver};
ghost use Rattle.esto_run.specs.Answers.{AreRising, IsAnswersText};
ghost use Rattle.esto_run.specs.Coded.{AreCodesOfAll, IsStoredRow};
ghost use Rattle.esto_run.specs.Laws.{IsAnswerOver};
ghost use Rattle.esto_run.specs.Opened.{AreRowsFor, HaveTexts, held_of, rows_held};

use crate::answers::coded_answers_text;
use crate::held::FragmentRows;
use esto_columns::{Codes, Rows, StoredRows};
use esto_exec::run_plan;
use esto_plan::{plan_of, results_are_candidate_answers, results_have_texts};
use esto_query::Query;
use esto_rows::sorted_texts;
use esto_semantics::chosen_atoms_are_named;
use esto_term::{Bytes, OutOfMemory, TextRows};
use esto_views::{FragmentDefs, Order, Plan};
use std::alloc::Global;

/// Rows of codes, with the texts of the codes.
#[derive(Drop)]
pub(crate) struct CodedAnswers {
    pub(crate) codes: Codes,
    pub(crate) rows: Rows,
}

/// The answers of the candidate of a set of the plan's atoms over the stored rows, as rows of codes. Constants get codes.
pub(crate) fn coded_answers(
    alloc: Global,
    order: &Order,
    plan: &Plan,
    fragments: &FragmentDefs,
    stored: &[StoredRows],
    codes: &mut Codes,
) -> Result<Rows, OutOfMemory>
    requires over { IsPlanOver plan.now fragments.now }
    requires order { IsSafeOrder (patterns_of fragments.now) (plan_query plan.now) order.now }
    requires texts { HaveTexts codes.old stored.now }
    requires rows { AreRowsFor fragments.now (map (held_of codes.old) stored.now) }
    ensures grown { Grows codes.old codes.new }
    ensures arity { IfOk result (λ it. it.arity ≡ length plan.now.head) }
    ensures answers { IfOk result (λ it. (set : List Bool)
        → IsOrder (patterns_of fragments.now) (plan_query plan.now).body set order.now
        → AreCodesOfAll codes.new it.rows
        (IsAnswerOver (IsStoredRow codes.old stored.now) (candidate (plan_query plan.now) set))) }
{
    results_are_candidate_answers();
    results_have_texts();
    chosen_atoms_are_named();
    let steps = plan_of(alloc, order, plan, fragments, codes)?;
    // the count is read so that the texts are known to be distinct
    let _count = codes.len();
    run_plan(alloc, &steps, stored)
}

/// The answers of the candidate of a set of the plan's atoms over the rows of the fragments, as rows of codes.
fn answers_of_set(
    alloc: Global,
    order: &Order,
    plan: &Plan,
    fragments: &FragmentDefs,
    opened: FragmentRows,
) -> Result<CodedAnswers, OutOfMemory>
    requires over { IsPlanOver plan.now fragments.now }
    requires order { IsSafeOrder (patterns_of fragments.now) (plan_query plan.now) order.now }
    requires rows { AreRowsFor fragments.now opened }
    ensures { IfOk result (λ it. (set : List Bool)
        → IsOrder (patterns_of fragments.now) (plan_query plan.now).body set order.now
        → AreCodesOfAll it.codes it.rows.rows (IsAnswerOver
        (IsRowOf (held_by (rows_held opened))) (candidate (plan_query plan.now) set))) }
{
    let (codes, stored) = opened.into_parts();
    let mut codes = codes;
    let rows = coded_answers(alloc, order, plan, fragments, stored.items(), &mut codes)?;
    Ok(CodedAnswers { codes, rows })
}

/// The answers of the candidate of a set of the plan's atoms over the rows of the fragments, each once, in rising order,
/// cell by cell by bytes. The set is given by an order of it, and is safe. They rest on the rows of those fragments alone
/// that the set uses.
pub fn rows_of_set(
    alloc: Global,
    order: &Order,
    plan: &Plan,
    fragments: &FragmentDefs,
    opened: FragmentRows,
) -> Result<TextRows, OutOfMemory>
    requires over { IsPlanOver plan.now fragments.now }
    requires order { IsSafeOrder (patterns_of fragments.now) (plan_query plan.now) order.now }
    requires rows { AreRowsFor fragments.now opened }
    ensures rows { IfOk result (λ it. (set : List Bool)
        → IsOrder (patterns_of fragments.now) (plan_query plan.now).body set order.now
        → (row : List (List ℕ)) → Contains it row ↔ IsAnswerOver
        (IsRowOf (held_by (rows_held opened))) (candidate (plan_query plan.now) set) row) }
    ensures rising { IfOk result AreRising }
{
    let answers = answers_of_set(alloc, order, plan, fragments, opened)?;
    sorted_texts(alloc, &answers.rows, &answers.codes)
}

/// The text of the answers of the candidate of a set of the plan's atoms over the rows of the fragments, each once and
/// cell by cell by bytes, under the names of the query's head, which is as long as the plan's. The set is given by an
/// order of it, and is safe.
pub fn run_text(
    alloc: Global,
    query: &Query,
    plan: &Plan,
    order: &Order,
    fragments: &FragmentDefs,
    opened: FragmentRows,
) -> Result<Bytes, OutOfMemory>
    requires same_length { length plan.now.head ≡ length query.now.head }
    requires over { IsPlanOver plan.now fragments.now }
    requires order { IsSafeOrder (patterns_of fragments.now) (plan_query plan.now) order.now }
    requires rows { AreRowsFor fragments.now opened }
    ensures { IfOk result (λ text. (set : List Bool)
        → IsOrder (patterns_of fragments.now) (plan_query plan.now).body set order.now
        → IsAnswersText query.now (IsAnswerOver (IsRowOf (held_by (rows_held opened)))
        (candidate (plan_query plan.now) set)) text) }
{
    let answers = answers_of_set(alloc, order, plan, fragments, opened)?;
    coded_answers_text(alloc, query, &answers.codes, &answers.rows)
}
