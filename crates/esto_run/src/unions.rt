//! The run of several sets together.
ghost use Rattle.std.specs.Prelude.{◌≡◌, ◌++◌, ◌∷◌, [], List, length, map, Contains, IfOk, OnOk};
ghost use Rattle.esto_columns.specs.Interned.{Grows};
ghost use Rattle.esto_steps.specs.Rows.{IsRowOf, held_by};
ghost use Rattle.esto_semantics.specs.Queries.{ConjunctiveQuery};
ghost use Rattle.esto_run.specs.Answers.{IsAnswersText};
ghost use Rattle.esto_run.specs.Coded.{AreCodesOfAll, IsStoredRow};
ghost use Rattle.esto_run.specs.Laws.{IsAnswerOfOne};
ghost use Rattle.esto_run.specs.Opened.{AreRowsFor, HaveTexts, held_of, rows_held};
ghost use Rattle.esto_run.specs.Picks.{IsRunnable, candidate_of};
ghost use Rattle.esto_run.specs.declared.picks.Pick.{Pick};

use crate::answers::coded_answers_text;
use crate::held::FragmentRows;
use crate::picks::Pick;
use crate::run::{CodedAnswers, coded_answers};
use esto_columns::{Codes, Rows, StoredRows};
use esto_query::Query;
use esto_term::{Bytes, OutOfMemory};
use esto_views::FragmentDefs;
use std::alloc::Global;

/// Puts the answers of the pick's candidate over the stored rows at the end of the rows, as codes.
fn add_answers(
    alloc: Global,
    pick: &Pick,
    fragments: &FragmentDefs,
    stored: &[StoredRows],
    codes: &mut Codes,
    rows: &mut Rows,
) -> Result<(), OutOfMemory>
    requires runnable { IsRunnable fragments.now pick.now }
    requires arity { length pick.now.plan.now.head ≡ rows.old.arity }
    requires texts { HaveTexts codes.old stored.now }
    requires opened { AreRowsFor fragments.now (map (held_of codes.old) stored.now) }
    ensures grown { Grows codes.old codes.new }
    ensures arity { OnOk result (rows.new.arity ≡ rows.old.arity) }
    ensures rows { OnOk result ((queries : List ConjunctiveQuery)
        → AreCodesOfAll codes.old rows.old.rows
        (IsAnswerOfOne (IsStoredRow codes.old stored.now) queries)
        → AreCodesOfAll codes.new rows.new.rows
        (IsAnswerOfOne (IsStoredRow codes.old stored.now)
        (queries ++ candidate_of pick.now ∷ []))) }
{
    let own = coded_answers(alloc, pick.order, pick.plan, fragments, stored, codes)?;
    rows.add_all(alloc, &own)
}

/// The answers of the picks' candidates over the stored rows, as rows of so many codes.
fn answers_of_picks(
    alloc: Global,
    arity: usize,
    picks: &[Pick],
    fragments: &FragmentDefs,
    stored: &[StoredRows],
    codes: &mut Codes,
) -> Result<Rows, OutOfMemory>
    requires runnable { (pick : Pick) → Contains picks.now pick → IsRunnable fragments.now pick }
    requires arity { (pick : Pick) → Contains picks.now pick
        → length pick.plan.now.head ≡ arity }
    requires texts { HaveTexts codes.old stored.now }
    requires opened { AreRowsFor fragments.now (map (held_of codes.old) stored.now) }
    ensures { IfOk result (λ it. AreCodesOfAll codes.new it.rows
        (IsAnswerOfOne (IsStoredRow codes.old stored.now) (map candidate_of picks.now))) }
{
    let mut rows = Rows::new(alloc, arity)?;
    'picks: for pick in picks {
        add_answers(alloc, pick, fragments, stored, codes, &mut rows)?;
    }
    Ok(rows)
}

// The answers of the picks' candidates over the rows of the fragments, as rows of so many codes.
fn answers_of_opened(
    alloc: Global,
    arity: usize,
    picks: &[Pick],
    fragments: &FragmentDefs,
    opened: FragmentRows,
) -> Result<CodedAnswers, OutOfMemory>
    requires runnable { (pick : Pick) → Contains picks.now pick → IsRunnable fragments.now pick }
    requires arity { (pick : Pick) → Contains picks.now pick
        → length pick.plan.now.head ≡ arity }
    requires rows { AreRowsFor fragments.now opened }
    ensures { IfOk result (λ it. AreCodesOfAll it.codes it.rows.rows (IsAnswerOfOne
        (IsRowOf (held_by (rows_held opened))) (map candidate_of picks.now))) }
{
    let (codes, stored) = opened.into_parts();
    let mut codes = codes;
    let rows = answers_of_picks(alloc, arity, picks, fragments, stored.items(), &mut codes)?;
    Ok(CodedAnswers { codes, rows })
}

/// The text of the rows that are an answer of the candidate of one of the picks over the rows of the fragments, each row
/// once, in rising order, under the names of the query's head, which is as long as that of each pick's plan. It rests on the
/// rows of those fragments alone that the picks' sets use.
pub fn text_of_picks(
    alloc: Global,
    query: &Query,
    picks: &[Pick],
    fragments: &FragmentDefs,
    opened: FragmentRows,
) -> Result<Bytes, OutOfMemory>
    requires same_length { (pick : Pick) → Contains picks.now pick
        → length pick.plan.now.head ≡ length query.now.head }
    requires runnable { (pick : Pick) → Contains picks.now pick → IsRunnable fragments.now pick }
    requires rows { AreRowsFor fragments.now opened }
    ensures { IfOk result (IsAnswersText query.now (IsAnswerOfOne
        (IsRowOf (held_by (rows_held opened))) (map candidate_of picks.now))) }
{
    let answers = answers_of_opened(alloc, query.head.len(), picks, fragments, opened)?;
    coded_answers_text(alloc, query, &answers.codes, &answers.rows)
}
