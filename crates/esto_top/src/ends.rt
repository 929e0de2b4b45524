//! Laws of steps that come to an end.
ghost use Rattle.esto_top.specs.Steps.{AnswersEnd, AuditsEnd, CasesHaveSummaries, CataloguesOpen, ContainmentsEnd};
ghost use Rattle.esto_top.specs.Steps.{ExplanationsEnd, FillsEnd, ItemsAreChosen, MinimisationsEnd, PlansHaveLists, PlansHaveTexts, QueriesArePlanned};
ghost use Rattle.esto_top.specs.Steps.{QueriesHaveEnds, QueriesOpen, SetsHaveRows, SetsOpen, SetsUseFragments, UnionsAreListed};
ghost use Rattle.esto_top.specs.Steps.{UnionsAreRun, UnionsOpen, VerificationsEnd};

use crate::below::{bench_laws_hold, laws_below_hold, reading_laws_hold, reasoning_laws_hold};
use esto_chase_laws::rules_are_decided;
use esto_rewriting::{chosen_items_are_listed, sets_have_certificates};
use esto_semantics::databases_stand_for_facts;

/// A law: the file of a catalogue, and over a catalogue the file of a query or of a union of queries, is opened, or it is told
/// why it is not, or it is not there.
pub fn files_are_opened()
    ensures catalogue { CataloguesOpen }
    ensures query { QueriesOpen }
    ensures union { UnionsOpen }
{
    reading_laws_hold();
}

/// A law: a query over a catalogue has a printed plan, or the clash of its run, with which it is refused where a plan is
/// asked for.
pub fn queries_have_plans_or_clashes()
    ensures plans { QueriesArePlanned }
    ensures ends { QueriesHaveEnds }
{
    laws_below_hold();
}

/// A law: a printed plan has its list, and the list its text. Of a list an item is the pick, or has the number that is asked
/// for, or it is told that there is none.
pub fn plans_have_lists()
    ensures list { PlansHaveLists }
    ensures text { PlansHaveTexts }
    ensures chosen { ItemsAreChosen }
{
    laws_below_hold();
}

/// A law: a set of a plan's atoms uses some of the fragments. The files of those that a listed set uses are opened, or it is
/// told why they are not, or one is not there. Where they are opened, the answers of the set over their rows have a text.
pub fn sets_are_run()
    ensures fragments { SetsUseFragments }
    ensures opened { SetsOpen }
    ensures rows { SetsHaveRows }
{
    laws_below_hold();
}

/// A law: a union of queries has the text of its list, or it is refused with a clash; and it is run, or it is told why it is
/// not, or a file of a fragment is not there.
pub fn unions_are_listed_and_run()
    ensures list { UnionsAreListed }
    ensures run { UnionsAreRun }
{
    laws_below_hold();
}

/// A law: over whatever files, `answer`, `fill`, `audit`, `contains`, `minimise`, `explain` and `verify` come to an end, or ask
/// for a file that is not there.
pub fn commands_come_to_an_end()
    ensures answer { AnswersEnd }
    ensures fill { FillsEnd }
    ensures audit { AuditsEnd }
    ensures contains { ContainmentsEnd }
    ensures minimise { MinimisationsEnd }
    ensures verify { VerificationsEnd }
    ensures explain { ExplanationsEnd }
{
    reading_laws_hold();
    laws_below_hold();
    reasoning_laws_hold();
    chosen_items_are_listed();
    sets_have_certificates();
    rules_are_decided();
    databases_stand_for_facts();
}

/// A law: the made case of each size above 0 has a summary.
pub fn cases_have_summaries()
    ensures { CasesHaveSummaries }
{
    laws_below_hold();
    bench_laws_hold();
}
