//! Laws of outcomes.
ghost use Rattle.esto_top.specs.DataLaws.{FillsAreExact};
ghost use Rattle.esto_top.specs.CertificateOutcomes.{OutcomesAreExplained, OutcomesAreVerified, OutcomesOfExplainAreAccepted};
ghost use Rattle.esto_top.specs.DataOutcomes.{OutcomesAgree, OutcomesAreAnswers, OutcomesAreAudits, OutcomesAreUnionAnswers};
ghost use Rattle.esto_top.specs.Determined.{AskedBeginsFetches, CoursesAreOne, FetchesAreDetermined, OutcomesAreDetermined};
ghost use Rattle.esto_top.specs.Existing.{FetchesExist, OutcomesAreWhereFilesAre, OutcomesExist, OutcomesHaveFiles, OutcomesLackNone};
ghost use Rattle.esto_top.specs.Headline.{OutcomesAreLists, OutcomesAreRefusals};
ghost use Rattle.esto_top.specs.Laws.{ListingLaws, OpeningLaws, OutcomeLaws, PlanningLaws, StepLaws};
ghost use Rattle.esto_top.specs.ReasoningOutcomes.{OutcomesAreContainments, OutcomesAreMinimised};
ghost use Rattle.esto_top.specs.Runs.{OutcomesAreRuns};
ghost use Rattle.esto_top.specs.Unions.{OutcomesAreUnionLists, OutcomesAreUnionRuns, UnionOutcomesAgree};

use crate::certificate_laws::{
    explain_has_one_status, explain_says_certificates, verify_checks_certificates,
    verify_outcomes_are_one, verify_says_verdicts,
};
use crate::data_laws::{audited_datasets_answer, data_outcomes_are_exact, data_outcomes_are_one};
use crate::ends::{
    cases_have_summaries, commands_come_to_an_end, files_are_opened, plans_have_lists,
    queries_have_plans_or_clashes, sets_are_run, unions_are_listed_and_run,
};
use crate::reasoning_laws::{reasoning_outcomes_are_exact, reasoning_outcomes_are_one};
use esto_backchase::listed_sets_cover_rewritings;
use esto_bench::summaries_are_one;
use esto_opening::{opened_unions_are_queries, openings_are_one};
use esto_rewriting::{
    chosen_items_are_listed, planned_plans_are_universal, planned_plans_have_their_form,
    plans_and_lists_are_moved, plans_and_lists_are_one, union_lists_are_exact,
    union_lists_are_moved, union_lists_are_one, union_runs_are_exact, union_runs_are_moved,
    union_runs_are_one,
};
use esto_run::{
    fragment_files_are_one, readable_fragments_are_opened, rewritings_answer_queries,
    rising_rows_are_one, used_fragments_are_one,
};
use esto_semantics::{chosen_atoms_are_named, listed_sets_are_minimal, picks_exist};

// The laws of what is opened, together.
fn openings_hold()
    ensures { OpeningLaws }
{
    openings_are_one();
    fragment_files_are_one();
    opened_unions_are_queries();
}

// The laws of plans and lists over catalogues that say the same, together.
fn plannings_hold()
    ensures { PlanningLaws }
{
    chosen_items_are_listed();
    plans_and_lists_are_moved();
    plans_and_lists_are_one();
}

// The laws of plans and lists, and of printed plans and listed sets, together.
fn listings_hold()
    ensures { ListingLaws }
{
    plannings_hold();
    planned_plans_are_universal();
    planned_plans_have_their_form();
    listed_sets_cover_rewritings();
    listed_sets_are_minimal();
    picks_exist();
}

// A law: where the files say a catalogue and a query over it, each outcome of `list` prints a universal plan of the query
// and exactly its listed sets, which every executable rewriting maps onto a superset of, or refuses the query. It prints
// where the query is satisfiable, and refuses exactly where it is not.
fn lists_are_exact()
    ensures lists { OutcomesAreLists }
    ensures refusals { OutcomesAreRefusals }
{
    openings_hold();
    listings_hold();
}

// A law: where the files say a catalogue and a query over it, each outcome of `run` prints exactly the answers of the
// chosen listed set over the rows of the files, which are the query's over each database that they are the view rows of,
// exactly where such a set can be run; or it tells that the query is unsatisfiable, that it has no executable rewriting, or
// that the number is above its list, exactly where it is so.
fn runs_are_exact()
    ensures { OutcomesAreRuns }
{
    openings_hold();
    listings_hold();
    readable_fragments_are_opened();
    rewritings_answer_queries();
    chosen_atoms_are_named();
}

// A law: where the files say a catalogue and a union of two or more queries over it, each outcome of `list` prints the
// union's members, each a query's printed plan with exactly the sets listed in the union, or the clash of its run; or it
// refuses the union, exactly where none of its queries is satisfiable.
fn union_lists_hold()
    ensures { OutcomesAreUnionLists }
{
    openings_hold();
    union_lists_are_moved();
    union_lists_are_exact();
}

// A law: there each outcome of `run` prints exactly the rows of the sets that are chosen over the files, which are the
// union's over each database that they are the view rows of, exactly where the union can be run; or it tells the clash of
// its first query's run, that it has no executable rewriting, or that the number is above the least length of its lists,
// exactly where it is so.
fn union_runs_hold()
    ensures { OutcomesAreUnionRuns }
{
    openings_hold();
    union_runs_are_moved();
    union_runs_are_exact();
}

// A law: the course of each command line over the same files is one, whichever certificate is
// written.
fn courses_are_one()
    ensures { CoursesAreOne }
{
    openings_hold();
    plannings_hold();
    used_fragments_are_one();
    rising_rows_are_one();
    union_lists_are_one();
    union_runs_are_one();
    summaries_are_one();
    data_outcomes_are_one();
    reasoning_outcomes_are_one();
    verify_outcomes_are_one();
    explain_has_one_status();
}

/// A law: the same words over the same files have at most one status, and at most one text but where the words ask for a
/// certificate and the status is Done. They fetch one sequence of names, which whatever was asked for on the way begins.
pub fn outcomes_are_determined()
    ensures outcomes { OutcomesAreDetermined }
    ensures fetches { FetchesAreDetermined }
    ensures asked { AskedBeginsFetches }
{
    courses_are_one();
}

// The laws of the steps of commands, together.
fn steps_hold()
    ensures { StepLaws }
{
    files_are_opened();
    opened_unions_are_queries();
    queries_have_plans_or_clashes();
    plans_have_lists();
    chosen_items_are_listed();
    sets_are_run();
    unions_are_listed_and_run();
    commands_come_to_an_end();
    cases_have_summaries();
}

/// A law: whatever the words are, also those outside the grammar, they have an outcome over whatever files, or they ask
/// for a file that is not there.
pub fn outcomes_exist()
    ensures { OutcomesExist }
{
    steps_hold();
}

/// A law: whatever the words are, they fetch a sequence of names. Each file that they fetch is there where they have an
/// outcome, so that they have none where they ask for a file that is not there. They have one exactly where each is
/// there.
pub fn outcomes_are_where_files_are()
    ensures fetches { FetchesExist }
    ensures files { OutcomesHaveFiles }
    ensures lacks { OutcomesLackNone }
    ensures exactly { OutcomesAreWhereFilesAre }
{
    outcomes_exist();
    outcomes_are_determined();
}

// A law: where the files say what a command on data needs, what `fill` does is the file of the fragment's view rows, each
// outcome of `answer` is the answers of the query, or of the union, over the datasets' files, and of `audit` that all agrees,
// or the first cause that there is.
fn data_outcomes_hold()
    ensures fills { FillsAreExact }
    ensures answers { OutcomesAreAnswers }
    ensures unions { OutcomesAreUnionAnswers }
    ensures audits { OutcomesAreAudits }
{
    data_outcomes_are_exact();
}

// A law: where the files say a catalogue and the queries over it, each outcome of `contains` tells whether the left query is
// contained in the right one, or that their heads differ in length; and each of `minimise` prints the query's minimal
// equivalent parts, or tells that it is unsatisfiable.
fn reasoning_outcomes_hold()
    ensures contains { OutcomesAreContainments }
    ensures minimise { OutcomesAreMinimised }
{
    reasoning_outcomes_are_exact();
}

// A law: where the files say a catalogue and a query over it, each outcome of `explain` is a certificate that is accepted for
// the listed set of the number, which is safe and whose candidate is contained in the query; or it refuses the query, or the
// number, exactly where it has to. Each outcome of `verify` refuses the query exactly where it has to; else it refuses the
// first number above how many atoms the plan has, or tells the verdict on the certificate for the set that the numbers
// name, which is accepted only where it derives a match of the query from the set's atoms alone.
fn certificate_outcomes_hold()
    ensures explain { OutcomesAreExplained }
    ensures verify { OutcomesAreVerified }
{
    listings_hold();
    explain_says_certificates();
    verify_checks_certificates();
    verify_says_verdicts();
}

/// The laws of outcomes, together.
pub(crate) fn outcomes_hold()
    ensures { OutcomeLaws }
{
    lists_are_exact();
    runs_are_exact();
    union_lists_hold();
    union_runs_hold();
    outcomes_are_determined();
    outcomes_are_where_files_are();
    data_outcomes_hold();
    reasoning_outcomes_hold();
    certificate_outcomes_hold();
}

/// A law: what `explain` puts for a set of the list is accepted by `verify` for the numbers of the set's atoms, wherever it is
/// a certificate's file within the limit, over files that say the same catalogue and query.
pub fn explained_sets_are_accepted()
    ensures { OutcomesOfExplainAreAccepted }
{
    certificate_outcomes_hold();
}

/// A law: where the files say one query, or a union of two or more, and `audit` and `run` are Done over them, each outcome of
/// `answer` is Done with the text of `run`.
pub fn answers_agree_with_runs()
    ensures one { OutcomesAgree }
    ensures union { UnionOutcomesAgree }
{
    runs_are_exact();
    union_runs_hold();
    audited_datasets_answer();
    rising_rows_are_one();
}
