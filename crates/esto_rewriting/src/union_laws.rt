//! Laws of members and lists of unions.
ghost use Rattle.esto_rewriting.specs.UnionLaws.{EmptyListsAreTold, MembersAreCores, MembersAreMoved};
ghost use Rattle.esto_rewriting.specs.UnionLaws.{MembersAreOne, MembersAreUniversal, MembersCoverUnions};
ghost use Rattle.esto_rewriting.specs.UnionLaws.{MembersTellSatisfiable, UnionListsAreExact};
ghost use Rattle.esto_rewriting.specs.UnionLaws.{UnionListsAreMoved, UnionListsAreOne};
ghost use Rattle.esto_rewriting.specs.RunLaws.{ChosenAreRewriting, RunsAnswerUnions};
ghost use Rattle.esto_rewriting.specs.RunLaws.{UnionRunsAreMoved, UnionRunsAreOne};
ghost use Rattle.esto_rewriting.specs.RunExact.{UnionRunsAreExact};

use crate::planned_laws::{
    items_and_texts_are_one, planned_plans_are_universal, planned_plans_have_their_form,
    plans_and_lists_are_moved, plans_and_lists_are_one,
};
use esto_run::{
    fragment_files_are_one, readable_fragments_are_opened, rising_rows_are_one,
    unions_answer_over_files, used_by_all_are_one,
};
use esto_semantics::{
    choices_are_executable_unions, executable_unions_exist, executable_unions_map_onto_sets,
    plans_receive_unions,
};
use esto_union::picks_answer_unions;

/// A law: over catalogues that say the same, unions of the same queries have the same members.
pub fn members_are_one()
    ensures { MembersAreOne }
{
    plans_and_lists_are_one();
    items_and_texts_are_one();
    executable_unions_map_onto_sets();
}

/// A law: the members of a union have plans exactly for its satisfiable queries, and these are universal; cored ones are the
/// only cores. Each executable rewriting of the union has, for each of these plans, a query that maps onto a set of the
/// plan's atoms that has a listed set within it; and there is none exactly where some plan has no listed set.
pub fn members_tell_rewritings()
    ensures satisfiable { MembersTellSatisfiable }
    ensures universal { MembersAreUniversal }
    ensures cored { MembersAreCores }
    ensures complete { MembersCoverUnions }
    ensures empty { EmptyListsAreTold }
{
    planned_plans_are_universal();
    planned_plans_have_their_form();
    plans_receive_unions();
    executable_unions_map_onto_sets();
    executable_unions_exist();
    choices_are_executable_unions();
}

/// A law: over catalogues that say the same, what `list` prints of unions of the same queries is one text, or one refusal.
pub fn union_lists_are_one()
    ensures { UnionListsAreOne }
{
    members_are_one();
    items_and_texts_are_one();
}

/// A law: members of a union, and what `list` prints of them or with what it refuses the union, over one of two catalogues
/// that say the same, are ones of the same queries over the other.
pub fn union_lists_are_moved()
    ensures members { MembersAreMoved }
    ensures lists { UnionListsAreMoved }
{
    plans_and_lists_are_moved();
    items_and_texts_are_one();
}

/// A law: `list` prints the members of a union exactly where one of its queries is satisfiable, and else refuses it, with
/// the clash of the first query's run.
pub fn union_lists_are_exact()
    ensures { UnionListsAreExact }
{
    members_tell_rewritings();
}

/// A law: the candidates of the chosen sets of a union's members are an executable rewriting of the union. For each database
/// that meets the rules, and whose view rows are the rows of the files for the fragments that they use, their rows over the
/// files are exactly the union's answers.
pub fn runs_answer_unions()
    ensures rewriting { ChosenAreRewriting }
    ensures answers { RunsAnswerUnions }
{
    planned_plans_have_their_form();
    planned_plans_are_universal();
    picks_answer_unions();
    unions_answer_over_files();
}

/// A law: what `run` answers to a union over one of two catalogues that say the same it may answer to the same queries over
/// the other.
pub fn union_runs_are_moved()
    ensures { UnionRunsAreMoved }
{
    plans_and_lists_are_moved();
    fragment_files_are_one();
}

/// A law: over catalogues that say the same, `run` answers to unions of the same queries with one reply, or one refusal.
pub fn union_runs_are_one()
    ensures { UnionRunsAreOne }
{
    members_are_one();
    plans_and_lists_are_one();
    used_by_all_are_one();
    fragment_files_are_one();
    rising_rows_are_one();
}

/// A law: over files that are told, `run` prints the run of the chosen sets of a union exactly where it can be run, and this
/// is exactly the union's answers, for each database of which the files hold the view rows; it replies with the clash of the
/// first query's run exactly where no query is satisfiable; and it refuses with `NoRewriting` exactly where the union has no
/// executable rewriting, and with `NoSuchNumber` exactly where no list is empty and the number is above their least length.
pub fn union_runs_are_exact()
    ensures { UnionRunsAreExact }
{
    members_are_one();
    members_tell_rewritings();
    runs_answer_unions();
    plans_and_lists_are_one();
    readable_fragments_are_opened();
}
