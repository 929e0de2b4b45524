//! Laws of the sets that are listed in a union.
ghost use Rattle.esto_union.specs.Laws.{ListedInUnionIsOne, NoRewritingIsTold, OneHasItsListedSets, PicksAnswerUnion, PicksAreRewriting};

use esto_semantics::{
    choices_are_executable_unions, executable_unions_exist, executable_unions_map_onto_sets,
    plans_receive_unions, unions_of_one,
};
use esto_views::plans_are_sound;

/// A law: a plan has one list of the sets that are listed in a union.
pub fn listed_in_unions_are_one()
    ensures { ListedInUnionIsOne }
{
    executable_unions_map_onto_sets();
}

/// A law: let each query of a union be not satisfiable, or have a plan with the sets that are listed in the union. No union
/// of queries over fragments is an executable rewriting of the union exactly where some satisfiable query has no set.
pub fn no_union_rewriting_is_told()
    ensures { NoRewritingIsTold }
{
    plans_are_sound();
    plans_receive_unions();
    choices_are_executable_unions();
    executable_unions_exist();
}

/// A law: the candidates of listed sets, at least one for each satisfiable query of the union, are together an executable
/// rewriting of the union, so they have exactly its answers.
pub fn picks_answer_unions()
    ensures rewriting { PicksAreRewriting }
    ensures answers { PicksAnswerUnion }
{
    plans_are_sound();
    plans_receive_unions();
    choices_are_executable_unions();
}

/// A law: the sets that are listed in a union of one query are the query's listed sets.
pub fn one_query_has_its_listed_sets()
    ensures { OneHasItsListedSets }
{
    plans_are_sound();
    plans_receive_unions();
    unions_of_one();
}
