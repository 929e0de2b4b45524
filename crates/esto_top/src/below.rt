//! Laws of the crates below, gathered.
ghost use Rattle.esto_top.specs.LawsBelow.{BelowLaws, BenchLaws, ChaseLaws, KeptLaws, ListLaws, ReadingLaws, ReasoningLaws};

use esto_chase_laws::{
    clashes_receive_nothing, finished_runs_decide, heads_go_along, queries_have_starts,
    runs_reach_an_end, states_are_universal,
};
use esto_constraint::{ranks_rise, rules_are_sound};
use esto_input_laws::{catalogues_are_total, files_are_total, readings_are_total};
use esto_mapping::catalogues_are_sound;
use esto_query::queries_are_sound;
use esto_rewriting::{planned_plans_are_universal, planned_plans_have_their_form};
use esto_run::readable_fragments_are_opened;
use esto_semantics::{
    an_expansion_means_the_same, candidates_contain_the_query, executable_sets_unite,
    listed_sets_are_minimal, maps_between_plans_compose, parts_of_an_instance_contain_the_query,
    picks_exist, queries_are_their_own_instances, queries_over_fragments_have_expansions,
    renamed_plans_are_alike, rewritings_without_inputs, stated_orders_exist, weights_exist,
};
use esto_term::{all_sets_are_listed, minimal_sets_cover};
use esto_universal::plans_of_runs_are_universal;
use esto_views::{plans_are_sound, plans_fit_views, renamed_plans_are_one};

// The laws of readings, together.
pub(crate) fn reading_laws_hold()
    ensures { ReadingLaws }
{
    catalogues_are_sound();
    catalogues_are_total();
    readings_are_total();
}

// The laws of what catalogues, rules, queries and plans keep, together.
fn kept_laws_hold()
    ensures { KeptLaws }
{
    catalogues_are_sound();
    rules_are_sound();
    queries_are_sound();
    plans_are_sound();
    plans_fit_views();
}

// The laws of the chase, together.
fn chase_laws_hold()
    ensures { ChaseLaws }
{
    ranks_rise();
    queries_have_starts();
    runs_reach_an_end();
    heads_go_along();
    states_are_universal();
    clashes_receive_nothing();
}

// The laws of lists, together.
fn list_laws_hold()
    ensures { ListLaws }
{
    planned_plans_have_their_form();
    planned_plans_are_universal();
    an_expansion_means_the_same();
    queries_over_fragments_have_expansions();
    candidates_contain_the_query();
    executable_sets_unite();
    all_sets_are_listed();
    minimal_sets_cover();
    stated_orders_exist();
    weights_exist();
    picks_exist();
}

// All of these, and those of the rows of files, together.
pub(crate) fn laws_below_hold()
    ensures { BelowLaws }
{
    kept_laws_hold();
    chase_laws_hold();
    list_laws_hold();
    files_are_total();
    readable_fragments_are_opened();
}

// The laws of containment and of parts of a query's chase, together.
pub(crate) fn reasoning_laws_hold()
    ensures { ReasoningLaws }
{
    finished_runs_decide();
    states_are_universal();
    parts_of_an_instance_contain_the_query();
    maps_between_plans_compose();
    renamed_plans_are_one();
    renamed_plans_are_alike();
}

// The laws of the made case, together.
pub(crate) fn bench_laws_hold()
    ensures { BenchLaws }
{
    queries_are_their_own_instances();
    plans_of_runs_are_universal();
    rewritings_without_inputs();
    listed_sets_are_minimal();
}
