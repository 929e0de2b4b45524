//! Laws of the plans of runs.
ghost use Rattle.esto_universal.specs.PlannedLaws.{PlanOfRunIsOne, ClashOfRunIsOne};
ghost use Rattle.esto_universal.specs.PlannedLaws.{PlanExcludesClash, PlannedIsSatisfiable, PlanOfRunIsOver};
ghost use Rattle.esto_chase.specs.ChasedLaws.{ClashedIsUnsatisfiable};
ghost use Rattle.esto_universal.specs.PlannedLaws.{PlanOfRunReceivesUnions, PlanOfRunIsUniversal};
ghost use Rattle.esto_universal.specs.PlannedLaws.{PlanOfRunHasDistinctAtoms};

use crate::stated::{
    stated_plans_are_one, stated_plans_are_universal, stated_plans_have_distinct_atoms,
};
use esto_chase::clashed_queries_are_unsatisfiable;
use esto_chase_laws::{
    finished_runs_decide, queries_have_starts, runs_have_one_end, states_are_universal,
};

/// A law: a query has one plan of its runs, or its runs have one clash, and never both.
pub fn runs_have_one_outcome()
    ensures plan { PlanOfRunIsOne }
    ensures clash { ClashOfRunIsOne }
    ensures apart { PlanExcludesClash }
{
    runs_have_one_end();
    stated_plans_are_one();
}

/// A law: a query that has a plan of a run is satisfiable, and one whose run clashes is not.
pub fn plans_tell_satisfiable_queries()
    ensures plan { PlannedIsSatisfiable }
    ensures clash { ClashedIsUnsatisfiable }
{
    queries_have_starts();
    finished_runs_decide();
    clashed_queries_are_unsatisfiable();
}

/// A law: the plan of a query's run receives unions for the query, and so is universal for it.
pub fn plans_of_runs_are_universal()
    ensures unions { PlanOfRunReceivesUnions }
    ensures universal { PlanOfRunIsUniversal }
{
    states_are_universal();
    stated_plans_are_universal();
}

/// A law: the atoms of the plan of a run are distinct, and over the fragments whose views it is made of.
pub fn plans_of_runs_are_over_fragments()
    ensures over { PlanOfRunIsOver }
    ensures distinct { PlanOfRunHasDistinctAtoms }
{
    stated_plans_have_distinct_atoms();
}
