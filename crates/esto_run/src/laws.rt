//! Laws of runs.
ghost use Rattle.std.specs.Prelude.{List, ℕ};
ghost use Rattle.esto_columns.specs.Asked.{Shape};
ghost use Rattle.esto_exec.specs.Runnable.{AreRunnable};
ghost use Rattle.esto_steps.specs.Planned.{AreStepsOf};
ghost use Rattle.esto_semantics.specs.Access.{Patterns};
ghost use Rattle.esto_semantics.specs.Queries.{ConjunctiveQuery};
ghost use Rattle.esto_steps.specs.declared.steps.Steps.{Steps};
ghost use Rattle.esto_run.specs.Laws.{AnswersAreOverFiles, RewritingsAnswerQueries, UnionsAnswerOverFiles, UsedAreOne, UsedByAllAreOne};
ghost use Rattle.esto_run.specs.Runnable.{HaveShapes};

/// A law: where the rows of the fragments that a query over fragments uses are those of their files, its answers over
/// the rows are those over the files, whatever the other fragments hold.
pub fn answers_are_over_files()
    ensures { AnswersAreOverFiles }
{}

/// A law: for each database that meets the rules, and of which the files of the fragments that a rewriting's set uses
/// hold the view rows, the answers of the set's candidate over the files are exactly the query's.
pub fn rewritings_answer_queries()
    ensures { RewritingsAnswerQueries }
{}

/// A law: for each database of which the files of the fragments that safe queries over fragments use hold the view rows,
/// the answers of their union are exactly the rows over the files that are an answer of one of them.
pub fn unions_answer_over_files()
    ensures { UnionsAnswerOverFiles }
{}

/// A law: the fragments that a set uses are one list.
pub fn used_fragments_are_one()
    ensures { UsedAreOne }
{}

/// A law: the fragments that several queries use are one list.
pub fn used_by_all_are_one()
    ensures { UsedByAllAreOne }
{}

/// A law: the steps of a query over fragments can be run over fragments that have the ways of their definitions.
pub fn plans_are_runnable()
    ensures { (texts : List (List ℕ)) (patterns : Patterns) (query : ConjunctiveQuery)
        (steps : Steps) (shapes : List Shape) → AreStepsOf texts patterns query steps
        → HaveShapes patterns query.body shapes → AreRunnable shapes steps.gets }
{}
