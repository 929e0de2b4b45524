//! Laws of the commands on data.
ghost use Rattle.esto_data.specs.Agreement.{AgreeingAnswersAreOne, AgreeingAnswersAreTexts};
ghost use Rattle.esto_data.specs.DataLaws.{DataLaws};

use esto_constraint::rules_are_sound;
use esto_fill::outcomes_are_one;
use esto_run::{fragment_files_are_one, rewritings_answer_queries};

/// The laws by which what the commands on data say is determined, together.
pub fn data_laws_hold()
    ensures { DataLaws }
{
    fragment_files_are_one();
    outcomes_are_one();
    rules_are_sound();
}

/// A law: where a database meets the rules and the files of fragments hold exactly their views' rows, a query that has
/// a rewriting has answers of texts alone, and these are exactly the answers of each rewriting's candidate over the
/// files.
pub fn agreeing_answers_are_one()
    ensures texts { AgreeingAnswersAreTexts }
    ensures rows { AgreeingAnswersAreOne }
{
    rewritings_answer_queries();
}
