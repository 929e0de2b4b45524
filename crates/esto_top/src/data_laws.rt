//! Laws of the courses of the commands on data.
ghost use Rattle.esto_top.specs.DataLaws.{AnswersAreExact, AnswersAreOne, AuditsAreExact, AuditsAreOne, AuditsRefuse, FillsAreExact, FillsAreOne};
ghost use Rattle.esto_top.specs.DataLaws.{DataCommandLaws, MakesAreOne, RepliesAreAudited, UnionAnswersAreExact};

use esto_data::data_laws_hold;
use esto_fill::answers_rest_on_their_datasets;
use esto_mapping::catalogues_are_sound;
use esto_opening::{opened_unions_are_queries, openings_are_one};

// The laws by which the commands on data are determined, together.
fn data_commands_hold()
    ensures { DataCommandLaws }
{
    openings_are_one();
    data_laws_hold();
}

/// A law: over the same files `fill`, `answer` and `audit` have one reply or one refusal each, where no fetch is at a fault; so
/// has `fill` where it is not asked what the text says when it is read.
pub fn data_outcomes_are_one()
    ensures fills { FillsAreOne }
    ensures makes { MakesAreOne }
    ensures answers { AnswersAreOne }
    ensures audits { AuditsAreOne }
{
    data_commands_hold();
}

/// A law: where the files say a catalogue, and a query, or a union of queries, over it, and the files of what a command needs
/// are readable, `fill` replies with the file of the fragment's view rows, `answer` with the answers of the query, or of the
/// union, and `audit` where all agree; or each refuses with the cause that there is.
pub fn data_outcomes_are_exact()
    ensures fills { FillsAreExact }
    ensures answers { AnswersAreExact }
    ensures unions { UnionAnswersAreExact }
    ensures audits { AuditsAreExact }
{
    catalogues_are_sound();
    opened_unions_are_queries();
    data_commands_hold();
}

/// A law: where `audit` has a reply, the facts of all datasets meet the rules and the fragments hold their views' rows, and
/// `answer` prints the answers over these facts of each query, and of each union, that has answers of texts alone. A refusal
/// is never Done.
pub fn audited_datasets_answer()
    ensures replies { RepliesAreAudited }
    ensures refusals { AuditsRefuse }
{
    opened_unions_are_queries();
    answers_rest_on_their_datasets();
    data_commands_hold();
}
