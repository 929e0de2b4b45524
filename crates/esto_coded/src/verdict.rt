//! Verdicts on rules.
ghost use Rattle.esto_semantics.specs.Rules.{Rule};
ghost use Rattle.esto_coded.specs.Coded.{Coded};
ghost use Rattle.esto_coded.specs.Met.{AnswersWhether, Judges};

use esto_semantics::Facts;

/// Whether facts meet a rule.
#[derive(Drop)]
pub enum Verdict {
    /// They do.
    Met,
    /// They don't. With it may come a part of them that has the facts of the rule's active matches.
    Broken(Option<Facts>),
}

/// The verdict on a rule that facts meet or don't, without a part.
pub(crate) fn verdict_of(met: bool) -> Verdict
    ensures { (coded : Coded) (rule : Rule)
        → AnswersWhether coded rule met → Judges coded rule result }
{
    if met {
        return Verdict::Met;
    }
    Verdict::Broken(None)
}
