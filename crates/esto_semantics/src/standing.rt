//! Laws of databases that stand for facts over terms.
ghost use Rattle.esto_semantics.specs.Standing.{StandingExists, StandingFactsExist, RulesStand, FinishedStands, AnswersStand, ViewRowsStand};
ghost use Rattle.esto_semantics.specs.Standing.{FragmentAnswersStand};

/// A law: each list of facts over terms has a database that stands for it, in which each constant is its text and each
/// other term an unnamed value of its own; and each database stands for some facts. What rules, queries over constants
/// and variables, and views say of the facts, read over terms, they say of such a database, and the other way round:
/// the facts meet a rule exactly where it does, and the rows over it are the images of the rows over the facts.
pub fn databases_stand_for_facts()
    ensures exist { StandingExists }
    ensures facts_exist { StandingFactsExist }
    ensures rules { RulesStand }
    ensures finished { FinishedStands }
    ensures answers { AnswersStand }
    ensures view_rows { ViewRowsStand }
    ensures fragment_answers { FragmentAnswersStand }
{}
