//! Laws of runs: their start, that they go on to an end, and that they have one.
ghost use Rattle.esto_chase_laws.specs.RunLaws.{StartsHaveTheBody, QueriesHaveStarts, EndIsOne, MovesAreOne, MergesAreOne, ClashIsOne, ClashedIsNotFinished};
ghost use Rattle.esto_chase_laws.specs.RunLaws.{EndsHaveNoStep, FinishedHasNoMatch, NoMatchIsFinished, RulesAreDecided, StatesGoOn, RunsReachAnEnd};
ghost use Rattle.esto_chase_laws.specs.RunLaws.{MadeTermsAreNew};
ghost use Rattle.esto_chase_laws.specs.RunLaws.{HeadsGoAlong, FactsGoAlong, MergedTermsMeet, MentionedTermsStay};

/// A law: the start of a query's run has exactly the facts of its body, and no made term.
pub fn queries_have_starts()
    ensures body { StartsHaveTheBody }
    ensures start { QueriesHaveStarts }
{}

/// A law: a start has one end. Two runs that finished or clashed end in one state, after the same rules at the same
/// places, which merged the same terms; a state that has clashed has one clash, and is not finished.
pub fn runs_have_one_end()
    ensures state { EndIsOne }
    ensures moves { MovesAreOne }
    ensures merges { MergesAreOne }
    ensures clash { ClashIsOne }
    ensures apart { ClashedIsNotFinished }
{}

/// A law: no step leads on from an end, and where a state is finished no rule has an active match.
pub fn ends_have_no_step()
    ensures step { EndsHaveNoStep }
    ensures finished { FinishedHasNoMatch }
{}

/// A law: a state in which each rule has a least active match or is met is an end, or a step leads on from it.
pub fn states_go_on()
    ensures { StatesGoOn }
{}

/// A law: over any facts each rule has a least active match or is met. So a state in which no rule has an active match is
/// finished.
pub fn rules_are_decided()
    ensures decided { RulesAreDecided }
    ensures finished { NoMatchIsFinished }
{}

/// A law: where ranks rise, each start has a run to an end.
pub fn runs_reach_an_end()
    ensures { RunsReachAnEnd }
{}

/// A law: a run's head is the start's head under the merges, and they take the start's facts to facts of the state.
pub fn heads_go_along()
    ensures heads { HeadsGoAlong }
    ensures facts { FactsGoAlong }
{}

/// A law: the merges of a run take the two terms of each merge to one term, and leave each term of the state's facts as it
/// is. So the merges take each term that went to the one of the state that stands for it.
pub fn merged_terms_meet()
    ensures meet { MergedTermsMeet }
    ensures stay { MentionedTermsStay }
{}

/// A law: a term that a tuple rule's step makes stands in no fact before the step.
pub fn made_terms_are_new()
    ensures { MadeTermsAreNew }
{}
