//! Laws of what a run says of the databases that meet the rules.
ghost use Rattle.esto_chase_laws.specs.ReceivedLaws.{StatesAreReceived, StatesAreUniversal, StatesAreUniversalForQueries};
ghost use Rattle.esto_chase_laws.specs.ReceivedLaws.{FinishedRunsDecide, FinishedRunsSatisfy, ClashesReceiveNothing, StartsAreSatisfiableAlike};

/// A law: every database that meets the rules receives each state of a run. Where a valuation sends the start's facts into
/// it, some valuation sends the state's facts into it, agrees with the given one on all constants and variables, gives a
/// term and what the merges take it to one value, and gives the state's head what the given one gives the start's head.
pub fn states_are_received()
    ensures { StatesAreReceived }
{}

/// A law: each state of a run is universal for the start, and for the query whose start it is.
pub fn states_are_universal()
    ensures start { StatesAreUniversal }
    ensures query { StatesAreUniversalForQueries }
{}

/// A law: a query whose run has finished is contained in another exactly where the other maps to the run's end, and what
/// has a finished run is satisfiable.
pub fn finished_runs_decide()
    ensures contained { FinishedRunsDecide }
    ensures satisfiable { FinishedRunsSatisfy }
    ensures alike { StartsAreSatisfiableAlike }
{}

/// A law: where a run has clashed, at two constants or at a denial, no valuation sends the start's facts into a database
/// that meets the rules.
pub fn clashes_receive_nothing()
    ensures { ClashesReceiveNothing }
{}
