//! Laws of the length of a run, and of how deep its terms nest.
ghost use Rattle.esto_chase_laws.specs.BoundLaws.{RunsEnd, TermsNestWithinRanks};

/// A law: every run ends. Under ranks that rise and are at most a depth, no run has more steps than a bound.
pub fn runs_end()
    ensures { RunsEnd }
{}

/// A law: under ranks that rise, a term in a fact of a run nests no deeper than the rank of the fact's relation.
pub fn terms_nest_within_ranks()
    ensures { TermsNestWithinRanks }
{}
