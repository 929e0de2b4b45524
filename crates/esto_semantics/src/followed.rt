//! A law of what follows a start into every database that meets the rules.
ghost use Rattle.esto_semantics.specs.Followed.{QueryIsFollowed};

/// A law: let a start's facts be followed by the facts of an end, with each term one with what a map makes of it. Where
/// each head term of the start is a constant, a variable, or in its facts, and the map makes the end's head of the
/// start's head, the end as a query follows the start.
pub fn what_follows_the_facts_follows_the_query()
    ensures { QueryIsFollowed }
{}
