//! Whether a query maps to facts, head to head.
ghost use Rattle.std.specs.Prelude.{◌≡◌, ◌↔◌, [], ◌∷◌, Contains, IsTrue, IfOk, MatchOption};
ghost use Rattle.esto_term.specs.declared.term.Term.{Term};
ghost use Rattle.esto_semantics.specs.Instances.{MapsTo};
ghost use Rattle.esto_semantics.specs.Maps.{AreFlat, IsFlat};
ghost use Rattle.esto_query.specs.Making.{query_of};
ghost use Rattle.esto_instance.specs.Receiving.{row_fact, NoneMatches, IsOfMatch, NoneSends, IsSending};

use esto_query::{Query, first_match, matches_send, queries_are_sound};
use esto_semantics::{Atom, Facts, Valuation, valuations_are_maps};
use esto_term::{List, OutOfMemory, Replicate, Terms};
use std::alloc::Global;

/// The list of one fact, which is the row.
fn row_facts(alloc: Global, terms: &Terms) -> Result<Facts, OutOfMemory>
    ensures { IfOk result (λ facts. facts ≡ row_fact terms.now ∷ []) }
{
    let terms = terms.copy(alloc)?;
    let mut facts = List::new(alloc);
    facts.push(Atom { relation: 0, terms })?;
    Ok(facts)
}

/// The valuation of a match of the body in the facts, where there is one.
fn matching(alloc: Global, body: &Facts, facts: &Facts) -> Result<Option<Valuation>, OutOfMemory>
    requires { AreFlat body.now }
    ensures { IfOk result (λ start.
        MatchOption start (NoneMatches body.now facts.now) (IsOfMatch body.now facts.now)) }
{
    let start = Valuation::new(alloc);
    match first_match(alloc, body, facts, &start)? {
        Some(found) => Ok(Some(found.valuation)),
        None => Ok(None),
    }
}

/// The valuation whose maps are exactly those that send the one row to the other. None comes exactly where no map that
/// keeps constants does.
fn sending(alloc: Global, terms: &Terms, targets: &Terms) -> Result<Option<Valuation>, OutOfMemory>
    requires { (term : Term) → Contains terms.now term → IsFlat term }
    ensures { IfOk result (λ start. MatchOption start
        (NoneSends terms.now targets.now) (IsSending terms.now targets.now)) }
{
    valuations_are_maps();
    let body = row_facts(alloc, terms)?;
    let facts = row_facts(alloc, targets)?;
    matching(alloc, &body, &facts)
}

/// Whether the query maps to the facts, and its head to the other head.
pub fn maps_into(
    alloc: Global,
    query: &Query,
    facts: &Facts,
    head: &Terms,
) -> Result<bool, OutOfMemory>
    ensures { IfOk result (λ answer. IsTrue answer
        ↔ MapsTo (query_of query.now) (record { head = head.now; body = facts.now })) }
{
    queries_are_sound();
    matches_send();
    valuations_are_maps();
    let outcome = sending(alloc, &query.head, head)?;
    match outcome {
        None => Ok(false),
        Some(start) => {
            let found = first_match(alloc, &query.body, facts, &start)?;
            Ok(found.is_some())
        }
    }
}
