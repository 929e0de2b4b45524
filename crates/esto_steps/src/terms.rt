//! Places of terms.
ghost use Rattle.std.specs.Prelude.{◌≡◌, slice_get, Some, Contains, MatchOption};

use esto_term::Term;

/// The first place of the term among the terms.
pub fn place_of(terms: &[Term], term: &Term) -> Option<usize>
    ensures { MatchOption result (¬ (Contains terms.now term.now))
        (λ place. slice_get terms.now place ≡ Some term.now) }
{
    'terms: for (place, other) in terms.iter().enumerate() {
        if other.equal(term) {
            return Some(place);
        }
    }
    None
}
