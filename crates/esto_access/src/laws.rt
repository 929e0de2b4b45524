//! Laws of rounds, and of completions.
ghost use Rattle.std.specs.Prelude.{List, Bool, IsTrue};
ghost use Rattle.esto_term.specs.declared.term.Term.{Term};
ghost use Rattle.esto_semantics.specs.Access.{Patterns};
ghost use Rattle.esto_term.specs.Sets.{Covers};
ghost use Rattle.esto_semantics.specs.declared.fact.Fact.{Fact};
ghost use Rattle.esto_access.specs.Completion.{MinimalCompletions};
ghost use Rattle.esto_access.specs.Rounds.{LastRoundIsEnough, RoundsAreEnough};

use esto_semantics::executable_sets_unite;

/// A law: as many rounds as there are atoms reach exactly what is reached in a set, and so does a round that reaches
/// no more than the one before.
pub fn rounds_are_enough()
    ensures all { RoundsAreEnough }
    ensures last { LastRoundIsEnough }
{
    executable_sets_unite();
}

/// A law: where sets tell which sets of the atoms pass a test, the minimal executable sets that pass it are exactly the
/// minimal completions of these sets, where a completion of a set has for each of its atoms one of the atom's access
/// products, in every combination. The same holds of what a family of sets covers.
pub fn minimal_completions_are_executable()
    ensures tests { (patterns : Patterns) (atoms : List (Fact Term)) (test : List Bool → Bool)
        → MinimalCompletions patterns atoms (λ set. IsTrue (test set)) }
    ensures families { (patterns : Patterns) (atoms : List (Fact Term)) (family : List (List Bool))
        → MinimalCompletions patterns atoms (Covers family) }
{
    executable_sets_unite();
}
