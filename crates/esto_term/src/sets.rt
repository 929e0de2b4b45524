//! Laws of sets, of their order, and of the minimal sets of a family.
ghost use Rattle.std.specs.Prelude.{ℕ, Bool, IsTrue, List};
ghost use Rattle.std.specs.Cmp.{IsTotalOrder};
ghost use Rattle.esto_term.specs.Sets.{set_cmp};
ghost use Rattle.esto_term.specs.SetLaws.{EqualIsSame, NumbersTellSets, WithinBothWays, OrderIsOne, AllSetsAreListed};
ghost use Rattle.esto_term.specs.SetLaws.{MinimalAreApart, MinimalCover, MinimalExist, MinimalAreOne, MinimalTell};

/// A law: the order of sets is total, and two sets of one count compare Equal exactly where they are one set.
/// Two sets of one count are one where they have the same numbers, or are subsets of each other. Two lists of
/// sets in order are one where they have the same sets.
pub fn sets_are_ordered()
    ensures total { IsTotalOrder set_cmp }
    ensures exact { EqualIsSame }
    ensures numbers { NumbersTellSets }
    ensures within { WithinBothWays }
    ensures one { OrderIsOne }
{}

/// A law: the list of all sets of a count has each of them once, and no other set.
pub fn all_sets_are_listed()
    ensures { AllSetsAreListed }
{}

/// A law: every family of sets of one count has its minimal sets, in order, and they are determined. None of
/// them is a subset of another, and each set of the family has one of them within it.
pub fn minimal_sets_cover()
    ensures apart { MinimalAreApart }
    ensures cover { MinimalCover }
    ensures exist { MinimalExist }
    ensures one { MinimalAreOne }
{}

/// A law: where what passes a test passes it in every greater set of a count, the minimal sets of the count that pass
/// it tell which sets pass it: those that have one of them as a subset.
pub fn minimal_sets_tell()
    ensures { (count : ℕ) (test : List Bool → Bool) → MinimalTell count (λ set. IsTrue (test set)) }
{}
