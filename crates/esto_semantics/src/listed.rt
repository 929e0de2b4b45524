//! Laws of listed sets, of weights and of the pick.
ghost use Rattle.esto_semantics.specs.ListedLaws.{TestedAreRewritings, ListedAreMinimal, ListedExist, ListedIsOne, ListedCover, NoneIsListed};
ghost use Rattle.esto_semantics.specs.ListedLaws.{NoRewritingExists};
ghost use Rattle.esto_semantics.specs.ListedLaws.{ListedAreExecutable, ListedAreOfParts, AnsweringRises, AnsweringIsTold};
ghost use Rattle.esto_semantics.specs.ListedLaws.{EquivalentPartsAreOne, EquivalentPartsCover, NoPartIsListed, EquivalentPartsRise, EquivalentPartsAreTold};
ghost use Rattle.esto_semantics.specs.ListedLaws.{ChosenAreNamed, WeightExists, WeightRises, WeightIsOne, WeightIsSum};
ghost use Rattle.esto_semantics.specs.ListedLaws.{PickExists, PickIsOne, PickWeighsLeast, PickWeighsLeastOfAll};

/// A law: there is one list of the listed sets, each rewriting has one of them within it, and it is empty exactly where
/// no set of the plan's atoms is a rewriting. For a satisfiable query's universal plan that is so exactly where the
/// query has no executable rewriting at all. Where a family has exactly the rewritings, a list is that of the listed
/// sets exactly where it is in order and has the minimal sets of the family, and such a list exists. The sets of the
/// plan's atoms that pass a test which tells the rewritings are such a family.
pub fn listed_sets_are_minimal()
    ensures tested { TestedAreRewritings }
    ensures minimal { ListedAreMinimal }
    ensures exist { ListedExist }
    ensures one { ListedIsOne }
    ensures cover { ListedCover }
    ensures none { NoneIsListed }
    ensures no_rewriting { NoRewritingExists }
{}

/// A law: the listed sets are the minimal sets of the plan's atoms whose accessible part answers the query. Where sets
/// tell which sets answer the query, executable or not, they are the minimal executable sets that have one of these as
/// a subset. What answers the query does so with more atoms of a universal plan, so the minimal sets that answer it
/// tell which do.
pub fn listed_sets_are_executable()
    ensures executable { ListedAreExecutable }
    ensures parts { ListedAreOfParts }
    ensures rises { AnsweringRises }
    ensures told { AnsweringIsTold }
{}

/// A law: there is one list of the minimal sets of an instance's facts that are equivalent to a query, each set that is
/// has one of them within it, and the list is empty exactly where no set is. Where the instance is universal for the
/// query, a set with one within it that is equivalent is equivalent too, so the minimal sets tell which are.
pub fn equivalent_parts_have_minimal_sets()
    ensures one { EquivalentPartsAreOne }
    ensures cover { EquivalentPartsCover }
    ensures none { NoPartIsListed }
    ensures rises { EquivalentPartsRise }
    ensures told { EquivalentPartsAreTold }
{}

/// A law: the atoms that a set chooses are those at its numbers.
pub fn chosen_atoms_are_named()
    ensures { ChosenAreNamed }
{}

/// A law: atoms have one weight, and atoms among others weigh no more than those. Where the atoms of a plan are
/// distinct, the weight of those that a set chooses is the plain sum.
pub fn weights_exist()
    ensures exist { WeightExists }
    ensures one { WeightIsOne }
    ensures rise { WeightRises }
    ensures sum { WeightIsSum }
{}

/// A law: a list of weights that isn't empty has a pick, and only one. Among the weights of the listed sets, no
/// rewriting among the sets of the plan's atoms weighs less than the pick; and for a satisfiable query's universal plan
/// no executable rewriting of the query does, whatever its variables and its size.
pub fn picks_exist()
    ensures exist { PickExists }
    ensures one { PickIsOne }
    ensures least { PickWeighsLeast }
    ensures least_of_all { PickWeighsLeastOfAll }
{
    weights_exist();
}
