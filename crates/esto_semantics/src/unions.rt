//! Laws of plans that receive unions, and of the rewritings of unions.
ghost use Rattle.esto_semantics.specs.UnionLaws.{RowsReceiveUnions, ReceiveUnionsAlike, ReceivingIsUniversal, UnionsMapOntoSets, ListedCoverUnions};
ghost use Rattle.esto_semantics.specs.UnionLaws.{UnionListIsOne};
ghost use Rattle.esto_semantics.specs.UnionLaws.{UnionRewritingsRise, ChoiceIsExecutable, ChoiceExists, EmptyListExcludes, EmptyListOrChoice};
ghost use Rattle.esto_semantics.specs.UnionLaws.{UnionAnsweringRises, UnionAnsweringIsTold, UnionListedAreExecutable, UnionListedAreOfParts};
ghost use Rattle.esto_semantics.specs.UnionLaws.{OneHasRewritings, OneHasListed};

/// A law: where an instance is universal for a query under the rules, and meets the rules itself, the rows of all views
/// over it, with its head, under whatever names for the terms, are a plan that receives unions. So does each plan that maps
/// to such a plan and back, head to head. A plan that receives unions is universal.
pub fn plans_receive_unions()
    ensures rows { RowsReceiveUnions }
    ensures alike { ReceiveUnionsAlike }
    ensures universal { ReceivingIsUniversal }
{}

/// A law: each union of queries over fragments that is an executable rewriting of a union has, for each query of the union
/// whose plan receives unions, a member that maps, head to head, onto a set of that plan's atoms that is a rewriting in the
/// union, and so has a set that is listed in the union within it. There is one list of these. A greater executable set is a
/// rewriting in the union too.
pub fn executable_unions_map_onto_sets()
    ensures onto { UnionsMapOntoSets }
    ensures cover { ListedCoverUnions }
    ensures one { UnionListIsOne }
    ensures rise { UnionRewritingsRise }
{}

/// A law: the sets that are listed in a union are the minimal sets of the plan's atoms whose accessible part answers a part
/// of the union. Where sets tell which sets do that, executable or not, they are the minimal executable sets that have one
/// of these as a subset. What answers a part of the union does so with more atoms, so the minimal sets tell which do.
pub fn sets_listed_in_unions_are_executable()
    ensures executable { UnionListedAreExecutable }
    ensures parts { UnionListedAreOfParts }
    ensures rises { UnionAnsweringRises }
    ensures told { UnionAnsweringIsTold }
{}

/// A law: the candidates of rewritings in the union, at least one for each satisfiable query of it, are together an
/// executable rewriting of the union. Where each query of the union has a rewriting in it or is not satisfiable, there is
/// such a choice.
pub fn choices_are_executable_unions()
    ensures executable { ChoiceIsExecutable }
    ensures exist { ChoiceExists }
{}

/// A law: where some query of the union has a plan that receives unions, and no set of it is listed in the union, no union
/// of queries over fragments is an executable rewriting of the union. Where each query is not satisfiable or has a plan
/// with its list, that is so of one of them, or there is a choice, and so an executable rewriting.
pub fn executable_unions_exist()
    ensures none { EmptyListExcludes }
    ensures some { EmptyListOrChoice }
{}

/// A law: a union of one query has the rewritings and the listed sets of the query.
pub fn unions_of_one()
    ensures rewritings { OneHasRewritings }
    ensures listed { OneHasListed }
{}
