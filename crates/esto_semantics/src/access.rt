//! Laws of executable sets, accessible parts and stated orders.
ghost use Rattle.std.specs.Prelude.{Bool, IsTrue, List};
ghost use Rattle.esto_term.specs.declared.term.Term.{Term};
ghost use Rattle.esto_semantics.specs.Access.{Patterns};
ghost use Rattle.esto_semantics.specs.declared.fact.Fact.{Fact};
ghost use Rattle.esto_semantics.specs.AccessLaws.{NoneIsExecutable, UnionIsExecutable, PartExists, PartIsOne, ExecutableIsOwnPart, PartRises};
ghost use Rattle.esto_semantics.specs.AccessLaws.{StatedOrderExists, StatedOrderIsOne, NumbersAreStated, RewritingsNeedNoOrder, MinimalOfParts};

/// A law: the set of no atoms is executable, and so is the union of two executable sets. So every set has an
/// accessible part, and only one. It is the set itself exactly where the set is executable, and it grows with
/// the set.
pub fn executable_sets_unite()
    ensures none { NoneIsExecutable }
    ensures union { UnionIsExecutable }
    ensures part { PartExists }
    ensures one { PartIsOne }
    ensures own { ExecutableIsOwnPart }
    ensures rises { PartRises }
{}

/// A law: every executable set has a stated order, and no set has two.
pub fn stated_orders_exist()
    ensures exist { StatedOrderExists }
    ensures one { StatedOrderIsOne }
{}

/// A law: the minimal executable sets that pass a test are the minimal sets whose accessible part passes it.
pub fn minimal_executable_sets_are_told_by_parts()
    ensures { (patterns : Patterns) (atoms : List (Fact Term)) (test : List Bool → Bool)
        → MinimalOfParts patterns atoms (λ set. IsTrue (test set)) }
{}

/// A law: where each of the atoms has a pattern without inputs, the stated order of any set of the atoms is the rising
/// list of its numbers. So every set is executable, and a safe candidate that is equivalent to the query is a
/// rewriting.
pub fn rewritings_without_inputs()
    ensures stated { NumbersAreStated }
    ensures rewritings { RewritingsNeedNoOrder }
{}
