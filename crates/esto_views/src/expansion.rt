//! Expansion: what a plan asks of the datasets.
ghost use Rattle.std.specs.Prelude.{◌≡◌, ◌++◌, List, Some, length, map, slice_get, IfOk, OnOk};
ghost use Rattle.esto_term.specs.declared.term.Term.{Term};
ghost use Rattle.esto_semantics.specs.Expansions.{FitsViews};
ghost use Rattle.esto_semantics.specs.Facts.{image};
ghost use Rattle.esto_semantics.specs.Maps.{AreFlat};
ghost use Rattle.esto_query.specs.Making.{query_of};
ghost use Rattle.esto_views.specs.Expanded.{placed, AreExpanded, Expands};
ghost use Rattle.esto_semantics.specs.Expanded.{facts_of};
ghost use Rattle.esto_views.specs.Fragments.{views_of};
ghost use Rattle.esto_views.specs.Plans.{plan_query, IsAtomOver, IsPlanOver};
ghost use Rattle.esto_semantics.specs.Spreads.{IsSpread, substituted};
ghost use Rattle.esto_views.specs.declared.fragments.FragmentDef.{FragmentDef};
ghost use Rattle.esto_views.specs.declared.plan.Plan.{Plan};

use crate::fragments::FragmentDefs;
use crate::plan::{Plan, PlanAtom, plans_are_sound};
use crate::spread::{Spread, spread_of};
use esto_query::{Atom, queries_are_sound};
use esto_semantics::{ExpandedFact, ExpandedFacts};
use esto_term::{List, OutOfMemory};
use std::alloc::Global;

/// Adds the facts of the atom of that number: its view's body, place by place, with what each term stands for.
fn push_facts(
    alloc: Global,
    number: usize,
    body: &[Atom],
    spread: &Spread,
    expanded: &mut ExpandedFacts,
) -> Result<(), OutOfMemory>
    requires { length spread.now.from ≡ length spread.now.to }
    ensures { OnOk result (expanded.new ≡ expanded.old
        ++ placed number 0 (map (image (substituted spread.now.from spread.now.to)) body.now)) }
{
    'parts: for (place, part) in body.iter().enumerate() {
        let fact = spread.atom(alloc, part)?;
        expanded.push(ExpandedFact {
            atom: number,
            place,
            fact,
        })?;
    }
    Ok(())
}

/// Adds the facts of the atom of that number, whose new variables are numbered from `first` on. The first number after
/// those of its new variables.
fn expand_atom(
    alloc: Global,
    number: usize,
    atom: &PlanAtom,
    fragments: &FragmentDefs,
    first: u64,
    expanded: &mut ExpandedFacts,
) -> Result<u64, OutOfMemory>
    requires { IsAtomOver atom.now fragments.now }
    ensures { IfOk result (λ next. (fragment : FragmentDef)
        × (slice_get fragments.now atom.now.fragment ≡ Some fragment) × (m : Term → Term)
        × IsSpread (query_of fragment.view) atom.now.terms first next m
        × (expanded.new ≡ expanded.old ++ placed number 0 (map (image m) fragment.view.body))) }
{
    let fragment = fragments.item(atom.fragment);
    let spread = spread_of(alloc, fragment, &atom.terms, first)?;
    push_facts(alloc, number, fragment.view.body.items(), &spread, expanded)?;
    Ok(spread.next)
}

/// The facts of all atoms, in order.
fn expanded_facts(
    alloc: Global,
    plan: &Plan,
    fragments: &FragmentDefs,
) -> Result<ExpandedFacts, OutOfMemory>
    requires { IsPlanOver plan.now fragments.now }
    ensures { IfOk result (λ expanded.
        AreExpanded fragments.now 0 (length plan.now.names) plan.now.atoms expanded) }
{
    let mut expanded = List::new(alloc);
    let mut first = plan.names.len() as u64;
    'atoms: for (number, atom) in plan.atoms.items().iter().enumerate() {
        first = expand_atom(alloc, number, atom, fragments, first, &mut expanded)?;
    }
    Ok(expanded)
}

/// The expansion of a plan over the fragments: for each atom in order, the body of its fragment's view in order,
/// with the atom's terms for the variables of the view's head, and new variables for its inner ones. The new
/// variables have consecutive numbers from the number of the plan's names on, atom by atom, and within an atom in
/// rising order of the view's variables. A number that its type doesn't hold is answered as want of memory.
pub fn expand(
    alloc: Global,
    plan: &Plan,
    fragments: &FragmentDefs,
) -> Result<ExpandedFacts, OutOfMemory>
    requires { IsPlanOver plan.now fragments.now }
    ensures exact { IfOk result (λ expanded.
        AreExpanded fragments.now 0 (length plan.now.names) plan.now.atoms expanded) }
    ensures expands { IfOk result (λ expanded. Expands plan.now fragments.now expanded) }
    ensures flat { IfOk result (λ expanded. AreFlat (facts_of expanded)) }
{
    plans_are_sound();
    queries_are_sound();
    expanded_facts(alloc, plan, fragments)
}

/// A law: a plan over fragments, read as a query over fragments, fits their views.
pub fn plans_fit_views()
    ensures { (plan : Plan) (fragments : List FragmentDef)
        → IsPlanOver plan fragments → FitsViews (views_of fragments) (plan_query plan) }
{}
