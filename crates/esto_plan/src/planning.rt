//! The steps of an order of a plan's atoms.
ghost use Rattle.std.specs.Prelude.{◌≡◌, ◌<◌, ◌≤◌, ◌+◌, ◌++◌, ◌∷◌, [], ℕ, List, Bool, length, take, slice_get, Some, Contains, IfOk, OnOk, MatchOption, IsTrue};
ghost use Rattle.std.specs.Prelude.{◌↔◌};
ghost use Rattle.std.specs.List.{AllZip};
ghost use Rattle.esto_term.specs.declared.term.Term.{Term};
ghost use Rattle.esto_semantics.specs.Maps.{IsFixedBy};
ghost use Rattle.esto_views.specs.Fragments.{patterns_of};
ghost use Rattle.esto_views.specs.Plans.{fact_of, plan_query, IsPlanOver};
ghost use Rattle.esto_steps.specs.declared.steps.Get.{Get};
ghost use Rattle.esto_steps.specs.Planned.{IsSource, IsNew, IsKnown, CanMeet, IsFirstMet, IsGetOf, AreStepsOf, CanPlan, atoms_of, ordered, IsSafeOrder};
ghost use Rattle.esto_plan.specs.Planning.{IsGetBelow, IsLinkMade};
ghost use Rattle.esto_columns.specs.Interned.{Grows};

use esto_columns::Codes;
use esto_steps::{Get, Gets, Link, Links, Source, Sources, Steps, place_of};
use esto_term::{List, OutOfMemory, Replicate, Term, Terms};
use esto_views::{Access, AccessList, FragmentDefs, Order, Plan, PlanAtom};
use std::alloc::Global;

/// A source of the term: its code, which a constant gets, or else its place among the bound ones and the atom's own
/// before it. None comes where the term is new.
fn source_of(
    term: &Term,
    bound: &[Term],
    own: &[Term],
    codes: &mut Codes,
) -> Result<Option<Source>, OutOfMemory>
    ensures source { IfOk result (λ it. MatchOption it
        (IsNew (bound.now ++ own.now) term.now)
        (IsSource codes.new (bound.now ++ own.now) term.now)) }
    ensures grown { Grows codes.old codes.new }
{
    if let Term::Const(text) = term {
        return match codes.intern(text.bytes()) {
            Ok(code) => Ok(Some(Source::Code(code))),
            Err(_) => Err(OutOfMemory),
        };
    }
    if let Some(place) = place_of(bound, term) {
        return Ok(Some(Source::Cell(place)));
    }
    match place_of(own, term) {
        Some(place) => match bound.len().checked_add(place) {
            Some(place) => Ok(Some(Source::Cell(place))),
            None => Err(OutOfMemory),
        },
        None => Ok(None),
    }
}

/// Puts the link of the column at the end, if its term is a constant, a bound one, or one of so many first ones of the
/// atom.
fn push_link(
    links: &mut Links,
    terms: &[Term],
    column: usize,
    bound: &[Term],
    count: usize,
    codes: &mut Codes,
) -> Result<(), OutOfMemory>
    requires column { column < length terms.now }
    requires count { count ≤ column }
    ensures made { OnOk result (IsLinkMade codes.new (bound.now ++ take count terms.now)
        terms.now column links.old links.new) }
    ensures grown { Grows codes.old codes.new }
{
    let Some(source) = source_of(&terms[column], bound, &terms[..count], codes)? else {
        return Ok(());
    };
    links.push(Link { column, source })
}

/// Puts the link of the column at the end of the inputs where it is one of them, else of the filters if its term is
/// known.
fn add_column(
    get: &mut Get,
    access: &Access,
    terms: &[Term],
    column: usize,
    bound: &[Term],
    codes: &mut Codes,
) -> Result<(), OutOfMemory>
    requires column { column < length terms.now }
    requires columns { length access.now ≡ length terms.now }
    requires known { CanMeet bound.now terms.now access.now }
    ensures below { OnOk result (IsGetBelow codes.old access.now bound.now terms.now column get.old
        → IsGetBelow codes.new access.now bound.now terms.now (column + 1) get.new) }
    ensures fragment { get.new.fragment ≡ get.old.fragment }
    ensures grown { Grows codes.old codes.new }
{
    if access.item(column) {
        push_link(&mut get.inputs, terms, column, bound, 0, codes)
    } else {
        push_link(&mut get.filters, terms, column, bound, column, codes)
    }
}

/// Whether the term is known after the bound ones.
fn is_known(term: &Term, bound: &[Term]) -> bool
    ensures { IsTrue result ↔ IsKnown bound.now term.now }
{
    if let Term::Const(_) = term {
        return true;
    }
    place_of(bound, term).is_some()
}

/// Whether the pattern can be met after the bound terms.
fn can_meet(access: &Access, terms: &[Term], bound: &[Term]) -> bool
    ensures { IsTrue result ↔ CanMeet bound.now terms.now access.now }
{
    'columns: for (column, term) in terms.iter().enumerate() {
        if column < access.len() && access.item(column) && !is_known(term, bound) {
            return false;
        }
    }
    true
}

/// The number of the first pattern that can be met after the bound terms.
fn first_met(patterns: &AccessList, terms: &[Term], bound: &[Term]) -> Option<usize>
    ensures { MatchOption result
        ((pattern : List Bool) → Contains patterns.now pattern
        → ¬ (CanMeet bound.now terms.now pattern))
        (λ number. (pattern : List Bool) × (slice_get patterns.now number ≡ Some pattern)
        × IsFirstMet patterns.now bound.now terms.now pattern) }
{
    'patterns: for (number, access) in patterns.items().iter().enumerate() {
        if can_meet(access, terms, bound) {
            return Some(number);
        }
    }
    None
}

/// The get of the atom after the bound terms.
fn get_of(
    alloc: Global,
    atom: &PlanAtom,
    patterns: &AccessList,
    bound: &[Term],
    codes: &mut Codes,
) -> Result<Get, OutOfMemory>
    requires met { (pattern : List Bool)
        × Contains patterns.now pattern × CanMeet bound.now atom.now.terms pattern }
    requires columns { (pattern : List Bool)
        → Contains patterns.now pattern → length pattern ≡ length atom.now.terms }
    ensures get { IfOk result (λ it.
        IsGetOf codes.new patterns.now bound.now (fact_of atom.now) it) }
    ensures grown { Grows codes.old codes.new }
{
    let number = match first_met(patterns, atom.terms.items(), bound) {
        Some(number) => number,
        None => unreachable!(),
    };
    let access = patterns.item(number);
    let mut get = Get {
        fragment: atom.fragment,
        inputs: List::new(alloc),
        filters: List::new(alloc),
    };
    'columns: for column in 0..atom.terms.len() {
        add_column(&mut get, access, atom.terms.items(), column, bound, codes)?;
    }
    Ok(get)
}

/// The sources of the head's terms, which are known.
fn head_of(
    alloc: Global,
    head: &Terms,
    bound: &[Term],
    codes: &mut Codes,
) -> Result<Sources, OutOfMemory>
    requires { (term : Term) → Contains head.now term → IsKnown bound.now term }
    ensures head { IfOk result (λ it. AllZip (IsSource codes.new bound.now) head.now it) }
    ensures grown { Grows codes.old codes.new }
{
    let mut sources = List::new(alloc);
    'terms: for term in head.items() {
        match source_of(term, bound, &[], codes)? {
            Some(source) => sources.push(source)?,
            None => unreachable!(),
        }
    }
    Ok(sources)
}

/// Puts the get of the atom after the bound terms at the end, and the atom's terms after the bound ones.
fn push_get(
    alloc: Global,
    atom: &PlanAtom,
    patterns: &AccessList,
    gets: &mut Gets,
    bound: &mut Terms,
    codes: &mut Codes,
) -> Result<(), OutOfMemory>
    requires met { (pattern : List Bool)
        × Contains patterns.now pattern × CanMeet bound.old atom.now.terms pattern }
    requires columns { (pattern : List Bool)
        → Contains patterns.now pattern → length pattern ≡ length atom.now.terms }
    ensures get { OnOk result ((get : Get)
        × IsGetOf codes.new patterns.now bound.old (fact_of atom.now) get
        × (gets.new ≡ gets.old ++ get ∷ [])) }
    ensures bound { OnOk result (bound.new ≡ bound.old ++ atom.now.terms) }
    ensures grown { Grows codes.old codes.new }
{
    let get = get_of(alloc, atom, patterns, bound.items(), codes)?;
    gets.push(get)?;
    let terms = atom.terms.copy(alloc)?;
    bound.append(terms)
}

/// The steps of the atoms of these numbers, in order. Their terms are put into the list, which is empty.
fn steps_of(
    alloc: Global,
    order: &Order,
    plan: &Plan,
    fragments: &FragmentDefs,
    bound: &mut Terms,
    codes: &mut Codes,
) -> Result<Steps, OutOfMemory>
    requires none { bound.old ≡ [] }
    requires named { (number : ℕ) → Contains order.now number → number < length plan.now.atoms }
    requires can { CanPlan (patterns_of fragments.now) []
        (atoms_of (plan_query plan.now).body order.now) }
    requires safe { (term : Term) → Contains plan.now.head term
        → IsFixedBy (atoms_of (plan_query plan.now).body order.now) term }
    ensures steps { IfOk result (AreStepsOf codes.new (patterns_of fragments.now)
        (ordered (plan_query plan.now) order.now)) }
    ensures grown { Grows codes.old codes.new }
{
    let mut gets = List::new(alloc);
    'atoms: for number in order.items() {
        let atom = plan.atoms.item(*number);
        let patterns = &fragments.item(atom.fragment).access;
        push_get(alloc, atom, patterns, &mut gets, bound, codes)?;
    }
    let head = head_of(alloc, &plan.head, bound.items(), codes)?;
    Ok(Steps { gets, head })
}

/// The steps of an order of a safe set of a plan's atoms: a get for each atom, in order, and the sources of the head.
/// A get asks its fragment by the first of its patterns that can be met there, in the catalogue's order; constants
/// and equal terms that stand in other columns are filtered. Constants get codes. After a refusal the codes are the
/// old ones, perhaps with more texts after them.
pub fn plan_of(
    alloc: Global,
    order: &Order,
    plan: &Plan,
    fragments: &FragmentDefs,
    codes: &mut Codes,
) -> Result<Steps, OutOfMemory>
    requires over { IsPlanOver plan.now fragments.now }
    requires order { IsSafeOrder (patterns_of fragments.now) (plan_query plan.now) order.now }
    ensures steps { IfOk result (AreStepsOf codes.new (patterns_of fragments.now)
        (ordered (plan_query plan.now) order.now)) }
    ensures grown { Grows codes.old codes.new }
{
    let mut bound = List::new(alloc);
    steps_of(alloc, order, plan, fragments, &mut bound, codes)
}
