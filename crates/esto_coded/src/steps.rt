//! The steps of a query over relations that are asked as a whole.
ghost use Rattle.std.specs.Prelude.{◌≡◌, ◌++◌, ◌∷◌, [], Contains, IfOk, OnOk, MatchOption};
ghost use Rattle.std.specs.List.{AllZip};
ghost use Rattle.esto_columns.specs.Interned.{Grows};
ghost use Rattle.esto_steps.specs.Planned.{IsSource, IsNew, IsKnown};
ghost use Rattle.esto_semantics.specs.Facts.{terms_of};
ghost use Rattle.esto_semantics.specs.Maps.{IsFixedBy};
ghost use Rattle.esto_steps.specs.declared.steps.Get.{Get};
ghost use Rattle.esto_term.specs.declared.term.Term.{Term};
ghost use Rattle.esto_coded.specs.Whole.{IsLinked, AreFilters, IsWholeGet, AreWholeGets, AreWholeSteps};

use esto_columns::Codes;
use esto_semantics::Atom;
use esto_steps::{Get, Gets, Link, Links, Source, Sources, Steps, place_of};
use esto_term::{List, OutOfMemory, Replicate, Term, Terms};
use std::alloc::Global;

/// A source of the term among the bound ones, or None where it is new. A constant gets a code.
fn source_of(term: &Term, bound: &[Term], codes: &mut Codes) -> Result<Option<Source>, OutOfMemory>
    ensures source { IfOk result (λ it. MatchOption it
        (IsNew bound.now term.now)
        (IsSource codes.new bound.now term.now)) }
    ensures grown { Grows codes.old codes.new }
{
    if let Term::Const(text) = term {
        return match codes.intern(text.bytes()) {
            Ok(code) => Ok(Some(Source::Code(code))),
            Err(_) => Err(OutOfMemory),
        };
    }
    match place_of(bound, term) {
        Some(place) => Ok(Some(Source::Cell(place))),
        None => Ok(None),
    }
}

/// Puts the link of the column at the end, if its term is a constant or one of the bound ones.
fn push_link(
    term: &Term,
    column: usize,
    bound: &[Term],
    links: &mut Links,
    codes: &mut Codes,
) -> Result<(), OutOfMemory>
    ensures linked { OnOk result
        (IsLinked codes.new bound.now term.now column links.old links.new) }
    ensures grown { Grows codes.old codes.new }
{
    let Some(source) = source_of(term, bound, codes)? else {
        return Ok(());
    };
    links.push(Link { column, source })
}

/// Puts a copy of the term at the end.
pub(crate) fn push_copy(alloc: Global, term: &Term, terms: &mut Terms) -> Result<(), OutOfMemory>
    ensures { OnOk result (terms.new ≡ terms.old ++ term.now ∷ []) }
{
    let own = term.copy(alloc)?;
    terms.push(own)
}

/// Puts the link of the column at the end, if its term is a constant or one of the bound ones, and the term after
/// these.
fn push_column(
    alloc: Global,
    term: &Term,
    column: usize,
    bound: &mut Terms,
    links: &mut Links,
    codes: &mut Codes,
) -> Result<(), OutOfMemory>
    ensures linked { OnOk result
        (IsLinked codes.new bound.old term.now column links.old links.new) }
    ensures bound { OnOk result (bound.new ≡ bound.old ++ term.now ∷ []) }
    ensures grown { Grows codes.old codes.new }
{
    push_link(term, column, bound.items(), links, codes)?;
    push_copy(alloc, term, bound)
}

/// The filters of an atom's terms after the bound ones, which the terms are put after.
fn filters_of(
    alloc: Global,
    terms: &[Term],
    bound: &mut Terms,
    codes: &mut Codes,
) -> Result<Links, OutOfMemory>
    ensures filters { IfOk result (AreFilters codes.new bound.old terms.now) }
    ensures bound { OnOk result (bound.new ≡ bound.old ++ terms.now) }
    ensures grown { Grows codes.old codes.new }
{
    let mut links = List::new(alloc);
    'columns: for (column, term) in terms.iter().enumerate() {
        push_column(alloc, term, column, bound, &mut links, codes)?;
    }
    Ok(links)
}

/// Puts the get of the atom at the end, and its terms after the bound ones.
fn push_get(
    alloc: Global,
    atom: &Atom,
    gets: &mut Gets,
    bound: &mut Terms,
    codes: &mut Codes,
) -> Result<(), OutOfMemory>
    ensures get { OnOk result ((get : Get) × IsWholeGet codes.new bound.old atom.now get
        × (gets.new ≡ gets.old ++ get ∷ [])) }
    ensures bound { OnOk result (bound.new ≡ bound.old ++ atom.now.terms) }
    ensures grown { Grows codes.old codes.new }
{
    let filters = filters_of(alloc, atom.terms.items(), bound, codes)?;
    gets.push(Get {
        fragment: atom.relation,
        inputs: List::new(alloc),
        filters,
    })
}

/// The gets of the atoms, in order. Their terms are put after the bound ones, of which there are none.
fn gets_of(
    alloc: Global,
    body: &[Atom],
    bound: &mut Terms,
    codes: &mut Codes,
) -> Result<Gets, OutOfMemory>
    requires { bound.old ≡ [] }
    ensures gets { IfOk result (AreWholeGets codes.new [] body.now) }
    ensures bound { OnOk result (bound.new ≡ terms_of body.now) }
    ensures grown { Grows codes.old codes.new }
{
    let mut gets = List::new(alloc);
    'atoms: for atom in body {
        push_get(alloc, atom, &mut gets, bound, codes)?;
    }
    Ok(gets)
}

/// The sources of the head's terms, which are known.
fn head_of(
    alloc: Global,
    head: &[Term],
    bound: &[Term],
    codes: &mut Codes,
) -> Result<Sources, OutOfMemory>
    requires { (term : Term) → Contains head.now term → IsKnown bound.now term }
    ensures head { IfOk result (AllZip (IsSource codes.new bound.now) head.now) }
    ensures grown { Grows codes.old codes.new }
{
    let mut sources = List::new(alloc);
    'terms: for term in head {
        match source_of(term, bound, codes)? {
            Some(source) => sources.push(source)?,
            None => unreachable!(),
        }
    }
    Ok(sources)
}

/// The steps of the query of that head and body, whose terms are put into the list, which is empty.
fn steps_with(
    alloc: Global,
    head: &[Term],
    body: &[Atom],
    bound: &mut Terms,
    codes: &mut Codes,
) -> Result<Steps, OutOfMemory>
    requires none { bound.old ≡ [] }
    requires fixed { (term : Term) → Contains head.now term → IsFixedBy body.now term }
    ensures steps { IfOk result (AreWholeSteps codes.new
        (record { head = head.now; body = body.now })) }
    ensures grown { Grows codes.old codes.new }
{
    let gets = gets_of(alloc, body, bound, codes)?;
    let head = head_of(alloc, head, bound.items(), codes)?;
    Ok(Steps { gets, head })
}

/// The steps of the query of that head and body: for each atom a get of all rows of its relation, which are filtered
/// where a term is a constant or stands earlier, and the sources of the head. Constants get codes.
pub(crate) fn steps_of(
    alloc: Global,
    head: &[Term],
    body: &[Atom],
    codes: &mut Codes,
) -> Result<Steps, OutOfMemory>
    requires { (term : Term) → Contains head.now term → IsFixedBy body.now term }
    ensures steps { IfOk result (AreWholeSteps codes.new
        (record { head = head.now; body = body.now })) }
    ensures grown { Grows codes.old codes.new }
{
    let mut bound = List::new(alloc);
    steps_with(alloc, head, body, &mut bound, codes)
}
