//! Which facts are wanted.
ghost use Rattle.std.specs.Prelude.{◌≡◌, [], ◌∷◌, ◌++◌, true, false, map, IfOk, OnOk};
ghost use Rattle.std.specs.List.{list_any};
ghost use Rattle.esto_docmodel.specs.declared.kept.KeptTexts.TheVariants as texts;
ghost use Rattle.esto_query.specs.Making.{query_of};
ghost use Rattle.esto_fill.specs.Wanted.{Admits, AdmitsAll, AdmitsMore, IsKeptFor, MeetsWant, is_wanted, names};
ghost use Rattle.esto_fill.specs.declared.wanted.Wanted.TheVariants as wanted;

use esto_docmodel::{Kept, KeptTexts};
use esto_query::Query;
use esto_semantics::{Atom, Atoms, Facts};
use esto_term::{List, OutOfMemory, Replicate, Term, Text};
use std::alloc::Global;

/// Bodies of queries and parts of rules.
pub type Bodies = List<Atoms>;

/// Which facts are wanted.
#[derive(Drop)]
pub enum Wanted {
    /// All facts.
    Every,
    /// Those to which some atom of these bodies can go.
    Asked(List<Atoms>),
}

// Whether one of the atoms is over the relation.
fn names(body: &[Atom], relation: usize) -> bool
    ensures { result ≡ names relation body.now }
{
    'atoms: for atom in body {
        if atom.relation == relation {
            return true;
        }
    }
    false
}

// Whether one of the bodies has an atom over the relation.
fn one_names(bodies: &[Atoms], relation: usize) -> bool
    ensures { result ≡ list_any (names relation) bodies.now }
{
    'bodies: for body in bodies {
        if names(body.items(), relation) {
            return true;
        }
    }
    false
}

impl Wanted {
    /// Whether facts of the relation are wanted.
    pub fn has(&self, relation: usize) -> bool
        ensures { result ≡ is_wanted self.now relation }
    {
        match self {
            Wanted::Every => true,
            Wanted::Asked(bodies) => one_names(bodies.items(), relation),
        }
    }
}

/// Puts the body at the end.
pub fn add_body(alloc: Global, body: &Atoms, bodies: &mut Bodies) -> Result<(), OutOfMemory>
    ensures { OnOk result (bodies.new ≡ bodies.old ++ body.now ∷ []) }
{
    let own = body.copy(alloc)?;
    bodies.push(own)
}

/// The facts to which an atom of the body can go.
pub fn wanted_by_body(alloc: Global, body: &Atoms) -> Result<Wanted, OutOfMemory>
    ensures { IfOk result (λ it. it ≡ wanted.Asked (body.now ∷ [])) }
{
    let mut bodies = List::new(alloc);
    add_body(alloc, body, &mut bodies)?;
    Ok(Wanted::Asked(bodies))
}

/// The facts to which an atom of one of the queries can go.
pub fn wanted_by_queries(alloc: Global, queries: &[Query]) -> Result<Wanted, OutOfMemory>
    ensures { IfOk result (λ it. it
        ≡ wanted.Asked (map (λ query. (query_of query).body) queries.now)) }
{
    let mut bodies = List::new(alloc);
    'queries: for query in queries {
        add_body(alloc, &query.body, &mut bodies)?;
    }
    Ok(Wanted::Asked(bodies))
}

// The texts, and this one too.
fn with_text(alloc: Global, text: &Text, texts: KeptTexts) -> Result<KeptTexts, OutOfMemory>
    ensures { IfOk result (AdmitsMore text.now texts) }
{
    if texts.has(text.as_str()) {
        return Ok(texts);
    }
    match texts {
        KeptTexts::Every => Ok(KeptTexts::Every),
        KeptTexts::These(some) => {
            let own = text.copy(alloc)?;
            let mut more = some;
            more.push(own)?;
            Ok(KeptTexts::These(more))
        }
    }
}

// The texts, and that of the constant at the second place of the atom, if it is over the relation: each text where another
// term stands there.
fn with_atom(
    alloc: Global,
    atom: &Atom,
    relation: usize,
    texts: KeptTexts,
) -> Result<KeptTexts, OutOfMemory>
    ensures { IfOk result (Admits relation (atom.now ∷ []) texts) }
{
    if atom.relation != relation {
        return Ok(texts);
    }
    if atom.terms.len() < 2 {
        return Ok(KeptTexts::Every);
    }
    match atom.terms.item(1) {
        Term::Const(text) => with_text(alloc, text, texts),
        Term::Plain(_) => Ok(KeptTexts::Every),
        Term::Made(_, _, _) => Ok(KeptTexts::Every),
    }
}

// The texts, and those at the second place of the atoms that are over the relation.
fn with_body(
    alloc: Global,
    body: &[Atom],
    relation: usize,
    texts: KeptTexts,
) -> Result<KeptTexts, OutOfMemory>
    ensures { IfOk result (Admits relation body.now texts) }
{
    let mut all = texts;
    'atoms: for atom in body {
        all = with_atom(alloc, atom, relation, all)?;
    }
    Ok(all)
}

// The texts at the second place of the atoms of the bodies that are over the relation.
fn texts_in(alloc: Global, bodies: &[Atoms], relation: usize) -> Result<KeptTexts, OutOfMemory>
    ensures { IfOk result (AdmitsAll relation bodies.now) }
{
    let mut texts = KeptTexts::These(List::new(alloc));
    'bodies: for body in bodies {
        texts = with_body(alloc, body.items(), relation, texts)?;
    }
    Ok(texts)
}

// The texts at the second place of facts of the relation that are wanted: none where the relation is not wanted.
fn wanted_texts(alloc: Global, wanted: &Wanted, relation: usize) -> Result<KeptTexts, OutOfMemory>
    ensures { IfOk result (MeetsWant wanted.now relation) }
{
    match wanted {
        Wanted::Every => Ok(KeptTexts::Every),
        Wanted::Asked(bodies) => {
            if one_names(bodies.items(), relation) {
                return texts_in(alloc, bodies.items(), relation);
            }
            Ok(KeptTexts::These(List::new(alloc)))
        }
    }
}

/// What is kept of the facts of documents, whose five relations have the numbers from `base` on: those of each wanted
/// relation; but of `field` and of `value`, where each wanted atom over it has a constant at the second place, those
/// with one of these texts alone. OutOfMemory comes too where a relation has no number of 64 bits.
pub fn kept_for(alloc: Global, wanted: &Wanted, base: usize) -> Result<Kept, OutOfMemory>
    ensures { IfOk result (IsKeptFor wanted.now base) }
{
    let Some(last) = base.checked_add(4) else {
        return Err(OutOfMemory);
    };
    let field = wanted_texts(alloc, wanted, base + 1)?;
    let value = wanted_texts(alloc, wanted, base + 3)?;
    Ok(Kept {
        base,
        root: wanted.has(base),
        field,
        item: wanted.has(base + 2),
        value,
        below: wanted.has(last),
    })
}

/// The facts, which are of one relation, where it is wanted; else none.
pub fn if_wanted(alloc: Global, wanted: &Wanted, relation: usize, facts: Facts) -> Facts
    ensures kept { (is_wanted wanted.now relation ≡ true) → result ≡ facts }
    ensures none { (is_wanted wanted.now relation ≡ false) → result ≡ [] }
{
    if wanted.has(relation) {
        return facts;
    }
    List::new(alloc)
}
