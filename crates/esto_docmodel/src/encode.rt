//! The facts that are put, and the encoding of patterns.
ghost use Rattle.std.specs.Prelude.{◌≡◌, ◌≤◌, ◌+◌, suc, [], ◌∷◌, ◌++◌, length, map, IfOk, OnOk};
ghost use Rattle.esto_term.specs.declared.term.Term.TheVariants.{Const, Plain};
ghost use Rattle.esto_docmodel.specs.DocumentFacts.{flat};
ghost use Rattle.esto_docmodel.specs.Encodings.{atoms_of, atoms, end, step_atoms, used};
ghost use Rattle.esto_docmodel.specs.Gaining.{fact_over};
ghost use Rattle.esto_docmodel.specs.Shapes.{entries_of};

use crate::pattern::{Entry, Pattern, Step};
use esto_semantics::{Atoms, Fact, Facts};
use esto_term::{List, OutOfMemory, Replicate, Term, Terms, Text};
use std::alloc::Global;

/// The facts of documents, and the first number that is no node's.
#[derive(Drop)]
pub struct Encoded {
    pub facts: Facts,
    pub next: u64,
}

/// The atoms of a pattern, and the first number that is no variable's.
#[derive(Drop)]
pub struct EncodedAtoms {
    pub atoms: Atoms,
    pub next: u64,
}

/// The greatest number of a base, beyond which one of the five relations has no number.
pub const LAST_BASE: usize = usize::MAX - 4;

/// The number after that one. Want of memory is answered for the greatest, which no count of nodes comes to.
pub fn after(number: u64) -> Result<u64, OutOfMemory>
    ensures { IfOk result (λ it. it ≡ suc number) }
{
    match number.checked_add(1) {
        Some(it) => Ok(it),
        None => Err(OutOfMemory),
    }
}

// A node, in a list with room for so many terms.
fn one_term(alloc: Global, room: usize, node: u64) -> Result<Terms, OutOfMemory>
    ensures { IfOk result (λ it. it ≡ Plain node ∷ []) }
{
    let mut terms = List::with_room(alloc, room)?;
    terms.push(Term::Plain(node))?;
    Ok(terms)
}

/// Puts a fact over one node.
pub fn put_one(
    alloc: Global,
    facts: &mut Facts,
    relation: usize,
    node: u64,
) -> Result<(), OutOfMemory>
    ensures { OnOk result (facts.new ≡ facts.old ++ fact_over relation (Plain node ∷ []) ∷ []) }
{
    let terms = one_term(alloc, 1, node)?;
    facts.push(Fact { relation, terms })
}

// A node and a term, in a list with room for so many.
fn two_terms(alloc: Global, room: usize, node: u64, term: Term) -> Result<Terms, OutOfMemory>
    ensures { IfOk result (λ it. it ≡ Plain node ∷ term ∷ []) }
{
    let mut terms = one_term(alloc, room, node)?;
    terms.push(term)?;
    Ok(terms)
}

/// Puts a fact over a node and a term.
pub fn put_two(
    alloc: Global,
    facts: &mut Facts,
    relation: usize,
    node: u64,
    term: Term,
) -> Result<(), OutOfMemory>
    ensures { OnOk result (facts.new ≡ facts.old
        ++ fact_over relation (Plain node ∷ term ∷ []) ∷ []) }
{
    let terms = two_terms(alloc, 2, node, term)?;
    facts.push(Fact { relation, terms })
}

/// Puts a fact over a node, a name and another node.
pub fn put_named(
    alloc: Global,
    facts: &mut Facts,
    relation: usize,
    node: u64,
    name: &str,
    other: u64,
) -> Result<(), OutOfMemory>
    ensures { OnOk result (facts.new ≡ facts.old
        ++ fact_over relation (Plain node ∷ Const name.now ∷ Plain other ∷ []) ∷ []) }
{
    let name = Text::from_str(alloc, name)?;
    let mut terms = two_terms(alloc, 3, node, Term::Const(name))?;
    terms.push(Term::Plain(other))?;
    facts.push(Fact { relation, terms })
}

/// Puts the atom of a step.
fn put_step(
    alloc: Global,
    body: &mut Atoms,
    base: usize,
    step: &Step,
    from: u64,
    to: u64,
) -> Result<(), OutOfMemory>
    requires { base + 4 ≤ 18446744073709551615 }
    ensures { OnOk result (body.new ≡ body.old
        ++ map (flat base) (step_atoms (step.now ∷ []) from to)) }
{
    match step {
        Step::Name(name) => put_named(alloc, body, base + 1, from, name.as_str(), to),
        Step::Item => put_two(alloc, body, base + 2, from, Term::Plain(to)),
        Step::Below => put_two(alloc, body, base + 4, from, Term::Plain(to)),
    }
}

/// Puts the atoms of a path: its end, and the next variable.
fn put_path(
    alloc: Global,
    body: &mut Atoms,
    base: usize,
    path: &[Step],
    start: u64,
    first: u64,
) -> Result<(u64, u64), OutOfMemory>
    requires { base + 4 ≤ 18446744073709551615 }
    ensures atoms { OnOk result (body.new ≡ body.old
        ++ map (flat base) (step_atoms path.now start first)) }
    ensures numbers { IfOk result (λ it. it ≡ (end path.now start first, first + length path.now)) }
{
    let mut node = start;
    let mut next = first;
    'path: for step in path {
        put_step(alloc, body, base, step, node, next)?;
        node = next;
        next = after(next)?;
    }
    Ok((node, next))
}

// Puts the atom of a value.
fn put_term(
    alloc: Global,
    body: &mut Atoms,
    base: usize,
    node: u64,
    term: &Term,
) -> Result<(), OutOfMemory>
    requires { base + 4 ≤ 18446744073709551615 }
    ensures { OnOk result (body.new ≡ body.old
        ++ fact_over (base + 3) (Plain node ∷ term.now ∷ []) ∷ []) }
{
    let term = term.copy(alloc)?;
    put_two(alloc, body, base + 3, node, term)
}

/// Puts the atoms of an entry.
#[cycle(entry)]
fn put_entry(
    alloc: Global,
    body: &mut Atoms,
    base: usize,
    entry: &Entry,
    node: u64,
    next: u64,
) -> Result<u64, OutOfMemory>
    requires { base + 4 ≤ 18446744073709551615 }
    ensures atoms { OnOk result (body.new ≡ body.old
        ++ map (flat base) (atoms (entries_of (entry.now ∷ [])) node next)) }
    ensures next { IfOk result (λ it. it ≡ next + used (entries_of (entry.now ∷ []))) }
{
    match entry {
        Entry::Value(path, term) => {
            let (end, next) = put_path(alloc, body, base, path.items(), node, next)?;
            put_term(alloc, body, base, end, term)?;
            Ok(next)
        }
        Entry::Group(path, entries) => {
            let (end, next) = put_path(alloc, body, base, path.items(), node, next)?;
            put_entries(alloc, body, base, entries.items(), end, next)
        }
    }
}

/// Puts the atoms of entries.
#[cycle(entry)]
fn put_entries(
    alloc: Global,
    body: &mut Atoms,
    base: usize,
    entries: &[Entry],
    node: u64,
    first: u64,
) -> Result<u64, OutOfMemory>
    requires { base + 4 ≤ 18446744073709551615 }
    ensures atoms { OnOk result (body.new ≡ body.old
        ++ map (flat base) (atoms (entries_of entries.now) node first)) }
    ensures next { IfOk result (λ it. it ≡ first + used (entries_of entries.now)) }
{
    let mut next = first;
    'entries: for entry in entries {
        next = put_entry(alloc, body, base, entry, node, next)?;
    }
    Ok(next)
}

/// The atoms of a pattern with that root variable, numbered from `next` on.
fn with_root(
    alloc: Global,
    base: usize,
    pattern: &Pattern,
    root: u64,
    next: u64,
) -> Result<EncodedAtoms, OutOfMemory>
    requires { base + 4 ≤ 18446744073709551615 }
    ensures atoms { IfOk result (λ it.
        it.atoms ≡ atoms_of base (entries_of pattern.now.entries) root next) }
    ensures next { IfOk result (λ it. it.next ≡ next + used (entries_of pattern.now.entries)) }
{
    let mut atoms = List::new(alloc);
    put_one(alloc, &mut atoms, base, root)?;
    let next = put_entries(alloc, &mut atoms, base, pattern.entries.items(), root, next)?;
    Ok(EncodedAtoms { atoms, next })
}

/// The atoms of a pattern in the five relations from the base on: that the root variable is a document, and the entries
/// from there, in the order of the text. The nodes of path steps are numbered in that order from `next` on, and the
/// answer's `next` is the first number that is not used. What their matches mean says `encodings_mean_the_same`.
/// OutOfMemory comes too where a relation or a node has no number of 64 bits.
pub fn encode_pattern(
    alloc: Global,
    base: usize,
    pattern: &Pattern,
    root: u64,
    next: u64,
) -> Result<EncodedAtoms, OutOfMemory>
    ensures atoms { IfOk result (λ it.
        it.atoms ≡ atoms_of base (entries_of pattern.now.entries) root next) }
    ensures next { IfOk result (λ it. it.next ≡ next + used (entries_of pattern.now.entries)) }
{
    if base > LAST_BASE {
        return Err(OutOfMemory);
    }
    with_root(alloc, base, pattern, root, next)
}
