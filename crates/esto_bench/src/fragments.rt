//! The fragments of the made case, and where they are stored.
ghost use Rattle.std.specs.Prelude.{◌≡◌, ◌++◌, ◌∷◌, [], ℕ, codes, IfOk, OnOk};
ghost use Rattle.esto_query.specs.Making.{query_of};
ghost use Rattle.esto_term.specs.declared.term.Term.TheVariants.{Plain};
ghost use Rattle.esto_bench.specs.Case.{made_columns, made_store, made_stores, made_view, numbered, without_inputs};
ghost use Rattle.esto_bench.specs.Made.{AddsBoth, AddsMade, AreMadeFragments, IsMadeFragment};

use esto_mapping::{Shape, Store, Stores};
use esto_query::{Name, Names, Query};
use esto_semantics::{Atom, Atoms, Fact};
use esto_term::{List, OutOfMemory, Term, Terms, Text, TextRow, Values};
use esto_views::{AccessList, FragmentDef, FragmentDefs};
use std::alloc::Global;

/// The name that is the letter and the number, counted from 1.
pub fn numbered(alloc: Global, letter: &str, number: usize) -> Result<Text, OutOfMemory>
    ensures { IfOk result (λ it. it ≡ numbered letter.now number) }
{
    let next = number as u128 + 1;
    let name = format!(in alloc; "{letter}{next}")?;
    Text::from_str(alloc, name.as_str())
}

// Puts the text at the end.
fn push_text(alloc: Global, texts: &mut TextRow, text: &str) -> Result<(), OutOfMemory>
    ensures { OnOk result (texts.new ≡ texts.old ++ text.now ∷ []) }
{
    let text = Text::from_str(alloc, text)?;
    texts.push(text)
}

/// The columns of each table.
pub fn made_columns(alloc: Global) -> Result<TextRow, OutOfMemory>
    ensures { IfOk result (λ it. it ≡ made_columns) }
{
    let mut columns = List::new(alloc);
    push_text(alloc, &mut columns, "x")?;
    push_text(alloc, &mut columns, "y")?;
    Ok(columns)
}

/// Two variables.
pub fn two_variables(alloc: Global, first: u64, second: u64) -> Result<Terms, OutOfMemory>
    ensures { IfOk result (λ it. it ≡ Plain first ∷ Plain second ∷ []) }
{
    let mut terms = List::new(alloc);
    terms.push(Term::Plain(first))?;
    terms.push(Term::Plain(second))?;
    Ok(terms)
}

// An atom over the relation and two variables.
fn atom_of(alloc: Global, relation: usize, first: u64, second: u64) -> Result<Atom, OutOfMemory>
    ensures { IfOk result (λ it. it
        ≡ record { relation = relation; terms = Plain first ∷ Plain second ∷ [] }) }
{
    let terms = two_variables(alloc, first, second)?;
    Ok(Fact { relation, terms })
}

/// Puts an atom over the relation and two variables at the end.
pub fn push_atom(
    alloc: Global,
    atoms: &mut Atoms,
    relation: usize,
    first: u64,
    second: u64,
) -> Result<(), OutOfMemory>
    ensures { OnOk result (atoms.new ≡ atoms.old
        ++ record { relation = relation; terms = Plain first ∷ Plain second ∷ [] } ∷ []) }
{
    let atom = atom_of(alloc, relation, first, second)?;
    atoms.push(atom)
}

// Puts the name that the text gives at the end.
fn push_name(alloc: Global, names: &mut Names, text: &str) -> Result<(), OutOfMemory>
    ensures { OnOk result (names.new ≡ names.old ++ Name.Given text.now ∷ []) }
{
    let text = Text::from_str(alloc, text)?;
    names.push(Name::Given(text))
}

// The names of the view's variables.
fn view_names(alloc: Global) -> Result<Names, OutOfMemory>
    ensures { IfOk result (λ it. it ≡ Name.Given (codes "x") ∷ Name.Given (codes "y") ∷ []) }
{
    let mut names = List::new(alloc);
    push_name(alloc, &mut names, "x")?;
    push_name(alloc, &mut names, "y")?;
    Ok(names)
}

// The one atom of the view of the relation.
fn view_body(alloc: Global, relation: usize) -> Result<Atoms, OutOfMemory>
    ensures { IfOk result (λ it. it ≡ (made_view relation).body) }
{
    let mut body = List::new(alloc);
    push_atom(alloc, &mut body, relation, 0, 1)?;
    Ok(body)
}

// The view of both fragments of the relation.
fn view_of(alloc: Global, relation: usize) -> Result<Query, OutOfMemory>
    ensures { IfOk result (λ it. query_of it ≡ made_view relation) }
{
    let head = two_variables(alloc, 0, 1)?;
    let names = view_names(alloc)?;
    let body = view_body(alloc, relation)?;
    Ok(Query { head, body, names })
}

// The one binding pattern, without inputs.
fn without_inputs(alloc: Global) -> Result<AccessList, OutOfMemory>
    ensures { IfOk result (λ it. (relation : ℕ) → it ≡ without_inputs relation) }
{
    let mut access = List::new(alloc);
    let pattern = Values::from_slice(alloc, &[false, false])?;
    access.push(pattern)?;
    Ok(access)
}

// The fragment of the letter over the relation.
fn fragment_of(
    alloc: Global,
    letter: &str,
    relation: usize,
    weight: u64,
) -> Result<FragmentDef, OutOfMemory>
    ensures { IfOk result (IsMadeFragment letter.now relation weight) }
{
    let name = numbered(alloc, letter, relation)?;
    let access = without_inputs(alloc)?;
    let view = view_of(alloc, relation)?;
    Ok(FragmentDef {
        name,
        view,
        access,
        weight,
    })
}

// Puts the fragment of the letter over the relation at the end.
fn push_fragment(
    alloc: Global,
    fragments: &mut FragmentDefs,
    letter: &str,
    relation: usize,
    weight: u64,
) -> Result<(), OutOfMemory>
    ensures { OnOk result (AddsMade letter.now relation weight fragments.old fragments.new) }
{
    let fragment = fragment_of(alloc, letter, relation, weight)?;
    fragments.push(fragment)
}

// Puts both fragments of the relation at the end.
fn add_both(alloc: Global, fragments: &mut FragmentDefs, relation: usize) -> Result<(), OutOfMemory>
    ensures { OnOk result (AddsBoth relation fragments.old fragments.new) }
{
    push_fragment(alloc, fragments, "A", relation, 1)?;
    push_fragment(alloc, fragments, "B", relation, 2)
}

/// The fragments over so many relations.
pub fn made_fragments(alloc: Global, size: usize) -> Result<FragmentDefs, OutOfMemory>
    ensures { IfOk result (AreMadeFragments size) }
{
    let mut fragments = List::new(alloc);
    'relations: for relation in 0..size {
        add_both(alloc, &mut fragments, relation)?;
    }
    Ok(fragments)
}

// Where the fragment of the letter over the relation is stored.
fn store_of(alloc: Global, letter: &str, relation: usize) -> Result<Store, OutOfMemory>
    ensures { IfOk result (λ it. it ≡ made_store letter.now relation) }
{
    let file = numbered(alloc, letter, relation)?;
    let columns = made_columns(alloc)?;
    Ok(Store {
        shape: Shape::Table(columns),
        file,
    })
}

// Puts the store of the fragment of the letter over the relation at the end.
fn push_store(
    alloc: Global,
    stores: &mut Stores,
    letter: &str,
    relation: usize,
) -> Result<(), OutOfMemory>
    ensures { OnOk result (stores.new ≡ stores.old ++ made_store letter.now relation ∷ []) }
{
    let store = store_of(alloc, letter, relation)?;
    stores.push(store)
}

// Puts the stores of both fragments of the relation at the end.
fn add_stores(alloc: Global, stores: &mut Stores, relation: usize) -> Result<(), OutOfMemory>
    ensures { OnOk result (stores.new ≡ stores.old
        ++ made_store (codes "A") relation ∷ made_store (codes "B") relation ∷ []) }
{
    push_store(alloc, stores, "A", relation)?;
    push_store(alloc, stores, "B", relation)
}

/// The stores of the fragments over so many relations.
#[tactic(auto, using(crate::proofs::BothLemmas::both_more))]
pub fn made_stores(alloc: Global, size: usize) -> Result<Stores, OutOfMemory>
    ensures { IfOk result (λ it. it ≡ made_stores size) }
{
    let mut stores = List::new(alloc);
    'relations: for relation in 0..size {
        add_stores(alloc, &mut stores, relation)?;
    }
    Ok(stores)
}
