//! The matches of a pattern in a tree.
ghost use Rattle.std.specs.Prelude.{◌≡◌, ◌↔◌, [], ◌∷◌, ◌<◌, suc, ℕ, List};
ghost use Rattle.std.specs.Prelude.{length, map, Contains, AllPairs, IfOk, OnOk};
ghost use Rattle.esto_term.specs.declared.term.Term.{Term};
ghost use Rattle.esto_term.specs.declared.term.Term.TheVariants.{Plain};
ghost use Rattle.esto_query.specs.Rows.{Adds, IsAscending};
ghost use Rattle.esto_semantics.specs.Valuations.{Assignment};
ghost use Rattle.esto_docmodel.specs.Asking.{IsAskedBy, all_but_below, asks_below};
ghost use Rattle.esto_docmodel.specs.Matching.{AreVariables, AreRows, head_of, IsEncoding, valuation_of};
ghost use Rattle.esto_docmodel.specs.Patterns.{done, Mentions};
ghost use Rattle.esto_docmodel.specs.Encodings.{kept_of};
ghost use Rattle.esto_docmodel.specs.Shapes.{documents, shape, entry_shape, entries_of};
ghost use Rattle.esto_docmodel.specs.Valuations.{HaveFlatTerms, AreMatches, BindsVariables, GivesTexts, ComesBefore};

use crate::documents::document_facts;
use crate::encode::{after, encode_pattern};
use crate::kept::{Kept, KeptTexts};
use crate::pattern::{Entry, Pattern};
use crate::tree::Tree;
use esto_query::{Name, Names, Query, answers};
use esto_semantics::{Atom, Facts, Valuation};
use esto_term::{List, OutOfMemory, Replicate, Term, TermRows, Terms, Text, push};
use std::alloc::Global;

/// A list of valuations.
pub type Valuations = List<Valuation>;

/// The number of the relation of `below`, where the five stand from 0 on.
const BELOW: usize = 4;

/// A pattern as a query for the terms of its variables, in the order of their numbers.
#[derive(Drop)]
pub struct AskedPattern {
    pub variables: Vec<u64>,
    pub query: Query,
}

/// Puts the term's number, where it is a variable.
fn put_variable(variables: &mut Vec<u64>, term: &Term) -> Result<(), OutOfMemory>
    ensures { OnOk result (Adds variables.old.items variables.new.items
        (λ variable. term.now ≡ Plain variable)) }
{
    let Term::Plain(variable) = term else {
        return Ok(());
    };
    push(variables, *variable)
}

/// Puts the variables that stand after `:` in the entry.
#[cycle(variables)]
fn put_variables_of(variables: &mut Vec<u64>, entry: &Entry) -> Result<(), OutOfMemory>
    ensures { OnOk result (Adds variables.old.items variables.new.items
        (λ variable. Mentions (entry_shape entry.now done) (Plain variable))) }
{
    match entry {
        Entry::Value(_, term) => put_variable(variables, term),
        Entry::Group(_, inner) => put_variables(variables, inner.items()),
    }
}

/// Puts the variables that stand after `:` in the entries.
#[cycle(variables)]
fn put_variables(variables: &mut Vec<u64>, entries: &[Entry]) -> Result<(), OutOfMemory>
    ensures { OnOk result (Adds variables.old.items variables.new.items
        (λ variable. Mentions (entries_of entries.now) (Plain variable))) }
{
    'entries: for entry in entries {
        put_variables_of(variables, entry)?;
    }
    Ok(())
}

/// Sorts the numbers, and keeps each once.
fn sort_unique(numbers: &mut Vec<u64>) -> Result<(), OutOfMemory>
    ensures ascending { OnOk result (AllPairs ◌<◌ numbers.new.items) }
    ensures same { OnOk result ((number : ℕ)
        → Contains numbers.new.items number ↔ Contains numbers.old.items number) }
{
    let Ok(()) = numbers.sort() else {
        return Err(OutOfMemory);
    };
    numbers.dedup();
    Ok(())
}

/// The variables that stand after `:`, in the order of their numbers.
fn variables_of(alloc: Global, pattern: &Pattern) -> Result<Vec<u64>, OutOfMemory>
    ensures ascending { IfOk result (λ it. AllPairs ◌<◌ it.items) }
    ensures variables { IfOk result (λ it.
        AreVariables (entries_of pattern.now.entries) it.items) }
{
    let mut variables = Vec::new(alloc);
    put_variables(&mut variables, pattern.entries.items())?;
    sort_unique(&mut variables)?;
    Ok(variables)
}

/// A number that is greater than these.
fn greater(numbers: &[u64]) -> Result<u64, OutOfMemory>
    ensures { IfOk result (λ it. (number : ℕ) → Contains numbers.now number → number < it) }
{
    let mut bound = 0;
    'numbers: for number in numbers {
        let next = after(*number)?;
        bound = next.max(bound);
    }
    Ok(bound)
}

/// So many variables without a name.
fn hidden(alloc: Global, count: u64) -> Result<Names, OutOfMemory>
    ensures { IfOk result (λ it. length it ≡ count) }
{
    let mut names = List::new(alloc);
    'names: for _number in 0..count {
        names.push(Name::Hidden)?;
    }
    Ok(names)
}

/// The head that asks for the variables' terms.
fn head_of(alloc: Global, variables: &[u64]) -> Result<Terms, OutOfMemory>
    ensures { IfOk result (λ it. it ≡ head_of variables.now) }
{
    let mut head = List::new(alloc);
    head.push(Term::Const(Text::new(alloc)))?;
    'variables: for variable in variables {
        head.push(Term::Plain(*variable))?;
    }
    Ok(head)
}

/// The pattern as a query for its variables' terms.
fn query_of(alloc: Global, pattern: &Pattern, variables: &[u64]) -> Result<Query, OutOfMemory>
    requires flat { HaveFlatTerms (entries_of pattern.now.entries) }
    requires variables { AreVariables (entries_of pattern.now.entries) variables.now }
    ensures head { IfOk result (λ query. query.head ≡ head_of variables.now) }
    ensures body { IfOk result (λ query. IsEncoding (entries_of pattern.now.entries) query.body) }
{
    let root = greater(variables)?;
    let next = after(root)?;
    let encoded = encode_pattern(alloc, 0, pattern, root, next)?;
    let names = hidden(alloc, encoded.next)?;
    let head = head_of(alloc, variables)?;
    Ok(Query {
        head,
        body: encoded.atoms,
        names,
    })
}

// Whether an atom asks which nodes stand below others.
fn asks_below(body: &[Atom]) -> bool
    ensures { result ≡ asks_below body.now }
{
    body.iter().any(|atom| atom.relation == BELOW)
}

// The facts of the tree that the atoms of a pattern can go to: all, but those of `below` only where an atom asks for
// them.
fn facts_for(alloc: Global, body: &[Atom], tree: &Tree) -> Result<Facts, OutOfMemory>
    ensures { IfOk result (λ facts. facts
        ≡ kept_of (all_but_below (asks_below body.now)) 0 (documents (tree.now ∷ []))) }
{
    let kept = Kept {
        base: 0,
        root: true,
        field: KeptTexts::Every,
        item: true,
        value: KeptTexts::Every,
        below: asks_below(body),
    };
    document_facts(alloc, &kept, tree)
}

// The pattern as a query for these variables' terms.
fn asked_for(
    alloc: Global,
    pattern: &Pattern,
    variables: Vec<u64>,
) -> Result<AskedPattern, OutOfMemory>
    requires flat { HaveFlatTerms (entries_of pattern.now.entries) }
    requires ascending { AllPairs ◌<◌ variables.items }
    requires variables { AreVariables (entries_of pattern.now.entries) variables.items }
    ensures { IfOk result (IsAskedBy (entries_of pattern.now.entries)) }
{
    let query = query_of(alloc, pattern, variables.as_slice())?;
    Ok(AskedPattern { variables, query })
}

/// The pattern as a query, which is made once for many trees.
pub fn ask_pattern(alloc: Global, pattern: &Pattern) -> Result<AskedPattern, OutOfMemory>
    requires { HaveFlatTerms (entries_of pattern.now.entries) }
    ensures { IfOk result (IsAskedBy (entries_of pattern.now.entries)) }
{
    let variables = variables_of(alloc, pattern)?;
    asked_for(alloc, pattern, variables)
}

// The rows of the query's head under the maps that match the pattern in the tree, each once, in the order of terms.
fn rows_of(
    alloc: Global,
    pattern: &Pattern,
    asked: &AskedPattern,
    tree: &Tree,
) -> Result<TermRows, OutOfMemory>
    requires { IsAskedBy (entries_of pattern.now.entries) asked.now }
    ensures rows { IfOk result
        (AreRows (entries_of pattern.now.entries) (shape tree.now) asked.now.variables.items) }
    ensures ascending { IfOk result IsAscending }
{
    let facts = facts_for(alloc, asked.query.body.items(), tree)?;
    answers(alloc, &asked.query, &facts)
}

/// The valuation of a row of that head.
fn valuation_of(alloc: Global, variables: &[u64], row: &[Term]) -> Result<Valuation, OutOfMemory>
    requires { length row.now ≡ suc (length variables.now) }
    ensures { IfOk result (λ it. it ≡ valuation_of variables.now row.now) }
{
    let mut valuation = Valuation::new(alloc);
    'variables: for (place, variable) in variables.iter().enumerate() {
        let term = row[place + 1].copy(alloc)?;
        valuation.bind(*variable, term)?;
    }
    Ok(valuation)
}

/// The valuations of rows of that head, in order.
fn valuations_of(
    alloc: Global,
    variables: &[u64],
    rows: &[Terms],
) -> Result<Valuations, OutOfMemory>
    requires { (row : List Term) → Contains rows.now row → length row ≡ suc (length variables.now) }
    ensures { IfOk result (λ it. it ≡ map (valuation_of variables.now) rows.now) }
{
    let mut valuations = List::new(alloc);
    'rows: for row in rows {
        let valuation = valuation_of(alloc, variables, row.items())?;
        valuations.push(valuation)?;
    }
    Ok(valuations)
}

/// The same as `match_pattern`, with the pattern's query, which is made once for many trees.
pub fn match_asked(
    alloc: Global,
    pattern: &Pattern,
    asked: &AskedPattern,
    tree: &Tree,
) -> Result<Valuations, OutOfMemory>
    requires { IsAskedBy (entries_of pattern.now.entries) asked.now }
    ensures matches { IfOk result (AreMatches (entries_of pattern.now.entries) (shape tree.now)) }
    ensures variables { IfOk result (λ valuations. (valuation : Assignment)
        → Contains valuations valuation
        → BindsVariables (entries_of pattern.now.entries) valuation) }
    ensures texts { IfOk result (λ valuations. (valuation : Assignment)
        → Contains valuations valuation → GivesTexts valuation) }
    ensures ascending { IfOk result (AllPairs ComesBefore) }
{
    let rows = rows_of(alloc, pattern, asked, tree)?;
    valuations_of(alloc, asked.variables.as_slice(), rows.items())
}

/// The matches of a pattern in a tree by the pattern's own meaning: each once, as a valuation that gives a text to each
/// variable after `:` and a term to no other variable, in the order of the texts of the variables in the order of their
/// numbers. A map that keeps constants matches the pattern exactly where it extends one of them. OutOfMemory comes too
/// where a variable or a node has no number of 64 bits; and memory is taken for as many names as the greatest number of
/// a variable. Source: tree patterns as conjunctive queries over the facts of the tree.
pub fn match_pattern(
    alloc: Global,
    pattern: &Pattern,
    tree: &Tree,
) -> Result<Valuations, OutOfMemory>
    requires { HaveFlatTerms (entries_of pattern.now.entries) }
    ensures matches { IfOk result (AreMatches (entries_of pattern.now.entries) (shape tree.now)) }
    ensures variables { IfOk result (λ valuations. (valuation : Assignment)
        → Contains valuations valuation
        → BindsVariables (entries_of pattern.now.entries) valuation) }
    ensures texts { IfOk result (λ valuations. (valuation : Assignment)
        → Contains valuations valuation → GivesTexts valuation) }
    ensures ascending { IfOk result (AllPairs ComesBefore) }
{
    let asked = ask_pattern(alloc, pattern)?;
    match_asked(alloc, pattern, &asked, tree)
}
