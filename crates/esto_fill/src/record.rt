//! The match of a rule as a record.
ghost use Rattle.std.specs.Prelude.{◌≡◌, ◌++◌, [], ◌∷◌, codes, map, IfOk, OnOk};
ghost use Rattle.std.specs.Fmt.{decimal};
ghost use Rattle.esto_constraint.specs.Constraints.{rule_of};
ghost use Rattle.esto_constraint.specs.EncodingRules.{written};
ghost use Rattle.esto_semantics.specs.Valuations.{map_of};
ghost use Rattle.esto_semantics.specs.Rules.{body_of};
ghost use Rattle.esto_fill.specs.Placing.{AddsNamed};
ghost use Rattle.esto_fill.specs.Records.{AreNamedVariables, IsRecordOf, cell_of, is_named, one_at_least};

use esto_constraint::{Constraint, body_of, value_of};
use esto_query::{Atoms, Name, Names};
use esto_semantics::Valuation;
use esto_term::{List, OutOfMemory, Replicate, Term, Terms, Text, TextRow, has_term};
use std::alloc::Global;

// The names of the rule's variables.
fn names_of(rule: &Constraint) -> &Names
    ensures { result.now ≡ written rule.now }
{
    match rule {
        Constraint::Tuple(rule) => &rule.names,
        Constraint::Equal(rule) => &rule.names,
        Constraint::Never(rule) => &rule.names,
    }
}

// Whether the term is a variable that has a given name.
fn is_named(names: &Names, term: &Term) -> bool
    ensures { result ≡ is_named names.now term.now }
{
    let Term::Plain(variable) = term else {
        return false;
    };
    let place = *variable as usize;
    if place >= names.len() {
        return false;
    }
    match names.item(place) {
        Name::Given(_) => true,
        Name::Hidden => false,
    }
}

// Puts the term at the end, if it is a variable that has a given name and it isn't there.
fn put_variable(
    alloc: Global,
    names: &Names,
    term: &Term,
    variables: &mut Terms,
) -> Result<(), OutOfMemory>
    ensures { OnOk result (AddsNamed names.now (term.now ∷ []) variables.old variables.new) }
{
    if !is_named(names, term) {
        return Ok(());
    }
    if has_term(variables.items(), term) {
        return Ok(());
    }
    let own = term.copy(alloc)?;
    variables.push(own)
}

// Puts the variables among the terms that have a given name at the end, each that isn't there, once.
fn put_variables(
    alloc: Global,
    names: &Names,
    terms: &[Term],
    variables: &mut Terms,
) -> Result<(), OutOfMemory>
    ensures { OnOk result (AddsNamed names.now terms.now variables.old variables.new) }
{
    'terms: for term in terms {
        put_variable(alloc, names, term, variables)?;
    }
    Ok(())
}

// The variables of the atoms that have a given name, each once, in order of first occurrence.
fn named_variables(alloc: Global, names: &Names, body: &Atoms) -> Result<Terms, OutOfMemory>
    ensures { IfOk result (AreNamedVariables names.now body.now) }
{
    let mut variables = List::new(alloc);
    'atoms: for atom in body.items() {
        put_variables(alloc, names, atom.terms.items(), &mut variables)?;
    }
    Ok(variables)
}

// A node: `#` and its number.
fn node_text(alloc: Global, node: u64) -> Result<Text, OutOfMemory>
    ensures { IfOk result (λ it. it ≡ codes "#" ++ decimal node) }
{
    match format!(in alloc; "#{node}") {
        Ok(text) => Text::from_str(alloc, text.as_str()),
        Err(_) => Err(OutOfMemory),
    }
}

// The cell of a value.
fn cell_of(alloc: Global, term: &Term) -> Result<Text, OutOfMemory>
    ensures { IfOk result (λ it. it ≡ cell_of term.now) }
{
    match term {
        Term::Const(text) => text.copy(alloc),
        Term::Plain(node) => node_text(alloc, *node),
        Term::Made(_, _, _) => Ok(Text::new(alloc)),
    }
}

// The cells of the variables' values.
fn cells_of(
    alloc: Global,
    valuation: &Valuation,
    variables: &[Term],
) -> Result<TextRow, OutOfMemory>
    ensures { IfOk result (λ it.
        it ≡ map (λ variable. cell_of (map_of valuation.now variable)) variables.now) }
{
    let mut cells = List::new(alloc);
    'variables: for variable in variables {
        let cell = cell_of(alloc, value_of(valuation, variable))?;
        cells.push(cell)?;
    }
    Ok(cells)
}

// The cells; one empty cell where there is none.
fn one_at_least(alloc: Global, cells: TextRow) -> Result<TextRow, OutOfMemory>
    ensures { IfOk result (λ it. it ≡ one_at_least cells) }
{
    if !cells.is_empty() {
        return Ok(cells);
    }
    let mut one = cells;
    one.push(Text::new(alloc))?;
    Ok(one)
}

/// The values that the valuation gives the variables of the rule's body that have a given name, in order of first
/// occurrence, as cells: a constant's text, and `#` with the number of a node; one empty cell where there is none.
pub fn record_of(
    alloc: Global,
    rule: &Constraint,
    valuation: &Valuation,
) -> Result<TextRow, OutOfMemory>
    ensures { IfOk result (IsRecordOf (written rule.now) (body_of (rule_of rule.now))
        (map_of valuation.now)) }
{
    let variables = named_variables(alloc, names_of(rule), body_of(rule))?;
    let cells = cells_of(alloc, valuation, variables.items())?;
    one_at_least(alloc, cells)
}
