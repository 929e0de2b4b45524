//! The variables of terms that have no name, in the order in which they are printed first.
ghost use Rattle.std.specs.Prelude.{◌≡◌, slice_get, OnOk};
ghost use Rattle.esto_term.specs.declared.term.Term.{out-Term};
ghost use Rattle.esto_views.specs.Names.{has_number, is_given, met_level, met_terms, met_variable};

use esto_query::{Name, Names};
use esto_term::{OutOfMemory, Term, Values};

// Whether the variable has a given name.
fn has_name(names: &Names, variable: u64) -> bool
    ensures { result ≡ is_given (slice_get names.now variable) }
{
    let place = variable as usize;
    if place >= names.len() {
        return false;
    }
    match names.item(place) {
        Name::Given(_) => true,
        Name::Hidden => false,
    }
}

// Whether the number is one of these.
fn is_met(met: &[u64], number: u64) -> bool
    ensures { result ≡ has_number met.now number }
{
    'numbers: for other in met {
        if *other == number {
            return true;
        }
    }
    false
}

// Notes a variable, where it has no name and wasn't met.
fn meet_variable(names: &Names, met: &mut Values<u64>, variable: u64) -> Result<(), OutOfMemory>
    ensures { OnOk result (met.new ≡ met_variable names.now met.old variable) }
{
    if has_name(names, variable) || is_met(met.items(), variable) {
        return Ok(());
    }
    met.push(variable)
}

// Notes the variable of a term, where it has no name and wasn't met.
fn meet_term(names: &Names, met: &mut Values<u64>, term: &Term) -> Result<(), OutOfMemory>
    ensures { OnOk result (met.new ≡ met_level names.now met.old (out-Term term.now)) }
{
    match term {
        Term::Const(_) => Ok(()),
        Term::Plain(variable) => meet_variable(names, met, *variable),
        Term::Made(_, _, _) => Ok(()),
    }
}

/// Notes the variables of terms that have no name and weren't met.
pub fn meet_terms(names: &Names, met: &mut Values<u64>, terms: &[Term]) -> Result<(), OutOfMemory>
    ensures { OnOk result (met.new ≡ met_terms names.now met.old terms.now) }
{
    'terms: for term in terms {
        meet_term(names, met, term)?;
    }
    Ok(())
}
