//! The inner variables of a view.
ghost use Rattle.std.specs.Prelude.{◌↔◌, IsTrue, IfOk};
ghost use Rattle.esto_term.specs.declared.term.Term.TheVariants.{Plain};
ghost use Rattle.esto_semantics.specs.Expansions.{IsInner};
ghost use Rattle.esto_query.specs.Making.{query_of};
ghost use Rattle.esto_semantics.specs.Spreads.{AreInner};

use esto_query::{Query, mentions, queries_are_sound};
use esto_term::{OutOfMemory, Term, Values, has_term};
use std::alloc::Global;

/// Whether the variable is in the view's body, and not in its head.
fn is_inner(view: &Query, variable: u64) -> bool
    ensures { IsTrue result ↔ IsInner (query_of view.now) (Plain variable) }
{
    let term = Term::Plain(variable);
    mentions(view.body.items(), &term) && !has_term(view.head.items(), &term)
}

/// The inner variables of the view, in rising order.
pub fn inner_variables(alloc: Global, view: &Query) -> Result<Values<u64>, OutOfMemory>
    ensures { IfOk result (λ variables. AreInner (query_of view.now) variables) }
{
    queries_are_sound();
    let mut variables = Values::new(alloc);
    'variables: for variable in 0..view.names.len() as u64 {
        if is_inner(view, variable) {
            variables.push(variable)?;
        }
    }
    Ok(variables)
}
