//! Fragments, and the rows of their views.
ghost use Rattle.std.specs.Prelude.{◌≡◌, ◌↔◌, List, Contains, AllPairs, IfOk};
ghost use Rattle.std.specs.Cmp.Lexicographic.{slice_cmp};
ghost use Rattle.std.specs.declared.cmp.Ordering.TheVariants.{Less};
ghost use Rattle.esto_term.specs.Order.{term_cmp};
ghost use Rattle.esto_term.specs.declared.term.Term.{Term};
ghost use Rattle.esto_term.specs.declared.term.Term.TheVariants.{Const};
ghost use Rattle.esto_semantics.specs.Queries.{IsAnswerInto};
ghost use Rattle.esto_query.specs.Making.{query_of};

use esto_query::{Facts, Query, answers};
use esto_term::{List, OutOfMemory, Replicate, TermRows, Text, Values};
use std::alloc::Global;

/// A way to read a fragment: for each column, whether it is an input, which has to be given before rows are read.
pub type Access = Values<bool>;

/// The ways in which a fragment may be read.
pub type AccessList = List<Access>;

/// A fragment: its name, the view whose rows it holds, in which ways it may be read, and what one use of it
/// weighs.
#[derive(Drop)]
pub struct FragmentDef {
    pub name: Text,
    pub view: Query,
    pub access: AccessList,
    pub weight: u64,
}

/// The fragments of a catalogue, numbered from 0.
pub type FragmentDefs = List<FragmentDef>;

impl Replicate for FragmentDef {
    fn copy(&self, alloc: Global) -> Result<FragmentDef, OutOfMemory> {
        Ok(FragmentDef {
            name: self.name.copy(alloc)?,
            access: self.access.copy(alloc)?,
            view: self.view.copy(alloc)?,
            weight: self.weight,
        })
    }
}

/// The rows of the fragment's view over the facts: each once, in the order of terms.
pub fn rows_of_view(
    alloc: Global,
    fragment: &FragmentDef,
    facts: &Facts,
) -> Result<TermRows, OutOfMemory>
    ensures rows { IfOk result (λ rows. (row : List Term) → Contains rows row
        ↔ IsAnswerInto Const (query_of fragment.now.view) (Contains facts.now) row) }
    ensures ascending { IfOk result (λ rows.
        AllPairs (λ row other. slice_cmp term_cmp row other ≡ Less) rows) }
{
    answers(alloc, &fragment.view, facts)
}
