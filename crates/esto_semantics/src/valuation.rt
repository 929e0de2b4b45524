//! Valuations.
ghost use Rattle.std.specs.Prelude.{◌≡◌, OnOk, OnErr};
ghost use Rattle.std.specs.Option.{option_copied};
ghost use Rattle.std.specs.FinMap as map;
ghost use Rattle.esto_term.specs.declared.term.Term.TheVariants.{Const};
ghost use Rattle.esto_semantics.specs.Maps.{Keeps};
ghost use Rattle.esto_semantics.specs.Valuations.{Assignment, Extends, map_of};

use esto_term::{List, OutOfMemory, Replicate, Term};
use std::alloc::Global;
use std::marker::Model;

/// The terms of some variables. Contracts see the finite map from the variables' numbers to their terms.
#[derive(Drop)]
pub struct Valuation {
    /// A later binding of a variable hides an earlier one.
    bindings: List<(u64, Term)>,
}

impl Model for Valuation {
    ghost use Rattle.std.specs.Prelude.{reverse};
    ghost use Rattle.std.specs.Ordering.{nat_cmp};
    ghost use Rattle.std.specs.FinMap as map;
    ghost use Rattle.std.specs.Coded.{coded_ℕ};
    ghost use Rattle.esto_term.specs.declared.term.Term.{Term};
    ghost use Rattle.esto_term.specs.contracts.term.Term as term;

    ghost Value = { map.FinMap nat_cmp Term };

    ghost coded = { map.code coded_ℕ term.the_row.coded };

    ghost view = { λ it. map.from_entries (reverse it.bindings) };
}

impl Valuation {
    /// The valuation of no variable.
    pub fn new(alloc: Global) -> Valuation
        ensures { result ≡ map.empty }
    {
        Valuation {
            bindings: List::new(alloc),
        }
    }

    /// The variable's term. None comes exactly where it has none.
    pub fn value(&self, variable: u64) -> Option<&Term>
        ensures { option_copied result ≡ map.get self.now variable }
    {
        let bindings = self.bindings.items();
        for at in (0..bindings.len()).rev() {
            let binding = &bindings[at];
            if binding.0 == variable {
                return Some(&binding.1);
            }
        }
        None
    }

    /// Gives the variable that term, in place of an earlier one.
    pub fn bind(&mut self, variable: u64, term: Term) -> Result<(), OutOfMemory>
        ensures ok { OnOk result (self.new ≡ map.insert self.old variable term) }
        ensures err { OnErr result (self.new ≡ self.old) }
    {
        self.bindings.push((variable, term))
    }
}

impl Replicate for Valuation {
    fn copy(&self, alloc: Global) -> Result<Valuation, OutOfMemory> {
        Ok(Valuation {
            bindings: self.bindings.copy(alloc)?,
        })
    }
}

/// A law: the map of a valuation keeps constants and extends the valuation.
pub fn valuations_are_maps()
    ensures keeps { (valuation : Assignment) → Keeps Const (map_of valuation) }
    ensures extends { (valuation : Assignment) → Extends (map_of valuation) valuation }
{}
