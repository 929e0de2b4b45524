//! Entries with their groups.
ghost use Rattle.std.specs.Prelude.{◌≡◌, ◌++◌, ◌∷◌, [], ◌↔◌, length, IsTrue, IfOk, OnOk};
ghost use Rattle.esto_chase_laws.specs.Worlds.{AreOfCount};
ghost use Rattle.esto_chase_laws.specs.declared.entry.Claim.TheVariants.{Fact as Stated, Same};
ghost use Rattle.esto_known.specs.Indexes.{CoversClaim};
ghost use Rattle.esto_known.specs.Groups.{AreGroups};

use crate::groups::Groups;
use esto_bits::RowBits;
use esto_chase_laws::{Claim, Entry};
use esto_semantics::Atom;
use esto_term::{List, OutOfMemory, Term};
use std::alloc::Global;
use std::marker::Model;

/// Entries, in the order in which they came, and their groups. Contracts see the list of the entries. Where memory was
/// wanting, there are none from then on.
#[derive(Drop)]
pub struct Known {
    entries: List<Entry>,
    groups: Groups,
}

impl Model for Known {
    ghost use Rattle.std.specs.Prelude.{List};
    ghost use Rattle.std.specs.Coded.{coded_list};
    ghost use Rattle.esto_chase_laws.specs.contracts.entry.Entry as entry;
    ghost use Rattle.esto_chase_laws.specs.declared.entry.Entry.{Entry};
    ghost use Rattle.esto_known.specs.Groups.{AreGroups};

    ghost Value = { List Entry };

    ghost coded = { coded_list entry.the_row.coded };

    ghost view = { λ it. it.entries };

    ghost invariant = { λ it. AreGroups it.entries it.groups };
}

/// Puts an entry at the end, and into the group of its claim.
fn push(
    alloc: Global,
    entry: Entry,
    entries: &mut List<Entry>,
    groups: &mut Groups,
) -> Result<(), OutOfMemory>
    requires groups { AreGroups entries.old groups.old }
    requires counts { AreOfCount (length entry.product) entries.old }
    ensures entries { OnOk result (entries.new ≡ entries.old ++ entry ∷ []) }
    ensures groups { OnOk result (AreGroups entries.new groups.new) }
{
    entries.push(entry)?;
    let place = entries.len() - 1;
    groups.take(alloc, &entries.items()[..place], entries.item(place))
}

impl Known {
    /// No entries.
    pub fn new(alloc: Global) -> Result<Known, OutOfMemory>
        ensures { IfOk result (λ it. it ≡ []) }
    {
        let groups = Groups::new(alloc)?;
        Ok(Known {
            entries: List::new(alloc),
            groups,
        })
    }

    /// Puts an entry at the end.
    pub fn push(&mut self, alloc: Global, entry: Entry) -> Result<(), OutOfMemory>
        requires { AreOfCount (length entry.product) self.old }
        ensures { OnOk result (self.new ≡ self.old ++ entry ∷ []) }
    {
        let pushed = push(alloc, entry, &mut self.entries, &mut self.groups);
        if pushed.is_err() {
            self.entries.truncate(0);
            self.groups.clear();
        }
        pushed
    }

    /// The entries.
    pub fn items(&self) -> &[Entry]
        ensures { result.now ≡ self.now }
    {
        self.entries.items()
    }

    /// The entries by their claims.
    pub fn groups(&self) -> &Groups
        ensures { AreGroups self.now result.now }
    {
        &self.groups
    }

    /// How many entries there are.
    pub fn len(&self) -> usize
        ensures { result ≡ length self.now }
    {
        self.entries.len()
    }

    /// The entries alone.
    pub fn into_list(self) -> List<Entry>
        ensures { result ≡ self }
    {
        drop(self.groups);
        self.entries
    }

    /// Whether some entry states the fact, with a product within the set.
    pub fn states(&self, fact: &Atom, product: &RowBits) -> bool
        requires { AreOfCount (length product.now) self.now }
        ensures { IsTrue result ↔ CoversClaim self.now (Stated fact.now) product.now }
    {
        match self.groups.stating(fact) {
            None => false,
            Some(group) => group.by.covered(product),
        }
    }

    /// Whether some entry has the claim, with a product within the set.
    pub fn covers(&self, claim: &Claim, product: &RowBits) -> bool
        requires { AreOfCount (length product.now) self.now }
        ensures { IsTrue result ↔ CoversClaim self.now claim.now product.now }
    {
        match claim {
            Claim::Fact(fact) => self.states(fact, product),
            Claim::Same(left, right) => self.says_one(left, right, product),
        }
    }

    /// Whether some entry says that the two terms are one, with a product within the set.
    pub fn says_one(&self, term: &Term, other: &Term, product: &RowBits) -> bool
        requires { AreOfCount (length product.now) self.now }
        ensures { IsTrue result ↔ CoversClaim self.now (Same term.now other.now) product.now }
    {
        match self.groups.linking(term, other) {
            None => false,
            Some(group) => group.by.covered(product),
        }
    }
}
