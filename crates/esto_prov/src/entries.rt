//! Entries that keep their reasons.
ghost use Rattle.std.specs.Prelude.{◌≡◌, ◌↔◌, ◌<◌, ℕ, [], ◌∷◌, ◌++◌, List, Bool, Some, length, slice_get, Contains, IfOk, OnOk, OnErr};
ghost use Rattle.esto_term.specs.Sets.{Has, IsMinimal};
ghost use Rattle.esto_chase_laws.specs.WorldLaws.{AreReasoned};
ghost use Rattle.esto_chase_laws.specs.declared.entry.Entry.{Entry};
ghost use Rattle.esto_prov.specs.Derivations.{IsWhy, DerivationsDerive, leaves_of};
ghost use Rattle.esto_prov.specs.Products.{count_of, IsProductOf, AddsProduct};

use crate::why::{Why, why_of};
use esto_bits::{Products, kept_sets_are_minimal};
use esto_chase_laws::{Claim, Entry};
use esto_term::{List, OutOfMemory, Replicate};
use std::alloc::Global;
use std::marker::Model;

/// Entries, in the order in which they were made. A reason names earlier entries only, all products are of one count,
/// and the product of an entry is the union of the products that its reason names, or the one atom that it expands.
/// Contracts see the list of the entries.
#[derive(Drop)]
pub struct Entries {
    entries: List<Entry>,
}

impl Model for Entries {
    ghost use Rattle.std.specs.Prelude.{List};
    ghost use Rattle.std.specs.Coded.{coded_list};
    ghost use Rattle.esto_chase_laws.specs.contracts.entry.Entry as entry;
    ghost use Rattle.esto_chase_laws.specs.declared.entry.Entry.{Entry};
    ghost use Rattle.esto_chase_laws.specs.WorldLaws.{AreReasoned};

    ghost Value = { List Entry };

    ghost coded = { coded_list entry.the_row.coded };

    ghost view = { λ it. it.entries };

    ghost invariant = { λ it. AreReasoned it.entries };
}

impl Entries {
    /// No entry, which takes no memory.
    pub fn new(alloc: Global) -> Entries
        ensures { result ≡ [] }
    {
        Entries {
            entries: List::new(alloc),
        }
    }

    /// These entries, which are moved and not copied.
    pub fn from_list(entries: List<Entry>) -> Entries
        requires { AreReasoned entries }
        ensures { result ≡ entries }
    {
        Entries { entries }
    }

    /// Puts an entry at the end.
    pub fn push(&mut self, item: Entry) -> Result<(), OutOfMemory>
        requires { AreReasoned (self.old ++ item ∷ []) }
        ensures ok { OnOk result (self.new ≡ self.old ++ item ∷ []) }
        ensures err { OnErr result (self.new ≡ self.old) }
    {
        self.entries.push(item)
    }

    /// How many entries there are.
    pub fn len(&self) -> usize
        ensures { result ≡ length self.now }
    {
        self.entries.len()
    }

    /// The entry at a place, counted from 0.
    pub fn item(&self, at: usize) -> &Entry
        requires { at < length self.now }
        ensures { slice_get self.now at ≡ Some result.now }
    {
        self.entries.item(at)
    }

    /// All entries, in order.
    pub fn items(&self) -> &[Entry]
        ensures { result.now ≡ self.now }
    {
        self.entries.items()
    }

    /// The derivation of the claim of the entry at a place, written out. Its leaves are exactly the entry's product.
    pub fn why(&self, alloc: Global, at: usize) -> Result<Why, OutOfMemory>
        requires { at < length self.now }
        ensures exact { IfOk result (IsWhy self.now at) }
        ensures leaves { IfOk result (λ why. (entry : Entry) → slice_get self.now at ≡ Some entry
            → (atom : ℕ) → Has entry.product atom ↔ Contains (leaves_of why) atom) }
    {
        entries_are_reasoned(self);
        why_of(alloc, self.entries.items(), at)
    }

    /// The minimal products of the entries with that claim, where an equality of two terms is one claim in either
    /// order. Their count is that of all products, or 0 where there is no entry.
    pub fn products_of(&self, alloc: Global, claim: &Claim) -> Result<Products, OutOfMemory>
        ensures count { IfOk result (λ products. products.count ≡ count_of self.now) }
        ensures exact { IfOk result (λ products. (set : List Bool)
            → Contains products.sets set ↔ IsMinimal (IsProductOf self.now claim.now) set) }
    {
        entries_are_reasoned(self);
        products_among(alloc, self.entries.items(), claim)
    }
}

/// The count of the products, or 0 where there is no entry.
fn count_of(entries: &[Entry]) -> usize
    ensures { result ≡ count_of entries.now }
{
    match entries.first() {
        Some(entry) => entry.product.count(),
        None => 0,
    }
}

/// Adds the entry's product, where the entry has that claim.
fn add_product(
    alloc: Global,
    entry: &Entry,
    claim: &Claim,
    products: &mut Products,
) -> Result<(), OutOfMemory>
    requires { length entry.now.product ≡ products.old.count }
    ensures count { products.new.count ≡ products.old.count }
    ensures sets { OnOk result
        (AddsProduct entry.now claim.now products.old.sets products.new.sets) }
{
    if !entry.claim.is_same(claim) {
        return Ok(());
    }
    products.add(alloc, &entry.product)?;
    Ok(())
}

/// The minimal products of the entries with that claim.
fn products_among(alloc: Global, entries: &[Entry], claim: &Claim) -> Result<Products, OutOfMemory>
    requires { AreReasoned entries.now }
    ensures count { IfOk result (λ products. products.count ≡ count_of entries.now) }
    ensures exact { IfOk result (λ products. (set : List Bool)
        → Contains products.sets set ↔ IsMinimal (IsProductOf entries.now claim.now) set) }
{
    kept_sets_are_minimal();
    let mut products = Products::new(alloc, count_of(entries));
    'entries: for entry in entries {
        add_product(alloc, entry, claim, &mut products)?;
    }
    Ok(products)
}

impl Replicate for Entries {
    fn copy(&self, alloc: Global) -> Result<Entries, OutOfMemory> {
        entries_are_reasoned(self);
        let entries = self.entries.copy(alloc)?;
        Ok(Entries { entries })
    }
}

/// A law: entries keep what their description says.
pub fn entries_are_reasoned(entries: &Entries)
    ensures { AreReasoned entries.now }
{
    let _entries = entries.entries.items();
}

/// A law: the derivation of an entry that is derived from expanded facts by rules is a derivation of its claim from
/// these facts by these rules. It names no entry.
pub fn derivations_derive()
    ensures { DerivationsDerive }
{}
