//! Entries by their claims, one group for each claim.
ghost use Rattle.std.specs.Prelude.{◌≡◌, ◌++◌, ◌∷◌, [], ℕ, List, Some, Contains, length, slice_get, IfOk, OnOk, OnErr, MatchOption};
ghost use Rattle.esto_columns.specs.Indexed.{IsIndexOf, AreAmongPlaces};
ghost use Rattle.esto_semantics.specs.declared.fact.Fact.{Fact};
ghost use Rattle.esto_term.specs.declared.term.Term.{Term};
ghost use Rattle.esto_chase_laws.specs.Worlds.{AreOfCount, SaysOne};
ghost use Rattle.esto_chase_laws.specs.declared.entry.Claim.TheVariants.{Fact as Stated};
ghost use Rattle.esto_known.specs.Indexes.{AreKeysOf, HasSide};
ghost use Rattle.esto_known.specs.Groups.{AreGroups, IsOfOne, claims_of};
ghost use Rattle.esto_known.specs.declared.group.Group.{Group};

use crate::finding::{place_linking, place_of, place_stating};
use crate::group::{Group, add_entry, begun};
use crate::hashes::{relation_hash, term_hash};
use crate::keys::Keys;
use crate::places::put_all;
use esto_chase_laws::Entry;
use esto_columns::Index;
use esto_semantics::Atom;
use esto_term::{OutOfMemory, Places, Term, Values, push};
use std::alloc::Global;
use std::marker::Model;
use std::mem;

/// How many groups there is room for, at first.
const ROOM: usize = 64;

/// Groups of entries, which are found by their claims, those of facts by their relations, and those of equalities by
/// the terms that are their sides. Contracts see the list of the groups. Where memory was wanting, there are none from
/// then on.
#[derive(Drop)]
pub struct Groups {
    groups: Vec<Group>,
    keys: Keys,
    whole: bool,
}

impl Model for Groups {
    ghost use Rattle.std.specs.Prelude.{◌≡◌, List, true, false, []};
    ghost use Rattle.std.specs.Coded.{coded_list};
    ghost use Rattle.esto_known.specs.contracts.group.Group as group;
    ghost use Rattle.esto_known.specs.Indexes.{AreKeysOf};
    ghost use Rattle.esto_known.specs.Groups.{claims_of};
    ghost use Rattle.esto_known.specs.declared.group.Group.{Group};

    ghost Value = { List Group };

    ghost coded = { coded_list group.the_row.coded };

    ghost view = { λ it. it.groups.items };

    ghost invariant = { λ it. (it.whole ≡ true → AreKeysOf it.keys (claims_of it.groups.items))
        × (it.whole ≡ false → it.groups.items ≡ []) };
}

/// Sees to it that the indexes have room for a group more.
fn widen(alloc: Global, groups: &[Group], keys: &mut Keys) -> Result<(), OutOfMemory>
    requires { AreKeysOf keys.old (claims_of groups.now) }
    ensures { OnOk result (AreKeysOf keys.new (claims_of groups.now)) }
{
    if groups.len() < keys.room {
        return Ok(());
    }
    let wider = Keys::new(alloc, groups.len().saturating_mul(2).max(ROOM))?;
    drop(mem::replace(keys, wider));
    keys.add_all(groups)
}

/// Puts the group of the entry, which is at the place, at the end, and its claim into the indexes.
fn begin(
    alloc: Global,
    place: usize,
    entry: &Entry,
    groups: &mut Vec<Group>,
    keys: &mut Keys,
) -> Result<(), OutOfMemory>
    requires { AreKeysOf keys.old (claims_of groups.old.items) }
    ensures groups { OnOk result ((group : Group) × IsOfOne place entry.now group
        × (groups.new.items ≡ groups.old.items ++ group ∷ [])) }
    ensures keys { OnOk result (AreKeysOf keys.new (claims_of groups.new.items)) }
{
    widen(alloc, groups.as_slice(), keys)?;
    keys.add(&entry.claim)?;
    let group = begun(alloc, place, entry)?;
    push(groups, group)
}

/// Puts the entry that comes after the entries into the group of its claim.
fn take_entry(
    alloc: Global,
    entries: &[Entry],
    entry: &Entry,
    groups: &mut Vec<Group>,
    keys: &mut Keys,
) -> Result<(), OutOfMemory>
    requires keys { AreKeysOf keys.old (claims_of groups.old.items) }
    requires groups { AreGroups entries.now groups.old.items }
    requires counts { AreOfCount (length entry.now.product) entries.now }
    ensures keys { OnOk result (AreKeysOf keys.new (claims_of groups.new.items)) }
    ensures groups { OnOk result (AreGroups (entries.now ++ entry.now ∷ []) groups.new.items) }
{
    match place_of(groups.as_slice(), keys, &entry.claim) {
        None => begin(alloc, entries.len(), entry, groups, keys),
        Some(place) => {
            let group = &mut groups[place];
            add_entry(alloc, entries, entry, group)
        }
    }
}

/// Puts places after the others, among which are all of the key.
fn put_places(
    alloc: Global,
    index: &Index,
    key: u64,
    places: &mut Places,
) -> Result<(), OutOfMemory>
    ensures { OnOk result ((listed : List (List ℕ)) → IsIndexOf index.now listed
        → (found : List ℕ) × AreAmongPlaces (key ∷ []) listed found
        × (places.new ≡ places.old ++ found)) }
{
    let found = index.places(alloc, &[key])?;
    put_all(found.as_slice(), places)
}

impl Groups {
    /// No groups.
    pub fn new(alloc: Global) -> Result<Groups, OutOfMemory>
        ensures { IfOk result (λ it. it ≡ []) }
    {
        let keys = Keys::new(alloc, ROOM)?;
        Ok(Groups {
            groups: Vec::new(alloc),
            keys,
            whole: true,
        })
    }

    /// Lets all groups go.
    pub(crate) fn clear(&mut self)
        ensures { self.new ≡ [] }
    {
        self.groups.truncate(0);
        self.whole = false;
    }

    /// Puts the entry that comes after the entries into the group of its claim.
    pub(crate) fn take(
        &mut self,
        alloc: Global,
        entries: &[Entry],
        entry: &Entry,
    ) -> Result<(), OutOfMemory>
        requires groups { AreGroups entries.now self.old }
        requires counts { AreOfCount (length entry.now.product) entries.now }
        ensures ok { OnOk result (AreGroups (entries.now ++ entry.now ∷ []) self.new) }
        ensures err { OnErr result (self.new ≡ []) }
    {
        if !self.whole {
            return Err(OutOfMemory);
        }
        match take_entry(alloc, entries, entry, &mut self.groups, &mut self.keys) {
            Ok(()) => Ok(()),
            Err(error) => {
                self.groups.truncate(0);
                self.whole = false;
                Err(error)
            }
        }
    }

    /// Puts all entries into the groups of their claims.
    fn take_all(
        &mut self,
        alloc: Global,
        entries: &[Entry],
        count: usize,
    ) -> Result<(), OutOfMemory>
        requires none { self.old ≡ [] }
        requires counts { AreOfCount count entries.now }
        ensures { OnOk result (AreGroups entries.now self.new) }
    {
        'entries: for (place, entry) in entries.iter().enumerate() {
            self.take(alloc, &entries[..place], entry)?;
        }
        Ok(())
    }

    /// The groups of the entries.
    pub fn of(alloc: Global, entries: &[Entry], count: usize) -> Result<Groups, OutOfMemory>
        requires { AreOfCount count entries.now }
        ensures { IfOk result (AreGroups entries.now) }
    {
        let mut groups = Groups::new(alloc)?;
        groups.take_all(alloc, entries, count).and(Ok(groups))
    }

    /// The groups, in the order in which their claims came.
    pub fn items(&self) -> &[Group]
        ensures { result.now ≡ self.now }
    {
        self.groups.as_slice()
    }

    /// The group of the fact, if it has one.
    pub fn stating(&self, fact: &Atom) -> Option<&Group>
        ensures { MatchOption result
            ((group : Group) → Contains self.now group → ¬ (group.claim ≡ Stated fact.now))
            (λ group. Contains self.now group.now × (group.now.claim ≡ Stated fact.now)) }
    {
        if !self.whole {
            return None;
        }
        match place_stating(self.groups.as_slice(), &self.keys, fact) {
            None => None,
            Some(place) => Some(&self.groups[place]),
        }
    }

    /// The group of the equality of the two terms, in either order, if it has one.
    pub fn linking(&self, term: &Term, other: &Term) -> Option<&Group>
        ensures { MatchOption result
            ((group : Group) → Contains self.now group → ¬ (SaysOne group.claim term.now other.now))
            (λ group. Contains self.now group.now × SaysOne group.now.claim term.now other.now) }
    {
        if !self.whole {
            return None;
        }
        match place_linking(self.groups.as_slice(), &self.keys, term, other) {
            None => None,
            Some(place) => Some(&self.groups[place]),
        }
    }

    /// Places of groups, among which are all of facts of the relation.
    pub fn of_relation(&self, alloc: Global, relation: usize) -> Result<Places, OutOfMemory>
        ensures { IfOk result (λ it. (place : ℕ) (group : Group) (fact : Fact Term)
            → slice_get self.now place ≡ Some group → group.claim ≡ Stated fact
            → fact.relation ≡ relation → Contains it place) }
    {
        let mut places = Values::new(alloc);
        let key = relation_hash(relation as u64);
        put_places(alloc, &self.keys.by_first, key, &mut places).and(Ok(places))
    }

    /// Places of groups, among which are all of equalities that have the term as a side.
    pub fn with_side(&self, alloc: Global, term: &Term) -> Result<Places, OutOfMemory>
        ensures { IfOk result (λ it. (place : ℕ) (group : Group)
            → slice_get self.now place ≡ Some group → HasSide group.claim term.now
            → Contains it place) }
    {
        let mut places = Values::new(alloc);
        let key = term_hash(term);
        put_places(alloc, &self.keys.by_first, key, &mut places)?;
        put_places(alloc, &self.keys.by_second, key, &mut places).and(Ok(places))
    }
}
