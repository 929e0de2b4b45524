//! Indexes of claims.
ghost use Rattle.std.specs.Prelude.{◌++◌, ◌∷◌, [], List, IfOk, OnOk};
ghost use Rattle.esto_chase_laws.specs.declared.entry.Claim.{Claim};
ghost use Rattle.esto_known.specs.Indexes.{AreKeysOf};
ghost use Rattle.esto_known.specs.Groups.{claims_of};

use crate::group::Group;
use crate::hashes::{claim_key, first_key, second_key};
use esto_chase_laws::Claim;
use esto_columns::Index;
use esto_term::OutOfMemory;
use std::alloc::Global;

/// Indexes of claims, one place for each: by the claim, and twice by what else it is found by, a fact by its relation
/// and an equality by its one side and by the other. Claims are found fast as long as there are not many more than the
/// room.
#[derive(Drop)]
pub(crate) struct Keys {
    pub(crate) by_claim: Index,
    pub(crate) by_first: Index,
    pub(crate) by_second: Index,
    pub(crate) room: usize,
}

impl Keys {
    /// The indexes of no claims.
    pub(crate) fn new(alloc: Global, room: usize) -> Result<Keys, OutOfMemory>
        ensures { IfOk result (λ it. AreKeysOf it []) }
    {
        let by_claim = Index::new(alloc, room)?;
        let by_first = Index::new(alloc, room)?;
        Ok(Keys {
            by_claim,
            by_first,
            by_second: Index::new(alloc, room)?,
            room,
        })
    }

    /// Puts a claim at the next place.
    pub(crate) fn add(&mut self, claim: &Claim) -> Result<(), OutOfMemory>
        ensures { OnOk result ((claims : List Claim)
            → AreKeysOf self.old claims → AreKeysOf self.new (claims ++ claim.now ∷ [])) }
    {
        self.by_claim.add(&claim_key(claim))?;
        self.by_first.add(&first_key(claim))?;
        self.by_second.add(&second_key(claim))
    }

    /// Puts the claims of groups at the next places.
    pub(crate) fn add_all(&mut self, groups: &[Group]) -> Result<(), OutOfMemory>
        requires { AreKeysOf self.old [] }
        ensures { OnOk result (AreKeysOf self.new (claims_of groups.now)) }
    {
        'groups: for group in groups {
            self.add(&group.claim)?;
        }
        Ok(())
    }
}
