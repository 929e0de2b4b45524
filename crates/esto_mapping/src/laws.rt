//! Laws of catalogues.
ghost use Rattle.std.specs.Prelude.{length};
ghost use Rattle.esto_constraint.specs.Graphs.{IsWithin, AreRanks};
ghost use Rattle.esto_constraint.specs.Relations.{IsEdge};
ghost use Rattle.esto_constraint.specs.Constraints.{rules_of};
ghost use Rattle.esto_mapping.specs.Catalogues.{CataloguesAreSound};

use crate::catalogue::Catalogue;

/// A law: each catalogue keeps what its description says.
pub fn catalogues_are_sound()
    ensures { CataloguesAreSound }
{}

/// A law: a catalogue's rules go between the relations that it ranks, and its ranks are theirs, as
/// a chase by them asks.
pub fn catalogues_rank_their_rules()
    ensures within { (it : Catalogue) → IsWithin (length it.ranks) (IsEdge (rules_of it.rules)) }
    ensures ranks { (it : Catalogue) →
        AreRanks (IsEdge (rules_of it.rules)) (length it.ranks) it.ranks }
{}
