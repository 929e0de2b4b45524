//! What may be wrong with a catalogue.
ghost use Rattle.std.specs.Prelude.{◌≡◌, ◌+◌, ◌<◌, true};
ghost use Rattle.esto_course.specs.Course.{demands};
ghost use Rattle.esto_catalog.specs.Rows.{IsFault, Walks, fault_at, fault_with};

use esto_constraint::Cycle;
use esto_status::{CatalogueFault, CatalogueKind, Section};
use esto_term::{OutOfMemory, Text};
use esto_text::TextFault;
use std::alloc::Global;

/// An entry of a section, counted from 1, or the top of the file, whose number is 0.
#[derive(Clone, Copy)]
pub struct Place {
    pub section: Section,
    pub number: u64,
}

impl Place {
    /// The entry of the section at this place, counted from 0.
    pub fn entry(section: Section, index: usize) -> Place
        requires { index < usize.MAX }
        ensures { result ≡ record { section = section; number = index + 1 } }
    {
        Place {
            section,
            number: index as u64 + 1,
        }
    }
}

/// The top of the file.
pub const TOP: Place = Place {
    section: Section::Top,
    number: 0,
};

/// Why a catalogue is not read.
#[derive(Drop)]
pub enum CatalogueError {
    /// It has this first fault.
    Fault(CatalogueFault),
    /// It has no fault, and a relation leads back to itself: this is the least cycle.
    NotAcyclic(Cycle),
    OutOfMemory,
}

impl From<OutOfMemory> for CatalogueError {
    ghost use Rattle.std.specs.Prelude.{◌≡◌};
    ghost use Rattle.esto_catalog.specs.declared.fault.CatalogueError.{CatalogueError};

    ghost from_gives = { λ _ e. e ≡ CatalogueError.OutOfMemory };

    fn from(_: OutOfMemory) -> CatalogueError {
        CatalogueError::OutOfMemory
    }
}

/// The fault of this kind at the key, with that of a text where it is one's, or want of memory.
pub fn fault(
    alloc: Global,
    kind: CatalogueKind,
    place: Place,
    key: &str,
    text: Option<TextFault>,
) -> CatalogueError
    ensures { IsFault (fault_with kind place key.now text) result }
{
    match Text::from_str(alloc, key) {
        Ok(key) => CatalogueError::Fault(CatalogueFault {
            kind,
            section: place.section,
            number: place.number,
            key,
            text,
        }),
        Err(OutOfMemory) => CatalogueError::OutOfMemory,
    }
}

/// Goes on where the condition holds; else the fault of this kind at the key.
#[tactic(auto, using(crate::proofs::RowLemmas::rows))]
pub fn demand(
    alloc: Global,
    holds: bool,
    kind: CatalogueKind,
    place: Place,
    key: &str,
) -> Result<(), CatalogueError>
    ensures { Walks (demands (holds ≡ true) (fault_at kind place key.now)) result }
{
    if holds {
        return Ok(());
    }
    Err(fault(alloc, kind, place, key, None))
}
