//! Faults as errors.
ghost use Rattle.std.specs.Prelude.{◌≡◌};
ghost use Rattle.esto_ports.specs.FileFaults.{fault_at};

use crate::file_fault::{FileError, FileFault, FileKind};

/// The error of a fault of that kind at that place.
pub fn fault(kind: FileKind, place: u64) -> FileError
    ensures { result ≡ FileError.Fault (fault_at kind place) }
{
    FileError::Fault(FileFault { kind, place })
}
