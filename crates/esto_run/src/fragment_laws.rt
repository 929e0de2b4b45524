//! Laws of the files of fragments.
ghost use Rattle.esto_run.specs.FragmentsAlike.{FragmentOpensAlike, FragmentsOpenAlike};
ghost use Rattle.esto_run.specs.FragmentsAlike.{StoresHaveOneContent, StoresHaveOneFault, StoresHaveOneFile};
ghost use Rattle.esto_run.specs.Readable.{OpenedAreReadable, ReadableAreOpened};

/// A law: where no fetch is at a fault, over catalogues that say the same the files of fragments have one content, which has
/// the same rows or the same first fault.
pub fn fragment_files_are_one()
    ensures fragment { FragmentOpensAlike }
    ensures fragments { FragmentsOpenAlike }
    ensures file { StoresHaveOneFile }
    ensures fault { StoresHaveOneFault }
    ensures rows { StoresHaveOneContent }
{}

/// A law: over catalogues that say the same, files of fragments that are opened are readable, and readable ones are opened, with
/// the same contents; if a file is not opened, the refusal tells of it.
pub fn readable_fragments_are_opened()
    ensures opened { OpenedAreReadable }
    ensures readable { ReadableAreOpened }
{}
