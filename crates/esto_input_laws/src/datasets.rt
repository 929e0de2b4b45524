//! Laws of the files of datasets.
ghost use Rattle.esto_input_laws.specs.DatasetLaws.{FactsAreTotal};

/// A law: the files of some of a catalogue's datasets, whatever their bytes are, have facts, or one of them is the first that
/// has a fault.
pub fn facts_are_total()
    ensures { FactsAreTotal }
{}
