//! Laws of catalogues.
ghost use Rattle.esto_input_laws.specs.CatalogueLaws.{HaveRanksOrCycle, CataloguesAreTotal, CatalogueIsAFunction};

use esto_catalog::catalogues_are_determined;

/// A law: the graph of the relations of rules, which are below a count, has ranks, or a least cycle.
pub fn graphs_have_ranks_or_a_cycle()
    ensures { HaveRanksOrCycle }
{}

/// A law: whatever the bytes are, they say a catalogue, or have a first fault, or their rules lead from a relation back to
/// itself, with a least cycle.
pub fn catalogues_are_total()
    ensures { CataloguesAreTotal }
{}

/// A law: reading a catalogue is a function. Whatever the bytes are, they have one answer: a catalogue, of which all that is
/// printed or asked is one, or a first fault, or the least cycle of their rules.
pub fn reading_a_catalogue_is_a_function()
    ensures { CatalogueIsAFunction }
{
    catalogues_are_determined();
}
