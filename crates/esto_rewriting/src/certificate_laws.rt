//! A law of certificates.
ghost use Rattle.esto_rewriting.specs.CertificateLaws.{ContainedSetsHaveOne, ListedSetsHaveOne};

use crate::planned_laws::{
    chosen_items_are_listed, planned_plans_are_universal, planned_plans_have_their_form,
};
use esto_cert::contained_sets_have_certificates;
use esto_constraint::ranks_rise;
use esto_mapping::catalogues_are_sound;
use esto_semantics::candidates_contain_the_query;

/// A law: over each printed plan of a query, a set of its atoms that is safe, and whose candidate is contained in the query,
/// has a certificate that is accepted; so has each set of the query's list.
pub fn sets_have_certificates()
    ensures contained { ContainedSetsHaveOne }
    ensures listed { ListedSetsHaveOne }
{
    contained_sets_have_certificates();
    catalogues_are_sound();
    ranks_rise();
    planned_plans_have_their_form();
    planned_plans_are_universal();
    candidates_contain_the_query();
    chosen_items_are_listed();
}
