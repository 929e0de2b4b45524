//! Laws of certificates.
ghost use Rattle.esto_cert.specs.Complete.{ContainedSetsHaveCertificates};
ghost use Rattle.esto_cert.specs.Showing.{AcceptedCertificatesDerive, AcceptedCertificatesShow, VerdictsAreMoved, VerdictsAreOne};

use esto_chase_laws::{
    clashes_receive_nothing, derived_entries_are_sound, runs_reach_an_end, states_are_universal,
};
use esto_constraint::rules_are_sound;
use esto_query::queries_are_sound;
use esto_semantics::{an_expansion_means_the_same, an_expansion_of_a_plan_expands_its_candidates};
use esto_views::{matched_sets_are_contained, plans_are_sound};

/// A law: where a certificate for a set of a plan's atoms is accepted, the set is safe, and its candidate is contained in
/// the query under the rules.
pub fn accepted_certificates_show()
    ensures { AcceptedCertificatesShow }
{
    plans_are_sound();
    rules_are_sound();
    queries_are_sound();
    derived_entries_are_sound();
    matched_sets_are_contained();
}

/// A law: under ranks that rise, each set of a plan's atoms that is safe, and whose candidate has an answer and is contained in
/// the query, has a certificate that is accepted: a line for each fact of its atoms and for each step of their chase, and
/// one for the query's match in its end.
pub fn contained_sets_have_certificates()
    ensures { ContainedSetsHaveCertificates }
{
    rules_are_sound();
    queries_are_sound();
    plans_are_sound();
    runs_reach_an_end();
    states_are_universal();
    clashes_receive_nothing();
    an_expansion_means_the_same();
    an_expansion_of_a_plan_expands_its_candidates();
}

/// A law: each line of an accepted certificate before the last makes a claim, and has a derivation of it from the expanded
/// facts of the set's atoms alone. The last line names facts and equalities among these claims which match the query, and
/// make its head one with the plan's.
pub fn accepted_certificates_derive()
    ensures { AcceptedCertificatesDerive }
{}

/// A law: a file is accepted or rejected in one way, whatever the plan's names and the fragments' are.
pub fn verdicts_are_one()
    ensures { VerdictsAreOne }
{
    queries_are_sound();
}

/// A law: a verdict is also that of the same file for what says the same, whatever the plan's names and the fragments' are.
pub fn verdicts_are_moved()
    ensures { VerdictsAreMoved }
{}
