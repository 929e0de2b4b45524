//! Laws of the courses of the commands on certificates.
ghost use Rattle.esto_top.specs.CertificateLaws.{ExplainHasOneStatus, ExplainSaysCertificates, VerifyChecksCertificates, VerifyIsOne, VerifySaysVerdicts};

use esto_cert::{
    accepted_certificates_derive, accepted_certificates_show, verdicts_are_moved, verdicts_are_one,
};
use esto_opening::openings_are_one;
use esto_rewriting::{chosen_items_are_listed, plans_and_lists_are_moved, plans_and_lists_are_one};
use esto_term::sets_are_ordered;

/// A law: over the same files `verify` has one reply or one refusal, where no fetch is at a fault.
pub fn verify_outcomes_are_one()
    ensures { VerifyIsOne }
{
    openings_are_one();
    plans_and_lists_are_one();
    sets_are_ordered();
    verdicts_are_one();
}

/// A law: let the files say a catalogue and a query over it that has a printed plan. Where the numbers name a set of its atoms
/// and the certificate is within its limit, `verify` says the certificate's verdict for the set: that it is accepted, or the
/// line at which it is rejected.
pub fn verify_says_verdicts()
    ensures { VerifySaysVerdicts }
{
    openings_are_one();
    plans_and_lists_are_one();
    sets_are_ordered();
    verdicts_are_one();
}

/// A law: let the files say a catalogue and a query over it. `verify` tells the clash at which the query's run ends; or,
/// over each printed plan of the query, it refuses the first number above how many atoms the plan has, or tells why the
/// certificate is not fetched, or accepts it, which then certifies the set that the numbers name, or tells the line at
/// which it is rejected.
pub fn verify_checks_certificates()
    ensures { VerifyChecksCertificates }
{
    openings_are_one();
    plans_and_lists_are_moved();
    plans_and_lists_are_one();
    verdicts_are_moved();
    accepted_certificates_show();
    accepted_certificates_derive();
}

/// A law: over the same files `explain` has one status, where no fetch is at a fault. Of its texts any may be printed.
pub fn explain_has_one_status()
    ensures { ExplainHasOneStatus }
{
    openings_are_one();
    plans_and_lists_are_one();
}

/// A law: let the files say a catalogue and a query over it. For a number of the list `explain` tells the clash at which the
/// query's run ends, or why the list of the query's plan has no set of the number; else it writes a certificate that is
/// accepted for the set.
pub fn explain_says_certificates()
    ensures { ExplainSaysCertificates }
{
    openings_are_one();
    plans_and_lists_are_moved();
    plans_and_lists_are_one();
    chosen_items_are_listed();
    verdicts_are_moved();
    accepted_certificates_show();
    accepted_certificates_derive();
}
