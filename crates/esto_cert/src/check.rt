//! Checking certificates.
ghost use Rattle.std.specs.Prelude.{◌≡◌, ◌<◌, [], length, map, IfOk};
ghost use Rattle.esto_constraint.specs.Constraints.{rules_of};
ghost use Rattle.esto_query.specs.Making.{query_of};
ghost use Rattle.esto_views.specs.Fragments.{views_of};
ghost use Rattle.esto_views.specs.Plans.{plan_query, IsPlanOver};
ghost use Rattle.esto_views.specs.Contained.{IsSafelyContained};
ghost use Rattle.esto_cert.specs.Judging.{after_end, case_of, AreNumbersOf, Verdict, Decides, DecidesFor, Answers};
ghost use Rattle.esto_cert.specs.declared.check.CertError.TheVariants as error;

use crate::judging::{Case, Judged};
use crate::laws::accepted_certificates_show;
use crate::reading::lines_and_rest;
use esto_bits::RowBits;
use esto_chase_laws::Claim;
use esto_constraint::Rules;
use esto_query::Query;
use esto_term::{List, OutOfMemory};
use esto_views::{FragmentDefs, Plan, expand};
use std::alloc::Global;
use thiserror::Error;

/// Why a certificate is not accepted.
#[derive(Debug, Drop, Error)]
pub enum CertError {
    /// The line of that number, counted from 1, is the first that is not so.
    #[error("line {0} does not follow")]
    Rejected(u64),
    #[error("out of memory")]
    OutOfMemory,
}

impl From<OutOfMemory> for CertError {
    ghost from_gives = { λ _ e. e ≡ error.OutOfMemory };

    fn from(_: OutOfMemory) -> CertError {
        CertError::OutOfMemory
    }
}

/// The number of the first line that is not so where the line of that number may be the last.
fn after_end(number: u64, rest: &[&[u8]]) -> Option<u64>
    requires { number < 18446744073709551615 }
    ensures { result ≡ after_end number (map (λ part. part.now) rest.now) }
{
    match rest {
        [last] => {
            if last.is_empty() {
                None
            } else {
                Some(number + 1)
            }
        }
        _ => Some(number + 1),
    }
}

/// The number of the first line that is not so, if there is one. What the lines before it claim is put into the list,
/// which is empty before.
fn first_wrong(
    alloc: Global,
    case: &Case<'_>,
    parts: &[&[u8]],
    claims: &mut List<Claim>,
) -> Result<Option<u64>, OutOfMemory>
    requires numbers { AreNumbersOf case.now.set.now case.now.expanded.now }
    requires none { claims.old ≡ [] }
    ensures { IfOk result
        (Verdict (case_of case.now) [] 1 (map (λ part. part.now) parts.now)) }
{
    'lines: for place in 0..parts.len() {
        let number = place as u64 + 1;
        if place + 1 == parts.len() {
            return Ok(Some(number));
        }
        let part = &parts[place];
        match case.judge_text(alloc, claims.items(), part)? {
            Judged::Claims(claim) => claims.push(claim)?,
            Judged::Ends => return Ok(after_end(number, &parts[place + 1..])),
            Judged::Refused => return Ok(Some(number)),
        }
    }
    Ok(Some(1))
}

/// The number of the first line of the bytes that is not so, if there is one.
fn verdict(alloc: Global, case: &Case<'_>, bytes: &[u8]) -> Result<Option<u64>, OutOfMemory>
    requires { AreNumbersOf case.now.set.now case.now.expanded.now }
    ensures { IfOk result (Decides (case_of case.now) bytes.now) }
{
    let parts = lines_and_rest(alloc, bytes)?;
    let mut claims = List::new(alloc);
    first_wrong(alloc, case, parts.as_slice(), &mut claims)
}

/// Decides which line of a certificate is the first that is not so.
fn decide(
    alloc: Global,
    bytes: &[u8],
    set: &RowBits,
    plan: &Plan,
    query: &Query,
    fragments: &FragmentDefs,
    rules: &Rules,
) -> Result<(), CertError>
    requires over { IsPlanOver plan.now fragments.now }
    requires count { length set.now ≡ length plan.now.atoms }
    ensures { Answers (DecidesFor plan.now fragments.now set.now rules.now query.now bytes.now)
        result }
{
    let expanded = expand(alloc, plan, fragments)?;
    let case = Case {
        expanded: expanded.items(),
        set,
        rules: rules.items(),
        query,
        targets: plan.head.items(),
    };
    match verdict(alloc, &case, bytes)? {
        Some(line) => Err(CertError::Rejected(line)),
        None => Ok(()),
    }
}

/// Checks a certificate for a set of a plan's atoms: the first line that does not follow from those before it, or that is
/// no line, is the one at which it is rejected. Where it is accepted the set is safe, and its candidate is contained in
/// the query under the rules.
pub fn check_certificate(
    alloc: Global,
    bytes: &[u8],
    set: &RowBits,
    plan: &Plan,
    query: &Query,
    fragments: &FragmentDefs,
    rules: &Rules,
) -> Result<(), CertError>
    requires over { IsPlanOver plan.now fragments.now }
    requires count { length set.now ≡ length plan.now.atoms }
    requires same_length { length plan.now.head ≡ length query.now.head }
    ensures exact { Answers (DecidesFor plan.now fragments.now set.now rules.now
        query.now bytes.now) result }
    ensures contained { IfOk result (λ _. IsSafelyContained (rules_of rules.now)
        (views_of fragments.now) (query_of query.now) (plan_query plan.now) set.now) }
{
    accepted_certificates_show();
    decide(alloc, bytes, set, plan, query, fragments, rules)
}
