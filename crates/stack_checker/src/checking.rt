//! The check of a certificate against a survey.

ghost use Rattle.std.specs.Prelude.{◌≡◌};
ghost use Rattle.stack_certificate.specs.Certificate.{certificate_view};
ghost use Rattle.stack_equilibrium.specs.Truth.{IsTrueCertificate};
ghost use Rattle.stack_checker.specs.Verdict.{IsRejected, NamesOf};
ghost use Rattle.stack_checker.specs.Shown.{DeadLoadsStand, DeadLoadsFall, FactorIsCarried, NoGreaterIsCarried};
ghost use Rattle.stack_checker.specs.Shown.{AllAboveAreCarried, AllAreCarried};
ghost use Rattle.stack_checker.specs.WrittenCheck.{tests_of, written_check};

use crate::forces::check_forces;
use crate::powers::{check_bound, check_collapse};
use crate::sign::Signs;
use crate::stop::{PartStop, answer, in_part};
use crate::types::{Check, Part};
use stack_certificate::Certificate;
use stack_contact::Survey;
use stack_equilibrium::proper;

/// The tests of each form of certificate, in its order.
#[tactic(auto, unfolding(crate::specs::WrittenCheck::tests_of))]
fn check_form(s: &Survey, c: &Certificate) -> Result<(), PartStop>
    ensures { result ≡ tests_of s.now (certificate_view c.now) }
{
    match c {
        Certificate::Stands(forces) => {
            in_part(Part::First, check_forces(s, Signs::standing(), forces))
        }
        Certificate::Collapses(motion) => in_part(Part::First, check_collapse(s, motion)),
        Certificate::Greatest(forces, motion) => {
            in_part(Part::First, check_forces(s, Signs::loaded(), forces))?;
            in_part(Part::Second, check_bound(s, forces, motion))
        }
        Certificate::Unbounded(base, ray) => {
            in_part(Part::First, check_forces(s, Signs::loaded(), base))?;
            in_part(Part::Second, check_forces(s, Signs::rising(), ray))
        }
    }
}

/// Whether a certificate is true of the survey's model: `Accepted` only if it is, `Rejected` only if it isn't, with the
/// first test that fails. `TooWide` where a product or a partial result is more than `2^127 - 1` in size before a test
/// fails, with the first such place. Bearings and free blocks are counted from 0. Takes no memory. After Livesley
/// (1978).
///
/// What an accepted certificate shows of the structure, by its form: the dead loads stand; no admissible forces balance
/// them; a factor of the live loads is carried and no greater one is; every factor from that of the first forces up is
/// carried, and from 0 up where the dead loads stand.
pub fn check(s: &Survey, c: &Certificate) -> Check
    ensures written { result ≡ written_check s.now (certificate_view c.now) }
    ensures accepted { result ≡ Check.Accepted → IsTrueCertificate s.now (certificate_view c.now) }
    ensures rejected { IsRejected result → ¬ (IsTrueCertificate s.now (certificate_view c.now)) }
    ensures names { NamesOf s.now result }
    ensures stand { result ≡ Check.Accepted → DeadLoadsStand s.now (certificate_view c.now) }
    ensures fall { result ≡ Check.Accepted → DeadLoadsFall s.now (certificate_view c.now) }
    ensures carried { result ≡ Check.Accepted → FactorIsCarried s.now (certificate_view c.now) }
    ensures bound { result ≡ Check.Accepted → NoGreaterIsCarried s.now (certificate_view c.now) }
    ensures above { result ≡ Check.Accepted → AllAboveAreCarried s.now (certificate_view c.now) }
    ensures all { result ≡ Check.Accepted → AllAreCarried s.now (certificate_view c.now) }
{
    // a law of surveys, on which the last six clauses stand
    proper(s);
    answer(check_form(s, c))
}
