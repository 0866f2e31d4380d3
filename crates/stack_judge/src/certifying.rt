//! The certificate of the end of a run.

ghost use Rattle.std.specs.Prelude.{IfOk};
ghost use Rattle.stack_certificate.specs.Certificate.{certificate_view};
ghost use Rattle.stack_equilibrium.specs.declared.types.Question.{Question};
ghost use Rattle.stack_tableau.specs.LastTables.{ended_as};
ghost use Rattle.stack_tableau.specs.EndKinds.{end_at};
ghost use Rattle.stack_extract.specs.Ends.{IsEndOfSurvey, IsEndOfSome, IsLastOf, IsLastOfSome, ReadsRay};
ghost use Rattle.stack_judge.specs.Judged.{IsJudged};
ghost use Rattle.stack_judge.specs.Certifying.{MakesCertificate, GivesChecked};

use crate::types::{JudgeError, JudgePlace};
use stack_certificate::Certificate;
use stack_checker::{Check, check};
use stack_contact::Survey;
use stack_equilibrium::proper;
use stack_extract::{
    ExtractError, certified_laws, forces_at, kind_of, last_table, motion_at, ray_at,
};
use stack_rational::Exact;
use stack_run::run_laws;
use stack_tableau::{EndKind, Ended, LastTable};
use std::alloc::Global;

/// The certificate that an end of a survey's run is.
fn make<L: LastTable>(
    alloc: Global,
    s: &Survey,
    kind: EndKind,
    t: &L,
) -> Result<Certificate, ExtractError>
    requires end { IsLastOfSome s.now (L.shape t.now) (L.flips t.now) (end_at kind (L.table t.now)) }
    requires reads { ReadsRay kind (L.reads t.now) }
    ensures { (q : Question) → IsLastOf q s.now (L.shape t.now) (L.flips t.now) (end_at kind (L.table t.now)) →
        MakesCertificate result q s.now (end_at kind (L.table t.now)) }
{
    match kind {
        EndKind::Infeasible => Ok(Certificate::Collapses(motion_at(alloc, s, kind, t)?)),
        EndKind::Feasible => Ok(Certificate::Stands(forces_at(alloc, s, kind, t)?)),
        EndKind::Optimal => {
            let forces = forces_at(alloc, s, kind, t)?;
            Ok(Certificate::Greatest(forces, motion_at(alloc, s, kind, t)?))
        }
        EndKind::Ray { column } => {
            let forces = forces_at(alloc, s, kind, t)?;
            Ok(Certificate::Unbounded(forces, ray_at(alloc, s, t, column)?))
        }
    }
}

/// The certificate of an end of a survey's run with this last table, whatever stores it: as `certify`.
pub fn certify_at<L: LastTable>(
    alloc: Global,
    s: &Survey,
    kind: EndKind,
    t: &L,
) -> Result<Certificate, JudgeError>
    requires end { IsLastOfSome s.now (L.shape t.now) (L.flips t.now) (end_at kind (L.table t.now)) }
    requires reads { ReadsRay kind (L.reads t.now) }
    ensures gives { (q : Question) → IsLastOf q s.now (L.shape t.now) (L.flips t.now) (end_at kind (L.table t.now))
        → GivesChecked result q s.now (end_at kind (L.table t.now)) }
    ensures judged { (q : Question) → IsLastOf q s.now (L.shape t.now) (L.flips t.now) (end_at kind (L.table t.now))
        → IfOk result (λ c. IsJudged q s.now (certificate_view c)) }
{
    // laws of surveys, on which the last clause stands
    proper(s);
    certified_laws();
    s.within();
    let certificate = match make(alloc, s, kind, t) {
        Ok(certificate) => certificate,
        Err(ExtractError::TooWide(place)) => return Err(JudgeError::TooWide(JudgePlace::End(
            place,
        ))),
        Err(ExtractError::Memory) => return Err(JudgeError::Memory),
    };
    match check(s, &certificate) {
        Check::Accepted => Ok(certificate),
        Check::TooWide(place) => Err(JudgeError::TooWide(JudgePlace::Check(place))),
        Check::Rejected(..) => unreachable!(),
    }
}

/// The certificate of the end of a survey's run, if no number of it is too wide, nor one of its check. The check never
/// rejects it.
pub fn certify<S: Exact>(alloc: Global, s: &Survey, e: &Ended<S>) -> Result<Certificate, JudgeError>
    requires { IsEndOfSome s.now e.now }
    ensures gives { (q : Question) → IsEndOfSurvey q s.now e.now → GivesChecked result q s.now (ended_as e.now) }
    ensures judged { (q : Question) → IsEndOfSurvey q s.now e.now
        → IfOk result (λ c. IsJudged q s.now (certificate_view c)) }
{
    run_laws();
    certify_at(alloc, s, kind_of(e), last_table(e))
}
