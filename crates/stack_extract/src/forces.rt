//! Forces from the last table of a run.

ghost use Rattle.std.specs.Prelude.{◌≡◌, suc, ◌*◌, pos, length, IfOk, IfErr, true};
ghost use Rattle.stack_certificate.specs.Certificate.{forces_view};
ghost use Rattle.stack_equilibrium.specs.declared.types.Question.{Question};
ghost use Rattle.stack_extract.specs.WholeLists.{whole_list, NonePulls};
ghost use Rattle.stack_tableau.specs.LastTables.{ended_as, last_of};
ghost use Rattle.stack_table.specs.Seen.{table_of};
ghost use Rattle.stack_run.specs.WrittenRun.{ray};
ghost use Rattle.stack_tableau.specs.EndKinds.{end_at};
ghost use Rattle.stack_extract.specs.Places.{TellsPlace, push_place, forces_place, ray_place};
ghost use Rattle.stack_extract.specs.Ends.{
  AreForcesFrom,
  IsEndOfSurvey,
  IsEndOfSome,
  IsLastOf,
  IsLastOfSome,
  kind_of,
  HasForces,
  HasRay,
  AreForcesOf,
  IsRayOf,
  entering_of,
};

use crate::certified_laws;
use crate::numbers::{forces_numbers, ray_numbers};
use crate::parts::force_parts;
use crate::types::{ExtractError, Numbers};
use crate::wholes::whole_numbers;
use stack_certificate::Forces;
use stack_contact::Survey;
use stack_rational::{Exact, Frac};
use stack_run::run_laws;
use stack_table::Table;
use stack_tableau::{EndKind, Ended, LastTable};
use std::alloc::Global;

/// Forces from the numbers of the contact columns and of the factor, at their common scale.
fn from_list(
    alloc: Global,
    which: Numbers,
    s: &Survey,
    list: &[Frac<i128>],
) -> Result<Forces, ExtractError>
    requires count { length list.now ≡ suc (2 * length s.now.bearings) }
    requires pushes { NonePulls (whole_list list.now) }
    ensures ok { IfOk result (λ f. AreForcesFrom which s.now.bearings list.now (forces_view f)) }
    ensures wide { IfErr result (λ e. TellsPlace e (push_place which s.now.bearings list.now)) }
{
    let bearings = s.bearings();
    let whole = whole_numbers(alloc, which, list)?;
    let factor = whole.numbers[2 * bearings.len()];
    let parts = force_parts(alloc, which, bearings, &whole.numbers)?;
    Ok(Forces {
        scale: whole.scale,
        factor,
        parts,
    })
}

/// The last table.
pub fn last_table<S: Exact>(e: &Ended<S>) -> &Table<S>
    ensures { result.now ≡ last_of e.now }
{
    match e {
        Ended::Infeasible(t) => t,
        Ended::Feasible(t) => t,
        Ended::Optimal(t) => t,
        Ended::Ray { table, .. } => table,
    }
}

/// The column that rises without limit.
fn entering<S: Exact>(e: &Ended<S>) -> usize
    requires { HasRay (ended_as e.now) }
    ensures { result ≡ entering_of (ended_as e.now) }
{
    match e {
        Ended::Ray { column, .. } => *column,
        _ => unreachable!(),
    }
}

/// The kind of an end, without its table.
pub fn kind_of<S: Exact>(e: &Ended<S>) -> EndKind
    ensures { result ≡ kind_of e.now }
{
    match e {
        Ended::Infeasible(_) => EndKind::Infeasible,
        Ended::Feasible(_) => EndKind::Feasible,
        Ended::Optimal(_) => EndKind::Optimal,
        Ended::Ray { column, .. } => EndKind::Ray { column: *column },
    }
}

/// The forces of an end of a survey's run with this last table, whatever stores it: as `forces_of`.
pub fn forces_at<L: LastTable>(
    alloc: Global,
    s: &Survey,
    kind: EndKind,
    t: &L,
) -> Result<Forces, ExtractError>
    requires end { IsLastOfSome s.now (L.shape t.now) (L.flips t.now) (end_at kind (L.table t.now)) }
    requires forces { HasForces (end_at kind (L.table t.now)) }
    ensures ok { (q : Question) → IsLastOf q s.now (L.shape t.now) (L.flips t.now) (end_at kind (L.table t.now)) →
        IfOk result (λ f. AreForcesOf q s.now (L.table t.now) (forces_view f)) }
    ensures wide { (q : Question) → IsLastOf q s.now (L.shape t.now) (L.flips t.now) (end_at kind (L.table t.now)) →
        IfErr result (λ x. TellsPlace x (forces_place q s.now (L.table t.now))) }
{
    certified_laws();
    s.within();
    let list = forces_numbers(alloc, t)?;
    from_list(alloc, Numbers::Forces, s, &list)
}

/// The same forces at no scale, so that they balance no dead loads.
fn without_scale(forces: Forces) -> Forces
    ensures { forces_view result ≡ record { scale = pos 0; factor = forces.factor; parts = forces.parts.items } }
{
    Forces {
        scale: 0,
        factor: forces.factor,
        parts: forces.parts,
    }
}

/// The forces that an end of a survey's run with this last table adds without end, along a column that can be read: as
/// `ray_of`.
pub fn ray_at<L: LastTable>(
    alloc: Global,
    s: &Survey,
    t: &L,
    column: usize,
) -> Result<Forces, ExtractError>
    requires end { IsLastOfSome s.now (L.shape t.now) (L.flips t.now) (ray (L.table t.now) column) }
    requires reads { L.reads t.now column ≡ true }
    ensures ok { (q : Question) → IsLastOf q s.now (L.shape t.now) (L.flips t.now) (ray (L.table t.now) column) →
        IfOk result (λ f. IsRayOf q s.now (L.table t.now) column (forces_view f)) }
    ensures wide { (q : Question) → IsLastOf q s.now (L.shape t.now) (L.flips t.now) (ray (L.table t.now) column) →
        IfErr result (λ x. TellsPlace x (ray_place q s.now (L.table t.now) column)) }
{
    certified_laws();
    s.within();
    let list = ray_numbers(alloc, t, column)?;
    Ok(without_scale(from_list(alloc, Numbers::Ray, s, &list)?))
}

/// The forces of the end of a survey's run, in whole numbers of 128 bits whatever the width of the run: the
/// values of the columns at their common scale, and for each bearing `q` times the sum of its two along the
/// normal and `p` times their difference along the tangent, in sixths of a unit of force.
///
/// Refused exactly if one of these is more than 2^127 - 1 in size, with the first that is, or if memory ran out.
pub fn forces_of<S: Exact>(alloc: Global, s: &Survey, e: &Ended<S>) -> Result<Forces, ExtractError>
    requires end { IsEndOfSome s.now e.now }
    requires forces { HasForces (ended_as e.now) }
    ensures ok { (q : Question) → IsEndOfSurvey q s.now e.now →
        IfOk result (λ f. AreForcesOf q s.now (table_of (last_of e.now)) (forces_view f)) }
    ensures wide { (q : Question) → IsEndOfSurvey q s.now e.now →
        IfErr result (λ x. TellsPlace x (forces_place q s.now (table_of (last_of e.now)))) }
{
    forces_at(alloc, s, kind_of(e), last_table(e))
}

/// The forces that the end of a survey's run adds without end, in whole numbers: 1 for the column that enters,
/// minus the cells of that column for the basic ones, all at their common scale. They balance no dead loads, so
/// their scale is 0.
///
/// Refused as `forces_of`.
pub fn ray_of<S: Exact>(alloc: Global, s: &Survey, e: &Ended<S>) -> Result<Forces, ExtractError>
    requires end { IsEndOfSome s.now e.now }
    requires ray { HasRay (ended_as e.now) }
    ensures ok { (q : Question) → IsEndOfSurvey q s.now e.now →
        IfOk result (λ f.
        IsRayOf q s.now (table_of (last_of e.now)) (entering_of (ended_as e.now)) (forces_view f)) }
    ensures wide { (q : Question) → IsEndOfSurvey q s.now e.now → IfErr result (λ x.
        TellsPlace x (ray_place q s.now (table_of (last_of e.now)) (entering_of (ended_as e.now)))) }
{
    run_laws();
    ray_at(alloc, s, last_table(e), entering(e))
}
