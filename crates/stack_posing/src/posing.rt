//! The problem of a survey.

ghost use Rattle.std.specs.Prelude.{◌≡◌, ◌≤◌, ◌<◌, ◌*◌, ℕ, suc, length, IfOk};
ghost use Rattle.std.specs.List.{AllByRecursion};
ghost use Rattle.stack_whole.specs.Limits.{most_free, IsBelowBound};
ghost use Rattle.stack_contact.specs.FreeBlocks.{frees_of, frees_before};
ghost use Rattle.stack_contact.specs.ContactLists.{IsPair};
ghost use Rattle.stack_equilibrium.specs.SurveyScene.{scene_of, bearing_of};
ghost use Rattle.stack_posing.specs.Edges.{edge_on};
ghost use Rattle.stack_posing.specs.ByNumber.{dead_on, live_on};
ghost use Rattle.stack_algebra.specs.Listed.{listed};
ghost use Rattle.stack_table.specs.Lent.{IsProblem, problem_of};
ghost use Rattle.stack_posing.specs.Posed.{row_share, right_share, posed};
ghost use Rattle.stack_posing.specs.Columns.{AreColumns, AreFactorEntries, IsLean};
ghost use Rattle.stack_posing.specs.Entries.{AreEntries};

use crate::entries::{with_right_sides, with_wrench};
use stack_contact::{Bearing, Survey};
use stack_equilibrium::{Question, column, dead, live};
use stack_table::{Column, Entry, Problem};
use std::alloc::{AllocError, Global};

/// Bearing `k`: of two bodies, the earlier one first.
fn bearing_at(s: &Survey, k: usize) -> Bearing
    requires { k < length s.now.bearings }
    ensures value { result ≡ bearing_of s.now k }
    ensures pair { IsPair s.now.structure result.first result.second }
{
    s.bearings()[k]
}

/// The entries of all bodies before body `i`, and those of body `i` where it is free.
fn with_body(
    entries: Vec<Entry>,
    s: &Survey,
    k: usize,
    plus: bool,
    i: usize,
) -> Result<Vec<Entry>, AllocError>
    requires bearing { k < length s.now.bearings }
    requires few { length (frees_of s.now.structure.bodies) ≤ most_free }
    requires is_body { i < length s.now.structure.bodies }
    requires before { AreEntries (3 * frees_before s.now.structure.bodies i)
        (row_share (scene_of s.now) (edge_on (scene_of s.now) plus k)) entries.items }
    ensures { IfOk result (λ v. AreEntries (3 * frees_before s.now.structure.bodies (suc i))
        (row_share (scene_of s.now) (edge_on (scene_of s.now) plus k)) v.items) }
{
    if s.model().body(i).fixed {
        return Ok(entries);
    }
    let b = s.free_number(i);
    with_wrench(entries, b, column(s, k, plus, b))
}

/// The column of an edge of the cone of bearing `k`: the entries of its two bodies.
fn edge_column(alloc: Global, s: &Survey, k: usize, plus: bool) -> Result<Column, AllocError>
    requires bearing { k < length s.now.bearings }
    requires few { length (frees_of s.now.structure.bodies) ≤ most_free }
    ensures { IfOk result (λ c. AreEntries (3 * length (frees_of s.now.structure.bodies))
        (row_share (scene_of s.now) (edge_on (scene_of s.now) plus k)) c.entries.items) }
{
    let bearing = bearing_at(s, k);
    let entries = with_body(Vec::new(alloc), s, k, plus, bearing.first)?;
    let entries = with_body(entries, s, k, plus, bearing.second)?;
    Ok(Column { entries })
}

/// The two columns of each bearing, in order.
fn contact_columns(alloc: Global, s: &Survey) -> Result<Vec<Column>, AllocError>
    ensures { IfOk result (λ v. AreColumns s.now (length s.now.bearings) v.items) }
{
    s.within();
    let mut columns = Vec::new(alloc);
    for k in 0..s.bearings().len() {
        columns.push(edge_column(alloc, s, k, true)?)?;
        columns.push(edge_column(alloc, s, k, false)?)?;
    }
    Ok(columns)
}

/// The column of the factor: the live loads.
fn live_column(alloc: Global, s: &Survey) -> Result<Column, AllocError>
    ensures { IfOk result (λ c. AreEntries (3 * length (frees_of s.now.structure.bodies))
        (row_share (scene_of s.now) (live_on (scene_of s.now))) c.entries.items) }
{
    let mut entries = Vec::new(alloc);
    for b in 0..s.free_count() {
        entries = with_wrench(entries, b, live(s, b))?;
    }
    Ok(Column { entries })
}

/// The factor column, where the question is about live loads.
fn factor_column(alloc: Global, s: &Survey, q: Question) -> Result<Option<Column>, AllocError>
    ensures { IfOk result (λ o. AreFactorEntries q s.now o) }
{
    match q {
        Question::Dead => Ok(None),
        Question::Live => Ok(Some(live_column(alloc, s)?)),
    }
}

/// Minus the dead loads of each free block.
fn right_sides(alloc: Global, s: &Survey) -> Result<Vec<i128>, AllocError>
    ensures values { IfOk result (λ v. v.items
        ≡ listed (3 * length (frees_of s.now.structure.bodies)) (right_share (scene_of s.now))) }
    ensures small { IfOk result (λ v. AllByRecursion IsBelowBound v.items) }
{
    let mut right = Vec::new(alloc);
    for b in 0..s.free_count() {
        right = with_right_sides(right, dead(s, b))?;
    }
    Ok(right)
}

/// The problem of a survey, whose solutions are forces on all free blocks: three rows for each free block in order, the
/// sums along x, along y and of moments about its first stored corner, in sixths of a unit of force; two columns for
/// each bearing in order, the wrenches of `q*normal + p*tangent` and of `q*normal - p*tangent` on the later body and
/// their opposites on the earlier one; for the question `Live` the factor column with the live loads; on the right
/// minus the dead loads. Entries that are 0 are left out. `AllocError` if memory ran out. After Livesley (1978).
pub fn pose(alloc: Global, s: &Survey, q: Question) -> Result<Problem, AllocError>
    ensures problem { IfOk result (λ p. problem_of p ≡ posed q (scene_of s.now)) }
    ensures condition { IfOk result (λ p. IsProblem p) }
    ensures lean { IfOk result (λ p. IsLean p) }
{
    s.within();
    Ok(Problem {
        rows: 3 * s.free_count(),
        contact: contact_columns(alloc, s)?,
        factor: factor_column(alloc, s, q)?,
        right: right_sides(alloc, s)?,
    })
}
