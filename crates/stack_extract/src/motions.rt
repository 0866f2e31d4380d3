//! Motions from the last table of a run.

ghost use Rattle.std.specs.Prelude.{◌≡◌, ℕ, ◌*◌, ◌<◌, ◌++◌, ◌∷◌, [], length, true, IfOk, IfErr};
ghost use Rattle.stack_algebra.specs.Listed.{listed};
ghost use Rattle.stack_whole.specs.Whole.{fits, whole};
ghost use Rattle.stack_contact.specs.FreeBlocks.{frees_of};
ghost use Rattle.stack_certificate.specs.Certificate.{motion_view};
ghost use Rattle.stack_equilibrium.specs.declared.types.Question.{Question};
ghost use Rattle.stack_table.specs.Problem.{turned};
ghost use Rattle.stack_tableau.specs.EndKinds.{end_at};
ghost use Rattle.stack_extract.specs.WrittenLists.{bound_list, collapse_list};
ghost use Rattle.stack_extract.specs.WholeLists.{amount};
ghost use Rattle.stack_extract.specs.Certified.{triple_at};
ghost use Rattle.stack_tableau.specs.LastTables.{ended_as};
ghost use Rattle.stack_extract.specs.declared.types.Numbers.TheVariants as numbers;
ghost use Rattle.stack_extract.specs.Places.{TellsPlace, list_place, shifted_place};
ghost use Rattle.stack_extract.specs.Ends.{
  moves_by,
  IsMotionFrom,
  IsEndOfSurvey,
  IsEndOfSome,
  IsLastOf,
  IsLastOfSome,
  HasMotion,
  IsMotionOf,
  motion_place,
};

use crate::forces::{kind_of, last_table};
use crate::numbers::{bound_numbers, collapse_numbers};
use crate::types::{ExtractError, Numbers};
use crate::wholes::whole_numbers;
use stack_certificate::Motion;
use stack_contact::Survey;
use stack_rational::{Exact, Frac};
use stack_tableau::{EndKind, Ended, LastTable};
use stack_whole::Whole;
use std::alloc::{AllocError, Global};

/// The multiplier of a row, with the other sign if the row is flipped.
fn multiplier<L: LastTable>(t: &L, numbers: &[i128], row: usize) -> Whole
    requires row { row < (L.shape t.now).rows }
    requires listed { row < length numbers.now }
    requires fits { fits (amount numbers.now row) ≡ true }
    ensures { result ≡ whole (turned (L.flips t.now row) (amount numbers.now row)) }
{
    if t.is_flipped(row) {
        Whole {
            value: -numbers[row],
        }
    } else {
        Whole {
            value: numbers[row],
        }
    }
}

/// A list with one more move.
fn longer(
    mut moves: Vec<(i128, i128, i128)>,
    u: Whole,
    v: Whole,
    r: Whole,
) -> Result<Vec<(i128, i128, i128)>, AllocError>
    ensures { IfOk result (λ s. s.items ≡ moves.items ++ (u.value, v.value, r.value) ∷ []) }
{
    moves.push((u.value, v.value, r.value))?;
    Ok(moves)
}

/// The moves of so many blocks, each by the multipliers of its three rows.
fn moves_of<L: LastTable>(
    alloc: Global,
    t: &L,
    count: usize,
    numbers: &[i128],
) -> Result<Vec<(i128, i128, i128)>, AllocError>
    requires rows { (L.shape t.now).rows ≡ 3 * count }
    requires listed { length numbers.now ≡ 3 * count }
    requires fits { (k : ℕ) → k < 3 * count → fits (amount numbers.now k) ≡ true }
    ensures { IfOk result (λ r. r.items ≡ moves_by count (L.flips t.now) numbers.now) }
{
    let mut moves = Vec::new(alloc);
    for b in 0..count {
        let u = multiplier(t, numbers, 3 * b);
        let v = multiplier(t, numbers, 3 * b + 1);
        let r = multiplier(t, numbers, 3 * b + 2);
        moves = longer(moves, u, v, r)?;
    }
    Ok(moves)
}

/// The motion of a list of multipliers, at their common scale.
fn from_list<L: LastTable>(
    alloc: Global,
    s: &Survey,
    t: &L,
    list: &[Frac<i128>],
) -> Result<Motion, ExtractError>
    requires rows { (L.shape t.now).rows ≡ 3 * length (frees_of s.now.structure.bodies) }
    requires listed { length list.now ≡ 3 * length (frees_of s.now.structure.bodies) }
    ensures ok { IfOk result (λ y. IsMotionFrom (length (frees_of s.now.structure.bodies)) (L.flips t.now)
        list.now (list_place numbers.Motion list.now) (motion_view y)) }
    ensures wide { IfErr result (λ e. TellsPlace e (list_place numbers.Motion list.now)) }
{
    let whole = whole_numbers(alloc, Numbers::Motion, list)?;
    let moves = moves_of(alloc, t, s.free_count(), &whole.numbers)?;
    Ok(Motion { moves })
}

/// The motion of the last table of phase 1.
fn collapse_of<L: LastTable>(alloc: Global, s: &Survey, t: &L) -> Result<Motion, ExtractError>
    requires { (L.shape t.now).rows ≡ 3 * length (frees_of s.now.structure.bodies) }
    ensures ok { IfOk result (λ y. IsMotionFrom (length (frees_of s.now.structure.bodies)) (L.flips t.now)
        (collapse_list (L.shape t.now) (L.table t.now))
        (shifted_place (L.shape t.now) (L.table t.now)) (motion_view y)) }
    ensures wide { IfErr result (λ e. TellsPlace e (shifted_place (L.shape t.now) (L.table t.now))) }
{
    let list = collapse_numbers(alloc, t)?;
    from_list(alloc, s, t, &list)
}

/// The motion of the last table of phase 3.
fn bound_of<L: LastTable>(alloc: Global, s: &Survey, t: &L) -> Result<Motion, ExtractError>
    requires { (L.shape t.now).rows ≡ 3 * length (frees_of s.now.structure.bodies) }
    ensures ok { IfOk result (λ y. IsMotionFrom (length (frees_of s.now.structure.bodies)) (L.flips t.now)
        (bound_list (L.shape t.now) (L.table t.now))
        (list_place numbers.Motion (bound_list (L.shape t.now) (L.table t.now))) (motion_view y)) }
    ensures wide { IfErr result (λ e.
        TellsPlace e (list_place numbers.Motion (bound_list (L.shape t.now) (L.table t.now)))) }
{
    let list = bound_numbers(alloc, t)?;
    from_list(alloc, s, t, &list)
}

/// The motion of an end of a survey's run with this last table, whatever stores it: as `motion_of`.
pub fn motion_at<L: LastTable>(
    alloc: Global,
    s: &Survey,
    kind: EndKind,
    t: &L,
) -> Result<Motion, ExtractError>
    requires end { IsLastOfSome s.now (L.shape t.now) (L.flips t.now) (end_at kind (L.table t.now)) }
    requires motion { HasMotion (end_at kind (L.table t.now)) }
    ensures ok { (q : Question) → IsLastOf q s.now (L.shape t.now) (L.flips t.now) (end_at kind (L.table t.now)) →
        IfOk result (λ y. IsMotionOf q s.now (end_at kind (L.table t.now)) (motion_view y)) }
    ensures wide { (q : Question) → IsLastOf q s.now (L.shape t.now) (L.flips t.now) (end_at kind (L.table t.now)) →
        IfErr result (λ x. TellsPlace x (motion_place q s.now (end_at kind (L.table t.now)))) }
{
    match kind {
        EndKind::Infeasible => collapse_of(alloc, s, t),
        EndKind::Optimal => bound_of(alloc, s, t),
        _ => unreachable!(),
    }
}

/// The motion of the end of a survey's run, in whole numbers of 128 bits whatever the width of the run: the objective
/// cells of the artificial columns, minus 1 if no amounts balance, at their common scale, with the other sign in
/// flipped rows; three for each free block.
///
/// Refused exactly if one of these is more than 2^127 - 1 in size, with the first that is, or if memory ran out.
pub fn motion_of<S: Exact>(alloc: Global, s: &Survey, e: &Ended<S>) -> Result<Motion, ExtractError>
    requires end { IsEndOfSome s.now e.now }
    requires motion { HasMotion (ended_as e.now) }
    ensures ok { (q : Question) → IsEndOfSurvey q s.now e.now →
        IfOk result (λ y. IsMotionOf q s.now (ended_as e.now) (motion_view y)) }
    ensures wide { (q : Question) → IsEndOfSurvey q s.now e.now →
        IfErr result (λ x. TellsPlace x (motion_place q s.now (ended_as e.now))) }
{
    motion_at(alloc, s, kind_of(e), last_table(e))
}
