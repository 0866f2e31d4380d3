//! A phase: turn after turn. A turn makes its choice, and then its pivot.

ghost use Rattle.std.specs.Prelude.{◌≡◌, ◌≢◌, ◌<◌, ◌≤◌, ℕ, pos, OnOk, IfOk};
ghost use Rattle.stack_algebra.proofs.OrderedFractions.{ordered_fractions};
ghost use Rattle.stack_rational.specs.TooWide.{is_too_wide};
ghost use Rattle.stack_table.specs.Table.{plain, pivoted_at};
ghost use Rattle.stack_table.specs.Spots.{pivot_spot};
ghost use Rattle.stack_run.specs.PhaseStops.{HasFewer, phase_from};
ghost use Rattle.stack_tableau.specs.Tells.{TellsPivot, TellsTurn, TellsPhase, stop_at, IsDue};

use crate::choices::{Chosen, choose};
use crate::stops::RunStop;
use crate::tableau::Tableau;
use stack_run::{PhaseEnd, Pivots, RunPlace, Turn};
use stack_table::TurnRefusal;

/// Why a phase stops where a choice or a pivot of it isn't made.
fn stopped_at(refusal: TurnRefusal, phase: u8, pivot: u64) -> RunStop
    ensures { result ≡ stop_at refusal phase pivot }
{
    match refusal {
        TurnRefusal::TooWide(spot) => RunStop::TooWide(RunPlace {
            phase,
            pivot,
            row: spot.row,
            column: spot.column,
            step: spot.step,
        }),
        TurnRefusal::Unsettled => RunStop::Unsettled,
    }
}

/// A pivot that is due. Refused where no pivot is left, and else at the first operation that is too wide.
pub fn due_pivot<T: Tableau>(
    t: &mut T,
    phase: u8,
    pivots: Pivots,
    row: usize,
    column: usize,
) -> Result<Pivots, RunStop>
    requires { IsDue (T.shape t.old) (T.table t.old) (T.has_at_hand t.old) row column }
    ensures shape { OnOk result (T.shape t.new ≡ T.shape t.old) }
    ensures flips { OnOk result (T.flips t.new ≡ T.flips t.old) }
    ensures table { OnOk result (T.table t.new
        ≡ pivoted_at ordered_fractions (T.shape t.old) (T.table t.old) row column) }
    ensures counted { TellsPivot T.settles result phase pivots
        (pivot_spot ordered_fractions (is_too_wide T.MAX) (T.shape t.old) (T.table t.old) row column) }
{
    if pivots.left == 0 {
        return Err(RunStop::Spent);
    }
    let pivot = pivots.done + 1;
    match t.pivot(row, column) {
        Ok(()) => Ok(Pivots {
            done: pivot,
            left: pivots.left - 1,
        }),
        Err(refusal) => Err(stopped_at(refusal, phase, pivot)),
    }
}

/// A turn of a phase whose entering columns are below `among`.
fn take_turn<T: Tableau>(
    t: &mut T,
    phase: u8,
    among: usize,
    pivots: Pivots,
) -> Result<Turn, RunStop>
    requires { among ≤ plain (T.shape t.old) }
    ensures shape { OnOk result (T.shape t.new ≡ T.shape t.old) }
    ensures flips { OnOk result (T.flips t.new ≡ T.flips t.old) }
    ensures fewer { IfOk result (λ r. HasFewer pivots r) }
    ensures answer { TellsTurn T.settles T.MAX (T.shape t.old) phase among (T.table t.new) result
        (phase_from T.MAX (T.shape t.old) phase among pivots (T.table t.old)) }
{
    match choose(t, among) {
        Ok(Chosen::Stays) => Ok(Turn::Stops(PhaseEnd::Complete(pivots))),
        Ok(Chosen::Rises(column)) => Ok(Turn::Stops(PhaseEnd::Unlimited(column))),
        Ok(Chosen::Due { row, column }) => match due_pivot(t, phase, pivots, row, column) {
            Ok(next) => Ok(Turn::GoesOn(next)),
            Err(stop) => Err(stop),
        },
        Err(refusal) => Err(stopped_at(refusal, phase, pivots.done + 1)),
    }
}

/// A phase, up to where no column below `among` enters or no row leaves.
pub fn run_phase<T: Tableau>(
    t: &mut T,
    phase: u8,
    among: usize,
    pivots: Pivots,
) -> Result<PhaseEnd, RunStop>
    requires { among ≤ plain (T.shape t.old) }
    ensures shape { OnOk result (T.shape t.new ≡ T.shape t.old) }
    ensures flips { OnOk result (T.flips t.new ≡ T.flips t.old) }
    ensures answer { TellsPhase T.settles (T.table t.new) result
        (phase_from T.MAX (T.shape t.old) phase among pivots (T.table t.old)) }
{
    let mut pivots = pivots;
    loop {
        match take_turn(t, phase, among, pivots) {
            Ok(Turn::Stops(end)) => return Ok(end),
            Ok(Turn::GoesOn(next)) => pivots = next,
            Err(stop) => return Err(stop),
        }
    }
}
