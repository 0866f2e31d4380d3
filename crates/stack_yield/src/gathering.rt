//! The region of two live loads, direction by direction.

ghost use Rattle.std.specs.Prelude.{◌≡◌, ◌≢◌, ◌≤◌, IfOk, length, pos};
ghost use Rattle.std.specs.List.{All};
ghost use Rattle.stack_pairs.specs.Directed.{ArePair, directed_survey};
ghost use Rattle.stack_pairs.specs.Reaches.{RegionTells};
ghost use Rattle.stack_directions.specs.Directions.{IsDirection, most_directions};
ghost use Rattle.stack_yield.specs.Kept.{region_view};
ghost use Rattle.stack_yield.specs.JudgedReaches.{RegionIsJudged};
ghost use Rattle.stack_yield.specs.Regions.{Regions, RefusesFirstDirection, region_refusal, towards_of};
ghost use Rattle.stack_yield.specs.RegionText.{CanPrintRegion};

use crate::judging::{DirectionAnswer, DirectionStop, judge_direction};
use crate::types::{Region, RegionError};
use stack_contact::Survey;
use stack_directions::{LoadPair, Towards, directed};
use stack_equilibrium::proper;
use stack_pairs::reach_laws;
use std::alloc::Global;

/// Two loads and a direction.
fn towards(pair: LoadPair, d: &(i64, i64)) -> Towards
    ensures { result ≡ towards_of pair.i pair.j d.now }
{
    Towards {
        i: pair.i,
        j: pair.j,
        m: d.0,
        n: d.1,
    }
}

/// Why there is no region if direction `k` has no reach.
fn refused(stop: DirectionStop, k: usize) -> RegionError
    ensures { result ≡ region_refusal stop k }
{
    match stop {
        DirectionStop::TooWide(place) => RegionError::TooWide {
            direction: k,
            place,
        },
        DirectionStop::Spent => RegionError::Spent { direction: k },
        DirectionStop::Memory => RegionError::Memory,
    }
}

/// The region of two loads, over the surveys towards the first and towards the second of them alone: the reach of each
/// direction, up to one at which the dead loads fall, or that has none.
fn gathered(
    alloc: Global,
    s: &Survey,
    towards_first: &Survey,
    towards_second: &Survey,
    pair: LoadPair,
    dirs: &[(i64, i64)],
    budget: u32,
) -> Result<Region, RegionError>
    requires pair { ArePair s.now.structure pair.i pair.j }
    requires first { towards_first.now ≡ directed_survey s.now pair.i pair.j (pos 1) (pos 0) }
    requires second { towards_second.now ≡ directed_survey s.now pair.i pair.j (pos 0) (pos 1) }
    requires directions { All (λ d. IsDirection d.0 d.1) dirs.now }
    requires some { 1 ≤ length dirs.now }
    requires budget { budget ≢ 0 }
    ensures regions { Regions result s.now pair.i pair.j budget dirs.now }
    ensures judged { IfOk result (λ r. RegionIsJudged s.now pair.i pair.j (region_view r)) }
    ensures tells { IfOk result (λ r. RegionTells s.now pair.i pair.j dirs.now (region_view r)) }
{
    reach_laws();
    proper(s);
    let mut reaches = Vec::new(alloc);
    for k in 0..dirs.len() {
        let t = towards(pair, &dirs[k]);
        match judge_direction(alloc, s, towards_first, towards_second, t, budget) {
            Ok(DirectionAnswer::Reaches(reach)) => reaches.push(reach)?,
            Ok(DirectionAnswer::Falls(motion)) => return Ok(Region::Collapses(motion)),
            Err(stop) => return Err(refused(stop, k)),
        }
    }
    Ok(Region::Points(reaches))
}

/// The region of two live loads, from `pair`: how far they can be raised together in each direction, from
/// `read_directions`, and what forbids more. Each direction is judged within the budget of pivots; if the dead loads
/// fall, that is the answer.
///
/// Refused is the first direction with a number of more than 2^127 - 1 in size, in its judgement, in the powers of the
/// loads on its motion or in its point, or with a run in which a pivot is due when the budget's are done. Memory may
/// run out at any time. After Livesley (1978).
pub fn region(
    alloc: Global,
    s: &Survey,
    i: usize,
    j: usize,
    dirs: &[(i64, i64)],
    budget: u32,
) -> Result<Region, RegionError>
    requires pair { ArePair s.now.structure i j }
    requires directions { All (λ d. IsDirection d.0 d.1) dirs.now }
    requires some { 1 ≤ length dirs.now }
    requires few { length dirs.now ≤ most_directions }
    requires budget { budget ≢ 0 }
    ensures regions { Regions result s.now i j budget dirs.now }
    ensures refused { RefusesFirstDirection result s.now i j budget dirs.now }
    ensures judged { IfOk result (λ r. RegionIsJudged s.now i j (region_view r)) }
    ensures tells { IfOk result (λ r. RegionTells s.now i j dirs.now (region_view r)) }
    ensures printable { IfOk result (λ r. CanPrintRegion (region_view r)) }
{
    let towards_first = directed(alloc, s, i, j, 1, 0)?;
    let towards_second = directed(alloc, s, i, j, 0, 1)?;
    let pair = LoadPair { i, j };
    gathered(
        alloc,
        s,
        &towards_first,
        &towards_second,
        pair,
        dirs,
        budget,
    )
}
