//! The words `yield MODEL I J DIRS [PIVOTS]`.

ghost use Rattle.std.specs.Prelude.{◌≡◌, ◌≢◌, ◌≤◌, ◌<◌, ◌+◌, ◌⊎◌, length};
ghost use Rattle.std.specs.List.{All};
ghost use Rattle.stack_outside.specs.Seen.{seen_shelf};
ghost use Rattle.stack_pairs.specs.Directed.{ArePair};
ghost use Rattle.stack_directions.specs.Directions.{IsDirection, most_directions};
ghost use Rattle.stack_yield.specs.Kept.{region_view};
ghost use Rattle.stack_yield.specs.Outcomes.{outcomes};
ghost use Rattle.stack_work.specs.Answers.{region_verdict as region_verdict_of};
ghost use Rattle.stack_lines.specs.Refusals.{refusal_view, faulty};
ghost use Rattle.stack_work.specs.Yielding.{wide_toward, region_step, directions_work, directed_file, paired_file};
ghost use Rattle.stack_work.specs.Yielding.{yield_work};
ghost use Rattle.stack_work.specs.Progress.{Does, DoesAlone, AnswersDue};

use crate::forms::judging::wide_refusal;
use crate::reading::read_file;
use crate::surveying::survey_file;
use stack_contact::Survey;
use stack_directions::{LoadPair, pair, read_directions};
use stack_lines::{Answer, Input, ReachPlace, Refusal, Verdict, Within};
use stack_outside::Shelf;
use stack_yield::{Region, RegionError, RegionPlace, region, write_region};
use std::alloc::Global;

/// Whether the dead loads stand.
fn region_verdict(found: &Region) -> Verdict
    ensures { result ≡ region_verdict_of (region_view found.now) }
{
    match found {
        Region::Collapses(_) => Verdict::Denied,
        Region::Points(_) => Verdict::Affirmed,
    }
}

/// The refusal of a number that is too wide, in the direction with this number from 1.
fn wide_direction(alloc: Global, survey: &Survey, number: usize, place: RegionPlace) -> Refusal
    ensures { (refusal_view result ≡ faulty (wide_toward number survey.now.structure place))
        ⊎ (result ≡ Refusal.Memory) }
{
    let within = Within::Direction { number };
    match place {
        RegionPlace::Judge(place) => wide_refusal(alloc, survey, within, place),
        RegionPlace::First => Refusal::WideReach {
            within,
            place: ReachPlace::First,
        },
        RegionPlace::Second => Refusal::WideReach {
            within,
            place: ReachPlace::Second,
        },
        RegionPlace::Point => Refusal::WideReach {
            within,
            place: ReachPlace::Point,
        },
    }
}

/// The number from 1 of a direction with this number from 0.
fn direction_number(direction: usize) -> usize
    requires { direction < most_directions }
    ensures { result ≡ direction + 1 }
{
    direction + 1
}

/// The region of two loads of a survey in some directions.
fn region_survey(
    alloc: Global,
    survey: &Survey,
    loads: LoadPair,
    directions: &[(i64, i64)],
    budget: u32,
) -> Result<Answer, Refusal>
    requires loads { ArePair survey.now.structure loads.i loads.j }
    requires directions { All (λ d. IsDirection d.0 d.1) directions.now }
    requires some { 1 ≤ length directions.now }
    requires few { length directions.now ≤ most_directions }
    requires budget { budget ≢ 0 }
    ensures { DoesAlone AnswersDue (region_step budget survey.now loads.i loads.j directions.now
        (outcomes survey.now loads.i loads.j budget directions.now)) result }
{
    match region(alloc, survey, loads.i, loads.j, directions, budget) {
        Ok(found) => {
            let verdict = region_verdict(&found);
            match write_region(alloc, found) {
                Ok(text) => Ok(Answer { verdict, text }),
                Err(_) => Err(Refusal::Memory),
            }
        }
        Err(RegionError::TooWide { direction, place }) => {
            Err(wide_direction(alloc, survey, direction_number(direction), place))
        }
        Err(RegionError::Spent { .. }) => Err(Refusal::Spent { budget }),
        Err(RegionError::Memory) => Err(Refusal::Memory),
    }
}

/// The region of two loads in the directions in a text.
fn directions_text(
    alloc: Global,
    text: &[u8],
    survey: &Survey,
    loads: LoadPair,
    budget: u32,
) -> Result<Answer, Refusal>
    requires loads { ArePair survey.now.structure loads.i loads.j }
    requires budget { budget ≢ 0 }
    ensures { DoesAlone AnswersDue (directions_work budget survey.now loads text.now) result }
{
    match read_directions(alloc, text) {
        Ok(directions) => region_survey(alloc, survey, loads, directions.as_slice(), budget),
        Err(fault) => Err(Refusal::from(fault)),
    }
}

/// The region of two loads in the directions in a file.
fn directions_file<F: Shelf>(
    alloc: Global,
    shelf: &mut F,
    name: &str,
    survey: &Survey,
    loads: LoadPair,
    budget: u32,
) -> Result<Answer, Refusal>
    requires loads { ArePair survey.now.structure loads.i loads.j }
    requires budget { budget ≢ 0 }
    ensures { Does AnswersDue (directed_file name.now budget survey.now loads)
        (seen_shelf F.Shelf shelf.old shelf.new) result }
{
    match read_file(shelf, name, Input::Directions) {
        Ok(text) => directions_text(alloc, text.as_slice(), survey, loads, budget),
        Err(refusal) => Err(refusal),
    }
}

/// The region of the loads with two numbers, from 1 among all loads, in the directions in a file.
fn loads_file<F: Shelf>(
    alloc: Global,
    shelf: &mut F,
    survey: &Survey,
    first: u32,
    second: u32,
    directions: &str,
    budget: u32,
) -> Result<Answer, Refusal>
    requires { budget ≢ 0 }
    ensures { Does AnswersDue (paired_file first second directions.now budget survey.now)
        (seen_shelf F.Shelf shelf.old shelf.new) result }
{
    match pair(survey.model(), first, second) {
        Ok((i, j)) => directions_file(alloc, shelf, directions, survey, LoadPair { i, j }, budget),
        Err(fault) => Err(Refusal::from(fault)),
    }
}

/// The words `yield MODEL I J DIRS [PIVOTS]`.
pub fn yield_form<F: Shelf>(
    alloc: Global,
    shelf: &mut F,
    model: &str,
    first: u32,
    second: u32,
    directions: &str,
    budget: u32,
) -> Result<Answer, Refusal>
    requires { budget ≢ 0 }
    ensures { Does AnswersDue (yield_work model.now first second directions.now budget)
        (seen_shelf F.Shelf shelf.old shelf.new) result }
{
    match survey_file(alloc, shelf, model) {
        Ok(survey) => loads_file(alloc, shelf, &survey, first, second, directions, budget),
        Err(refusal) => Err(refusal),
    }
}
