//! How the bearings of a survey open and slide on a motion.

ghost use Rattle.std.specs.Prelude.{◌≡◌, ◌<◌, length, IfOk};
ghost use Rattle.stack_contact.specs.ContactLists.{IsBearing};
ghost use Rattle.stack_contact.specs.FreeBlocks.{frees_of};
ghost use Rattle.stack_certificate.specs.Certificate.{motion_view};
ghost use Rattle.stack_equilibrium.specs.SurveyScene.{bearing_of};
ghost use Rattle.stack_equilibrium.specs.WrittenVelocities.{block_move_at, velocity_at, gap_at, told_gap};
ghost use Rattle.stack_equilibrium.specs.WrittenVelocities.{written_opening};
ghost use Rattle.stack_equilibrium.specs.Answers.{AreRates};

use crate::block::lever_of;
use crate::types::VelocityWide;
use crate::velocity::{BlockMove, Gap, Velocity, difference, gap_of, rest, velocity_of};
use stack_certificate::Motion;
use stack_contact::{Bearing, Survey};
use stack_whole::{Whole, Wide};

/// The move of free block `b`, of a list of moves.
pub fn block_move(moves: &[(i128, i128, i128)], b: usize) -> BlockMove
    requires { b < length moves.now }
    ensures { result ≡ block_move_at moves.now b }
{
    let (u, v, r) = moves[b];
    BlockMove {
        u: Whole { value: u },
        v: Whole { value: v },
        r: Whole { value: r },
    }
}

/// The velocity of body `i` at a bearing.
fn velocity_at(
    s: &Survey,
    moves: &[(i128, i128, i128)],
    z: &Bearing,
    i: usize,
) -> Result<Velocity, Wide>
    requires is_body { i < length s.now.structure.bodies }
    requires count { length moves.now ≡ length (frees_of s.now.structure.bodies) }
    ensures { result ≡ velocity_at s.now moves.now z.now i }
{
    if s.model().body(i).fixed {
        return Ok(rest());
    }
    let outline = s.model().polygon(i);
    outline.valid();
    let lever = lever_of(outline.corner(0), *z);
    velocity_of(lever, block_move(moves, s.free_number(i)))
}

/// How a bearing of the survey opens and slides.
#[tactic(auto, unfolding(crate::specs::WrittenVelocities::gap_at))]
fn gap_at(s: &Survey, moves: &[(i128, i128, i128)], z: Bearing) -> Result<Gap, Wide>
    requires first { z.first < length s.now.structure.bodies }
    requires second { z.second < length s.now.structure.bodies }
    requires count { length moves.now ≡ length (frees_of s.now.structure.bodies) }
    ensures { result ≡ gap_at s.now moves.now z }
{
    let later = velocity_at(s, moves, &z, z.second)?;
    let earlier = velocity_at(s, moves, &z, z.first)?;
    let difference = difference(later, earlier)?;
    gap_of(z, difference)
}

/// Bearing `k` of the survey.
pub fn bearing_at(s: &Survey, k: usize) -> Bearing
    requires { k < length s.now.bearings }
    ensures value { result ≡ bearing_of s.now k }
    ensures bearing { IsBearing s.now.structure result }
{
    s.bearings()[k]
}

/// How bearing `k` of the survey opens and slides.
fn gap_of_bearing(s: &Survey, moves: &[(i128, i128, i128)], k: usize) -> Result<Gap, Wide>
    requires bearing { k < length s.now.bearings }
    requires count { length moves.now ≡ length (frees_of s.now.structure.bodies) }
    ensures { result ≡ gap_at s.now moves.now (bearing_of s.now k) }
{
    gap_at(s, moves, bearing_at(s, k))
}

/// An opening and a slide as a pair of numbers.
fn as_pair(gap: Result<Gap, Wide>) -> Result<(i128, i128), VelocityWide>
    ensures { result ≡ told_gap gap }
{
    match gap {
        Ok(gap) => Ok((gap.opening.value, gap.slide.value)),
        Err(Wide) => Err(VelocityWide),
    }
}

/// The opening and the slide of bearing `k`: the later body's velocity minus the earlier's, as dot products with the
/// bearing's normal and with its tangent. Fixed bodies are at rest, and there is a move for each free block.
/// `VelocityWide` exactly if a number of the written order is more than 2^127 - 1 in size. Takes no memory.
pub fn opening(s: &Survey, y: &Motion, k: usize) -> Result<(i128, i128), VelocityWide>
    requires bearing { k < length s.now.bearings }
    requires count { length (motion_view y.now) ≡ length (frees_of s.now.structure.bodies) }
    ensures written { result ≡ written_opening s.now (motion_view y.now) k }
    ensures rates { IfOk result (λ r. AreRates s.now (motion_view y.now) k r) }
{
    as_pair(gap_of_bearing(s, y.moves.as_slice(), k))
}
