//! The work of the loads of a survey on a motion.

ghost use Rattle.std.specs.Prelude.{◌≡◌, ◌<◌, length, IfOk};
ghost use Rattle.stack_contact.specs.FreeBlocks.{frees_of, free_of};
ghost use Rattle.stack_certificate.specs.Certificate.{motion_view};
ghost use Rattle.stack_equilibrium.specs.SurveyScene.{scene_of};
ghost use Rattle.stack_equilibrium.specs.Held.{move_at};
ghost use Rattle.stack_whole.specs.Whole.{whole};
ghost use Rattle.stack_equilibrium.specs.WrittenPowers.{with_product, with_work, with_block, summed_power};
ghost use Rattle.stack_equilibrium.specs.WrittenPowers.{told_power, written_power};
ghost use Rattle.stack_equilibrium.specs.Answers.{asked_power_of};

use crate::loads::loads_on;
use crate::openings::block_move;
use crate::types::{PowerWide, Question, Wrench};
use crate::velocity::BlockMove;
use stack_certificate::Motion;
use stack_contact::Survey;
use stack_whole::{Whole, Wide};

#[tactic(auto, unfolding(crate::specs::WrittenPowers::with_product))]
fn add_product(so_far: Whole, rate: Whole, force: Whole) -> Result<Whole, Wide>
    ensures { result ≡ with_product so_far rate force.value }
{
    let work = rate.product(force)?;
    so_far.sum(work)
}

/// The work so far, and that of a block's loads on its move.
#[tactic(auto, unfolding(crate::specs::WrittenPowers::with_work))]
fn add_work(so_far: Whole, block: BlockMove, loads: Wrench) -> Result<Whole, Wide>
    ensures { result ≡ with_work so_far block loads }
{
    let along_x = add_product(so_far, block.u, Whole { value: loads.fx })?;
    let along_y = add_product(along_x, block.v, Whole { value: loads.fy })?;
    add_product(along_y, block.r, Whole { value: loads.m })
}

/// The work so far, and that of the loads on free block `b`.
fn add_block(
    s: &Survey,
    moves: &[(i128, i128, i128)],
    q: Question,
    b: usize,
    so_far: Whole,
) -> Result<Whole, Wide>
    requires block { b < length (frees_of s.now.structure.bodies) }
    requires count { length moves.now ≡ length (frees_of s.now.structure.bodies) }
    ensures { result ≡ with_block q s.now moves.now b so_far (free_of s.now.structure.bodies b) }
{
    add_work(
        so_far,
        block_move(moves, b),
        loads_on(q, s.model(), s.free(b)),
    )
}

/// The work of the loads on all free blocks, in order.
fn add_blocks(s: &Survey, moves: &[(i128, i128, i128)], q: Question) -> Result<Whole, Wide>
    requires { length moves.now ≡ length (frees_of s.now.structure.bodies) }
    ensures { result ≡ summed_power q s.now moves.now }
{
    let mut so_far = Whole { value: 0 };
    for b in 0..s.free_count() {
        so_far = add_block(s, moves, q, b, so_far)?;
    }
    Ok(so_far)
}

/// A power as a number.
fn as_number(work: Result<Whole, Wide>) -> Result<i128, PowerWide>
    ensures { result ≡ told_power work }
{
    match work {
        Ok(work) => Ok(work.value),
        Err(Wide) => Err(PowerWide),
    }
}

/// The work of the dead or the live loads on a motion, in sixths of a unit: over the free blocks, `u` times the force
/// to the right, `v` times the force upwards and `r` times the moment. There is a move for each free block. `PowerWide`
/// exactly if a number of the written order is more than 2^127 - 1 in size. Takes no memory.
pub fn power(s: &Survey, y: &Motion, q: Question) -> Result<i128, PowerWide>
    requires { length (motion_view y.now) ≡ length (frees_of s.now.structure.bodies) }
    ensures written { result ≡ written_power q s.now (motion_view y.now) }
    ensures value { IfOk result (λ p. p ≡ asked_power_of q (scene_of s.now) (move_at s.now (motion_view y.now))) }
{
    as_number(add_blocks(s, y.moves.as_slice(), q))
}
