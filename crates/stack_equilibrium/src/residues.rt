//! The sums of a free block of a survey.

ghost use Rattle.std.specs.Prelude.{◌≡◌, ◌<◌, length, IfOk};
ghost use Rattle.stack_contact.specs.FreeBlocks.{frees_of};
ghost use Rattle.stack_certificate.specs.Certificate.{forces_view};
ghost use Rattle.stack_equilibrium.specs.WrittenSums.{block_of, written_residue};
ghost use Rattle.stack_equilibrium.specs.Answers.{body_number, AreSums};

use crate::block::Block;
use crate::loads::loads_on;
use crate::sums::sums;
use crate::types::{Question, SumWide, Wrench};
use stack_certificate::Forces;
use stack_contact::Survey;
use stack_whole::Whole;

/// Free block `b` with its loads.
fn block_at(s: &Survey, b: usize) -> Block
    requires { b < length (frees_of s.now.structure.bodies) }
    ensures { result ≡ block_of s.now.structure (body_number s.now b) }
{
    let body = s.free(b);
    let outline = s.model().polygon(body);
    outline.valid();
    Block {
        body,
        corner: outline.corner(0),
        dead: loads_on(Question::Dead, s.model(), body),
        live: loads_on(Question::Live, s.model(), body),
    }
}

/// The sums of free block `b`, in the written order.
fn sums_at(s: &Survey, f: &Forces, b: usize) -> Result<Wrench, SumWide>
    requires block { b < length (frees_of s.now.structure.bodies) }
    requires count { length (forces_view f.now).parts ≡ length s.now.bearings }
    ensures { result ≡ written_residue s.now (forces_view f.now) b }
{
    sums(
        block_at(s, b),
        Whole::of(f.scale),
        Whole::of(f.factor),
        s.bearings(),
        f.parts.as_slice(),
    )
}

/// The sums of free block `b`, counted among the free blocks, along x, along y and about its first stored corner, in
/// sixths of a unit of force: of what its bearings exert on it, `scale` times its dead loads and `factor` times its
/// live loads. There is a part for each bearing. `SumWide` exactly if a number of the written order is more than 2^127
/// - 1 in size, with the axis of the first such sum, in the order x, y, m. Takes no memory.
pub fn residue(s: &Survey, f: &Forces, b: usize) -> Result<Wrench, SumWide>
    requires block { b < length (frees_of s.now.structure.bodies) }
    requires count { length (forces_view f.now).parts ≡ length s.now.bearings }
    ensures written { result ≡ written_residue s.now (forces_view f.now) b }
    ensures sums { IfOk result (λ w. AreSums s.now (forces_view f.now) (body_number s.now b) w) }
{
    sums_at(s, f, b)
}
