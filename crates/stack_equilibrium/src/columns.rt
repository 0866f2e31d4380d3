//! What an edge of a bearing's cone of friction exerts on a block.

ghost use Rattle.std.specs.Prelude.{◌≡◌, ◌<◌, ◌*ℤ◌, ◌+ℤ◌, neg_ℤ, pos, negsuc, length};
ghost use Rattle.stack_polygon.specs.Sizes.{IsStep};
ghost use Rattle.stack_polygon.specs.Limits.{IsInRange};
ghost use Rattle.stack_contact.specs.FreeBlocks.{frees_of};
ghost use Rattle.stack_statics.specs.Balance.{bearing_side};
ghost use Rattle.stack_equilibrium.specs.SurveyScene.{bearing_of, scene_bearing_of};
ghost use Rattle.stack_whole.specs.Whole.{whole};
ghost use Rattle.stack_equilibrium.specs.LoadSizes.{HasForceLimits, IsForce, IsMoment, IsSmall};
ghost use Rattle.stack_equilibrium.specs.Columns.{IsRate, IsShare, IsEdgeWrench, lean_of, edge_force_of};
ghost use Rattle.stack_equilibrium.specs.Columns.{edge_wrench_of};
ghost use Rattle.stack_statics.specs.Loads.{wrench_times};
ghost use Rattle.stack_equilibrium.specs.Answers.{body_number, column_of};

use crate::force::{Force, arm_of, moment};
use crate::openings::bearing_at;
use crate::types::Wrench;
use stack_contact::{Bearing, Survey};
use stack_frame::Cone;
use stack_polygon::Point;
use stack_whole::Whole;

/// The numerator of a cone, or minus it.
fn lean(cone: Cone, plus: bool) -> Whole
    ensures value { result ≡ whole (lean_of cone plus) }
    ensures size { IsRate result.value }
{
    let p = cone.p as i128;
    if plus {
        Whole { value: p }
    } else {
        Whole { value: -p }
    }
}

/// The denominator of a cone.
fn denominator(cone: Cone) -> Whole
    ensures value { result ≡ whole cone.q }
    ensures size { IsRate result.value }
{
    Whole::widened(cone.q)
}

/// A step in the other direction.
fn opposite(step: Whole) -> Whole
    requires { IsStep step.value }
    ensures value { result ≡ whole (neg_ℤ step.value) }
    ensures size { IsStep result.value }
{
    Whole { value: -step.value }
}

fn share(rate: Whole, step: Whole) -> Whole
    requires rate { IsRate rate.value }
    requires step { IsStep step.value }
    ensures value { result ≡ whole (rate.value *ℤ step.value) }
    ensures size { IsShare result.value }
{
    Whole {
        value: rate.value * step.value,
    }
}

fn both(normal: Whole, tangential: Whole) -> Whole
    requires normal { IsShare normal.value }
    requires tangential { IsShare tangential.value }
    ensures value { result ≡ whole (normal.value +ℤ tangential.value) }
    ensures size { IsForce result.value }
{
    Whole {
        value: normal.value + tangential.value,
    }
}

/// A part of the normal and of the tangent, each times its number.
fn combined(q: Whole, normal: Whole, lean: Whole, tangent: Whole) -> Whole
    requires q { IsRate q.value }
    requires normal { IsStep normal.value }
    requires lean { IsRate lean.value }
    requires tangent { IsStep tangent.value }
    ensures value { result ≡ whole (q.value *ℤ normal.value +ℤ lean.value *ℤ tangent.value) }
    ensures size { IsForce result.value }
{
    both(share(q, normal), share(lean, tangent))
}

/// The force along an edge of the cone, on the second body.
fn edge_force(z: &Bearing, plus: bool) -> Force
    ensures value { result ≡ edge_force_of z.now plus }
    ensures size { HasForceLimits result }
{
    let q = denominator(z.cone);
    let lean = lean(z.cone, plus);
    let tx = Whole::widened(z.frame.tx);
    let ty = Whole::widened(z.frame.ty);
    Force {
        x: combined(q, opposite(ty), lean, tx),
        y: combined(q, tx, lean, ty),
    }
}

/// The wrench about a corner of the force along an edge of the cone.
fn edge_wrench(corner: Point, z: &Bearing, plus: bool) -> Wrench
    requires corner { IsInRange corner }
    requires at { IsInRange z.now.at }
    ensures value { result ≡ edge_wrench_of corner z.now plus }
    ensures size { IsEdgeWrench result }
{
    let force = edge_force(z, plus);
    Wrench {
        fx: force.x.value,
        fy: force.y.value,
        m: moment(arm_of(corner, z.at), force).value,
    }
}

fn against(number: Whole) -> Whole
    requires { IsMoment number.value }
    ensures value { result ≡ whole (neg_ℤ number.value) }
    ensures size { IsMoment result.value }
{
    Whole {
        value: -number.value,
    }
}

/// The opposite of a wrench, which acts on the first body.
fn reaction(wrench: Wrench) -> Wrench
    requires { IsEdgeWrench wrench }
    ensures value { result ≡ wrench_times (negsuc 0) wrench }
    ensures size { IsEdgeWrench result }
{
    Wrench {
        fx: against(Whole { value: wrench.fx }).value,
        fy: against(Whole { value: wrench.fy }).value,
        m: against(Whole { value: wrench.m }).value,
    }
}

/// The wrench on body `i`, given that on the second body.
fn exerted(i: usize, z: &Bearing, wrench: Wrench) -> Wrench
    requires { IsEdgeWrench wrench }
    ensures value { result ≡ wrench_times (bearing_side i (scene_bearing_of z.now)) wrench }
    ensures size { IsSmall result }
{
    if i == z.second {
        wrench
    } else if i == z.first {
        reaction(wrench)
    } else {
        Wrench { fx: 0, fy: 0, m: 0 }
    }
}

/// Bearing `k` of the survey, which lies in range.
fn bounded_bearing(s: &Survey, k: usize) -> Bearing
    requires { k < length s.now.bearings }
    ensures value { result ≡ bearing_of s.now k }
    ensures at { IsInRange result.at }
{
    s.within();
    bearing_at(s, k)
}

/// The wrench on free block `b` of a force at bearing `k`, about the block's first stored corner: of `q` times the
/// normal and `p` times the tangent or, where `plus` is false, of `q` times the normal minus `p` times the tangent. It
/// is the opposite on the first body, and zero on a block that isn't one of the bearing's two. Takes no memory.
pub fn column(s: &Survey, k: usize, plus: bool, b: usize) -> Wrench
    requires bearing { k < length s.now.bearings }
    requires block { b < length (frees_of s.now.structure.bodies) }
    ensures value { result ≡ column_of s.now k plus (body_number s.now b) }
    ensures size { IsSmall result }
{
    let bearing = bounded_bearing(s, k);
    let body = s.free(b);
    let outline = s.model().polygon(body);
    outline.valid();
    exerted(
        body,
        &bearing,
        edge_wrench(outline.corner(0), &bearing, plus),
    )
}
