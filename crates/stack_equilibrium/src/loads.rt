//! The loads of a block.

ghost use Rattle.std.specs.Prelude.{◌≡◌, ◌<◌, ◌+◌, ◌&&◌, length, nat_eq};
ghost use Rattle.stack_polygon.specs.Limits.{IsInRange};
ghost use Rattle.stack_model.specs.Limits.{most_loads};
ghost use Rattle.stack_model.specs.ModelView.{model_view};
ghost use Rattle.stack_contact.specs.FreeBlocks.{frees_of};
ghost use Rattle.stack_equilibrium.specs.declared.types.Question.TheVariants as questions;
ghost use Rattle.stack_statics.specs.Loads.{wrench_sum, load_wrench};
ghost use Rattle.stack_equilibrium.specs.LoadSizes.{IsSmall, HasForceLimits, IsMoment, IsLimited, AreLoads};
ghost use Rattle.stack_equilibrium.specs.LoadSizes.{force_in, sixfold_of};
ghost use Rattle.stack_equilibrium.specs.SwaySizes.{IsOwnLoad};
ghost use Rattle.stack_equilibrium.specs.SurveyScene.{is_asked, acting, listed_on, loads_on};
ghost use Rattle.stack_equilibrium.specs.Answers.{body_in, body_number};

use crate::force::{Force, arm_of, moment};
use crate::sway::sway_on;
use crate::types::{Question, Wrench};
use crate::weight::weight_on;
use stack_contact::Survey;
use stack_model::{Load, Model};
use stack_polygon::Point;
use stack_whole::Whole;

/// Whether a load is one of those that are asked about.
fn is_asked(question: Question, load: Load) -> bool
    ensures { result ≡ is_asked question load }
{
    match question {
        Question::Dead => !load.live,
        Question::Live => load.live,
    }
}

/// Whether a load is asked about and acts on body `i`.
fn acts_on(question: Question, i: usize, load: Load) -> bool
    ensures { result ≡ (nat_eq load.body i && is_asked question load) }
{
    load.body == i && is_asked(question, load)
}

/// The force of a load.
fn force_of(load: Load) -> Force
    requires { IsLimited load }
    ensures value { result ≡ force_in load }
    ensures size { HasForceLimits result }
{
    Force {
        x: Whole::widened(load.fx),
        y: Whole::widened(load.fy),
    }
}

/// Six times a force and its moment.
fn sixfold(force: Force, moment: Whole) -> Wrench
    requires force { HasForceLimits force }
    requires moment { IsMoment moment.value }
    ensures value { result ≡ sixfold_of force moment.value }
    ensures size { AreLoads 1 result }
{
    Wrench {
        fx: 6 * force.x.value,
        fy: 6 * force.y.value,
        m: 6 * moment.value,
    }
}

/// Six times the wrench of a load about a corner.
fn wrench_about(corner: Point, load: Load) -> Wrench
    requires corner { IsInRange corner }
    requires load { IsLimited load }
    ensures value { result ≡ load_wrench corner load.at load.fx load.fy }
    ensures size { AreLoads 1 result }
{
    let force = force_of(load);
    sixfold(force, moment(arm_of(corner, load.at), force))
}

/// Six times the wrench of a load that is asked about and acts on body `i`, and nothing for any other.
fn acting(question: Question, i: usize, corner: Point, load: Load) -> Wrench
    requires corner { IsInRange corner }
    requires load { IsLimited load }
    ensures value { result ≡ acting question i corner load }
    ensures size { AreLoads 1 result }
{
    if acts_on(question, i, load) {
        wrench_about(corner, load)
    } else {
        Wrench { fx: 0, fy: 0, m: 0 }
    }
}

/// The wrenches of so many loads, and one more.
fn plus(total: Wrench, one: Wrench, count: usize) -> Wrench
    requires total { AreLoads count total }
    requires one { AreLoads 1 one }
    ensures value { result ≡ wrench_sum total one }
    ensures size { AreLoads (count + 1) result }
{
    Wrench {
        fx: total.fx + one.fx,
        fy: total.fy + one.fy,
        m: total.m + one.m,
    }
}

/// The listed loads on body `i`.
fn listed_on(question: Question, model: &Model, i: usize) -> Wrench
    requires { i < length (model_view model.now).bodies }
    ensures value { result ≡ listed_on question (model_view model.now) i }
    ensures size { AreLoads most_loads result }
{
    let outline = model.polygon(i);
    outline.valid();
    let corner = outline.corner(0);
    let mut total = Wrench { fx: 0, fy: 0, m: 0 };
    for n in 0..model.loads() {
        let one = acting(question, i, corner, model.load(n));
        total = plus(total, one, n);
    }
    total
}

/// The load that a body's own weight makes, and the listed loads beside it.
fn with_listed(own: Wrench, listed: Wrench) -> Wrench
    requires own { IsOwnLoad own }
    requires listed { AreLoads most_loads listed }
    ensures value { result ≡ wrench_sum own listed }
    ensures size { IsSmall result }
{
    Wrench {
        fx: own.fx + listed.fx,
        fy: own.fy + listed.fy,
        m: own.m + listed.m,
    }
}

/// The dead loads of body `i`.
fn dead_on(model: &Model, i: usize) -> Wrench
    requires { i < length (model_view model.now).bodies }
    ensures value { result ≡ loads_on questions.Dead (model_view model.now) i }
    ensures size { IsSmall result }
{
    let outline = model.polygon(i);
    let unit = model.material(model.body(i).material).weight;
    let listed = listed_on(Question::Dead, model, i);
    with_listed(weight_on(unit, outline), listed)
}

/// The live loads of body `i`.
fn live_on(model: &Model, i: usize) -> Wrench
    requires { i < length (model_view model.now).bodies }
    ensures value { result ≡ loads_on questions.Live (model_view model.now) i }
    ensures size { IsSmall result }
{
    let outline = model.polygon(i);
    let unit = model.material(model.body(i).material).weight;
    let (x, y) = model.sway();
    let listed = listed_on(Question::Live, model, i);
    with_listed(sway_on(x, y, unit, outline), listed)
}

/// The dead or the live loads of body `i`.
pub fn loads_on(question: Question, model: &Model, i: usize) -> Wrench
    requires { i < length (model_view model.now).bodies }
    ensures value { result ≡ loads_on question (model_view model.now) i }
    ensures size { IsSmall result }
{
    match question {
        Question::Dead => dead_on(model, i),
        Question::Live => live_on(model, i),
    }
}

/// The dead loads of free block `b`, counted among the free blocks, in sixths of a unit of force: its weight, and each
/// dead load on it. The moment is about its first stored corner. Takes no memory.
pub fn dead(s: &Survey, b: usize) -> Wrench
    requires { b < length (frees_of s.now.structure.bodies) }
    ensures value { result ≡ (body_in s.now (body_number s.now b)).dead }
    ensures size { IsSmall result }
{
    loads_on(Question::Dead, s.model(), s.free(b))
}

/// The live loads of free block `b`, counted among the free blocks, in sixths of a unit of force: its weight times the
/// sway, and each live load on it. The moment is about its first stored corner. Takes no memory.
pub fn live(s: &Survey, b: usize) -> Wrench
    requires { b < length (frees_of s.now.structure.bodies) }
    ensures value { result ≡ (body_in s.now (body_number s.now b)).live }
    ensures size { IsSmall result }
{
    loads_on(Question::Live, s.model(), s.free(b))
}
