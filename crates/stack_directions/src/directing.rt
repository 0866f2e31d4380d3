//! The survey of a model whose live loads are two of its own, each with a multiple of its force, without its sway.

ghost use Rattle.std.specs.Prelude.{◌≡◌, ◌<◌, IfOk, length};
ghost use Rattle.stack_model.specs.ModelView.{model_view};
ghost use Rattle.stack_model.specs.Structure.{load_of};
ghost use Rattle.stack_pairs.specs.Directed.{times_load, directed_load, directed_from, directed_survey};
ghost use Rattle.stack_pairs.specs.Directed.{ArePair, AreFactors};
ghost use Rattle.stack_directions.specs.Directing.{IsSlightForce, IsLimitedFactor, load_or_none};

use stack_contact::{Survey, survey_again};
use stack_model::{Load, Model};
use std::alloc::{AllocError, Global};

/// A load with a multiple of its force.
fn times(m: i64, load: Load) -> Load
    requires force { IsSlightForce load }
    requires factor { IsLimitedFactor m }
    ensures { result ≡ times_load m load }
{
    Load {
        body: load.body,
        live: load.live,
        at: load.at,
        fx: m * load.fx,
        fy: m * load.fy,
    }
}

/// Two live loads by their numbers from 0, and a factor for each.
#[derive(Clone, Copy)]
pub struct Towards {
    pub i: usize,
    pub j: usize,
    pub m: i64,
    pub n: i64,
}

/// What is left of load `k`.
fn left(model: &Model, t: Towards, k: usize) -> Option<Load>
    requires pair { ArePair (model_view model.now) t.i t.j }
    requires factors { AreFactors t.m t.n }
    requires listed { k < length (model_view model.now).loads }
    ensures { load_or_none result ≡ directed_load t.i t.j t.m t.n k (load_of (model_view model.now) k) }
{
    let load = model.load(k);
    if !load.live {
        return Some(load);
    }
    if k == t.i {
        return Some(times(t.m, load));
    }
    if k == t.j {
        return Some(times(t.n, load));
    }
    None
}

/// The loads that are left, in their order.
fn directed_loads(alloc: Global, model: &Model, t: Towards) -> Result<Vec<Load>, AllocError>
    requires pair { ArePair (model_view model.now) t.i t.j }
    requires factors { AreFactors t.m t.n }
    ensures { IfOk result (λ v. v.items ≡ directed_from t.i t.j t.m t.n 0 (model_view model.now).loads) }
{
    let mut list = Vec::new(alloc);
    for k in 0..model.loads() {
        if let Some(load) = left(model, t, k) {
            list.push(load)?;
        }
    }
    Ok(list)
}

/// The survey towards a direction.
pub fn survey_towards(alloc: Global, s: &Survey, t: Towards) -> Result<Survey, AllocError>
    requires pair { ArePair s.now.structure t.i t.j }
    requires factors { AreFactors t.m t.n }
    ensures { IfOk result (λ r. r ≡ directed_survey s.now t.i t.j t.m t.n) }
{
    let own = s.model();
    own.sound();
    let loads = directed_loads(alloc, own, t)?;
    let model = own.with_loads(alloc, loads.as_slice(), (0, 0))?;
    survey_again(alloc, s, model)
}

/// The survey of a model without its sway and without its live loads but `i` and `j`, whose forces are multiplied by
/// `m` and by `n`, from -1,000 to 1,000. Its bearings and touches are those of `s`. `AllocError` if memory ran out.
pub fn directed(
    alloc: Global,
    s: &Survey,
    i: usize,
    j: usize,
    m: i64,
    n: i64,
) -> Result<Survey, AllocError>
    requires pair { ArePair s.now.structure i j }
    requires factors { AreFactors m n }
    ensures { IfOk result (λ t. t ≡ directed_survey s.now i j m n) }
{
    survey_towards(alloc, s, Towards { i, j, m, n })
}
