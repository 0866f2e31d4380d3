//! Two live loads, given by their numbers in a file.

ghost use Rattle.std.specs.Prelude.{◌≡◌, ◌+◌, ℕ, IfSome, IfNone};
ghost use Rattle.stack_model.specs.ModelView.{model_view};
ghost use Rattle.stack_pairs.specs.Directed.{IsSlightLive};
ghost use Rattle.stack_directions.specs.Pairing.{IsSlight, Pairs, is_slight_load, slight_number, pair_of, GivesPair};

use crate::errors::NoPair;
use stack_model::{Load, Model};

/// The numbers from 0 of two live loads of a model.
#[derive(Clone, Copy)]
pub struct LoadPair {
    pub i: usize,
    pub j: usize,
}

/// Whether a load is live, with no component of more than 1,000,000 in size.
fn slight(load: &Load) -> bool
    ensures means { IsSlight result load.now }
    ensures test { result ≡ is_slight_load load.now }
{
    if !load.live {
        return false;
    }
    if load.fx < -1_000_000 || load.fx > 1_000_000 {
        return false;
    }
    load.fy >= -1_000_000 && load.fy <= 1_000_000
}

/// The number from 0 of the load with a number from 1, if it is such a load.
fn slight_live(m: &Model, number: u32) -> Option<usize>
    ensures some { IfSome result (λ k. (number ≡ k + 1) × IsSlightLive (model_view m.now) k) }
    ensures value { result ≡ slight_number (model_view m.now) number }
    ensures none { IfNone result ((k : ℕ) → number ≡ k + 1 → ¬ IsSlightLive (model_view m.now) k) }
{
    if number == 0 {
        return None;
    }
    let k = (number - 1) as usize;
    if k >= m.loads() {
        return None;
    }
    let load = m.load(k);
    if slight(&load) { Some(k) } else { None }
}

/// The numbers from 0 of two live loads, given from 1: neither has a component of more than 1,000,000 in size, and they
/// differ. Otherwise the first number that names no such load, or the second if it is the first again. Takes no memory.
pub fn pair(m: &Model, i: u32, j: u32) -> Result<(usize, usize), NoPair>
    ensures means { Pairs (model_view m.now) i j result }
    ensures gives { GivesPair result (pair_of (model_view m.now) i j) }
{
    let Some(first) = slight_live(m, i) else {
        return Err(NoPair { load: i });
    };
    let Some(second) = slight_live(m, j) else {
        return Err(NoPair { load: j });
    };
    if i == j {
        return Err(NoPair { load: j });
    }
    Ok((first, second))
}
