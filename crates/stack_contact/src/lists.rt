//! The contacts of all pairs, pair by pair.

ghost use Rattle.std.specs.Prelude.{◌≡◌, ◌<◌, suc, length, ◌++◌, IfOk, MatchResult};
ghost use Rattle.stack_model.specs.ModelView.{model_view};
ghost use Rattle.stack_frame.specs.Cones.{IsCoefficient};
ghost use Rattle.stack_contact.specs.ContactLists.{material_friction, friction_of_materials, friction_between, IsPair};
ghost use Rattle.stack_contact.specs.NearPairs.{AreNearPairs, IsOrdered};
ghost use Rattle.stack_contact.specs.Found.{bearings_in, touches_in, AreFound, AreAllFound, Stops};

use crate::pair::contacts;
use crate::sweeping::{Pair, near_pairs};
use crate::types::{Bearing, Contacts, SurveyError, Touch};
use stack_frame::{Coefficient, Cone, cone_of};
use stack_model::Model;
use std::alloc::{AllocError, Global};

/// The contacts found so far.
#[derive(Drop)]
pub struct Lists {
    pub bearings: Vec<Bearing>,
    pub touches: Vec<Touch>,
}

/// The coefficient of a material.
fn friction(model: &Model, material: usize) -> Coefficient
    requires { material < length (model_view model.now).materials }
    ensures is { result ≡ material_friction (model_view model.now) material }
    ensures within { IsCoefficient result }
{
    let material = model.material(material);
    Coefficient {
        p: material.p,
        q: material.q,
    }
}

/// The coefficient between two materials: that of their joint, or else the lesser of the two.
fn material_joint(model: &Model, s: usize, t: usize) -> Cone
    requires s { s < length (model_view model.now).materials }
    requires t { t < length (model_view model.now).materials }
    ensures { result ≡ friction_of_materials (model_view model.now) s t }
{
    match model.friction(s, t) {
        Some((p, q)) => Cone::new(p, q),
        None => {
            let a = friction(model, s);
            let b = friction(model, t);
            cone_of(a.p, a.q, b.p, b.q)
        }
    }
}

/// The coefficient between two bodies.
fn joint_friction(model: &Model, first: usize, second: usize) -> Cone
    requires first { first < length (model_view model.now).bodies }
    requires second { second < length (model_view model.now).bodies }
    ensures { result ≡ friction_between (model_view model.now) first second }
{
    material_joint(
        model,
        model.body(first).material,
        model.body(second).material,
    )
}

/// The lists with the contacts of one more pair.
fn longer(
    mut lists: Lists,
    first: usize,
    second: usize,
    cone: Cone,
    found: Contacts,
) -> Result<Lists, AllocError>
    ensures bearings { IfOk result
        (λ r. r.bearings.items ≡ lists.bearings.items ++ bearings_in first second cone found) }
    ensures touches { IfOk result
        (λ r. r.touches.items ≡ lists.touches.items ++ touches_in first second found) }
{
    match found {
        Contacts::Free => Ok(lists),
        Contacts::Touching(at) => {
            lists.touches.push(Touch { first, second, at })?;
            Ok(lists)
        }
        Contacts::AtOne { at, frame } => {
            lists.bearings.push(Bearing {
                first,
                second,
                at,
                frame,
                cone,
            })?;
            Ok(lists)
        }
        Contacts::AtTwo { from, to, frame } => {
            lists.bearings.push(Bearing {
                first,
                second,
                at: from,
                frame,
                cone,
            })?;
            lists.bearings.push(Bearing {
                first,
                second,
                at: to,
                frame,
                cone,
            })?;
            Ok(lists)
        }
    }
}

/// The lists with the contacts of a pair, from those of the pairs before.
fn with_pair(model: &Model, lists: Lists, pair: Pair) -> Result<Lists, SurveyError>
    requires pair { IsPair (model_view model.now) pair.first pair.second }
    requires found { AreFound (model_view model.now) pair.first pair.second lists.bearings.items lists.touches.items }
    ensures { MatchResult result
        (λ r. AreFound (model_view model.now) pair.first (suc pair.second) r.bearings.items r.touches.items)
        (λ e. Stops (model_view model.now) e) }
{
    let cone = joint_friction(model, pair.first, pair.second);
    match contacts(model.polygon(pair.first), model.polygon(pair.second)) {
        None => Err(SurveyError::Overlap {
            first: pair.first,
            second: pair.second,
        }),
        Some(found) => {
            let more = longer(lists, pair.first, pair.second, cone, found)?;
            Ok(more)
        }
    }
}

/// The contacts of the near pairs, which are those of all pairs.
fn found_in(alloc: Global, model: &Model, pairs: &[Pair]) -> Result<Lists, SurveyError>
    requires near { AreNearPairs (model_view model.now) pairs.now }
    requires ordered { IsOrdered pairs.now }
    ensures { MatchResult result (λ r. AreAllFound (model_view model.now) r.bearings.items r.touches.items)
        (λ e. Stops (model_view model.now) e) }
{
    model.sound();
    let mut lists = Lists {
        bearings: Vec::new(alloc),
        touches: Vec::new(alloc),
    };
    for n in 0..pairs.len() {
        let more = with_pair(model, lists, pairs[n])?;
        lists = more;
    }
    Ok(lists)
}

/// The contacts of all pairs.
pub fn all_found(alloc: Global, model: &Model) -> Result<Lists, SurveyError>
    ensures { MatchResult result (λ r. AreAllFound (model_view model.now) r.bearings.items r.touches.items)
        (λ e. Stops (model_view model.now) e) }
{
    let pairs = near_pairs(alloc, model)?;
    let lists = found_in(alloc, model, pairs.as_slice())?;
    Ok(lists)
}
