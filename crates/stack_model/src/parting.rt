//! A part of a model.

ghost use Rattle.std.specs.Prelude.{◌≡◌, [], ◌∷◌, ◌++◌, map, IfOk, if◌then◌else◌};
ghost use Rattle.stack_model.specs.Kept.{body_view};
ghost use Rattle.stack_model.specs.ModelView.{model_view};
ghost use Rattle.stack_model.specs.Keeping.{flag_at, kept, picked};
ghost use Rattle.stack_model.specs.Part.{load_among, part_of};

use crate::copying::body_again;
use crate::keeping::{among, flag};
use crate::kept::KeptBody;
use crate::model::Model;
use crate::types::Load;
use std::alloc::{AllocError, Global};

/// The list with one body more, where it is kept.
fn with_body(
    alloc: Global,
    mut list: Vec<KeptBody>,
    body: &KeptBody,
    keeps: bool,
) -> Result<Vec<KeptBody>, AllocError>
    ensures { IfOk result (λ v. map body_view v.items
        ≡ map body_view list.items ++ (if keeps then body_view body.now ∷ [] else [])) }
{
    if keeps {
        list.push(body_again(alloc, body)?)?;
    }
    Ok(list)
}

/// The bodies that are kept, once more.
pub fn kept_bodies(
    alloc: Global,
    bodies: &[KeptBody],
    keeps: &[bool],
) -> Result<Vec<KeptBody>, AllocError>
    ensures { IfOk result (λ v. map body_view v.items ≡ kept (flag_at keeps.now) (map body_view bodies.now)) }
{
    let mut list = Vec::new(alloc);
    for i in 0..bodies.len() {
        list = with_body(alloc, list, &bodies[i], flag(keeps, i))?;
    }
    Ok(list)
}

/// The list with one load more, where its body is kept.
fn with_load(mut list: Vec<Load>, keeps: &[bool], load: Load) -> Result<Vec<Load>, AllocError>
    ensures { IfOk result (λ v. v.items ≡ list.items ++ (if flag_at keeps.now load.body
        then load_among (flag_at keeps.now) load ∷ [] else [])) }
{
    if flag(keeps, load.body) {
        list.push(Load {
            body: among(keeps, load.body),
            live: load.live,
            at: load.at,
            fx: load.fx,
            fy: load.fy,
        })?;
    }
    Ok(list)
}

/// The loads on kept bodies.
pub fn kept_loads(alloc: Global, loads: &[Load], keeps: &[bool]) -> Result<Vec<Load>, AllocError>
    ensures { IfOk result (λ v. v.items
        ≡ picked (λ l. flag_at keeps.now l.body) (load_among (flag_at keeps.now)) loads.now) }
{
    let mut list = Vec::new(alloc);
    for i in 0..loads.len() {
        list = with_load(list, keeps, loads[i])?;
    }
    Ok(list)
}
