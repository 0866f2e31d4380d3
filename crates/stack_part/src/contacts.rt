//! The contacts between kept bodies.

ghost use Rattle.std.specs.Prelude.{◌≡◌, [], ◌∷◌, ◌++◌, ◌&&◌, IfOk, if◌then◌else◌};
ghost use Rattle.stack_model.specs.Keeping.{flag_at};
ghost use Rattle.stack_part.specs.Part.{bearing_among, touch_among, bearings_among, touches_among};

use stack_contact::{Bearing, Touch};
use stack_model::{among, flag};
use std::alloc::{AllocError, Global};

/// Whether two bodies are kept, both of them.
fn are_kept(keeps: &[bool], first: usize, second: usize) -> bool
    ensures { result ≡ (flag_at keeps.now first && flag_at keeps.now second) }
{
    let a = flag(keeps, first);
    let b = flag(keeps, second);
    a && b
}

/// The list with one bearing more, where its bodies are kept.
fn with_bearing(
    mut list: Vec<Bearing>,
    keeps: &[bool],
    z: Bearing,
) -> Result<Vec<Bearing>, AllocError>
    ensures { IfOk result (λ v. v.items ≡ list.items ++ (if flag_at keeps.now z.first && flag_at keeps.now z.second
        then bearing_among (flag_at keeps.now) z ∷ [] else [])) }
{
    if are_kept(keeps, z.first, z.second) {
        list.push(Bearing {
            first: among(keeps, z.first),
            second: among(keeps, z.second),
            at: z.at,
            frame: z.frame,
            cone: z.cone,
        })?;
    }
    Ok(list)
}

/// The list with one touch more, where its bodies are kept.
fn with_touch(mut list: Vec<Touch>, keeps: &[bool], z: Touch) -> Result<Vec<Touch>, AllocError>
    ensures { IfOk result (λ v. v.items ≡ list.items ++ (if flag_at keeps.now z.first && flag_at keeps.now z.second
        then touch_among (flag_at keeps.now) z ∷ [] else [])) }
{
    if are_kept(keeps, z.first, z.second) {
        list.push(Touch {
            first: among(keeps, z.first),
            second: among(keeps, z.second),
            at: z.at,
        })?;
    }
    Ok(list)
}

/// The bearings between kept bodies.
pub fn kept_bearings(
    alloc: Global,
    bearings: &[Bearing],
    keeps: &[bool],
) -> Result<Vec<Bearing>, AllocError>
    ensures { IfOk result (λ v. v.items ≡ bearings_among (flag_at keeps.now) bearings.now) }
{
    let mut list = Vec::new(alloc);
    for k in 0..bearings.len() {
        list = with_bearing(list, keeps, bearings[k])?;
    }
    Ok(list)
}

/// The touches between kept bodies.
pub fn kept_touches(
    alloc: Global,
    touches: &[Touch],
    keeps: &[bool],
) -> Result<Vec<Touch>, AllocError>
    ensures { IfOk result (λ v. v.items ≡ touches_among (flag_at keeps.now) touches.now) }
{
    let mut list = Vec::new(alloc);
    for k in 0..touches.len() {
        list = with_touch(list, keeps, touches[k])?;
    }
    Ok(list)
}
