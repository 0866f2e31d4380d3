//! The materials and the bodies of a model, kept once more.

ghost use Rattle.std.specs.Prelude.{◌≡◌, map, IfOk};
ghost use Rattle.stack_model.specs.Kept.{material_view, body_view};

use crate::kept::{KeptBody, KeptMaterial};
use std::alloc::{AllocError, Global};

/// A material, kept once more.
fn material_again(alloc: Global, kept: &KeptMaterial) -> Result<KeptMaterial, AllocError>
    ensures { IfOk result (λ m. material_view m ≡ material_view kept.now) }
{
    Ok(KeptMaterial {
        name: String::from_str(alloc, kept.name.as_str())?,
        material: kept.material,
    })
}

/// A body, kept once more.
pub fn body_again(alloc: Global, kept: &KeptBody) -> Result<KeptBody, AllocError>
    ensures { IfOk result (λ b. body_view b ≡ body_view kept.now) }
{
    Ok(KeptBody {
        name: String::from_str(alloc, kept.name.as_str())?,
        body: kept.body,
        outline: kept.outline.again(alloc)?,
    })
}

/// The materials, kept once more.
pub fn materials_again(
    alloc: Global,
    kept: &[KeptMaterial],
) -> Result<Vec<KeptMaterial>, AllocError>
    ensures { IfOk result (λ v. map material_view v.items ≡ map material_view kept.now) }
{
    let mut list = Vec::new(alloc);
    for i in 0..kept.len() {
        list.push(material_again(alloc, &kept[i])?)?;
    }
    Ok(list)
}

/// The bodies, kept once more.
pub fn bodies_again(alloc: Global, kept: &[KeptBody]) -> Result<Vec<KeptBody>, AllocError>
    ensures { IfOk result (λ v. map body_view v.items ≡ map body_view kept.now) }
{
    let mut list = Vec::new(alloc);
    for i in 0..kept.len() {
        list.push(body_again(alloc, &kept[i])?)?;
    }
    Ok(list)
}
