//! A model: its version, its sway, and the lists of its materials, joints, bodies and loads.

ghost use Rattle.std.specs.Prelude.{◌≡◌, ◌↔◌, ◌<◌, ◌≤◌, ◌||◌, not, IsTrue, IfSome, false, length, map, IfOk};
ghost use Rattle.std.specs.List.{list_any};
ghost use Rattle.stack_model.specs.Parts.{IsOfVersion};
ghost use Rattle.stack_polygon.specs.Limits.{IsPolygon};
ghost use Rattle.stack_model.specs.Limits.{most_materials, most_joints, most_bodies, most_loads};
ghost use Rattle.stack_model.specs.Structure.{structure_with, material_of, joint_of, body_of, load_of, IsWithinLimits};
ghost use Rattle.stack_model.specs.Structure.{HasJointLimits, IsSway, IsCarried, HasLive, lists_live};
ghost use Rattle.stack_model.specs.Structure.{is_still as is_still_of, joint_terms, AreTermsBetween, AreTerms};
ghost use Rattle.stack_model.specs.Sound.{IsSound};
ghost use Rattle.stack_model.specs.Raw.{raw_parts};
ghost use Rattle.stack_model.specs.Gives.{Gives};
ghost use Rattle.stack_model.specs.Content.{content_of};
ghost use Rattle.stack_model.specs.Kept.{material_view, body_view, material_alone, body_alone};
ghost use Rattle.stack_model.specs.ModelView.{model_view};
ghost use Rattle.stack_model.specs.Borne.{MayBear, bearing};
ghost use Rattle.stack_model.specs.Keeping.{flag_at};
ghost use Rattle.stack_model.specs.Part.{part_of};

use crate::bodies::Bodies;
use crate::content::{bodies, head, joints, loads};
use crate::copying::{bodies_again, materials_again};
use crate::errors::ModelError;
use crate::joints::terms_between;
use crate::kept::{Head, KeptBody, KeptMaterial};
use crate::materials::Materials;
use crate::parting::{kept_bodies, kept_loads};
use crate::raw::Parts;
use crate::types::{Body, Joint, Load, Material};
use stack_polygon::Polygon;
use std::alloc::{AllocError, Global};

/// A version, a sway, and materials, joints, bodies and loads, each numbered from 0 in the order of the file.
#[derive(Debug, Drop)]
pub struct Model {
    head: Head,
    materials: Vec<KeptMaterial>,
    joints: Vec<Joint>,
    bodies: Vec<KeptBody>,
    loads: Vec<Load>,
}

impl std::marker::Model for Model {
    ghost use Rattle.stack_model.specs.Structure.{Structure};
    ghost use Rattle.stack_model.specs.Sound.{IsSound};

    ghost Value = { Structure };

    ghost use Rattle.stack_model.specs.Kept.{inside_view};

    ghost view = { inside_view };

    ghost invariant = { λ m. IsSound (inside_view m) };
}

fn any_live(loads: &[Load]) -> bool
    ensures { result ≡ list_any (λ l. l.live) loads.now }
{
    loads.iter().any(|load| load.live)
}

/// Whether one of these loads is live, or the sway isn't (0, 0).
fn are_live(loads: &[Load], sway: (i64, i64)) -> bool
    ensures { result ≡ (list_any (λ l. l.live) loads.now || not (is_still_of sway)) }
{
    any_live(loads) || !is_still(sway)
}

/// Whether a sway is (0, 0), which is none. Takes no memory.
pub fn is_still(sway: (i64, i64)) -> bool
    ensures { result ≡ is_still_of sway }
{
    sway.0 == 0 && sway.1 == 0
}

impl Model {
    /// The model of these parts, or the first fault of their content. Joints and a sway are for parts of version 2
    /// alone. The parts are consumed, also by a refusal.
    pub fn new(alloc: Global, parts: Parts) -> Result<Model, ModelError>
        requires { IsOfVersion (raw_parts parts) }
        ensures { Gives model_view result (content_of (raw_parts parts)) }
    {
        Model::checked(alloc, &parts)
    }

    /// The model of these parts, or the first fault of their content.
    #[tactic(auto, unfolding(crate::specs::Content::content_of))]
    fn checked(alloc: Global, parts: &Parts) -> Result<Model, ModelError>
        requires { IsOfVersion (raw_parts parts.now) }
        ensures { Gives model_view result (content_of (raw_parts parts.now)) }
    {
        let head = head(parts)?;
        let (materials, joints) = joints(alloc, parts)?;
        let bodies = bodies(alloc, &materials, parts)?;
        let loads = loads(alloc, &bodies, parts)?;
        Ok(Model::of_checked(head, materials, joints, bodies, loads))
    }

    /// The model of the materials and the bodies that were checked.
    fn of_checked(
        head: Head,
        materials: Materials,
        joints: Vec<Joint>,
        bodies: Bodies,
        loads: Vec<Load>,
    ) -> Model
        requires { IsSound (structure_with head.version head.sway materials joints.items bodies loads.items) }
        ensures { model_view result ≡ structure_with head.version head.sway materials joints.items bodies
            loads.items }
    {
        Model::of(head, materials.kept, joints, bodies.kept, loads)
    }

    /// The model of these lists.
    pub(crate) fn of(
        head: Head,
        materials: Vec<KeptMaterial>,
        joints: Vec<Joint>,
        bodies: Vec<KeptBody>,
        loads: Vec<Load>,
    ) -> Model
        requires { IsSound (structure_with head.version head.sway (map material_view materials.items) joints.items
            (map body_view bodies.items) loads.items) }
        ensures { model_view result ≡ structure_with head.version head.sway (map material_view materials.items)
            joints.items (map body_view bodies.items) loads.items }
    {
        Model {
            head,
            materials,
            joints,
            bodies,
            loads,
        }
    }

    /// The model with the same version, materials, joints and bodies, and with these loads and this sway. Each load is
    /// within the limits and on a free body, there are at most 256, and the sway is (0, 0) unless the version is 2.
    /// `AllocError` if memory ran out.
    pub fn with_loads(
        &self,
        alloc: Global,
        loads: &[Load],
        sway: (i64, i64),
    ) -> Result<Model, AllocError>
        requires { MayBear (model_view self.now) loads.now sway }
        ensures { IfOk result (λ m. model_view m ≡ bearing (model_view self.now) loads.now sway) }
    {
        let bodies = bodies_again(alloc, self.bodies.as_slice())?;
        let loads = Vec::from_slice(alloc, loads)?;
        self.over(alloc, sway, bodies, loads)
    }

    /// The model of the bodies that are kept, in their order, with the loads on them, and with all materials, all
    /// joints and the sway. `keeps` says of each body whether it is kept; past its end none is. `AllocError` if memory
    /// ran out.
    pub fn part(&self, alloc: Global, keeps: &[bool]) -> Result<Model, AllocError>
        ensures { IfOk result (λ m. model_view m ≡ part_of (flag_at keeps.now) (model_view self.now)) }
    {
        let bodies = kept_bodies(alloc, self.bodies.as_slice(), keeps)?;
        let loads = kept_loads(alloc, self.loads.as_slice(), keeps)?;
        self.over(alloc, self.head.sway, bodies, loads)
    }

    /// The model with the same version, materials and joints, and with this sway, these bodies and these loads.
    fn over(
        &self,
        alloc: Global,
        sway: (i64, i64),
        bodies: Vec<KeptBody>,
        loads: Vec<Load>,
    ) -> Result<Model, AllocError>
        requires { IsSound (structure_with (model_view self.now).version sway (model_view self.now).materials
            (model_view self.now).joints (map body_view bodies.items) loads.items) }
        ensures { IfOk result (λ m. model_view m ≡ structure_with (model_view self.now).version sway
            (model_view self.now).materials (model_view self.now).joints (map body_view bodies.items) loads.items) }
    {
        let head = Head {
            version: self.head.version,
            sway,
        };
        let materials = materials_again(alloc, self.materials.as_slice())?;
        let joints = Vec::from_slice(alloc, self.joints.as_slice())?;
        Ok(Model::of(head, materials, joints, bodies, loads))
    }

    /// The version of its file, 1 or 2.
    pub fn version(&self) -> i64
        ensures { result ≡ (model_view self.now).version }
    {
        self.head.version
    }

    /// The sway, (0, 0) where none is listed.
    pub fn sway(&self) -> (i64, i64)
        ensures value { result ≡ (model_view self.now).sway }
        ensures limits { IsSway result }
    {
        self.head.sway
    }

    /// The number of joints, at most 256.
    pub fn joints(&self) -> usize
        ensures value { result ≡ length (model_view self.now).joints }
        ensures few { result ≤ most_joints }
    {
        self.joints.len()
    }

    /// Joint `i`.
    pub fn joint(&self, i: usize) -> Joint
        requires { i < length (model_view self.now).joints }
        ensures value { result ≡ joint_of (model_view self.now) i }
        ensures between { HasJointLimits (length (model_view self.now).materials) result }
    {
        self.joints[i]
    }

    /// The terms of the coefficient of the joint between the materials `s` and `t`, in either order. None exactly if no
    /// joint is between them.
    pub fn friction(&self, s: usize, t: usize) -> Option<(i64, i64)>
        requires s { s < length (model_view self.now).materials }
        requires t { t < length (model_view self.now).materials }
        ensures value { result ≡ joint_terms (model_view self.now).joints s t }
        ensures meaning { AreTermsBetween (model_view self.now).joints s t result }
        ensures limits { IfSome result (λ terms. AreTerms terms) }
    {
        terms_between(self.joints.as_slice(), s, t)
    }

    /// The number of materials, at most 64.
    pub fn materials(&self) -> usize
        ensures value { result ≡ length (model_view self.now).materials }
        ensures few { result ≤ most_materials }
    {
        self.materials.len()
    }

    /// Material `i`.
    pub fn material(&self, i: usize) -> Material
        requires { i < length (model_view self.now).materials }
        ensures value { result ≡ material_alone (material_of (model_view self.now) i) }
        ensures limits { IsWithinLimits (material_of (model_view self.now) i) }
    {
        self.materials[i].material
    }

    /// The name of material `i`.
    pub fn material_name(&self, i: usize) -> &str
        requires { i < length (model_view self.now).materials }
        ensures { result.now ≡ (material_of (model_view self.now) i).name }
    {
        self.materials[i].name.as_str()
    }

    /// A model is sound: its items are within their limits and no more than there may be. Does nothing.
    pub fn sound(&self)
        ensures { IsSound (model_view self.now) }
    {
        // What the type keeps is known once a field is named.
        let _ = &self.bodies;
    }

    /// The number of bodies, at most `MOST_BODIES`.
    pub fn bodies(&self) -> usize
        ensures value { result ≡ length (model_view self.now).bodies }
        ensures few { result ≤ most_bodies }
        ensures sound { IsSound (model_view self.now) }
    {
        self.bodies.len()
    }

    /// Body `i`: its material and whether it is fixed.
    pub fn body(&self, i: usize) -> Body
        requires { i < length (model_view self.now).bodies }
        ensures value { result ≡ body_alone (body_of (model_view self.now) i) }
        ensures has_material { result.material < length (model_view self.now).materials }
    {
        self.bodies[i].body
    }

    /// The name of body `i`.
    pub fn name(&self, i: usize) -> &str
        requires { i < length (model_view self.now).bodies }
        ensures { result.now ≡ (body_of (model_view self.now) i).name }
    {
        self.bodies[i].name.as_str()
    }

    /// The outline of body `i`.
    pub fn polygon(&self, i: usize) -> &Polygon
        requires { i < length (model_view self.now).bodies }
        ensures value { result.now ≡ (body_of (model_view self.now) i).corners }
        ensures polygon { IsPolygon result.now }
    {
        &self.bodies[i].outline
    }

    /// The number of loads, at most 256.
    pub fn loads(&self) -> usize
        ensures value { result ≡ length (model_view self.now).loads }
        ensures few { result ≤ most_loads }
    {
        self.loads.len()
    }

    /// Whether a live load is listed: one of kind `live`, or a sway that isn't (0, 0).
    pub fn has_live(&self) -> bool
        ensures value { result ≡ lists_live (model_view self.now) }
        ensures meaning { IsTrue result ↔ HasLive (model_view self.now) }
    {
        are_live(self.loads.as_slice(), self.head.sway)
    }

    /// Load `i`; its body isn't fixed.
    pub fn load(&self, i: usize) -> Load
        requires { i < length (model_view self.now).loads }
        ensures value { result ≡ load_of (model_view self.now) i }
        ensures carried { IsCarried (length (model_view self.now).bodies) result }
        ensures free { (body_of (model_view self.now) result.body).fixed ≡ false }
    {
        self.loads[i]
    }
}
