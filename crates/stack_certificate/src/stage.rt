//! How far a text has been read.

ghost use Rattle.std.specs.Prelude.{◌≡◌, IfOk};
ghost use Rattle.std.specs.Option.{option_map};
ghost use Rattle.stack_certificate.specs.Certificate.{forces_view, certificate_view};
ghost use Rattle.stack_certificate.specs.CertificateOf.{no_parts, with_push, with_move, begun, continued};
ghost use Rattle.stack_certificate.specs.CertificateOf.{progress_after, before_motion, before_ray, unended};
ghost use Rattle.stack_certificate.specs.Stages.{stage_view, Finishes};

use crate::line::{CertificateForm, Line};
use crate::types::{Certificate, Forces, Motion};
use std::alloc::{AllocError, Global};

/// What was read, by the line that comes next.
#[derive(Drop)]
pub enum Stage {
    /// The form.
    Start,
    /// The first list of the form.
    Formed(CertificateForm),
    /// A further part of these forces, or a motion.
    BeforeMotion(Forces),
    /// A further part of these forces, or further forces.
    BeforeRay(Forces),
    /// A further part or move, or `end`.
    Unended(Certificate),
    /// No line: the text is whole.
    Ended(Certificate),
}

/// The stage after one more line, if that line may come there.
pub fn accept(alloc: Global, stage: Stage, line: Line) -> Result<Option<Stage>, AllocError>
    ensures { IfOk result (λ s. option_map stage_view s ≡ progress_after (stage_view stage) line) }
{
    match stage {
        Stage::Start => match line {
            Line::Form(form) => Ok(Some(Stage::Formed(form))),
            _ => Ok(None),
        },
        Stage::Formed(form) => Ok(begin(alloc, form, line)),
        Stage::BeforeMotion(forces) => part_or_motion(alloc, forces, line),
        Stage::BeforeRay(forces) => part_or_ray(alloc, forces, line),
        Stage::Unended(certificate) => go_on(certificate, line),
        Stage::Ended(_) => Ok(None),
    }
}

/// Forces at no bearing yet.
fn new_forces(alloc: Global, scale: i128, factor: i128) -> Forces
    ensures { forces_view result ≡ no_parts scale factor }
{
    Forces {
        scale,
        factor,
        parts: Vec::new(alloc),
    }
}

/// The first list of the form begins.
fn begin(alloc: Global, form: CertificateForm, line: Line) -> Option<Stage>
    ensures { option_map stage_view result ≡ begun form line }
{
    match (form, line) {
        (CertificateForm::Stands, Line::Forces { scale, factor }) => Some(Stage::Unended(
            Certificate::Stands(new_forces(alloc, scale, factor)),
        )),
        (CertificateForm::Collapses, Line::Motion) => {
            let moves = Vec::new(alloc);
            Some(Stage::Unended(Certificate::Collapses(Motion { moves })))
        }
        (CertificateForm::Greatest, Line::Forces { scale, factor }) => {
            Some(Stage::BeforeMotion(new_forces(alloc, scale, factor)))
        }
        (CertificateForm::Unbounded, Line::Forces { scale, factor }) => {
            Some(Stage::BeforeRay(new_forces(alloc, scale, factor)))
        }
        _ => None,
    }
}

/// The forces of a greatest factor go on, or its motion begins.
fn part_or_motion(
    alloc: Global,
    mut forces: Forces,
    line: Line,
) -> Result<Option<Stage>, AllocError>
    ensures { IfOk result (λ s. option_map stage_view s ≡ progress_after (before_motion (forces_view forces)) line) }
{
    match line {
        Line::Push { a, b } => {
            forces.parts.push((a, b))?;
            Ok(Some(Stage::BeforeMotion(forces)))
        }
        Line::Motion => {
            let moves = Vec::new(alloc);
            Ok(Some(Stage::Unended(Certificate::Greatest(forces, Motion { moves }))))
        }
        _ => Ok(None),
    }
}

/// The first forces of an unbounded factor go on, or the further ones begin.
fn part_or_ray(alloc: Global, mut forces: Forces, line: Line) -> Result<Option<Stage>, AllocError>
    ensures { IfOk result (λ s. option_map stage_view s ≡ progress_after (before_ray (forces_view forces)) line) }
{
    match line {
        Line::Push { a, b } => {
            forces.parts.push((a, b))?;
            Ok(Some(Stage::BeforeRay(forces)))
        }
        Line::Forces { scale, factor } => {
            let ray = new_forces(alloc, scale, factor);
            Ok(Some(Stage::Unended(Certificate::Unbounded(forces, ray))))
        }
        _ => Ok(None),
    }
}

/// The last list goes on, or the text ends.
fn go_on(certificate: Certificate, line: Line) -> Result<Option<Stage>, AllocError>
    ensures { IfOk result (λ s. option_map stage_view s ≡ continued (certificate_view certificate) line) }
{
    match line {
        Line::Push { a, b } => add_push(certificate, a, b),
        Line::Move { u, v, r } => add_move(certificate, u, v, r),
        Line::End => Ok(Some(Stage::Ended(certificate))),
        _ => Ok(None),
    }
}

/// A further part of the last list, if that is forces.
fn add_push(certificate: Certificate, a: i128, b: i128) -> Result<Option<Stage>, AllocError>
    ensures { IfOk result (λ s. option_map stage_view s ≡ option_map unended
        (with_push (certificate_view certificate) (a, b))) }
{
    match certificate {
        Certificate::Stands(mut forces) => {
            forces.parts.push((a, b))?;
            Ok(Some(Stage::Unended(Certificate::Stands(forces))))
        }
        Certificate::Unbounded(forces, mut ray) => {
            ray.parts.push((a, b))?;
            Ok(Some(Stage::Unended(Certificate::Unbounded(forces, ray))))
        }
        _ => Ok(None),
    }
}

/// A further move of the last list, if that is a motion.
fn add_move(
    certificate: Certificate,
    u: i128,
    v: i128,
    r: i128,
) -> Result<Option<Stage>, AllocError>
    ensures { IfOk result (λ s. option_map stage_view s ≡ option_map unended
        (with_move (certificate_view certificate) (u, v, r))) }
{
    match certificate {
        Certificate::Collapses(mut motion) => {
            motion.moves.push((u, v, r))?;
            Ok(Some(Stage::Unended(Certificate::Collapses(motion))))
        }
        Certificate::Greatest(forces, mut motion) => {
            motion.moves.push((u, v, r))?;
            Ok(Some(Stage::Unended(Certificate::Greatest(forces, motion))))
        }
        _ => Ok(None),
    }
}

/// The certificate, where its text is whole.
pub fn finish(stage: Stage) -> Option<Certificate>
    ensures { Finishes result (stage_view stage) }
{
    match stage {
        Stage::Ended(certificate) => Some(certificate),
        _ => None,
    }
}
