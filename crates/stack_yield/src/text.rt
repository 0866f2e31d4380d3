//! A region as text.

ghost use Rattle.std.specs.Prelude.{◌≡◌, ◌++◌, IfOk, Some, length, map, string_bytes};
ghost use Rattle.stack_yield.specs.Kept.{reach_view, region_view};
ghost use Rattle.stack_yield.specs.RegionText.{ratio_of, distance_text, direction_line, half_line, reach_text};
ghost use Rattle.stack_yield.specs.RegionText.{reach_lines, region_line, region_text, half_text, CanPrintRegion};
ghost use Rattle.stack_pairs.specs.Reaches.{points};

use crate::types::{Reach, Region};
use stack_certificate::{Certificate, write_certificate};
use stack_report::Ratio;
use stack_whole::Decimal;
use std::alloc::{AllocError, Global};
use std::fmt::{self, Write};

/// The numbers of a half-plane.
#[derive(Clone, Copy)]
struct HalfPlane {
    numbers: (i128, i128, i128),
}

impl fmt::Display for HalfPlane {
    ghost output = { λ h. Some (half_text h.numbers) };

    #[tactic(auto, unfolding(crate::specs::RegionText::half_text))]
    fn fmt<W: fmt::Write>(&self, f: &mut fmt::Formatter<W>) -> fmt::Result {
        write!(
            f,
            "{} {} {}",
            Decimal(self.numbers.0),
            Decimal(self.numbers.1),
            Decimal(self.numbers.2)
        )
    }
}

/// A coordinate of a point.
fn ratio(coordinate: &(i128, i128)) -> Ratio
    ensures { result ≡ ratio_of coordinate.now }
{
    Ratio {
        num: coordinate.0,
        den: coordinate.1,
    }
}

/// The text with how far a direction reaches.
fn with_distance(mut text: String, reach: &Reach) -> Result<String, AllocError>
    ensures { IfOk result (λ t. string_bytes t ≡ string_bytes text ++ distance_text (reach_view reach.now).point) }
{
    match &reach.point {
        Some(point) => {
            let x = ratio(&point.0);
            let y = ratio(&point.1);
            write!(text, "reach {x} {y}\n")?;
        }
        None => text.push_str("unlimited\n")?,
    }
    Ok(text)
}

/// The text with the line of a direction.
fn with_direction(mut text: String, reach: &Reach) -> Result<String, AllocError>
    ensures { IfOk result (λ t. string_bytes t ≡ string_bytes text ++ direction_line (reach_view reach.now)) }
{
    write!(text, "dir {} {} ", Decimal(reach.m), Decimal(reach.n))?;
    with_distance(text, reach)
}

/// The text with the line of a half-plane, if there is one.
fn with_half(mut text: String, reach: &Reach) -> Result<String, AllocError>
    ensures { IfOk result (λ t. string_bytes t ≡ string_bytes text ++ half_line (reach_view reach.now).half) }
{
    if let Some(half) = &reach.half {
        let numbers = HalfPlane { numbers: *half };
        write!(text, "half {numbers}\n")?;
    }
    Ok(text)
}

/// The text with the lines of a reach.
fn with_reach(text: String, reach: &Reach) -> Result<String, AllocError>
    ensures { IfOk result (λ t. string_bytes t ≡ string_bytes text ++ reach_text (reach_view reach.now)) }
{
    let longer = with_direction(text, reach)?;
    with_half(longer, reach)
}

/// The text with the lines of all reaches.
fn with_reaches(text: String, reaches: &[Reach]) -> Result<String, AllocError>
    ensures { IfOk result (λ t. string_bytes t ≡ string_bytes text ++ reach_lines (map reach_view reaches.now)) }
{
    let mut longer = text;
    for k in 0..reaches.len() {
        longer = with_reach(longer, &reaches[k])?;
    }
    Ok(longer)
}

/// The text of reaches, with their number.
fn reaches_text(alloc: Global, reaches: &[Reach]) -> Result<String, AllocError>
    ensures { IfOk result (λ t. string_bytes t ≡ region_text (points (map reach_view reaches.now))) }
{
    let head = format!(in alloc; "region {}\n", Decimal(reaches.len()))?;
    with_reaches(head, reaches)
}

/// The text of a region: the line `region COUNT`, and for each direction the line `dir M N reach X Y`, with X and Y as
/// fractions in lowest terms, and the line `half P Q R`; or the line `dir M N unlimited` alone. For a collapse, the
/// text of its certificate. `AllocError` if memory ran out.
pub fn write_region(alloc: Global, region: Region) -> Result<Vec<u8>, AllocError>
    requires { CanPrintRegion (region_view region) }
    ensures { IfOk result (λ t. t.items ≡ region_text (region_view region)) }
{
    match region {
        Region::Points(reaches) => Ok(reaches_text(alloc, reaches.as_slice())?.into_bytes()),
        Region::Collapses(motion) => write_certificate(alloc, &Certificate::Collapses(motion)),
    }
}
