//! The table of the forces and the moves of a certificate.

ghost use Rattle.std.specs.Prelude.{◌≡◌, ◌++◌, ◌∷◌, [], ◌+◌, ◌*◌, ◌*ℤ◌, ◌<◌, ◌≤◌, pos, length, IfOk, None};
ghost use Rattle.std.specs.Prelude.{string_bytes};
ghost use Rattle.stack_algebra.specs.IntegerOrder.{◌≺◌, ◌≼◌};
ghost use Rattle.stack_algebra.specs.Search.{first};
ghost use Rattle.stack_whole.specs.Limits.{most_bearings};
ghost use Rattle.stack_whole.specs.Whole.{IsFitting};
ghost use Rattle.stack_model.specs.ModelView.{model_view};
ghost use Rattle.stack_certificate.specs.Certificate.{forces_view, motion_view, certificate_view};
ghost use Rattle.stack_checker.specs.WrittenCheck.{written_check};
ghost use Rattle.stack_report.specs.ForceNumbers.{one_spot, force_spot, list_spot, wide_index};
ghost use Rattle.stack_report.specs.ForceTable.{factor_line, force_text, force_line, bearing_lines, forces_part};
ghost use Rattle.stack_report.specs.ForceTable.{move_text, moves_part, carried_part, rising_part, forces_text};
ghost use Rattle.stack_report.specs.Tabling.{Tables, Adds, line_over, IsScale, HasParts, IsCarrying, IsRising};
ghost use Rattle.stack_report.specs.Tabling.{HasMoves, IsWhole};

use crate::errors::ReportError;
use crate::force_lines::{ForceLine, MoveLine};
use crate::lines::name;
use crate::ratio::lowest_terms;
use stack_certificate::{Certificate, Forces, Motion};
use stack_checker::Check;
use stack_contact::{Bearing, Survey};
use stack_equilibrium::{Force, Push, bearing_force, push_of};
use stack_whole::{Whole, Wide};
use std::alloc::{AllocError, Global};
use std::fmt::Write;

/// The text with the line of the factor.
pub fn with_factor(mut text: String, f: &Forces) -> Result<String, AllocError>
    requires scale { pos 0 ≺ (forces_view f.now).scale }
    requires factor { pos 0 ≼ (forces_view f.now).factor }
    ensures { IfOk result (λ t. string_bytes t ≡ string_bytes text ++ factor_line (forces_view f.now)) }
{
    let factor = lowest_terms(Whole::of(f.factor), Whole::of(f.scale));
    write!(text, "factor {factor}\n")?;
    Ok(text)
}

/// The line of bearing `index` with a force that is divided by a number.
fn line_of(index: usize, force: Force, over: Whole) -> ForceLine
    requires x { IsFitting force.x.value }
    requires y { IsFitting force.y.value }
    requires over { IsScale over.value }
    ensures { result ≡ line_over over.value index force }
{
    ForceLine {
        index,
        x: lowest_terms(force.x, over),
        y: lowest_terms(force.y, over),
    }
}

/// The text with a line.
fn with_line(mut text: String, line: ForceLine) -> Result<String, AllocError>
    ensures { IfOk result (λ t. string_bytes t
        ≡ string_bytes text ++ (force_text line.index line.x line.y ++ 10 ∷ [])) }
{
    write!(text, "{line}\n")?;
    Ok(text)
}

/// The text with the line of bearing `k`, whose numbers have an index.
fn with_bearing(
    text: String,
    k: usize,
    bearing: Bearing,
    push: Push,
    over: Whole,
    index: usize,
) -> Result<String, ReportError>
    requires { IsScale over.value }
    ensures { Adds result (string_bytes text) (one_spot index bearing push) (force_line over.value k bearing push) }
{
    match bearing_force(bearing, push) {
        Ok(force) => Ok(with_line(text, line_of(k, force, over))?),
        Err(Wide) => Err(ReportError::TooWide { index }),
    }
}

/// The text with the lines of all bearings. The numbers of the first one have the index `from`.
fn with_bearings(
    text: String,
    bearings: &[Bearing],
    parts: &[(i128, i128)],
    over: Whole,
    from: usize,
) -> Result<String, ReportError>
    requires count { length parts.now ≡ length bearings.now }
    requires over { IsScale over.value }
    requires few { from + length bearings.now ≤ 2 * most_bearings + 2 }
    ensures { Adds result (string_bytes text) (first (length bearings.now) (force_spot from bearings.now parts.now))
        (bearing_lines over.value bearings.now parts.now) }
{
    let mut longer = text;
    for (k, bearing) in bearings.iter().enumerate() {
        longer = with_bearing(longer, k, *bearing, push_of(parts, k), over, from + k)?;
    }
    Ok(longer)
}

/// The text with the forces of a list, each a sixth of its part over a number. The numbers that are made have
/// indices from `from` on.
fn with_forces(
    text: String,
    s: &Survey,
    over: i128,
    parts: &[(i128, i128)],
    from: usize,
) -> Result<String, ReportError>
    requires count { HasParts s.now parts.now }
    requires over { pos 0 ≺ over }
    requires few { from ≤ most_bearings + 1 }
    ensures { Adds result (string_bytes text) (list_spot from over s.now.bearings parts.now)
        (forces_part s.now over parts.now) }
{
    match Whole::of(6).product(Whole::of(over)) {
        Ok(six) => with_bearings(text, s.bearings(), parts, six, from + 1),
        Err(Wide) => Err(ReportError::TooWide { index: from }),
    }
}

/// The text with the move of a block.
fn with_move(
    mut text: String,
    block: &str,
    velocity: (i128, i128, i128),
) -> Result<String, AllocError>
    ensures { IfOk result (λ t. string_bytes t ≡ string_bytes text ++ (move_text block.now velocity ++ 10 ∷ [])) }
{
    let (u, v, r) = velocity;
    let line = MoveLine {
        name: block,
        u,
        v,
        r,
    };
    write!(text, "{line}\n")?;
    Ok(text)
}

/// The text with the moves of all free blocks.
fn with_moves(text: String, s: &Survey, moves: &[(i128, i128, i128)]) -> Result<String, AllocError>
    requires { HasMoves s.now moves.now }
    ensures { IfOk result (λ t. string_bytes t ≡ string_bytes text ++ moves_part s.now moves.now) }
{
    let mut longer = text;
    for b in 0..s.free_count() {
        longer = with_move(longer, name(s.model(), s.free(b)), moves[b])?;
    }
    Ok(longer)
}

/// The text with forces that carry the loads, and with their factor.
fn with_carried(text: String, s: &Survey, f: &Forces) -> Result<String, ReportError>
    requires { IsCarrying s.now (forces_view f.now) }
    ensures { Adds result (string_bytes text)
        (list_spot 0 (forces_view f.now).scale s.now.bearings (forces_view f.now).parts)
        (carried_part s.now (forces_view f.now)) }
{
    let longer = with_factor(text, f)?;
    with_forces(longer, s, f.scale, f.parts.as_slice(), 0)
}

/// The text with further forces, which carry the live loads alone.
fn with_rising(mut text: String, s: &Survey, r: &Forces) -> Result<String, ReportError>
    requires { IsRising s.now (forces_view r.now) }
    ensures { Adds result (string_bytes text)
        (list_spot (length s.now.bearings + 1) (forces_view r.now).factor s.now.bearings (forces_view r.now).parts)
        (rising_part s.now (forces_view r.now)) }
{
    text.push_str("ray\n")?;
    let from = s.bearings().len() + 1;
    with_forces(text, s, r.factor, r.parts.as_slice(), from)
}

/// The lines of each form of certificate.
fn lines(alloc: Global, s: &Survey, c: &Certificate) -> Result<String, ReportError>
    requires { IsWhole s.now (certificate_view c.now) }
    ensures { Adds result [] (wide_index s.now (certificate_view c.now)) (forces_text s.now (certificate_view c.now)) }
{
    match c {
        Certificate::Stands(f) => with_carried(String::from_str(alloc, "stands\n")?, s, f),
        Certificate::Collapses(y) => {
            let text = String::from_str(alloc, "collapses\n")?;
            Ok(with_moves(text, s, y.moves.as_slice())?)
        }
        Certificate::Greatest(f, y) => {
            let text = with_carried(String::from_str(alloc, "greatest\n")?, s, f)?;
            Ok(with_moves(text, s, y.moves.as_slice())?)
        }
        Certificate::Unbounded(f, r) => {
            let text = with_carried(String::from_str(alloc, "unbounded\n")?, s, f)?;
            with_rising(text, s, r)
        }
    }
}

/// The forces and the moves of a certificate that the check accepts, as text: the line of its form, `stands`,
/// `collapses`, `greatest` or `unbounded`; for forces that carry the loads the line `factor N/D`, and for each bearing,
/// from 1, the line `force NUMBER FX FY`, with the force on the later body, to the right and upwards, as fractions
/// `N/D`; for a motion, for each free block, the line `move NAME U V R`, with the velocity of its first stored corner
/// and its turning rate, counter-clockwise; for further forces, which carry the live loads alone, the line `ray` and
/// again the line of each bearing. Fractions are in lowest terms, with a positive denominator. Forces are in units of
/// force: a part over six times the scale, and over six times the factor behind the line `ray`.
///
/// `TooWide` exactly if a number is more than 2^127 - 1 in size, with the index of the first one. Index 0 is six times
/// the scale. Index k is bearing number k, from 1, with the parts a and b and the tangent (tx, ty): b*tx, a*ty, their
/// difference, a*tx, b*ty, their sum. With K bearings, index K + 1 is six times the factor of further forces, and index
/// K + 1 + k is bearing number k again. `Memory` if memory ran out. After Livesley (1978).
pub fn force_table(alloc: Global, s: &Survey, c: &Certificate) -> Result<Vec<u8>, ReportError>
    requires { written_check s.now (certificate_view c.now) ≡ Check.Accepted }
    ensures { Tables result s.now (certificate_view c.now) }
{
    Ok(lines(alloc, s, c)?.into_bytes())
}
