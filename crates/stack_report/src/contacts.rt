//! The table of contacts.

ghost use Rattle.std.specs.Prelude.{◌≡◌, ◌++◌, ◌∷◌, [], codes, IfOk, length, string_bytes};
ghost use Rattle.stack_model.specs.ModelView.{model_view};
ghost use Rattle.stack_report.specs.ContactTable.{bearing_line, touch_line, lines_from, count_line};
ghost use Rattle.stack_report.specs.ContactTable.{bearings_part, touches_part, contacts_text};

use crate::lines::{BearingLine, TouchLine, name};
use stack_contact::{Bearing, Survey, Touch};
use stack_model::Model;
use stack_whole::Decimal;
use std::alloc::{AllocError, Global};
use std::fmt::Write;

/// The text with the line of bearing `index`.
fn with_bearing(
    mut text: String,
    model: &Model,
    index: usize,
    bearing: Bearing,
) -> Result<String, AllocError>
    ensures { IfOk result (λ t. string_bytes t ≡ string_bytes text ++ bearing_line
        (model_view model.now) index bearing) }
{
    let line = BearingLine {
        index,
        first: name(model, bearing.first),
        second: name(model, bearing.second),
        bearing,
    };
    write!(text, "{line}\n")?;
    Ok(text)
}

/// The text with the line of touch `index`.
fn with_touch(
    mut text: String,
    model: &Model,
    index: usize,
    touch: Touch,
) -> Result<String, AllocError>
    ensures { IfOk result (λ t. string_bytes t ≡ string_bytes text ++ touch_line (model_view model.now) index touch) }
{
    let line = TouchLine {
        index,
        first: name(model, touch.first),
        second: name(model, touch.second),
        touch,
    };
    write!(text, "{line}\n")?;
    Ok(text)
}

/// The text with the lines of all bearings.
fn with_bearings(text: String, model: &Model, bearings: &[Bearing]) -> Result<String, AllocError>
    ensures { IfOk result (λ t. string_bytes t ≡ string_bytes text ++ lines_from
        (bearing_line (model_view model.now)) 0 bearings.now) }
{
    let mut longer = text;
    for (index, bearing) in bearings.iter().enumerate() {
        longer = with_bearing(longer, model, index, *bearing)?;
    }
    Ok(longer)
}

/// The text with the lines of all touches.
fn with_touches(text: String, model: &Model, touches: &[Touch]) -> Result<String, AllocError>
    ensures { IfOk result (λ t. string_bytes t ≡ string_bytes text ++ lines_from
        (touch_line (model_view model.now)) 0 touches.now) }
{
    let mut longer = text;
    for (index, touch) in touches.iter().enumerate() {
        longer = with_touch(longer, model, index, *touch)?;
    }
    Ok(longer)
}

fn bearings_table(alloc: Global, s: &Survey) -> Result<String, AllocError>
    ensures { IfOk result (λ t. string_bytes t ≡ bearings_part s.now) }
{
    let head = format!(in alloc; "bearings {}\n", Decimal(s.bearings().len()))?;
    with_bearings(head, s.model(), s.bearings())
}

fn touches_table(alloc: Global, s: &Survey) -> Result<String, AllocError>
    ensures { IfOk result (λ t. string_bytes t ≡ touches_part s.now) }
{
    let head = format!(in alloc; "touches {}\n", Decimal(s.touches().len()))?;
    with_touches(head, s.model(), s.touches())
}

/// The contacts of a survey as text: the line `bearings K`; for each bearing, from 1, the line `bearing NUMBER FIRST
/// SECOND X Y TX TY P Q`, with the names of its two bodies, its point, its tangent and its coefficient of friction, P
/// over Q; the line `touches T`; for each touch, from 1, the line `touch NUMBER FIRST SECOND X Y`. Both are in the
/// order of the survey. `AllocError` if memory ran out.
#[tactic(auto, unfolding(crate::specs::ContactTable::contacts_text))]
pub fn contact_table(alloc: Global, s: &Survey) -> Result<Vec<u8>, AllocError>
    ensures { IfOk result (λ v. v.items ≡ contacts_text s.now) }
{
    let mut text = bearings_table(alloc, s)?;
    let touches = touches_table(alloc, s)?;
    text.push_str(touches.as_str())?;
    Ok(text.into_bytes())
}
