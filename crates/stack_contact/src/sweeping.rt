//! The pairs of bodies that may meet, found by a sweep from left to right.

ghost use Rattle.std.specs.Prelude.{◌≡◌, ◌&&◌, ◌<◌, ◌↔◌, suc, length, IsTrue, MatchOption, IfOk};
ghost use Rattle.stack_algebra.specs.IntegerOrder.{◌≺◌};
ghost use Rattle.stack_model.specs.Structure.{body_of};
ghost use Rattle.stack_model.specs.ModelView.{model_view};
ghost use Rattle.stack_contact.specs.NearPairs.{AreFromLeft, IsPairOf, IsSwept, AreSwept, AreNearPairs, IsOrdered};

use stack_model::Model;
use stack_overlap::apart;
use stack_polygon::Span;
use std::alloc::{AllocError, Global};
use std::cmp::Ordering;

/// A body, with the least x of its corners.
#[derive(Clone, Copy, PartialEq, Eq, PartialOrd, Ord)]
struct Placed {
    x0: i64,
    body: usize,
}

/// Two bodies, the earlier one first.
#[derive(Clone, Copy, PartialEq, Eq, PartialOrd, Ord)]
pub struct Pair {
    pub first: usize,
    pub second: usize,
}

/// A body where its span begins.
fn place_of(span: Span, body: usize) -> Placed
    ensures x0 { result.x0 ≡ span.x0 }
    ensures body { result.body ≡ body }
{
    Placed { x0: span.x0, body }
}

/// All bodies, by the least x of their corners.
fn from_left(alloc: Global, model: &Model) -> Result<Vec<Placed>, AllocError>
    ensures { IfOk result (λ r. AreFromLeft (model_view model.now) r.items) }
{
    let mut bodies = Vec::new(alloc);
    for body in 0..model.bodies() {
        bodies.push(place_of(model.polygon(body).span(), body))?;
    }
    bodies.sort()?;
    Ok(bodies)
}

/// The pair of two bodies, in order; a body has none with itself.
fn pair_of(one: usize, other: usize) -> Option<Pair>
    ensures { MatchOption result (one ≡ other) (λ p. IsPairOf one other p) }
{
    match one.cmp(&other) {
        Ordering::Less => Some(Pair {
            first: one,
            second: other,
        }),
        Ordering::Equal => None,
        Ordering::Greater => Some(Pair {
            first: other,
            second: one,
        }),
    }
}

/// Whether two bodies are fixed, both of them.
fn are_fixed(model: &Model, i: usize, j: usize) -> bool
    requires i { i < length (model_view model.now).bodies }
    requires j { j < length (model_view model.now).bodies }
    ensures { result ≡ ((body_of (model_view model.now) i).fixed && (body_of (model_view model.now) j).fixed) }
{
    let first = model.body(i).fixed;
    let second = model.body(j).fixed;
    first && second
}

/// The pairs with that of two bodies, unless both are fixed or their spans are apart.
fn with_near(
    model: &Model,
    mut pairs: Vec<Pair>,
    one: usize,
    other: usize,
) -> Result<Vec<Pair>, AllocError>
    requires one { one < length (model_view model.now).bodies }
    requires other { other < length (model_view model.now).bodies }
    ensures { IfOk result (λ r. IsSwept (model_view model.now) one other pairs.items r.items) }
{
    if are_fixed(model, one, other) {
        return Ok(pairs);
    }
    if apart(model.polygon(one).span(), model.polygon(other).span()) {
        return Ok(pairs);
    }
    match pair_of(one, other) {
        None => Ok(pairs),
        Some(pair) => {
            pairs.push(pair)?;
            Ok(pairs)
        }
    }
}

/// Whether a body begins beyond the end of a span.
fn begins_beyond(b: Placed, span: Span) -> bool
    ensures { IsTrue result ↔ (span.x1 ≺ b.x0) }
{
    b.x0 > span.x1
}

/// The pairs with those of body `k` from the left and the later ones, up to the first that begins beyond its end.
fn with_later(
    model: &Model,
    bodies: &[Placed],
    k: usize,
    start: Vec<Pair>,
) -> Result<Vec<Pair>, AllocError>
    requires order { AreFromLeft (model_view model.now) bodies.now }
    requires body { k < length bodies.now }
    requires swept { AreSwept (model_view model.now) bodies.now k (suc k) start.items }
    ensures { IfOk result (λ r. AreSwept (model_view model.now) bodies.now (suc k) (suc (suc k)) r.items) }
{
    let this = bodies[k].body;
    let span = model.polygon(this).span();
    let mut pairs = start;
    for m in k + 1..bodies.len() {
        if begins_beyond(bodies[m], span) {
            return Ok(pairs);
        }
        let more = with_near(model, pairs, this, bodies[m].body)?;
        pairs = more;
    }
    Ok(pairs)
}

/// The pairs that may meet, in the order of the sweep.
fn swept(alloc: Global, model: &Model, bodies: &[Placed]) -> Result<Vec<Pair>, AllocError>
    requires { AreFromLeft (model_view model.now) bodies.now }
    ensures { IfOk result (λ r. AreNearPairs (model_view model.now) r.items) }
{
    let mut pairs = Vec::new(alloc);
    for k in 0..bodies.len() {
        let more = with_later(model, bodies, k, pairs)?;
        pairs = more;
    }
    Ok(pairs)
}

/// The pairs that may meet, by first and second body: all but those of fixed bodies and those whose spans are
/// apart.
pub fn near_pairs(alloc: Global, model: &Model) -> Result<Vec<Pair>, AllocError>
    ensures near { IfOk result (λ r. AreNearPairs (model_view model.now) r.items) }
    ensures ordered { IfOk result (λ r. IsOrdered r.items) }
{
    let bodies = from_left(alloc, model)?;
    let mut pairs = swept(alloc, model, bodies.as_slice())?;
    pairs.sort()?;
    pairs.dedup();
    Ok(pairs)
}
