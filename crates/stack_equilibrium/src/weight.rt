//! The weight of a body, in sixths of a unit of force.

ghost use Rattle.std.specs.Prelude.{◌≡◌, ◌*ℤ◌, ◌-ℤ◌, neg_ℤ, pos};
ghost use Rattle.stack_polygon.specs.Limits.{IsNear};
ghost use Rattle.stack_polygon.specs.Sizes.{IsThreeCoordinates, IsWithin};
ghost use Rattle.stack_whole.specs.Whole.{whole};
ghost use Rattle.stack_statics.specs.Loads.{weight_of};
ghost use Rattle.stack_equilibrium.specs.LoadSizes.{IsWeight};
ghost use Rattle.stack_statics.specs.Weights.{IsUnitWeight, weight_by};

use crate::types::Wrench;
use stack_polygon::Polygon;
use stack_whole::Whole;

fn thrice(x: i64) -> Whole
    requires { IsNear x }
    ensures value { result ≡ whole (pos 3 *ℤ x) }
    ensures size { IsThreeCoordinates result.value }
{
    Whole {
        value: 3 * i128::from(x),
    }
}

fn times(factor: Whole, twice_area: Whole) -> Whole
    requires factor { IsThreeCoordinates factor.value }
    requires area { IsWithin 32 8000000000000 twice_area.value }
    ensures value { result ≡ whole (factor.value *ℤ twice_area.value) }
    ensures size { IsWithin 32 24000000000000000000 result.value }
{
    Whole {
        value: factor.value * twice_area.value,
    }
}

fn minus(number: Whole, other: Whole) -> Whole
    requires number { IsWithin 32 24000000000000000000 number.value }
    requires other { IsWithin 32 24000000000000000000 other.value }
    ensures value { result ≡ whole (number.value -ℤ other.value) }
    ensures size { IsWithin 64 24000000000000000000 result.value }
{
    Whole {
        value: number.value - other.value,
    }
}

/// Six times the first moment about the line through a coordinate, from that about the axis.
pub fn about(x: i64, about_y: Whole, twice_area: Whole) -> Whole
    requires x { IsNear x }
    requires moment { IsWithin 32 24000000000000000000 about_y.value }
    requires area { IsWithin 32 8000000000000 twice_area.value }
    ensures value { result ≡ whole (about_y.value -ℤ pos 3 *ℤ x *ℤ twice_area.value) }
    ensures size { IsWithin 64 24000000000000000000 result.value }
{
    minus(about_y, times(thrice(x), twice_area))
}

/// A number times a unit weight, downwards.
fn downwards(unit: i64, number: Whole) -> Whole
    requires unit { IsUnitWeight unit }
    requires number { IsWithin 64 24000000000000000000 number.value }
    ensures { result ≡ whole (neg_ℤ (unit *ℤ number.value)) }
{
    Whole {
        value: -(i128::from(unit) * number.value),
    }
}

fn threefold(number: Whole) -> Whole
    requires { IsWithin 32 8000000000000 number.value }
    ensures { result ≡ whole (pos 3 *ℤ number.value) }
{
    Whole {
        value: 3 * number.value,
    }
}

/// The weight by twice the area and six times the moment about the first stored corner.
fn made_weight(unit: i64, twice_area: Whole, moment: Whole) -> Wrench
    requires unit { IsUnitWeight unit }
    requires area { IsWithin 32 8000000000000 twice_area.value }
    requires moment { IsWithin 64 24000000000000000000 moment.value }
    ensures { result ≡ weight_by unit twice_area.value moment.value }
{
    Wrench {
        fx: 0,
        fy: downwards(unit, threefold(twice_area)).value,
        m: downwards(unit, moment).value,
    }
}

// Which corner is the first doesn't matter: area and moment about the y axis are sums over the triangles of a fan,
// which are those of the outline whichever corner the fan starts at, and the moment is then taken about the corner
// that is stored first. `weight_law` says that with another first corner the weight is the same force.

/// The weight of a body with this outline: it acts downwards, and its moment is about the first stored corner.
pub fn weight_on(unit: i64, outline: &Polygon) -> Wrench
    requires { IsUnitWeight unit }
    ensures value { result ≡ weight_of unit outline.now }
    ensures size { IsWeight result }
{
    outline.valid();
    let twice_area = Whole::of(outline.twice_area());
    let about_y = Whole::of(outline.six_moments().0);
    made_weight(
        unit,
        twice_area,
        about(outline.corner(0).x, about_y, twice_area),
    )
}
