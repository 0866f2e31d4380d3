//! The sway of a body, in sixths of a unit of force.

ghost use Rattle.std.specs.Prelude.{◌≡◌, ◌*ℤ◌, ◌-ℤ◌, pos};
ghost use Rattle.stack_polygon.specs.Sizes.{IsWithin};
ghost use Rattle.stack_whole.specs.Whole.{whole};
ghost use Rattle.stack_statics.specs.Weights.{IsUnitWeight};
ghost use Rattle.stack_statics.specs.Sway.{sway_load, sway_by};
ghost use Rattle.stack_equilibrium.specs.SwaySizes.{IsShareOfWeight, IsOwnLoad};

use crate::types::Wrench;
use crate::weight::about;
use stack_polygon::Polygon;
use stack_whole::Whole;

fn threefold(number: Whole) -> Whole
    requires { IsWithin 32 8000000000000 number.value }
    ensures value { result ≡ whole (pos 3 *ℤ number.value) }
    ensures size { IsWithin 64 24000000000000000000 result.value }
{
    Whole {
        value: 3 * number.value,
    }
}

/// A number times a unit weight.
fn weighed(unit: i64, number: Whole) -> Whole
    requires unit { IsUnitWeight unit }
    requires number { IsWithin 64 24000000000000000000 number.value }
    ensures value { result ≡ whole (unit *ℤ number.value) }
    ensures size { IsWithin 64 24000000000000000000000000 result.value }
{
    Whole {
        value: i128::from(unit) * number.value,
    }
}

/// A number times a part of the sway.
fn swayed(number: Whole, sway: i64) -> Whole
    requires number { IsWithin 64 24000000000000000000000000 number.value }
    requires sway { IsShareOfWeight sway }
    ensures value { result ≡ whole (number.value *ℤ sway) }
    ensures size { IsWithin 64 24000000000000000000000000000 result.value }
{
    Whole {
        value: number.value * i128::from(sway),
    }
}

fn less(number: Whole, other: Whole) -> Whole
    requires number { IsWithin 64 24000000000000000000000000000 number.value }
    requires other { IsWithin 64 24000000000000000000000000000 other.value }
    ensures { result ≡ whole (number.value -ℤ other.value) }
{
    Whole {
        value: number.value - other.value,
    }
}

/// The load by twice the area and six times the first moments about the lines through the first stored corner.
fn made_sway(x: i64, y: i64, unit: i64, twice_area: Whole, about_y: Whole, about_x: Whole) -> Wrench
    requires x { IsShareOfWeight x }
    requires y { IsShareOfWeight y }
    requires unit { IsUnitWeight unit }
    requires area { IsWithin 32 8000000000000 twice_area.value }
    requires about_y { IsWithin 64 24000000000000000000 about_y.value }
    requires about_x { IsWithin 64 24000000000000000000 about_x.value }
    ensures { result ≡ sway_by (x, y) unit twice_area.value about_y.value about_x.value }
{
    let force = weighed(unit, threefold(twice_area));
    let turning = swayed(weighed(unit, about_y), y);
    let rising = swayed(weighed(unit, about_x), x);
    Wrench {
        fx: swayed(force, x).value,
        fy: swayed(force, y).value,
        m: less(turning, rising).value,
    }
}

/// The load of the sway `x`, `y` on a body with this outline: its moment is about the first stored corner.
pub fn sway_on(x: i64, y: i64, unit: i64, outline: &Polygon) -> Wrench
    requires x { IsShareOfWeight x }
    requires y { IsShareOfWeight y }
    requires unit { IsUnitWeight unit }
    ensures value { result ≡ sway_load (x, y) unit outline.now }
    ensures size { IsOwnLoad result }
{
    outline.valid();
    let twice_area = Whole::of(outline.twice_area());
    let moments = outline.six_moments();
    let corner = outline.corner(0);
    let about_y = about(corner.x, Whole::of(moments.0), twice_area);
    let about_x = about(corner.y, Whole::of(moments.1), twice_area);
    made_sway(x, y, unit, twice_area, about_y, about_x)
}
