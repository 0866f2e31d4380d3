//! The point that a direction reaches.

ghost use Rattle.std.specs.Prelude.{◌≡◌, pos};
ghost use Rattle.stack_algebra.specs.IntegerOrder.{◌≺◌};
ghost use Rattle.stack_algebra.proofs.Fractions.{of, mul};
ghost use Rattle.stack_whole.specs.Whole.{IsFitting};
ghost use Rattle.stack_certificate.specs.Certificate.{forces_view};
ghost use Rattle.stack_directions.specs.Coordinates.{fitting_terms, point_made};

use stack_certificate::Forces;
use stack_rational::{Exact, Frac, over, whole};
use stack_whole::Whole;

/// A coordinate: a number that fits times a fraction, in lowest terms. `None` exactly if a term is too wide.
fn coordinate(m: Whole, x: Frac<i128>) -> Option<(i128, i128)>
    requires { IsFitting m.value }
    ensures { result ≡ fitting_terms (mul (of m.value) x) }
{
    match whole(m.value).product(x) {
        Ok(product) => Some(product.parts()),
        Err(_) => None,
    }
}

/// `m` and `n` times the factor that forces carry, each in lowest terms. `None` exactly if a term is too wide.
pub fn point(m: Whole, n: Whole, f: &Forces) -> Option<((i128, i128), (i128, i128))>
    requires first { IsFitting m.value }
    requires second { IsFitting n.value }
    requires factor { IsFitting f.now.factor }
    requires scale { IsFitting f.now.scale }
    requires positive { pos 0 ≺ f.now.scale }
    ensures { result ≡ point_made m.value n.value (forces_view f.now) }
{
    let factor = over(f.factor, f.scale);
    match coordinate(m, factor) {
        Some(x) => match coordinate(n, factor) {
            Some(y) => Some((x, y)),
            None => None,
        },
        None => None,
    }
}
