//! The outline of a block.

ghost use Rattle.std.specs.Prelude.{◌≡◌, true, length};
ghost use Rattle.stack_polygon.specs.Limits.{are_in_range};
ghost use Rattle.stack_polygon.specs.Admission.{is_count};
ghost use Rattle.stack_model.specs.Gives.{Gives};
ghost use Rattle.stack_model.specs.Convex.{convex};

use crate::errors::ModelError;
use crate::places::{Key, Spot};
use stack_polygon::{Point, Polygon, PolygonError};

/// The outline of block `index`, from 3 to 32 corners in range.
pub fn outline(index: usize, corners: Vec<Point>) -> Result<Polygon, ModelError>
    requires count { is_count (length corners.items) ≡ true }
    requires range { are_in_range corners.items ≡ true }
    ensures { Gives (λ p. p) result (convex index corners.items) }
{
    match Polygon::new(corners) {
        Ok(polygon) => Ok(polygon),
        Err(PolygonError::NotConvex { edge }) => Err(ModelError::NotConvex { block: index, edge }),
        Err(_) => Err(ModelError::Range {
            spot: Spot::Block(index),
            key: Key::Corners,
        }),
    }
}
