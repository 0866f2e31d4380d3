//! Laws of corner lists.

ghost use Rattle.std.specs.Prelude.{◌≡◌, ◌↔◌, List, true};
ghost use Rattle.stack_polygon.specs.declared.point.Point.{Point};
ghost use Rattle.stack_polygon.specs.Corners.{IsStrictlyConvex};
ghost use Rattle.stack_polygon.specs.Outlines.{is_convex};

/// The test on a list's edges holds exactly if the list is strictly convex.
pub fn convexity_by_test()
    ensures { (ps : List Point) → (is_convex ps ≡ true) ↔ IsStrictlyConvex ps }
{}
