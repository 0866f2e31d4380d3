//! The laws of this crate, each a clause of a function that does nothing.

ghost use Rattle.stack_frame.specs.Directions.{DirectionsHaveOneFrame, FramesByParallels};
ghost use Rattle.stack_frame.specs.Cones.{CoefficientsHaveOneLesser};
ghost use Rattle.stack_frame.specs.Admitted.{SizeIsTooWideWithItsProduct};

/// A direction has one frame: that in lowest terms to which it is parallel and whose sense it has.
pub fn one_frame()
    ensures one { DirectionsHaveOneFrame }
    ensures parallel { FramesByParallels }
{}

/// Two coefficients have one lesser in lowest terms.
pub fn one_cone()
    ensures { CoefficientsHaveOneLesser }
{}

/// Within the limits of a coefficient, `Wide` comes exactly of the two products.
pub fn wide_by_products()
    ensures { SizeIsTooWideWithItsProduct }
{}
