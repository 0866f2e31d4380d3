//! The laws of statics, each a clause of a function that does nothing.

ghost use Rattle.stack_statics.specs.Laws.{BearingsWork, VirtualWorkIsZero, AnyCornerWeighsTheSame};
ghost use Rattle.stack_statics.specs.SwayLaws.{SwayActsAtCentroid, SwayDownIsWeight, NoSwayIsNoLoad, SwaysAddUp};
ghost use Rattle.stack_statics.specs.SwayLaws.{AnyCornerSwaysTheSame};
ghost use Rattle.stack_statics.specs.Laws.{StandsIsCarried, CollapseExcludesBalance, GreatestIsCarried};
ghost use Rattle.stack_statics.specs.Laws.{GreatestBoundsEveryFactor, UnboundedCarriesAbove, UnboundedCarriesAll};
ghost use Rattle.stack_statics.specs.Shares.{StandingShareIsCarried, FallingShareIsNotCarried, CarriedHasNoGaps};
ghost use Rattle.stack_statics.specs.Shares.{NothingAboveIsCarried};

/// A bearing's force does on a motion of both its bodies what its parts do on the opening and the slide, and
/// balanced forces do no work on a motion of the free bodies. After Livesley (1978).
pub fn virtual_work()
    ensures bearings { BearingsWork }
    ensures balanced { VirtualWorkIsZero }
{}

/// What each true certificate says of the factors that are carried: the static and the kinematic theorem.
/// After Livesley (1978).
pub fn certificate_laws()
    ensures stands { StandsIsCarried }
    ensures collapse { CollapseExcludesBalance }
    ensures greatest { GreatestIsCarried }
    ensures bound { GreatestBoundsEveryFactor }
    ensures above { UnboundedCarriesAbove }
    ensures all { UnboundedCarriesAll }
{}

/// A share of the live loads is taken as dead: where it stands, its factor is carried, and where it collapses, it
/// isn't. What is carried has no gaps, so nothing above such a share is carried. After Livesley (1978).
pub fn share_law()
    ensures carried { StandingShareIsCarried }
    ensures beyond { FallingShareIsNotCarried }
    ensures between { CarriedHasNoGaps }
    ensures above { NothingAboveIsCarried }
{}

/// A body's weight is the same whichever of its corners is the first.
pub fn weight_law()
    ensures { AnyCornerWeighsTheSame }
{}

/// A sway is a force of the body's weight times the sway, at its centroid.
pub fn centroid_law()
    ensures { SwayActsAtCentroid }
{}

/// A sway straight down is the weight, none is no load, they add up, and the first corner doesn't matter.
pub fn sway_laws()
    ensures down { SwayDownIsWeight }
    ensures none { NoSwayIsNoLoad }
    ensures sum { SwaysAddUp }
    ensures corner { AnyCornerSwaysTheSame }
{}
