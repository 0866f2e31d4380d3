//! The laws of the range of factors, each a clause of a function that does nothing.

ghost use Rattle.stack_range.specs.Laws.{WhatLiesBetweenIsCarried, ReversalTurnsFactors, ReversedScenesAreTheirs};
ghost use Rattle.stack_range.specs.Laws.{RangesAreExact, RangesAreBySides, ReversedIsSurveyed};

/// Each factor between two carried ones is carried. A factor is carried exactly if the reversed structure carries the
/// one of the other sign. So two true certificates, of a structure and of the reversed one, determine exactly which
/// factors are carried. After Livesley (1978): the static and the kinematic theorem. The reversed survey is the survey
/// of the reversed structure. And a range has a judgement exactly if its sides have those that this one says.
pub fn range_laws()
    ensures between { WhatLiesBetweenIsCarried }
    ensures reversal { ReversalTurnsFactors }
    ensures surveyed { ReversedIsSurveyed }
    ensures scenes { ReversedScenesAreTheirs }
    ensures exact { RangesAreExact }
    ensures sides { RangesAreBySides }
{}
