//! The laws of the equations of free blocks, each a clause of a function that does nothing.

ghost use Rattle.stack_posing.specs.FreeBodies.{FreeBodiesAreFound, FreeNumbersAreThoseOfSurveys};
ghost use Rattle.stack_posing.specs.Edges.{EdgesExertTheirPart, PartsBetweenEdgesAreAdmissible};
ghost use Rattle.stack_posing.specs.Equations.{SolutionsAreForces};
ghost use Rattle.stack_posing.specs.MovesByNumber.{PowersAreByNumber, UnopposedMovesAreMotions};
ghost use Rattle.stack_posing.specs.ByNumber.{StandsBySolution, CollapsesByMoves, GreatestByBoth, UnboundedBySolutions};

/// The free body with a number is the free block of a survey with this number, and each free body has one.
pub fn free_body_laws()
    ensures found { FreeBodiesAreFound }
    ensures surveys { FreeNumbersAreThoseOfSurveys }
{}

/// Amounts of the two edges of each bearing's cone exert what one part exerts, which lies in the cone where
/// neither amount is negative.
pub fn edge_laws()
    ensures exert { EdgesExertTheirPart }
    ensures admissible { PartsBetweenEdgesAreAdmissible }
{}

/// A move for each number of a free body is a motion; its powers are sums over these numbers, and where it
/// gains no negative power from an edge, no admissible force resists it.
pub fn motion_laws()
    ensures powers { PowersAreByNumber }
    ensures unresisted { UnopposedMovesAreMotions }
{}

/// What solves the equations of all free bodies is balanced forces; with moves that no edge opposes it makes
/// each of the four certificates true. After Livesley (1978).
pub fn solution_laws()
    ensures forces { SolutionsAreForces }
    ensures stands { StandsBySolution }
    ensures collapse { CollapsesByMoves }
    ensures greatest { GreatestByBoth }
    ensures unbounded { UnboundedBySolutions }
{}
