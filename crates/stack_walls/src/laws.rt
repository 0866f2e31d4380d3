//! The law of the built-in walls, as clauses of a function that does nothing.

ghost use Rattle.stack_walls.specs.Surveying.{WallsHaveSurveys, DrawnWallsHaveSurveys, SurveyedIsntRefused};

use stack_rectangle::rectangles_by_ranges;

/// Of each wall no two bodies overlap, and there are no more bearings than a survey may have: so each wall that a
/// number draws has a survey. And what has a survey is never refused, unless memory runs out.
pub fn walls_can_be_surveyed()
    ensures walls { WallsHaveSurveys }
    ensures drawn { DrawnWallsHaveSurveys }
    ensures refused { SurveyedIsntRefused }
{
    rectangles_by_ranges();
}
