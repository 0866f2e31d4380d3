//! The law of two rectangles, as clauses of a function that does nothing.

ghost use Rattle.stack_rectangle.specs.Rectangles.{RangesTellOverlaps, RangesTellSeparation, RangesTellContacts};

/// The ranges of x and y that two rectangles with level and upright edges have in common determine all. If both have a
/// length they overlap; if one has, they bear at the ends of a segment; if none has, they touch at a point; and if one
/// is empty, they have no point in common.
pub fn rectangles_by_ranges()
    ensures overlaps { RangesTellOverlaps }
    ensures separation { RangesTellSeparation }
    ensures contacts { RangesTellContacts }
{}
