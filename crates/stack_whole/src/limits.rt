//! The limits that more than one crate needs. The page "Scope" lists all limits.

/// A survey has at most this many bearings, and so a certificate at most this many parts.
pub const MOST_BEARINGS: usize = 1_024;

/// A model has at most this many free blocks, and so a motion at most this many moves.
pub const MOST_FREE: usize = 128;

/// A problem has at most this many rows: three for each free block.
pub const MOST_ROWS: usize = 3 * MOST_FREE;

/// A problem has at most this many contact columns: two for each bearing.
pub const MOST_CONTACT_COLUMNS: usize = 2 * MOST_BEARINGS;

/// A material has at most this weight, in units of force on a square of the grid's unit.
pub const GREATEST_WEIGHT: i64 = 1_000_000;
