//! Reaches and regions, and why there is none.

ghost use Rattle.std.specs.Prelude.{◌≡◌};
ghost use Rattle.stack_yield.specs.declared.types.RegionError.TheVariants as region_error;

use stack_certificate::{Certificate, Motion};
use stack_judge::JudgePlace;
use std::alloc::{AllocError, AllocFailed};

/// How far two live loads can be raised together in a direction, and what forbids more.
#[derive(Debug, Drop)]
pub struct Reach {
    pub m: i64,
    pub n: i64,
    /// A true `Greatest` or `Unbounded` of the survey that is directed so.
    pub certificate: Certificate,
    /// The greatest multiple of (m, n), each coordinate a numerator and a positive denominator in lowest terms; none if
    /// there is no greatest.
    pub point: Option<((i128, i128), (i128, i128))>,
    /// P, Q and R of the half-plane P*a + Q*b <= R*D, which holds all pairs (a, b) over D that are carried.
    pub half: Option<(i128, i128, i128)>,
}

/// The region of two live loads: which multiples of them are carried together.
#[derive(Debug, Drop)]
pub enum Region {
    /// The dead loads fall by themselves.
    Collapses(Motion),
    /// A reach for each direction, in their order.
    Points(Vec<Reach>),
}

/// Where a number is more than 2^127 - 1 in size.
#[derive(Clone, Copy, Debug, PartialEq, Eq)]
pub enum RegionPlace {
    /// In the judgement.
    Judge(JudgePlace),
    /// In the power of the first load.
    First,
    /// In the power of the second load.
    Second,
    /// In the point.
    Point,
}

/// Why two live loads have no region: of all directions, counted from 0, the first that is refused.
#[derive(Clone, Copy, Debug, PartialEq, Eq)]
pub enum RegionError {
    /// The first number of the direction that is more than 2^127 - 1 in size.
    TooWide {
        direction: usize,
        place: RegionPlace,
    },
    /// A pivot of the direction is due, and the budget's are done.
    Spent {
        direction: usize,
    },
    /// Memory ran out.
    Memory,
}

impl From<AllocError> for RegionError {
    ghost from_gives = { λ _ e. e ≡ region_error.Memory };

    fn from(_e: AllocError) -> RegionError {
        RegionError::Memory
    }
}

impl<T: Drop> From<AllocFailed<T>> for RegionError {
    ghost from_gives = { λ _ e. e ≡ region_error.Memory };

    fn from(_e: AllocFailed<T>) -> RegionError {
        RegionError::Memory
    }
}
