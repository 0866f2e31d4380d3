//! What a check answers.

use stack_equilibrium::Axis;

/// What a check answers.
#[derive(Clone, Copy, Debug, PartialEq, Eq)]
pub enum Check {
    /// The certificate is true of the survey's model.
    Accepted,
    /// The first test that fails, and the part of the certificate in which it does.
    Rejected(Part, Reason),
    /// The first number that is more than `2^127 - 1` in size, before any test fails.
    TooWide(CheckPlace),
}

/// The parts of a certificate: its only or its first list of forces or motion, then the motion or the list of
/// forces that follows.
#[derive(Clone, Copy, Debug, PartialEq, Eq)]
pub enum Part {
    First,
    Second,
}

/// Where a check meets a number that is too wide.
#[derive(Clone, Copy, Debug, PartialEq, Eq)]
pub struct CheckPlace {
    pub part: Part,
    pub at: CheckAt,
}

/// The test that is made there. Bearings and free blocks are counted from 0.
#[derive(Clone, Copy, Debug, PartialEq, Eq)]
pub enum CheckAt {
    Cone { k: usize },
    Balance { block: usize, axis: Axis },
    Resisted { k: usize },
    Work,
    Apart,
}

/// The test that a certificate fails. Bearings and free blocks are counted from 0.
#[derive(Clone, Copy, Debug, PartialEq, Eq)]
pub enum Reason {
    /// There aren't as many parts as bearings, or as many moves as free blocks.
    Count,
    /// The scale isn't positive, or that of forces without dead loads isn't 0.
    Scale,
    /// The factor isn't 0 where only the dead loads are carried, is negative, or isn't positive where only the
    /// live ones are.
    Factor,
    /// The bearing pulls.
    Push { k: usize },
    /// The bearing's force leaves its cone of friction.
    Cone { k: usize },
    /// The sum isn't 0.
    Balance { block: usize, axis: Axis },
    /// The bearing opens less than its slide asks for.
    Resisted { k: usize },
    /// The loads gain no power on the motion: the dead ones, or the live ones where a greatest factor is
    /// claimed.
    NoWork,
    /// The motion allows a greater factor than that of the forces.
    Apart,
}
