//! The lines of a table of forces, without their line feeds.

ghost use Rattle.std.specs.Prelude.{Some};
ghost use Rattle.stack_report.specs.ForceTable.{force_text, move_text, velocity_text};

use crate::lines::number;
use crate::ratio::Ratio;
use stack_whole::Decimal;
use std::fmt;

/// The force of the bearing with this number, from 0, to the right and upwards.
#[derive(Clone, Copy)]
pub struct ForceLine {
    pub index: usize,
    pub x: Ratio,
    pub y: Ratio,
}

/// The move of the block with this name: the velocity of its first stored corner and its turning rate.
#[derive(Clone, Copy)]
pub struct MoveLine<'a> {
    pub name: &'a str,
    pub u: i128,
    pub v: i128,
    pub r: i128,
}

/// The velocity of a corner and a turning rate.
#[derive(Clone, Copy)]
struct Velocity {
    u: i128,
    v: i128,
    r: i128,
}

impl fmt::Display for ForceLine {
    ghost output = { λ l. Some (force_text l.index l.x l.y) };

    fn fmt<W: fmt::Write>(&self, f: &mut fmt::Formatter<W>) -> fmt::Result {
        write!(
            f,
            "force {} {} {}",
            Decimal(number(self.index)),
            self.x,
            self.y
        )
    }
}

impl fmt::Display for Velocity {
    ghost output = { λ m. Some (velocity_text m.u m.v m.r) };

    #[tactic(auto, unfolding(crate::specs::ForceTable::velocity_text))]
    fn fmt<W: fmt::Write>(&self, f: &mut fmt::Formatter<W>) -> fmt::Result {
        write!(
            f,
            "{} {} {}",
            Decimal(self.u),
            Decimal(self.v),
            Decimal(self.r)
        )
    }
}

impl fmt::Display for MoveLine<'_> {
    ghost output = { λ l. Some (move_text l.name.now (l.u, l.v, l.r)) };

    fn fmt<W: fmt::Write>(&self, f: &mut fmt::Formatter<W>) -> fmt::Result {
        let velocity = Velocity {
            u: self.u,
            v: self.v,
            r: self.r,
        };
        write!(f, "move {} {velocity}", self.name)
    }
}
