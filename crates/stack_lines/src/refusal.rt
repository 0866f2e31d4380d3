//! Why a run refuses, with the status and the line of each refusal.

ghost use Rattle.std.specs.Prelude.{◌≡◌, ◌++◌, codes, Some};
ghost use Rattle.stack_lines.specs.Refusals.{input_word, part_word, axis_word, step_word, spot_text, numbers_word};
ghost use Rattle.stack_lines.specs.Refusals.{end_step_word, place_text, balance_of, place_view, status_of};
ghost use Rattle.stack_lines.specs.Refusals.{refusal_line, refusal_view, faulty, check_text, within_text, run_text};
ghost use Rattle.stack_lines.specs.Refusals.{end_text, reach_word, no_pair};
ghost use Rattle.stack_lines.specs.Errors.{from_read, built_fault, from_order, from_directions};
ghost use Rattle.stack_lines.specs.declared.refusal.Refusal.TheVariants.{Memory};

use crate::model_lines::FaultText;
use stack_checker::Part;
use stack_directions::{DirectionsError, NoPair};
use stack_equilibrium::Axis;
use stack_extract::{EndStep, ExtractPlace, Numbers};
use stack_model::ModelError;
use stack_orders::OrderError;
use stack_overhang::StackError;
use stack_reader::ReadError;
use stack_report::number;
use stack_run::RunPlace;
use stack_table::Step;
use stack_whole::Decimal;
use std::alloc::AllocError;
use std::fmt;

/// A file that the words name.
#[derive(Clone, Copy)]
pub enum Input {
    /// The model's.
    Model,
    /// The certificate's.
    Certificate,
    /// The order's.
    Order,
    /// That of the directions.
    Directions,
}

/// Which judgement of the command met the number that is too wide.
#[derive(Clone, Copy)]
pub enum Within {
    /// Its only one, or its first.
    Whole,
    /// The least side of a range.
    LeastSide,
    /// The stage with this number, from 1, of an order of building.
    Stage { number: usize },
    /// The direction with this number, from 1, of two loads together.
    Direction { number: usize },
}

/// Which number of a reach is too wide.
#[derive(Clone, Copy)]
pub enum ReachPlace {
    /// The power of the first load.
    First,
    /// The power of the second load.
    Second,
    /// A coordinate of the point.
    Point,
}

/// Where a check meets a number that is too wide.
#[derive(Drop)]
pub enum Place {
    /// At the cone of a bearing, counted from 0.
    Cone { k: usize },
    /// At one of the three sums of the block with this name.
    Balance { name: String, axis: Axis },
    /// At the velocities of a bearing, counted from 0.
    Resisted { k: usize },
    /// At the power of the dead or the live loads.
    Work,
    /// At the sum of the two powers.
    Apart,
}

/// Why a run refuses.
#[derive(Drop)]
pub enum Refusal {
    /// The words are no form.
    Words,
    /// The file isn't read.
    File(Input),
    /// The file holds more than 262,144 bytes.
    Long(Input),
    /// The model's file has this fault.
    Fault(ReadError),
    /// The bodies with these names, not both fixed, overlap: the first such pair.
    Overlap {
        first: String,
        second: String,
    },
    /// There are more than 1,024 bearings, so many.
    ManyBearings {
        count: usize,
    },
    /// There is no built-in model of this size.
    Size,
    /// The certificate's file is no certificate: the first line, from 1, with which no certificate can begin.
    CertificateLine {
        number: usize,
    },
    /// The order's file gives no order: this line, from 1, is the first that isn't ended by a line feed, names no free
    /// block, or names the block of an earlier line.
    OrderLine {
        number: usize,
    },
    /// The file of the directions gives none: this line, from 1, is the first that is no direction with a line feed, or
    /// the 65th, or 1 if there is no line.
    DirectionsLine {
        number: usize,
    },
    /// A number of the check is too wide, in this part of the certificate.
    WideCheck {
        within: Within,
        part: Part,
        place: Place,
    },
    /// A number of the run is too wide.
    WideRun {
        within: Within,
        place: RunPlace,
    },
    /// A number that is made of the end of the run is too wide.
    WideEnd {
        within: Within,
        place: ExtractPlace,
    },
    /// A number of a reach is too wide.
    WideReach {
        within: Within,
        place: ReachPlace,
    },
    /// A number of the table of forces is too wide, the first one with this index in the order in which they are made.
    WideTable {
        index: usize,
    },
    /// A pivot is due, and this many are done.
    Spent {
        budget: u32,
    },
    /// No live load is listed.
    NoLive,
    /// Two numbers name no two loads that make a region. This is the first of them that names no live load, or one with
    /// a component of more than 1,000,000 in size, or the second if it is the first again.
    NoPair {
        load: u32,
    },
    /// The answer isn't written.
    Output,
    /// Memory ran out.
    Memory,
}

impl Refusal {
    /// The status with which the program ends.
    pub fn status(&self) -> u8
        ensures { result ≡ status_of (refusal_view self.now) }
    {
        match self {
            Refusal::Words => 2,
            Refusal::File(_) => 3,
            Refusal::Long(_) => 4,
            Refusal::Fault(_) => 5,
            Refusal::Overlap { .. } => 5,
            Refusal::ManyBearings { .. } => 5,
            Refusal::Size => 5,
            Refusal::CertificateLine { .. } => 6,
            Refusal::WideCheck { .. } => 7,
            Refusal::WideRun { .. } => 7,
            Refusal::WideEnd { .. } => 7,
            Refusal::WideReach { .. } => 7,
            Refusal::WideTable { .. } => 7,
            Refusal::Spent { .. } => 8,
            Refusal::NoLive => 9,
            Refusal::Output => 10,
            Refusal::Memory => 11,
            Refusal::OrderLine { .. } => 13,
            Refusal::DirectionsLine { .. } => 14,
            Refusal::NoPair { .. } => 15,
        }
    }
}

impl fmt::Display for Input {
    ghost output = { λ i. Some (input_word i) };

    fn fmt<W: fmt::Write>(&self, f: &mut fmt::Formatter<W>) -> fmt::Result {
        f.write_str(match self {
            Input::Model => "model",
            Input::Certificate => "certificate",
            Input::Order => "order",
            Input::Directions => "directions",
        })
    }
}

/// The word for a sum of a block's balance.
fn axis_text(axis: Axis) -> &'static str
    ensures { result.now ≡ axis_word axis }
{
    match axis {
        Axis::X => "x",
        Axis::Y => "y",
        Axis::M => "m",
    }
}

/// One of the three sums of a block, with the block's name.
#[derive(Clone, Copy)]
pub struct BlockSum<'a> {
    pub name: &'a str,
    pub axis: Axis,
}

impl fmt::Display for BlockSum<'_> {
    ghost output = { λ s. Some (place_text (balance_of s.name.now s.axis)) };

    fn fmt<W: fmt::Write>(&self, f: &mut fmt::Formatter<W>) -> fmt::Result {
        write!(f, "balance {} {}", self.name, axis_text(self.axis))
    }
}

impl fmt::Display for Place {
    ghost output = { λ p. Some (place_text (place_view p)) };

    fn fmt<W: fmt::Write>(&self, f: &mut fmt::Formatter<W>) -> fmt::Result {
        match self {
            Place::Cone { k } => write!(f, "cone {}", Decimal(number(*k))),
            Place::Balance { name, axis } => {
                let sum = BlockSum {
                    name: name.as_str(),
                    axis: *axis,
                };
                write!(f, "{sum}")
            }
            Place::Resisted { k } => write!(f, "resisted {}", Decimal(number(*k))),
            Place::Work => f.write_str("work"),
            Place::Apart => f.write_str("apart"),
        }
    }
}

/// The word for an operation of a pivot.
fn step_text(step: Step) -> &'static str
    ensures { result.now ≡ step_word step }
{
    match step {
        Step::Ratio => "ratio",
        Step::Divide => "divide",
        Step::Multiply => "multiply",
        Step::Subtract => "subtract",
    }
}

/// The cell of a table at which a run meets a number that is too wide, and the operation.
#[derive(Clone, Copy)]
struct RunSpot {
    place: RunPlace,
}

impl fmt::Display for RunSpot {
    ghost output = { λ s. Some (spot_text s.place) };

    fn fmt<W: fmt::Write>(&self, f: &mut fmt::Formatter<W>) -> fmt::Result {
        let place = self.place;
        let step = step_text(place.step);
        write!(f, "{} {} {step}", Decimal(place.row), Decimal(place.column))
    }
}

impl fmt::Display for Within {
    ghost output = { λ w. Some (within_text w) };

    fn fmt<W: fmt::Write>(&self, f: &mut fmt::Formatter<W>) -> fmt::Result {
        match self {
            Within::Whole => f.write_str(""),
            Within::LeastSide => f.write_str("least "),
            Within::Stage { number } => write!(f, "stage {} ", Decimal(*number)),
            Within::Direction { number } => write!(f, "dir {} ", Decimal(*number)),
        }
    }
}

/// The word for a part of a certificate.
pub fn part_text(part: Part) -> &'static str
    ensures { result.now ≡ part_word part }
{
    match part {
        Part::First => "first",
        Part::Second => "second",
    }
}

/// The place of a number in a check, with the part of the certificate.
#[derive(Clone, Copy)]
struct CheckSpot<'a> {
    part: Part,
    place: &'a Place,
}

impl fmt::Display for CheckSpot<'_> {
    ghost output = { λ s. Some (check_text s.part (place_view s.place.now)) };

    fn fmt<W: fmt::Write>(&self, f: &mut fmt::Formatter<W>) -> fmt::Result {
        let place = self.place;
        write!(f, "check {} {place}", part_text(self.part))
    }
}

/// The place of a number in a run.
#[derive(Clone, Copy)]
struct RunText {
    place: RunPlace,
}

impl fmt::Display for RunText {
    ghost output = { λ s. Some (codes "run " ++ run_text s.place) };

    fn fmt<W: fmt::Write>(&self, f: &mut fmt::Formatter<W>) -> fmt::Result {
        let place = self.place;
        let spot = RunSpot { place };
        write!(
            f,
            "run {} {} {spot}",
            Decimal(place.phase),
            Decimal(place.pivot)
        )
    }
}

/// The word for a list of numbers that is made of the end of a run.
fn numbers_text(numbers: Numbers) -> &'static str
    ensures { result.now ≡ numbers_word numbers }
{
    match numbers {
        Numbers::Forces => "forces",
        Numbers::Motion => "motion",
        Numbers::Ray => "ray",
    }
}

/// The word for a step from a list to the numbers of a certificate.
fn end_step_text(step: EndStep) -> &'static str
    ensures { result.now ≡ end_step_word step }
{
    match step {
        EndStep::Shift => "shift",
        EndStep::Scale => "scale",
        EndStep::Whole => "whole",
        EndStep::Part => "part",
    }
}

/// The place of a number that is made of the end of a run.
#[derive(Clone, Copy)]
struct EndText {
    place: ExtractPlace,
}

impl fmt::Display for EndText {
    ghost output = { λ s. Some (codes "end " ++ end_text s.place) };

    fn fmt<W: fmt::Write>(&self, f: &mut fmt::Formatter<W>) -> fmt::Result {
        let place = self.place;
        let list = numbers_text(place.list);
        let step = end_step_text(place.step);
        write!(f, "end {list} {step} {}", Decimal(place.index))
    }
}

impl fmt::Display for ReachPlace {
    ghost output = { λ p. Some (reach_word p) };

    fn fmt<W: fmt::Write>(&self, f: &mut fmt::Formatter<W>) -> fmt::Result {
        f.write_str(match self {
            ReachPlace::First => "first",
            ReachPlace::Second => "second",
            ReachPlace::Point => "point",
        })
    }
}

/// The line without its line feed.
impl fmt::Display for Refusal {
    ghost output = { λ r. Some (refusal_line (refusal_view r)) };

    fn fmt<W: fmt::Write>(&self, f: &mut fmt::Formatter<W>) -> fmt::Result {
        match self {
            Refusal::Words => f.write_str("words"),
            Refusal::File(input) => write!(f, "file {input}"),
            Refusal::Long(input) => write!(f, "long {input}"),
            Refusal::Fault(fault) => {
                let text = FaultText { fault: *fault };
                write!(f, "model {text}")
            }
            Refusal::Overlap { first, second } => write!(f, "model overlap {first} {second}"),
            Refusal::ManyBearings { count } => {
                write!(f, "model too many bearings {}", Decimal(*count))
            },
            Refusal::Size => f.write_str("model size"),
            Refusal::CertificateLine { number } => write!(
                f,
                "certificate line {}",
                Decimal(*number)
            ),
            Refusal::OrderLine { number } => write!(f, "order line {}", Decimal(*number)),
            Refusal::DirectionsLine { number } => write!(f, "directions line {}", Decimal(*number)),
            Refusal::WideCheck {
                within,
                part,
                place,
            } => {
                let spot = CheckSpot { part: *part, place };
                write!(f, "wide {within}{spot}")
            }
            Refusal::WideRun { within, place } => {
                let spot = RunText { place: *place };
                write!(f, "wide {within}{spot}")
            }
            Refusal::WideEnd { within, place } => {
                let spot = EndText { place: *place };
                write!(f, "wide {within}{spot}")
            }
            Refusal::WideReach { within, place } => write!(f, "wide {within}{place}"),
            Refusal::WideTable { index } => write!(f, "wide table {}", Decimal(*index)),
            Refusal::Spent { budget } => write!(f, "spent {}", Decimal(*budget)),
            Refusal::NoLive => f.write_str("no live load"),
            Refusal::NoPair { load } => write!(f, "no pair {}", Decimal(*load)),
            Refusal::Output => f.write_str("output"),
            Refusal::Memory => f.write_str("memory"),
        }
    }
}

impl From<AllocError> for Refusal {
    ghost from_gives = { λ _ r. r ≡ Memory };

    fn from(_e: AllocError) -> Refusal {
        Refusal::Memory
    }
}

impl From<ReadError> for Refusal {
    ghost from_gives = { λ e r. refusal_view r ≡ faulty (from_read e) };

    fn from(e: ReadError) -> Refusal {
        match e {
            ReadError::Memory => Refusal::Memory,
            ReadError::Model(ModelError::Memory) => Refusal::Memory,
            _ => Refusal::Fault(e),
        }
    }
}

impl From<StackError> for Refusal {
    ghost from_gives = { λ e r. refusal_view r ≡ faulty (built_fault e) };

    fn from(e: StackError) -> Refusal {
        match e {
            StackError::Size => Refusal::Size,
            StackError::Memory => Refusal::Memory,
        }
    }
}

impl From<OrderError> for Refusal {
    ghost from_gives = { λ e r. refusal_view r ≡ faulty (from_order e) };

    fn from(e: OrderError) -> Refusal {
        match e {
            OrderError::Line { number } => Refusal::OrderLine { number },
            OrderError::Memory => Refusal::Memory,
        }
    }
}

impl From<DirectionsError> for Refusal {
    ghost from_gives = { λ e r. refusal_view r ≡ faulty (from_directions e) };

    fn from(e: DirectionsError) -> Refusal {
        match e {
            DirectionsError::Line { number } => Refusal::DirectionsLine { number },
            DirectionsError::Memory => Refusal::Memory,
        }
    }
}

impl From<NoPair> for Refusal {
    ghost from_gives = { λ e r. refusal_view r ≡ faulty (no_pair e.load) };

    fn from(e: NoPair) -> Refusal {
        Refusal::NoPair { load: e.load }
    }
}
