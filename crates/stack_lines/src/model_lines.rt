//! What the line of a model that isn't read says.

ghost use Rattle.std.specs.Prelude.{◌≡◌, ◌+◌, Some};
ghost use Rattle.stack_lines.specs.ModelLines.{spot_text, what_word, content_text, fault_text};

use stack_model::{ModelError, Spot, What};
use stack_reader::{ReadError, word};
use stack_report::number;
use stack_whole::Decimal;
use std::fmt;

/// An item of the file, or its top.
#[derive(Clone, Copy)]
struct SpotText {
    spot: Spot,
}

/// A fault of the content.
#[derive(Clone, Copy)]
struct ContentText {
    fault: ModelError,
}

/// A fault of the file, with its place and its key.
#[derive(Clone, Copy)]
pub struct FaultText {
    pub fault: ReadError,
}

/// The word for what a model has too many of.
fn what_text(what: What) -> &'static str
    ensures { result.now ≡ what_word what }
{
    match what {
        What::Materials => "materials",
        What::Joints => "joints",
        What::Blocks => "blocks",
        What::Free => "free",
        What::Fixed => "fixed",
        What::Loads => "loads",
    }
}

impl fmt::Display for SpotText {
    ghost output = { λ t. Some (spot_text t.spot) };

    #[tactic(auto, unfolding(crate::specs::ModelLines::spot_text))]
    fn fmt<W: fmt::Write>(&self, f: &mut fmt::Formatter<W>) -> fmt::Result {
        match self.spot {
            Spot::Top => f.write_str("top"),
            Spot::Material(i) => write!(f, "material {}", Decimal(number(i))),
            Spot::Joint(i) => write!(f, "joint {}", Decimal(number(i))),
            Spot::Block(i) => write!(f, "block {}", Decimal(number(i))),
            Spot::Load(i) => write!(f, "load {}", Decimal(number(i))),
        }
    }
}

impl fmt::Display for ContentText {
    ghost output = { λ t. Some (content_text t.fault) };

    #[tactic(auto, unfolding(crate::specs::ModelLines::content_text))]
    fn fmt<W: fmt::Write>(&self, f: &mut fmt::Formatter<W>) -> fmt::Result {
        match self.fault {
            ModelError::Range { spot, key } => {
                let at = SpotText { spot };
                write!(f, "range {at} {}", word(key))
            }
            ModelError::SameName { spot } => {
                let at = SpotText { spot };
                write!(f, "same name {at}")
            }
            ModelError::NoMaterial { block } => write!(
                f,
                "no material block {}",
                Decimal(number(block))
            ),
            ModelError::NoBlock { load } => write!(f, "no block load {}", Decimal(number(load))),
            ModelError::NotConvex { block, edge } => {
                write!(
                    f,
                    "not convex block {} edge {}",
                    Decimal(number(block)),
                    Decimal(number(edge))
                )
            }
            ModelError::LoadOnFixed { load } => write!(
                f,
                "load on fixed load {}",
                Decimal(number(load))
            ),
            ModelError::TooMany { what } => write!(f, "too many {}", what_text(what)),
            ModelError::Memory => f.write_str("memory"),
            ModelError::NoJointMaterial { joint } => {
                write!(f, "no material joint {}", Decimal(number(joint)))
            }
            ModelError::SameJoint { joint } => write!(f, "same joint {}", Decimal(number(joint))),
        }
    }
}

impl fmt::Display for FaultText {
    ghost output = { λ t. Some (fault_text t.fault) };

    #[tactic(auto, unfolding(crate::specs::ModelLines::fault_text))]
    fn fmt<W: fmt::Write>(&self, f: &mut fmt::Formatter<W>) -> fmt::Result {
        match self.fault {
            ReadError::NotToml => f.write_str("not toml"),
            ReadError::UnknownKey { spot } => {
                let at = SpotText { spot };
                write!(f, "unknown key {at}")
            }
            ReadError::Missing { spot, key } => {
                let at = SpotText { spot };
                write!(f, "missing {at} {}", word(key))
            }
            ReadError::Kind { spot, key } => {
                let at = SpotText { spot };
                write!(f, "kind {at} {}", word(key))
            }
            ReadError::Model(fault) => {
                let content = ContentText { fault };
                write!(f, "{content}")
            }
            ReadError::Memory => f.write_str("memory"),
        }
    }
}
