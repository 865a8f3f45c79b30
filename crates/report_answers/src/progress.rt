//! Progress messages of a report on a long input.

use std::fmt;
use std::fmt::{Display, Formatter};

/// A stage of a report.
#[derive(Clone, Copy, Debug, PartialEq, Eq)]
pub enum Stage {
    /// Reading a module of this many bytes.
    Module(usize),
    /// Checking and analysing the module.
    Analysis,
    /// Writing this many bytes.
    Answer(usize),
}

impl Display for Stage {
    fn fmt<W: fmt::Write>(&self, f: &mut Formatter<W>) -> fmt::Result {
        match self {
            Stage::Module(bytes) => write!(f, "reading a module of {bytes} bytes"),
            Stage::Analysis => f.write_str("checking and analysing it"),
            Stage::Answer(bytes) => write!(f, "writing {bytes} bytes"),
        }
    }
}

/// A receiver of progress messages.
pub trait Progress {
    /// Notes that the work begins with a stage.
    fn begins(&mut self, stage: Stage);
}

/// A receiver that ignores all messages.
#[derive(Clone, Copy, Debug, PartialEq, Eq)]
pub struct Silent;

impl Progress for Silent {
    fn begins(&mut self, _stage: Stage) {}
}
