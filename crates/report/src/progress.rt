//! Progress messages on standard error.

use report_answers::{Progress, Stage};

/// The length in bytes from which an input is long.
const LONG_INPUT: usize = 1_048_576;

/// A receiver that prints each stage of a run over a long input on standard error.
#[derive(Drop)]
pub struct Shown<E> {
    errors: E,
    is_terminal: bool,
    is_long: bool,
}

impl<E: Eprint> Shown<E> {
    /// Returns a receiver that prints nothing unless standard error is a terminal.
    pub fn new(errors: E, is_terminal: bool) -> Self {
        Shown {
            errors,
            is_terminal,
            is_long: false,
        }
    }
}

impl<E: Eprint> Progress for Shown<E> {
    fn begins(&mut self, stage: Stage) {
        if let Stage::Module(bytes) = stage {
            self.is_long = bytes >= LONG_INPUT;
        }
        if self.is_terminal && self.is_long {
            let _ = eprintln!(self.errors; "report: {stage}");
        }
    }
}
