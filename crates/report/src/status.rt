//! The outcome of a run, and its exit status.

use report_answers::Outcome;

/// The outcome of a run.
#[derive(Clone, Copy, Debug, PartialEq, Eq)]
pub enum Status {
    /// The module has no fault, and each type has a layout.
    Accepted = 0,
    /// The module has a fault, or a type has no layout.
    Refused = 1,
    /// An argument is no flag, or sets what an earlier one has set.
    BadUsage = 2,
    /// A read of the input failed.
    ReadFailed = 3,
    /// A write of the report failed.
    WriteFailed = 4,
    /// An allocation failed.
    OutOfMemory = 5,
    /// The input is no module, or its blocks nest too deep.
    NotModule = 6,
}

impl Status {
    ghost use Rattle.std.specs.Prelude.{◌≡◌};
    ghost use Rattle.report.specs.Runs.{outcome_status, status_code};

    /// Returns the status of a run that wrote a report with this outcome.
    pub fn of(outcome: Outcome) -> Status
        ensures { result ≡ outcome_status outcome }
    {
        match outcome {
            Outcome::Accepted => Status::Accepted,
            Outcome::Refused => Status::Refused,
            Outcome::NotModule => Status::NotModule,
        }
    }

    /// Returns the exit status of the process.
    pub fn code(self) -> u8
        ensures { result ≡ status_code self }
    {
        self as u8
    }
}
