//! The statuses of calls, and their numbers.

use report_answers::Outcome;
use typer_answers::Outcome as LinesOutcome;

/// The status of a report, as the program `report` numbers it.
#[derive(Clone, Copy, Debug, PartialEq, Eq)]
pub enum ReportStatus {
    /// The module has no fault, and each type has a layout.
    Accepted = 0,
    /// The module has a fault, or a type has no layout.
    Refused = 1,
    /// A bit is set that is no flag, or both policies of a kind are.
    BadFlags = 2,
    /// An allocation failed.
    OutOfMemory = 5,
    /// The input is no module, or its blocks nest too deep.
    NotModule = 6,
}

impl ReportStatus {
    ghost use Rattle.std.specs.Prelude.{◌≡◌};
    ghost use Rattle.pethuvazh.specs.Reports.{outcome_status, report_code};

    /// Returns the status of a call that wrote a report with this outcome.
    pub fn of(outcome: Outcome) -> ReportStatus
        ensures { result ≡ outcome_status outcome }
    {
        match outcome {
            Outcome::Accepted => ReportStatus::Accepted,
            Outcome::Refused => ReportStatus::Refused,
            Outcome::NotModule => ReportStatus::NotModule,
        }
    }

    /// Returns the number that the caller gets.
    pub fn code(self) -> u32
        ensures { result ≡ report_code self }
    {
        self as u32
    }
}

/// The status of replies to lines, as the program `typer` numbers it.
#[derive(Clone, Copy, Debug, PartialEq, Eq)]
pub enum LinesStatus {
    /// Each line has a reply.
    Done = 0,
    /// A line isn't a request, and the text ends with its number.
    BadLine = 2,
    /// An allocation failed.
    OutOfMemory = 5,
    /// The input has more than 1,048,576 bytes.
    TooLong = 6,
}

impl LinesStatus {
    ghost use Rattle.std.specs.Prelude.{◌≡◌};
    ghost use Rattle.pethuvazh.specs.Lines.{lines_code, lines_status};

    /// Returns the status of a call that wrote replies with this outcome.
    pub fn of(outcome: LinesOutcome) -> LinesStatus
        ensures { result ≡ lines_status outcome }
    {
        match outcome {
            LinesOutcome::Done => LinesStatus::Done,
            LinesOutcome::BadLine => LinesStatus::BadLine,
        }
    }

    /// Returns the number that the caller gets.
    pub fn code(self) -> u32
        ensures { result ≡ lines_code self }
    {
        self as u32
    }
}
