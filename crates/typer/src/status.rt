//! The outcomes of a run, and their exit statuses.
use program_io::InputError;
use typer_answers::Outcome;

/// The outcome of a run.
#[derive(Clone, Copy, Debug, PartialEq, Eq)]
pub enum Status {
    /// Each line has a reply.
    Done = 0,
    /// A line isn't a request, and the output ends with its number.
    BadLine = 2,
    /// A read of the input failed.
    ReadFailed = 3,
    /// A write of the output failed.
    WriteFailed = 4,
    /// An allocation failed.
    OutOfMemory = 5,
    /// The input has more bytes than the limit.
    TooLong = 6,
}

impl Status {
    ghost use Rattle.std.specs.Prelude.{◌≡◌};
    ghost use Rattle.typer.specs.Runs.{status_code};

    /// Returns the exit status of the process.
    pub fn code(self) -> u8
        ensures { result ≡ status_code self }
    {
        self as u8
    }
}

impl From<InputError> for Status {
    ghost use Rattle.std.specs.Prelude.{◌≡◌};
    ghost use Rattle.typer.specs.Runs.{input_status};

    ghost from_gives = { λ e s. s ≡ input_status e };

    fn from(error: InputError) -> Status {
        match error {
            InputError::ReadFailed => Status::ReadFailed,
            InputError::TooLong => Status::TooLong,
            InputError::OutOfMemory => Status::OutOfMemory,
        }
    }
}

impl From<Outcome> for Status {
    ghost use Rattle.std.specs.Prelude.{◌≡◌};
    ghost use Rattle.typer.specs.Runs.{outcome_status};

    ghost from_gives = { λ o s. s ≡ outcome_status o };

    fn from(outcome: Outcome) -> Status {
        match outcome {
            Outcome::Done => Status::Done,
            Outcome::BadLine => Status::BadLine,
        }
    }
}
