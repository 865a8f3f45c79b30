//! A copy of an input to an output, and why there is none.

ghost use Rattle.std.specs.Prelude.{◌≡◌, ◌↔◌, ◌<◌, List, ℕ, false, length, IfErr, IsTrue, OnOk};
ghost use Rattle.std.specs.Io.KnownBytes.{Appends, Consumes, IsAtEnd, Keeps};
ghost use Rattle.test_copy.specs.Statuses.{most_input_bytes};

use program_io::{Failed, InputError, Sink, Source, read_input, write_all};
use std::alloc::Global;

/// The most bytes that an input can have: more than the memory that a test allows.
const INPUT_LIMIT: usize = 268_435_456;

/// The reason why an input isn't copied, with the exit status that `typer` has for it.
#[derive(Clone, Copy, Debug, PartialEq, Eq)]
pub enum Failure {
    /// A read of the input failed.
    Read = 3,
    /// A write of the output failed.
    Write = 4,
    /// An allocation failed.
    OutOfMemory = 5,
    /// The input has more bytes than the limit.
    TooLong = 6,
}

impl Failure {
    ghost use Rattle.test_copy.specs.Statuses.{failure_code};

    /// Returns the exit status of the process.
    pub fn code(self) -> u8
        ensures { result ≡ failure_code self }
    {
        self as u8
    }
}

impl From<InputError> for Failure {
    ghost use Rattle.test_copy.specs.Statuses.{input_failure};

    ghost from_gives = { λ e f. f ≡ input_failure e };

    fn from(error: InputError) -> Failure {
        match error {
            InputError::ReadFailed => Failure::Read,
            InputError::TooLong => Failure::TooLong,
            InputError::OutOfMemory => Failure::OutOfMemory,
        }
    }
}

impl From<Failed> for Failure {
    ghost use Rattle.test_copy.specs.declared.copying.Failure.TheVariants.{Write};

    ghost from_gives = { λ _ f. f ≡ Write };

    fn from(_e: Failed) -> Failure {
        Failure::Write
    }
}

/// Reads the whole input, and then writes it.
pub fn copy<R: Source, W: Sink>(
    alloc: Global,
    reader: &mut R,
    writer: &mut W,
) -> Result<(), Failure>
    requires reads { R.has_failed reader.old ≡ false }
    requires writes { W.has_failed writer.old ≡ false }
    ensures end { OnOk result (IsAtEnd (R.remaining reader.new)) }
    ensures copied { OnOk result ((text : List ℕ) × Consumes (R.remaining reader.old) (R.remaining reader.new) text
        × Appends (W.contents writer.old) (W.contents writer.new) text) }
    ensures read { (result ≡ Err Failure.Read) ↔ IsTrue (R.has_failed reader.new) }
    ensures written { (result ≡ Err Failure.Write) ↔ IsTrue (W.has_failed writer.new) }
    ensures too_long { (text : List ℕ) × Consumes (R.remaining reader.old) (R.remaining reader.new) text
        × ((result ≡ Err Failure.TooLong) ↔ (most_input_bytes < length text)) }
    ensures nothing { IfErr result (λ failure. (failure ≡ Failure.Write → ⊥) → Keeps (W.contents writer.old) (W.contents writer.new)) }
{
    let input = read_input(alloc, reader, INPUT_LIMIT)?;
    write_all(writer, input.as_slice())?;
    Ok(())
}
