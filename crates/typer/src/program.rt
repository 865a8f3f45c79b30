//! A whole run of the program, from the first byte read to the last one written.

ghost use Rattle.std.specs.Prelude.{◌≡◌, ◌<◌, ◌↔◌, ℕ, List, false, take, length, IsTrue, IfSome};
ghost use Rattle.std.specs.Io.KnownBytes.{Appends, Consumes, IsAtEnd, Keeps};
ghost use Rattle.typer.specs.Runs.{AreAnswer, OnAnswered, OnUnanswered, most_input_bytes};

use crate::status::Status;
use program_io::{Failed, Sink, Source, read_input, write_all};
use std::alloc::Global;
use typer_answers::Answer;

/// The most bytes that an input can have.
const INPUT_LIMIT: usize = 1_048_576;

/// Reads the whole input, computes all replies, and then writes them.
pub fn run<R: Source, W: Sink>(alloc: Global, reader: &mut R, writer: &mut W) -> Status
    requires reads { R.has_failed reader.old ≡ false }
    requires writes { W.has_failed writer.old ≡ false }

    // With status 0 or 2 the whole input was read, and the replies to it were written.
    ensures end { OnAnswered result (IsAtEnd (R.remaining reader.new)) }
    ensures answer { OnAnswered result (IfSome (R.remaining reader.old) (λ input.
        (text : List ℕ) × AreAnswer input text result × Appends (W.contents writer.old) (W.contents writer.new) text)) }

    // With 3, 5 and 6 nothing was written, with 4 a beginning of the replies.
    ensures nothing { OnUnanswered result (Keeps (W.contents writer.old) (W.contents writer.new)) }
    ensures beginning { result ≡ Status.WriteFailed → IfSome (R.remaining reader.old) (λ input.
        (text : List ℕ) × (status : Status) × (n : ℕ) × AreAnswer input text status
        × Appends (W.contents writer.old) (W.contents writer.new) (take n text)) }

    // The conditions for the statuses 3, 4 and 6.
    ensures read_failed { (result ≡ Status.ReadFailed) ↔ IsTrue (R.has_failed reader.new) }
    ensures write_failed { (result ≡ Status.WriteFailed) ↔ IsTrue (W.has_failed writer.new) }
    ensures too_long { (read : List ℕ) × Consumes (R.remaining reader.old) (R.remaining reader.new) read
        × ((result ≡ Status.TooLong) ↔ (most_input_bytes < length read)) }
{
    let input = match read_input(alloc, reader, INPUT_LIMIT) {
        Ok(input) => input,
        Err(error) => return Status::from(error),
    };
    let Ok(answer) = Answer::to(alloc, input.as_slice()) else {
        return Status::OutOfMemory;
    };
    match write_all(writer, answer.text.as_bytes()) {
        Ok(()) => Status::from(answer.outcome),
        Err(Failed) => Status::WriteFailed,
    }
}
