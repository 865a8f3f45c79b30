//! A whole run of the program, from the first byte read to the last one written.
ghost use Rattle.std.specs.Prelude.{◌≡◌, ◌↔◌, false, IsTrue};

use crate::answer::answer;
use program_io::{InputError, Sink, Source, read_input, write_all};
use shader_json_module::MOST_BYTES;
use std::alloc::Global;

/// The outcome of a run, with the exit status of the process.
#[derive(Clone, Copy)]
pub enum Status {
    /// Each line has its answer.
    Answered = 0,
    /// A read of the input failed.
    ReadFailed = 3,
    /// A write of the answer failed.
    WriteFailed = 4,
    /// An allocation failed, and nothing was written.
    OutOfMemory = 5,
    /// The input has more bytes than the limit for a module.
    TooLong = 6,
}

/// Reads the whole input, computes the whole answer, and then writes it.
pub fn run<R: Source, W: Sink>(alloc: Global, reader: &mut R, writer: &mut W) -> Status
    requires reads { R.has_failed reader.old ≡ false }
    requires writes { W.has_failed writer.old ≡ false }
    ensures read_failed { (result ≡ Status.ReadFailed) ↔ IsTrue (R.has_failed reader.new) }
    ensures write_failed { (result ≡ Status.WriteFailed) ↔ IsTrue (W.has_failed writer.new) }
{
    let text = match read_input(alloc, reader, MOST_BYTES) {
        Ok(input) => answer(alloc, input.as_slice()),
        Err(InputError::TooLong) => return Status::TooLong,
        Err(InputError::ReadFailed) => return Status::ReadFailed,
        Err(InputError::OutOfMemory) => return Status::OutOfMemory,
    };
    let Ok(text) = text else {
        return Status::OutOfMemory;
    };
    match write_all(writer, text.as_bytes()) {
        Ok(()) => Status::Answered,
        Err(_) => Status::WriteFailed,
    }
}
