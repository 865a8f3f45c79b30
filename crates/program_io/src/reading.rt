//! Reading of a whole input, up to a limit.

ghost use Rattle.std.specs.Prelude.{◌≡◌, ℕ, ◌≤◌, ◌<◌, ◌↔◌, List, length, false, IsTrue, IfOk, OnOk};
ghost use Rattle.std.specs.Io.KnownBytes.{Consumes, IsAtEnd};
ghost use Rattle.program_io.specs.declared.reading.InputError.TheVariants.{ReadFailed, OutOfMemory};

use crate::source::{Failed, Source};
use std::alloc::{AllocError, Global};

/// The reason why there is no input.
#[derive(Clone, Copy, Debug, PartialEq, Eq)]
pub enum InputError {
    /// A read failed.
    ReadFailed,
    /// The input has more bytes than the limit.
    TooLong,
    /// An allocation failed.
    OutOfMemory,
}

impl From<Failed> for InputError {
    ghost from_gives = { λ _ e. e ≡ ReadFailed };

    fn from(_e: Failed) -> InputError {
        InputError::ReadFailed
    }
}

impl From<AllocError> for InputError {
    ghost from_gives = { λ _ e. e ≡ OutOfMemory };

    fn from(_e: AllocError) -> InputError {
        InputError::OutOfMemory
    }
}

/// Returns all bytes of the reader, at most as many as the limit.
///
/// # Errors
///
/// A failed read, more bytes than the limit, or out of memory.
pub fn read_input<R: Source>(
    alloc: Global,
    reader: &mut R,
    limit: usize,
) -> Result<Vec<u8>, InputError>
    requires { R.has_failed reader.old ≡ false }
    ensures bytes { IfOk result (λ v. Consumes (R.remaining reader.old) (R.remaining reader.new) v.items) }
    ensures end { OnOk result (IsAtEnd (R.remaining reader.new)) }
    ensures failed { (result ≡ Err InputError.ReadFailed) ↔ IsTrue (R.has_failed reader.new) }
    ensures limit { IfOk result (λ v. length v.items ≤ limit) }
    ensures read { (read : List ℕ) × Consumes (R.remaining reader.old) (R.remaining reader.new) read
        × ((result ≡ Err InputError.TooLong) ↔ (limit < length read)) }
{
    let mut input = Vec::new(alloc);
    let mut piece = [0; 4096];
    loop {
        let count = reader.read(&mut piece)?;
        if count == 0 {
            return Ok(input);
        }
        if count > limit - input.len() {
            return Err(InputError::TooLong);
        }
        input.extend_from_slice(&piece[..count])?;
    }
}
