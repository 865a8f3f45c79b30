//! Sources of a program's input.

ghost use Rattle.std.specs.Prelude.{◌≡◌, ℕ, ◌≤◌, List, length, Option, Bool, false, ◌||◌, IfOk, IsErr, MatchResult, is_err};
ghost use Rattle.std.specs.Io.KnownBytes.{ReadConsumes};

use std::io::{self, Read};

/// The failure of a read or a write.
#[derive(Clone, Copy, Debug, PartialEq, Eq)]
pub struct Failed;

/// A source of bytes.
pub trait Source {
    // The bytes that reads will still return, if they are known.
    ghost remaining: { Self → Option (List ℕ) };

    // Whether a read has failed.
    ghost has_failed: { Self → Bool };

    /// Reads into the start of `piece` and returns the byte count; 0 means end of input (or an empty piece).
    fn read(&mut self, piece: &mut [u8]) -> Result<usize, Failed>
        ensures count { IfOk result (λ n. n ≤ length piece.new) }
        ensures bytes { ReadConsumes (remaining self.old) (remaining self.new) result piece.new }
        ensures failed { has_failed self.new ≡ (has_failed self.old || is_err result) };
}

/// A source over a reader of std.
#[derive(Drop)]
pub struct FromReader<R> {
    reader: R,
    has_failed: bool,
}

impl<R: Read> FromReader<R> {
    /// Returns the source that reads from the reader.
    pub fn new(reader: R) -> Self
        ensures bytes { ⟦<FromReader<R> as Source>⟧.remaining result ≡ R.remaining reader }
        ensures failed { ⟦<FromReader<R> as Source>⟧.has_failed result ≡ false }
    {
        FromReader {
            reader,
            has_failed: false,
        }
    }
}

impl<R: Read> Source for FromReader<R> {
    ghost remaining = { λ s. R.remaining s.reader };

    ghost has_failed = { λ s. s.has_failed };

    fn read(&mut self, piece: &mut [u8]) -> Result<usize, Failed> {
        let outcome = read_outcome(self.reader.read(piece));
        self.has_failed = self.has_failed || outcome.is_err();
        outcome
    }
}

/// Returns the byte count of std's reader, or `Failed` exactly if it returned an error.
fn read_outcome(read: io::Result<usize>) -> Result<usize, Failed>
    ensures { MatchResult read (λ count. result ≡ Ok count) (λ _. IsErr result) }
{
    match read {
        Ok(count) => Ok(count),
        Err(_) => Err(Failed),
    }
}
