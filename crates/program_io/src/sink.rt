//! Destinations of a program's output.

ghost use Rattle.std.specs.Prelude.{◌≡◌, ◌⊎◌, ℕ, ◌<◌, ◌≤◌, List, length, Option, Bool, false, ◌||◌};
ghost use Rattle.std.specs.Prelude.{IfOk, IsErr, IsTrue, MatchResult, is_err};
ghost use Rattle.std.specs.Io.KnownBytes.{WriteAppends};

use crate::source::Failed;
use std::io::{self, Write};

/// A sink of bytes.
pub trait Sink {
    // The bytes written to the sink, if they are known.
    ghost contents: { Self → Option (List ℕ) };

    // Whether a write has failed.
    ghost has_failed: { Self → Bool };

    /// Writes a prefix of `piece` and returns the byte count, which is 0 only for an empty piece.
    fn write(&mut self, piece: &[u8]) -> Result<usize, Failed>
        ensures count { IfOk result (λ n. n ≤ length piece.now) }
        ensures progress { IfOk result (λ n. 0 < length piece.now → 0 < n) }
        ensures bytes { WriteAppends (contents self.old) (contents self.new) result piece.now }
        ensures failed { has_failed self.new ≡ (has_failed self.old || is_err result) };
}

/// A sink over a writer of std.
#[derive(Drop)]
pub struct ToWriter<W> {
    writer: W,
    has_failed: bool,
}

impl<W: Write> ToWriter<W> {
    /// Returns the sink that writes to the writer.
    pub fn new(writer: W) -> Self
        ensures bytes { ⟦<ToWriter<W> as Sink>⟧.contents result ≡ W.contents writer }
        ensures failed { ⟦<ToWriter<W> as Sink>⟧.has_failed result ≡ false }
    {
        ToWriter {
            writer,
            has_failed: false,
        }
    }
}

impl<W: Write> Sink for ToWriter<W> {
    ghost contents = { λ s. W.contents s.writer };

    ghost has_failed = { λ s. s.has_failed };

    fn write(&mut self, piece: &[u8]) -> Result<usize, Failed> {
        let outcome = write_outcome(self.writer.write(piece), piece.is_empty());
        self.has_failed = self.has_failed || outcome.is_err();
        outcome
    }
}

/// Returns the byte count of std's writer, or `Failed` exactly if it returned an error or took no byte of a piece that isn't empty.
fn write_outcome(written: io::Result<usize>, is_empty: bool) -> Result<usize, Failed>
    ensures count { MatchResult written (λ count. (0 < count) ⊎ IsTrue is_empty → result ≡ Ok count) (λ _. IsErr result) }
    ensures none { (written ≡ Ok 0) → (is_empty ≡ false) → IsErr result }
{
    match written {
        Ok(count) if count > 0 || is_empty => Ok(count),
        _ => Err(Failed),
    }
}
