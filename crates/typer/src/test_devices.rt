//! Test devices: a source and a sink over memory that fail on demand.

ghost use Rattle.std.specs.Prelude.{◌≡◌, ◌<◌, Some, false};

use program_io::{Failed, Sink, Source};

/// A source that returns at most a fixed number of bytes per call, and may fail after a number of
/// calls.
#[derive(Drop)]
pub struct TestSource<'a> {
    rest: &'a [u8],
    largest: usize,
    calls_left: Option<usize>,
    has_failed: bool,
    ghost gives: { 0 < largest },
}

impl<'a> TestSource<'a> {
    /// Returns a source of the bytes. If `calls_left` is given, the read after that many calls
    /// fails.
    pub fn new(bytes: &'a [u8], largest: usize, calls_left: Option<usize>) -> Self
        requires { 0 < largest }
        ensures bytes { ⟦<TestSource<'a> as Source>⟧.remaining result ≡ Some bytes.now }
        ensures failed { ⟦<TestSource<'a> as Source>⟧.has_failed result ≡ false }
    {
        TestSource {
            rest: bytes,
            largest,
            calls_left,
            has_failed: false,
        }
    }
}

impl Source for TestSource<'_> {
    ghost remaining = { λ s. Some s.rest.now };

    ghost has_failed = { λ s. s.has_failed };

    fn read(&mut self, piece: &mut [u8]) -> Result<usize, Failed> {
        if let Some(calls) = self.calls_left {
            if calls == 0 {
                self.has_failed = true;
                return Err(Failed);
            }
            self.calls_left = Some(calls - 1);
        }
        let count = piece.len().min(self.largest).min(self.rest.len());
        let (front, rest) = self.rest.split_at(count);
        piece[..count].copy_from_slice(front);
        self.rest = rest;
        Ok(count)
    }
}

/// A sink that accepts at most a fixed number of bytes per call, and fails once it is full.
#[derive(Drop)]
pub struct TestSink {
    stored: Vec<u8>,
    largest: usize,
    room: usize,
    has_failed: bool,
    ghost takes: { 0 < largest },
}

impl TestSink {
    pub fn new(stored: Vec<u8>, largest: usize, room: usize) -> Self
        requires { 0 < largest }
        ensures bytes { ⟦<TestSink as Sink>⟧.contents result ≡ Some stored.items }
        ensures failed { ⟦<TestSink as Sink>⟧.has_failed result ≡ false }
    {
        TestSink {
            stored,
            largest,
            room,
            has_failed: false,
        }
    }

    pub fn bytes(&self) -> &[u8]
        ensures { ⟦<TestSink as Sink>⟧.contents self.now ≡ Some result.now }
    {
        self.stored.as_slice()
    }
}

impl Sink for TestSink {
    ghost contents = { λ s. Some s.stored.items };

    ghost has_failed = { λ s. s.has_failed };

    fn write(&mut self, piece: &[u8]) -> Result<usize, Failed> {
        let count = piece.len().min(self.largest).min(self.room);
        let is_stuck = count == 0 && !piece.is_empty();
        if is_stuck || self.stored.extend_from_slice(&piece[..count]).is_err() {
            self.has_failed = true;
            return Err(Failed);
        }
        self.room -= count;
        Ok(count)
    }
}
