//! Tests of runs over memory. The rows of lines are in tests/data/lines, and the runs on real devices in tests/exit_statuses.

use crate::program::run;
use crate::status::Status;
use crate::test_devices::{TestSink, TestSource};
use std::alloc::{AllocError, Global};

const INPUT: &[u8] = b"call Max u32 AbstractInt\ncall Max f32 f64\ncall Abs AbstractInt\n";

const ANSWER: &[u8] = b"u32\nrefused\nAbstractInt\n";

/// The capacity of a sink in these tests, in bytes.
const ROOM: usize = 1000;

/// Runs the program over a source that returns five bytes per call and fails after a number of calls, and a sink that accepts one byte per
/// call up to this capacity.
fn run_in_memory(
    alloc: Global,
    input: &[u8],
    calls: Option<usize>,
    room: usize,
) -> (Status, TestSink) {
    let mut source = TestSource::new(input, 5, calls);
    let mut sink = TestSink::new(Vec::new(alloc), 1, room);
    let status = run(alloc, &mut source, &mut sink);
    (status, sink)
}

#[test]
fn answers_lines(rt: HostRuntime) {
    let (status, sink) = run_in_memory(rt.alloc(), INPUT, None, ROOM);
    assert!(rt; status == Status::Done);
    assert!(rt; sink.bytes() == ANSWER);
}

#[test]
fn stops_at_a_bad_line(rt: HostRuntime) {
    let input = b"call Abs f32\nfoo\ncall Abs f32\n";
    let (status, sink) = run_in_memory(rt.alloc(), input, None, ROOM);
    assert!(rt; status == Status::BadLine);
    assert!(rt; sink.bytes() == b"f32\nbad line 2\n".as_slice());
}

#[test]
fn answers_what_samples_are(rt: HostRuntime) {
    let input = b"module stored\nmodule exit\nmodule nothing\n";
    let (status, sink) = run_in_memory(rt.alloc(), input, None, ROOM);
    assert!(rt; status == Status::BadLine);
    let wanted = b"fn 0 uses 2 pairs - counts 1,1 result uniform\nrefused fn 0 A2\nbad line 3\n";
    assert!(rt; sink.bytes() == wanted.as_slice());
}

#[test]
fn stops_at_a_failed_read(rt: HostRuntime) {
    for calls in 0..14 {
        let (status, sink) = run_in_memory(rt.alloc(), INPUT, Some(calls), ROOM);
        assert!(rt; status == Status::ReadFailed);
        assert!(rt; sink.bytes().is_empty());
    }
}

#[test]
fn stops_at_a_failed_write(rt: HostRuntime) {
    for room in 0..ANSWER.len() {
        let (status, sink) = run_in_memory(rt.alloc(), INPUT, None, room);
        assert!(rt; status == Status::WriteFailed);
        assert!(rt; sink.bytes() == &ANSWER[..room]);
    }
}

#[test]
fn stops_past_the_limit(rt: HostRuntime) -> Result<(), AllocError> {
    let mut bytes = vec![in rt.alloc(); b'a'; 1_048_577]?;
    let (status, sink) = run_in_memory(rt.alloc(), bytes.as_slice(), None, ROOM);
    assert!(rt; status == Status::TooLong);
    assert!(rt; sink.bytes().is_empty());
    bytes.truncate(1_048_576);
    let (status, sink) = run_in_memory(rt.alloc(), bytes.as_slice(), None, ROOM);
    assert!(rt; status == Status::BadLine);
    assert!(rt; sink.bytes() == b"bad line 1\n".as_slice());
    Ok(())
}
