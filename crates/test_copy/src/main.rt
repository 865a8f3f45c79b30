//! A program for tests: writes what it has read, so that real devices are tried on `program_io` alone.
#![tactic(auto)]

mod copying;

use crate::copying::copy;
use program_io::{FromReader, ToWriter};
use std::io;
use std::process::ExitCode;

fn main(rt: HostRuntime) -> ExitCode {
    let mut reader = FromReader::new(rt.reader());
    let mut writer = ToWriter::new(io::writer(&rt));
    match copy(rt.alloc(), &mut reader, &mut writer) {
        Ok(()) => ExitCode::SUCCESS,
        Err(failure) => ExitCode::from(failure.code()),
    }
}
