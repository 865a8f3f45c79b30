//! A program for tests: answers questions about modules in JSON, one per line.
#![tactic(auto)]

mod answer;
mod bounds;
mod flow;
mod layouts;
mod lengths;
mod parts;
mod program;
mod resolve;
mod told;
mod types;
mod typifier;
mod words;

use crate::program::run;
use program_io::{FromReader, ToWriter};
use std::io;
use std::process::ExitCode;

fn main(rt: HostRuntime) -> ExitCode {
    let mut reader = FromReader::new(rt.reader());
    let mut writer = ToWriter::new(io::writer(&rt));
    let status = run(rt.alloc(), &mut reader, &mut writer);
    ExitCode::from(status as u8)
}
