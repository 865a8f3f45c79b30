//! The program `typer`: replies to lines with questions about types of shaders.
#![tactic(auto)]

mod program;
mod status;
#[cfg(test)]
mod test_devices;
#[cfg(test)]
mod tests;

use crate::program::run;
use program_io::{FromReader, ToWriter};
use std::io;
use std::process::ExitCode;

fn main(rt: HostRuntime) -> ExitCode {
    let mut reader = FromReader::new(rt.reader());
    let mut writer = ToWriter::new(io::writer(&rt));
    ExitCode::from(run(rt.alloc(), &mut reader, &mut writer).code())
}
