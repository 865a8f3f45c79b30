//! Reads a shader module as JSON and reports on it.
#![tactic(auto)]

mod help;
mod program;
mod progress;
mod status;
mod wrong_words;

use crate::help::{HELP, USAGE};
use crate::program::run;
use crate::progress::Shown;
use crate::status::Status;
use crate::wrong_words::say_bad_word;
use program_io::{FromReader, ToWriter};
use report_answers::Options;
use std::alloc::AllocError;
use std::io::{ErrorKind, IsTerminal};
use std::process::ExitCode;
use std::{env, io};

/// The name and the version, which the file VERSION has too.
const VERSION: &str = "report 0.3.0";

/// Returns what arguments ask about the program itself, if they do: the help or the version, as the first of them says.
fn asked_of_itself(words: &[String]) -> Option<&'static str> {
    for word in words {
        match word.as_str() {
            "-h" | "--help" => return Some(HELP),
            "-V" | "--version" => return Some(VERSION),
            _ => {}
        }
    }
    None
}

/// Prints which operation of a run failed, if one did.
fn say_failure(rt: &impl Eprint, status: Status) {
    let failure = match status {
        Status::ReadFailed => "the input can't be read",
        Status::WriteFailed => "the report can't be written",
        Status::OutOfMemory => "out of memory",
        _ => return,
    };
    let _ = eprintln!(rt; "report: {failure}");
}

/// Prints the line on usage. Returns the exit status for a wrong argument.
fn bad_usage(rt: &impl Eprint) -> ExitCode {
    let _ = eprintln!(rt; "{USAGE}");
    ExitCode::from(Status::BadUsage.code())
}

fn main(rt: HostRuntime) -> ExitCode {
    let words = match env::args(&rt) {
        Ok(words) => words,
        Err(error) if error.kind() == ErrorKind::InvalidData => {
            let _ = eprintln!(rt; "report: an argument that is no text is no option");
            return bad_usage(&rt);
        }
        Err(_) => return ended(&rt, Status::OutOfMemory),
    };
    let words: Result<Vec<String>, AllocError> = words.skip(1).collect(rt.alloc());
    let Ok(words) = words else {
        return ended(&rt, Status::OutOfMemory);
    };
    if let Some(text) = asked_of_itself(words.as_slice()) {
        let _ = println!(rt; "{text}");
        return ExitCode::SUCCESS;
    }
    let options = match Options::from_words(words.as_slice()) {
        Ok(options) => options,
        Err(bad) => {
            say_bad_word(&rt, rt.alloc(), words.as_slice(), bad);
            return bad_usage(&rt);
        }
    };
    let mut reader = FromReader::new(rt.reader());
    let mut writer = ToWriter::new(io::writer(&rt));
    let mut errors = ToWriter::new(rt.stderr());
    let mut progress = Shown::new(&rt, rt.stderr().is_terminal());
    let status = run(
        rt.alloc(),
        options,
        &mut reader,
        &mut writer,
        &mut errors,
        &mut progress,
    );
    ended(&rt, status)
}

/// Prints which operation failed, if one did. Returns the exit status.
fn ended(rt: &impl Eprint, status: Status) -> ExitCode {
    say_failure(rt, status);
    ExitCode::from(status.code())
}
