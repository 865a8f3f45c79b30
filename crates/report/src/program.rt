//! A run of the program, from the first byte read to the last one written.
ghost use Rattle.std.specs.Prelude.{◌≡◌, ◌≢◌, ◌↔◌, ℕ, List, [], false, IsTrue, IsSome, IfSome};
ghost use Rattle.std.specs.Str.{IsUtf8};
ghost use Rattle.std.specs.Io.KnownBytes.{Appends, IsAtEnd, Keeps};
ghost use Rattle.json.specs.Json.{document};
ghost use Rattle.shader_analysis_spec.specs.Program.{Module};
ghost use Rattle.shader_json_module.specs.Modules.{IsTextOf};
ghost use Rattle.report_answers.specs.Reports.{IsRefusal, IsReport};
ghost use Rattle.report.specs.Runs.{IsAnswerOf, IsBegun, IsTold, OnAnswered, OnNotModule, OnUnanswered, OnWriteFailed};
ghost use Rattle.report.specs.Runs.{UnlessNotModule, is_told_apart, outcome_status};

use crate::status::Status;
use program_io::{Failed, InputError, Sink, Source, read_input, write_all};
use report_answers::{Options, Outcome, Progress, Reading, Report, Stage};
use shader_json_module::{MOST_BYTES, ReadError};
use std::alloc::{AllocError, Global};

/// Reads the whole input, builds the whole report, and then writes it. Errors of the input go to `errors`, unless they are JSON.
pub fn run<R: Source, W: Sink, E: Sink, P: Progress>(
    alloc: Global,
    options: Options,
    reader: &mut R,
    writer: &mut W,
    errors: &mut E,
    progress: &mut P,
) -> Status
    requires reads { R.has_failed reader.old ≡ false }
    requires writes { W.has_failed writer.old ≡ false }
    requires told { E.has_failed errors.old ≡ false }

    // With statuses 0 and 1 the whole input was read, and the report on the module that its JSON denotes was written.
    ensures end { OnAnswered result (IsAtEnd (R.remaining reader.new)) }
    ensures json { OnAnswered result (IfSome (R.remaining reader.old) (λ input. IsUtf8 input × IsSome (document input))) }
    ensures answer { OnAnswered result ((input : List ℕ) × IfSome (R.remaining reader.old) (λ all. all ≡ input) × (m : Module)
        × (text : List ℕ) × IsTextOf input m × IsAnswerOf options input m result text
        × Appends (W.contents writer.old) (W.contents writer.new) text) }

    // With status 6 the error of the input was written to the output or to `errors`.
    ensures refusal { OnNotModule result ((text : List ℕ)
        × IfSome (R.remaining reader.old) (λ input. IsReport options input Outcome.NotModule text)
        × IsTold options.is_json (E.has_failed errors.new) text (W.contents writer.old) (W.contents writer.new)
        (E.contents errors.old) (E.contents errors.new)) }

    // With any other status nothing was written to `errors`.
    ensures apart { UnlessNotModule result (Keeps (E.contents errors.old) (E.contents errors.new)) }

    // With statuses 3 and 5 nothing was written, with 4 a beginning of the report on the input.
    ensures nothing { OnUnanswered result (Keeps (W.contents writer.old) (W.contents writer.new)) }
    ensures beginning { OnWriteFailed result ((outcome : Outcome) × (text : List ℕ)
        × IfSome (R.remaining reader.old) (λ input. IsReport options input outcome text)
        × IsBegun text (W.contents writer.old) (W.contents writer.new)) }

    // Statuses 3 and 4 occur exactly if reading or writing failed, and status 2 never occurs.
    ensures read_failed { (result ≡ Status.ReadFailed) ↔ IsTrue (R.has_failed reader.new) }
    ensures write_failed { (result ≡ Status.WriteFailed) ↔ IsTrue (W.has_failed writer.new) }
    ensures used { result ≢ Status.BadUsage }
{
    let input = match read_input(alloc, reader, MOST_BYTES) {
        Ok(input) => input,
        Err(InputError::ReadFailed) => return Status::ReadFailed,
        Err(InputError::TooLong) => return refuse(alloc, options, writer, errors, progress),
        Err(InputError::OutOfMemory) => return Status::OutOfMemory,
    };
    let bytes = input.as_slice();
    let Ok(reading) = Reading::of(alloc, options, bytes, progress) else {
        return Status::OutOfMemory;
    };
    match Report::of(alloc, options, bytes, reading, progress) {
        Ok(report) => write_report(options, &report, writer, errors, progress),
        Err(AllocError) => Status::OutOfMemory,
    }
}

/// Writes the error for an input of too many bytes. Returns the status of the run.
fn refuse<W: Sink, E: Sink, P: Progress>(
    alloc: Global,
    options: Options,
    writer: &mut W,
    errors: &mut E,
    progress: &mut P,
) -> Status
    requires writes { W.has_failed writer.old ≡ false }
    requires told { E.has_failed errors.old ≡ false }
    ensures answer { OnAnswered result ⊥ }
    ensures refusal { OnNotModule result ((text : List ℕ) × IsRefusal options [] ReadError.TooLong text
        × IsTold options.is_json (E.has_failed errors.new) text (W.contents writer.old) (W.contents writer.new)
        (E.contents errors.old) (E.contents errors.new)) }
    ensures apart { UnlessNotModule result (Keeps (E.contents errors.old) (E.contents errors.new)) }
    ensures nothing { OnUnanswered result (Keeps (W.contents writer.old) (W.contents writer.new)) }
    ensures beginning { OnWriteFailed result ((text : List ℕ) × IsRefusal options [] ReadError.TooLong text
        × IsBegun text (W.contents writer.old) (W.contents writer.new)) }
    ensures failed { (result ≡ Status.WriteFailed) ↔ IsTrue (W.has_failed writer.new) }
    ensures read { (result ≢ Status.ReadFailed) × (result ≢ Status.BadUsage) }
{
    match Report::on_error(alloc, options, &[], &ReadError::TooLong) {
        Ok(report) => write_report(options, &report, writer, errors, progress),
        Err(AllocError) => Status::OutOfMemory,
    }
}

/// Writes a report. Returns the status of the run.
fn write_report<W: Sink, E: Sink, P: Progress>(
    options: Options,
    report: &Report,
    writer: &mut W,
    errors: &mut E,
    progress: &mut P,
) -> Status
    requires writes { W.has_failed writer.old ≡ false }
    requires told { E.has_failed errors.old ≡ false }
    ensures answer { OnAnswered result ((result ≡ outcome_status report.now.outcome)
        × Appends (W.contents writer.old) (W.contents writer.new) report.now.text.items) }
    ensures refusal { OnNotModule result ((result ≡ outcome_status report.now.outcome)
        × IsTold options.is_json (E.has_failed errors.new) report.now.text.items (W.contents writer.old) (W.contents writer.new)
        (E.contents errors.old) (E.contents errors.new)) }
    ensures apart { UnlessNotModule result (Keeps (E.contents errors.old) (E.contents errors.new)) }
    ensures nothing { OnUnanswered result (Keeps (W.contents writer.old) (W.contents writer.new)) }
    ensures beginning { OnWriteFailed result (IsBegun report.now.text.items (W.contents writer.old) (W.contents writer.new)) }
    ensures failed { (result ≡ Status.WriteFailed) ↔ IsTrue (W.has_failed writer.new) }
    ensures read { (result ≢ Status.ReadFailed) × (result ≢ Status.BadUsage) }
{
    let text = report.text.as_slice();
    if is_told_apart(options, report.outcome) {
        // If the error can't be written, only the status reports it.
        let _ = write_all(errors, text);
        return Status::NotModule;
    }
    progress.begins(Stage::Answer(text.len()));
    match write_all(writer, text) {
        Ok(()) => Status::of(report.outcome),
        Err(Failed) => Status::WriteFailed,
    }
}

/// Returns whether a report with this outcome belongs to standard error.
fn is_told_apart(options: Options, outcome: Outcome) -> bool
    ensures { result ≡ is_told_apart options outcome }
{
    match outcome {
        Outcome::Accepted => false,
        Outcome::Refused => false,
        Outcome::NotModule => !options.is_json,
    }
}
