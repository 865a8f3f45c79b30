//! Reads a module from an input.
ghost use Rattle.std.specs.Prelude.{◌≡◌, IfOk, Some, false};
ghost use Rattle.std.specs.Str.{IsUtf8};
ghost use Rattle.json.specs.Json.{document};
ghost use Rattle.json.specs.Value.{value_view};
ghost use Rattle.report_answers.specs.Reading.{IsRead, IsReading};
ghost use Rattle.shader_json_module.specs.Modules.{IsErrorOf, IsModule};
ghost use Rattle.shader_json_module.specs.Parts.{AreModuleParts};

use crate::options::Options;
use crate::progress::{Progress, Stage};
use crate::reports::Report;
use crate::sections::{Declared, declared_of};
use json::{Scratch, Value};
use shader_ir::Module;
use shader_json_module::{ModuleParts, ReadError, parse_bytes, read_parts, read_value};
use std::alloc::{AllocError, Global};

/// A module that was read.
#[derive(Drop)]
pub struct ReadModule {
    pub module: Module,
    /// What it declares to its host, for a text report.
    pub declared: Declared,
}

/// The result of reading an input.
#[derive(Drop)]
pub enum Reading {
    /// A module.
    Module(ReadModule),
    /// The report on the input: it is no module, or resources are requested, which are printed from its JSON.
    Reported(Report),
}

impl Reading {
    /// Returns the module and what it declares to its host, if resources aren't requested.
    fn of_module(
        alloc: Global,
        options: Options,
        input: &[u8],
        json: &Value<'_>,
        module: Module,
    ) -> Result<Reading, AllocError>
        requires unasked { options.has_resources ≡ false }
        requires read { IsRead input.now «module» }
        ensures { IfOk result (λ reading. IsReading options input.now reading) }
    {
        match declared_of(alloc, options, json, &module) {
            Ok(declared) => Ok(Reading::Module(ReadModule { module, declared })),
            Err(error) => {
                drop(module);
                Err(error)
            }
        }
    }

    /// Reads an input in parts. Only `rest` is a JSON value as a whole: functions and entry points are read a part at a time.
    #[tactic(auto, using(crate::proofs::ReadingLemmas::parts_read))]
    fn of_parts(
        alloc: Global,
        options: Options,
        input: &[u8],
        parts: ModuleParts<'_>,
    ) -> Result<Reading, AllocError>
        requires unasked { options.has_resources ≡ false }
        requires are { AreModuleParts input.now parts.«module» (value_view parts.rest) }
        ensures { IfOk result (λ reading. IsReading options input.now reading) }
    {
        let ModuleParts { module, rest } = parts;
        let reading = Reading::of_module(alloc, options, input, &rest, module);
        drop(rest);
        reading
    }

    /// Returns the reading of an input from which no module can be read.
    fn of_error(
        alloc: Global,
        options: Options,
        input: &[u8],
        error: &ReadError,
    ) -> Result<Reading, AllocError>
        requires { IsErrorOf input.now error.now }
        ensures { IfOk result (λ reading. IsReading options input.now reading) }
    {
        let report = Report::on_error(alloc, options, input, error)?;
        Ok(Reading::Reported(report))
    }

    /// Reports on a module while its JSON is at hand, if resources are requested.
    #[tactic(auto, using(crate::proofs::ReadingLemmas::whole_read))]
    fn of_value_read<P: Progress>(
        alloc: Global,
        options: Options,
        input: &[u8],
        root: &Value<'_>,
        module: Module,
        progress: &mut P,
    ) -> Result<Reading, AllocError>
        requires utf8 { IsUtf8 input.now }
        requires parses { document input.now ≡ Some (value_view root.now) }
        requires stands { IsModule (value_view root.now) «module» }
        ensures { IfOk result (λ reading. IsReading options input.now reading) }
    {
        if !options.has_resources {
            return Reading::of_module(alloc, options, input, root, module);
        }
        let declared = declared_of(alloc, options, root, &module)?;
        let report = Report::on_module(
            alloc,
            options,
            input,
            &module,
            &declared,
            Some(root),
            progress,
        )?;
        Ok(Reading::Reported(report))
    }

    /// Reads the JSON value of an input.
    #[tactic(auto, using(crate::proofs::ReadingLemmas::error_of_value))]
    fn of_value<P: Progress>(
        alloc: Global,
        options: Options,
        input: &[u8],
        root: &Value<'_>,
        progress: &mut P,
    ) -> Result<Reading, AllocError>
        requires utf8 { IsUtf8 input.now }
        requires parses { document input.now ≡ Some (value_view root.now) }
        ensures { IfOk result (λ reading. IsReading options input.now reading) }
    {
        match read_value(alloc, root) {
            Ok(module) => Reading::of_value_read(alloc, options, input, root, module, progress),
            Err(error) => Reading::of_error(alloc, options, input, &error),
        }
    }

    /// Reads an input as one JSON value.
    #[tactic(auto, using(crate::proofs::ReadingLemmas::error_of_json))]
    fn of_whole<P: Progress>(
        alloc: Global,
        options: Options,
        input: &[u8],
        progress: &mut P,
    ) -> Result<Reading, AllocError>
        ensures { IfOk result (λ reading. IsReading options input.now reading) }
    {
        let mut scratch = Scratch::new(alloc);
        match parse_bytes(alloc, input, &mut scratch) {
            Ok(root) => {
                let reading = Reading::of_value(alloc, options, input, &root, progress);
                drop(root);
                reading
            }
            Err(error) => Reading::of_error(alloc, options, input, &error),
        }
    }

    /// Reads a module from an input. It is read in parts unless the options ask for resources: then the whole JSON is at hand, and the
    /// report is made at once.
    ///
    /// # Errors
    ///
    /// `AllocError` if an allocation fails.
    pub fn of<P: Progress>(
        alloc: Global,
        options: Options,
        input: &[u8],
        progress: &mut P,
    ) -> Result<Reading, AllocError>
        ensures { IfOk result (λ reading. IsReading options input.now reading) }
    {
        progress.begins(Stage::Module(input.len()));
        if !options.has_resources {
            let mut scratch = Scratch::new(alloc);
            if let Some(parts) = read_parts(alloc, input, &mut scratch)? {
                return Reading::of_parts(alloc, options, input, parts);
            }
        }
        Reading::of_whole(alloc, options, input, progress)
    }
}
