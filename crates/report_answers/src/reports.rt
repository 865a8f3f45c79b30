//! The report on an input.
ghost use Rattle.std.specs.Prelude.{◌≡◌};
ghost use Rattle.report_answers.specs.Reports.{block_detail};

use crate::options::{FlowCheck, Options};
use crate::progress::{Progress, Stage};
use crate::reading::Reading;
use crate::reasons::asked_reasons;
use crate::sections::{Declared, section_lines, write_sections};
use crate::verdict::write_verdict;
use json::{Value, Writer};
use report_blocks::{Detail as BlockDetail, input_text, refusal_text};
use report_diagnostics::{Verdict, write_head};
use report_findings::diagnostics_of;
use report_input::{diagnostic_of, error_object, located, nesting_diagnostic, nesting_object};
use report_model::{Analyzed, analyze};
use report_summary::{Detail, FlowRules, summary_text};
use shader_ir::Module;
use shader_json_module::ReadError;
use shader_report_json::write_module;
use shader_resolve::{MOST_LEVELS, nests_within};
use std::alloc::{AllocError, Global};

/// The verdict on an input.
#[derive(Clone, Copy, Debug, PartialEq, Eq)]
pub enum Outcome {
    /// A module without a fault, with a layout for each type.
    Accepted,
    /// A module with a fault, or with a type without a layout.
    Refused,
    /// No module, or one whose blocks nest too deep.
    NotModule,
}

/// Returns the rules by which a report checks uniform control flow.
fn flow_rules(options: Options) -> FlowRules {
    match options.flow {
        Some(FlowCheck::Wgsl) | None => FlowRules::Wgsl,
        Some(FlowCheck::Naga) => FlowRules::Naga,
        Some(FlowCheck::Off) => FlowRules::Unchecked,
    }
}

/// Returns how much of diagnostics a report prints.
fn block_detail(options: Options) -> BlockDetail
    ensures { result ≡ block_detail options }
{
    BlockDetail {
        explains: options.explains,
        shows_all: options.shows_all,
    }
}

/// The report on an input.
#[derive(Drop)]
pub struct Report {
    /// The report on the module, or the error of the input, in lines of UTF-8. An error belongs to standard error, unless it is JSON.
    pub text: Vec<u8>,
    /// The verdict on the input.
    pub outcome: Outcome,
}

impl Report {
    ghost use Rattle.std.specs.Prelude.{◌≡◌, ℕ, IfOk, List, string_bytes};
    ghost use Rattle.json.specs.Json.{Json};
    ghost use Rattle.report_answers.specs.Analyses.{IsAnalysisOf};
    ghost use Rattle.report_answers.specs.Reading.{IsReading};
    ghost use Rattle.report_answers.specs.Reports.{IsErrorText, IsJson, IsNesting, IsNestingText, IsPeople, IsRefusal};
    ghost use Rattle.report_answers.specs.Reports.{IsReport, IsReportOn};
    ghost use Rattle.report_answers.specs.Reports.{IsTextOnAccepted, IsTextOnRefused, verdict, word_of};
    ghost use Rattle.report_answers.specs.Sections.{IsRootIf};
    ghost use Rattle.shader_interface.specs.Interface.{seen};
    ghost use Rattle.shader_resolve.specs.Nesting.{NestsWithin};

    /// Returns the report with this text and verdict on a module.
    fn with_verdict(text: Vec<u8>, is_accepted: bool) -> Report
        ensures text { result.text.items ≡ text.items }
        ensures outcome { result.outcome ≡ verdict is_accepted }
    {
        if is_accepted {
            Report {
                text,
                outcome: Outcome::Accepted,
            }
        } else {
            Report {
                text,
                outcome: Outcome::Refused,
            }
        }
    }

    /// Returns the report with this text on an input that is no module.
    fn without_module(text: Vec<u8>) -> Report
        ensures text { result.text.items ≡ text.items }
        ensures outcome { result.outcome ≡ Outcome.NotModule }
    {
        Report {
            text,
            outcome: Outcome::NotModule,
        }
    }

    /// Returns the verdict of an answer on a module.
    fn verdict_of(is_accepted: bool) -> Verdict
        ensures { result ≡ word_of is_accepted }
    {
        if is_accepted {
            Verdict::Accepted
        } else {
            Verdict::Refused
        }
    }

    /// Returns the text report on an input from which no module can be read.
    fn error_lines(
        alloc: Global,
        options: Options,
        input: &[u8],
        error: &ReadError,
    ) -> Result<String, AllocError>
        ensures { IfOk result (λ text. IsErrorText options input.now error.now (string_bytes text)) }
    {
        let diagnostic = diagnostic_of(alloc, input, error, options.explains)?;
        input_text(alloc, input, &diagnostic, options.explains)
    }

    /// Returns the text report on a module whose blocks nest too deep to be checked.
    fn nesting_lines(alloc: Global, options: Options) -> Result<String, AllocError>
        ensures { IfOk result (λ text. IsNestingText options (string_bytes text)) }
    {
        let diagnostic = nesting_diagnostic(alloc)?;
        input_text(alloc, &[], &diagnostic, options.explains)
    }

    /// Returns the report on an input from which no module can be read.
    ///
    /// # Errors
    ///
    /// `AllocError` if an allocation fails, or if that is the reason.
    pub fn on_error(
        alloc: Global,
        options: Options,
        input: &[u8],
        error: &ReadError,
    ) -> Result<Report, AllocError>
        ensures outcome { IfOk result (λ report. report.outcome ≡ Outcome.NotModule) }
        ensures text { IfOk result (λ report. IsRefusal options input.now error.now report.text.items) }
    {
        let text = if options.is_json {
            error_object(alloc, input, error)?
        } else {
            Report::error_lines(alloc, options, input, error)?.into_bytes()
        };
        Ok(Report::without_module(text))
    }

    /// Returns the report on a module whose blocks nest too deep to be checked.
    fn on_nesting(alloc: Global, options: Options) -> Result<Report, AllocError>
        ensures outcome { IfOk result (λ report. report.outcome ≡ Outcome.NotModule) }
        ensures text { IfOk result (λ report. IsNesting options report.text.items) }
    {
        let text = if options.is_json {
            nesting_object(alloc)?
        } else {
            Report::nesting_lines(alloc, options)?.into_bytes()
        };
        Ok(Report::without_module(text))
    }

    /// Returns the JSON report on a module.
    fn json_on(
        alloc: Global,
        options: Options,
        input: &[u8],
        module: &Module,
        analyzed: &Analyzed,
        root: Option<&Value<'_>>,
    ) -> Result<Vec<u8>, AllocError>
        requires { IsAnalysisOf options «module».now analyzed.now }
        ensures { IfOk result (λ text. (j : Json) → IsRootIf options.has_resources j (seen root.entry) →
            IsJson options input.now j «module».now analyzed.now text.items) }
    {
        let faults = diagnostics_of(alloc, module, analyzed, false)?;
        let diagnostics = located(alloc, input, faults)?;
        let verdict = Report::verdict_of(analyzed.is_accepted());
        let mut writer = Writer::new(Vec::new(alloc));
        writer.begin_object()?;
        write_head(alloc, &mut writer, verdict, &diagnostics)?;
        write_verdict(alloc, &mut writer, analyzed.uniformity())?;
        write_module(alloc, &mut writer, module, analyzed)?;
        write_sections(alloc, &mut writer, options, root, module, analyzed)?;
        writer.end_object()?;
        let mut text = writer.into_inner();
        text.push(b'\n')?;
        Ok(text)
    }

    /// Returns the text report on an accepted module.
    fn lines_on(
        alloc: Global,
        options: Options,
        module: &Module,
        analyzed: &Analyzed,
        declared: &Declared,
        root: Option<&Value<'_>>,
    ) -> Result<String, AllocError>
        requires { IsAnalysisOf options «module».now analyzed.now }
        ensures { IfOk result (λ text. (j : Json) → IsRootIf options.has_resources j (seen root.entry) →
            IsTextOnAccepted options j «module».now analyzed.now (string_bytes text)) }
    {
        let sections = section_lines(alloc, options, root, module, analyzed)?;
        let reasons = asked_reasons(alloc, options, module, analyzed)?;
        let detail = Detail {
            rules: flow_rules(options),
            shows_all: options.shows_all,
            reasons: reasons.as_slice(),
            groups: declared.groups.as_slice(),
        };
        let bindings = declared.bindings.as_slice();
        summary_text(alloc, module, analyzed, bindings, detail, sections.as_str())
    }

    /// Returns the text report on a refused module.
    fn refusal_on(
        alloc: Global,
        options: Options,
        input: &[u8],
        module: &Module,
        analyzed: &Analyzed,
        root: Option<&Value<'_>>,
    ) -> Result<String, AllocError>
        requires { IsAnalysisOf options «module».now analyzed.now }
        ensures { IfOk result (λ text. (j : Json) → IsRootIf options.has_resources j (seen root.entry) →
            IsTextOnRefused options input.now j «module».now analyzed.now (string_bytes text)) }
    {
        let faults = diagnostics_of(alloc, module, analyzed, options.shows_all)?;
        let diagnostics = located(alloc, input, faults)?;
        let sections = section_lines(alloc, options, root, module, analyzed)?;
        let detail = block_detail(options);
        refusal_text(
            alloc,
            input,
            module,
            &diagnostics,
            detail,
            sections.as_str(),
        )
    }

    /// Returns the text report on a module.
    fn text_on(
        alloc: Global,
        options: Options,
        input: &[u8],
        module: &Module,
        analyzed: &Analyzed,
        declared: &Declared,
        root: Option<&Value<'_>>,
    ) -> Result<String, AllocError>
        requires { IsAnalysisOf options «module».now analyzed.now }
        ensures { IfOk result (λ text. (j : Json) → IsRootIf options.has_resources j (seen root.entry) →
            IsPeople options input.now j «module».now analyzed.now (string_bytes text)) }
    {
        if analyzed.is_accepted() {
            Report::lines_on(alloc, options, module, analyzed, declared, root)
        } else {
            Report::refusal_on(alloc, options, input, module, analyzed, root)
        }
    }

    /// Returns the report on a module that was analysed.
    #[tactic(auto, using(crate::proofs::ReportLemmas::json_reported, crate::proofs::ReportLemmas::people_reported))]
    fn on_analyzed(
        alloc: Global,
        options: Options,
        input: &[u8],
        module: &Module,
        analyzed: &Analyzed,
        declared: &Declared,
        root: Option<&Value<'_>>,
    ) -> Result<Report, AllocError>
        requires nested { NestsWithin 4000 «module».now }
        requires analyzed { IsAnalysisOf options «module».now analyzed.now }
        ensures { IfOk result (λ report. (j : Json) → IsRootIf options.has_resources j (seen root.entry) →
            IsReportOn options input.now j «module».now report.outcome report.text.items) }
    {
        let text = if options.is_json {
            Report::json_on(alloc, options, input, module, analyzed, root)?
        } else {
            Report::text_on(alloc, options, input, module, analyzed, declared, root)?.into_bytes()
        };
        Ok(Report::with_verdict(text, analyzed.is_accepted()))
    }

    /// Returns the report on a module, which the input spells. Its JSON is needed if the options ask for resources.
    ///
    /// # Errors
    ///
    /// `AllocError` if an allocation fails.
    pub fn on_module<P: Progress>(
        alloc: Global,
        options: Options,
        input: &[u8],
        module: &Module,
        declared: &Declared,
        root: Option<&Value<'_>>,
        progress: &mut P,
    ) -> Result<Report, AllocError>
        ensures { IfOk result (λ report. (j : Json) → IsRootIf options.has_resources j (seen root.entry) →
            IsReportOn options input.now j «module».now report.outcome report.text.items) }
    {
        if !nests_within(module, MOST_LEVELS) {
            return Report::on_nesting(alloc, options);
        }
        progress.begins(Stage::Analysis);
        let (flags, capabilities) = (options.flags(), options.capabilities());
        let checks_uniformity = options.checks_uniformity();
        let analyzed = analyze(alloc, module, flags, capabilities, checks_uniformity)?;
        Report::on_analyzed(alloc, options, input, module, &analyzed, declared, root)
    }

    /// Returns the report on an input that was read. The input shows where in it the module is at fault.
    ///
    /// # Errors
    ///
    /// `AllocError` if an allocation fails.
    #[tactic(auto, using(crate::proofs::ReportLemmas::read_told))]
    pub fn of<P: Progress>(
        alloc: Global,
        options: Options,
        input: &[u8],
        reading: Reading,
        progress: &mut P,
    ) -> Result<Report, AllocError>
        ensures { IfOk result (λ report. IsReading options input.now reading →
            IsReport options input.now report.outcome report.text.items) }
    {
        match reading {
            Reading::Module(read) => {
                let (module, declared) = (&read.module, &read.declared);
                Report::on_module(alloc, options, input, module, declared, None, progress)
            }
            Reading::Reported(report) => Ok(report),
        }
    }

    /// Returns the report on an input, which should be a module of naga as `serde_json` prints it.
    ///
    /// # Errors
    ///
    /// `AllocError` if an allocation fails.
    pub fn on<P: Progress>(
        alloc: Global,
        options: Options,
        input: &[u8],
        progress: &mut P,
    ) -> Result<Report, AllocError>
        ensures { IfOk result (λ report. IsReport options input.now report.outcome report.text.items) }
    {
        let reading = Reading::of(alloc, options, input, progress)?;
        Report::of(alloc, options, input, reading, progress)
    }
}
