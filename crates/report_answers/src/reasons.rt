//! Why the results of entry points may differ between invocations.
ghost use Rattle.std.specs.Prelude.{IfOk};
ghost use Rattle.report_answers.specs.Reports.{AreReasonsAsked};

use crate::options::{FlowCheck, Options};
use report_blocks::reasons_text;
use report_diagnostics::{Related, Text};
use report_findings::{causes_of_result, source_of_result};
use report_model::Analyzed;
use report_places::BodyPlace;
use report_summary::MOST_BLOCKS;
use shader_ir::Module;
use std::alloc::{AllocError, Global};

/// Returns the causes of an entry point's result by the rules of WGSL, none if it doesn't differ.
fn causes_by_wgsl(
    alloc: Global,
    module: &Module,
    analyzed: &Analyzed,
    index: usize,
) -> Result<Vec<Related>, AllocError> {
    let Some(found) = analyzed.uniformity() else {
        return Ok(Vec::new(alloc));
    };
    match causes_of_result(alloc, module, found.functions.as_slice(), index)? {
        Some(causes) => Ok(causes),
        None => Ok(Vec::new(alloc)),
    }
}

/// Returns the cause of an entry point's result that naga's rules record, none if it doesn't differ by them.
fn causes_by_naga(
    alloc: Global,
    module: &Module,
    analyzed: &Analyzed,
    index: usize,
) -> Result<Vec<Related>, AllocError> {
    let mut causes = Vec::new(alloc);
    let Some(infos) = analyzed.info() else {
        return Ok(causes);
    };
    if let Some(source) = source_of_result(alloc, module, infos, index)? {
        causes.push(source)?;
    }
    Ok(causes)
}

/// Returns why the result of an entry point may differ, by the rules that decide whether control flow is uniform. No rules have no reasons.
fn reason_of(
    alloc: Global,
    options: Options,
    module: &Module,
    analyzed: &Analyzed,
    index: usize,
) -> Result<Text, AllocError> {
    let causes = match options.flow {
        Some(FlowCheck::Wgsl) | None => causes_by_wgsl(alloc, module, analyzed, index)?,
        Some(FlowCheck::Naga) => causes_by_naga(alloc, module, analyzed, index)?,
        Some(FlowCheck::Off) => Vec::new(alloc),
    };
    let place = BodyPlace::EntryPoint(index);
    let text = reasons_text(alloc, module, place, causes.as_slice())?;
    Ok(Text::from(text))
}

/// Returns why the results of the entry points that are shown may differ between invocations, if the options ask for that.
///
/// # Errors
///
/// `AllocError` if an allocation fails, or a function has 2^32 statements.
pub fn asked_reasons(
    alloc: Global,
    options: Options,
    module: &Module,
    analyzed: &Analyzed,
) -> Result<Vec<Text>, AllocError>
    ensures { IfOk result (λ reasons. AreReasonsAsked options.explains reasons.items) }
{
    let mut reasons = Vec::new(alloc);
    if !options.explains {
        return Ok(reasons);
    }
    let count = module.entry_points.len();
    let shown = if options.shows_all {
        count
    } else {
        MOST_BLOCKS.min(count)
    };
    for index in 0..shown {
        reasons.push(reason_of(alloc, options, module, analyzed, index)?)?;
    }
    Ok(reasons)
}
