//! Reports on the sample modules.

ghost use Rattle.std.specs.Prelude.{IfOk};
ghost use Rattle.typer_answers.specs.Samples.{IsSampleReport};

use sample_reports::{ModuleReport, report_module};
use shader_info::{Capabilities, ValidationFlags};
use shader_samples::Sample;
use std::alloc::{AllocError, Global};

/// Returns the report on a sample, with control flow checked and without capabilities.
pub fn sample_report(alloc: Global, sample: Sample) -> Result<ModuleReport, AllocError>
    ensures { IfOk result (IsSampleReport sample) }
{
    let module = sample.build(alloc)?;
    let flags = ValidationFlags::CONTROL_FLOW_UNIFORMITY;
    report_module(alloc, &module, flags, Capabilities(0))
}
