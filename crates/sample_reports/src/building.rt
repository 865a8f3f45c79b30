//! Builds the report on a module.
ghost use Rattle.std.specs.Prelude.{◌≡◌, [], length, map, IfErr, IfOk, OnOk};
ghost use Rattle.std.specs.List.{range_with_len};
ghost use Rattle.shader_info.specs.declared.error.AnalysisLocation.TheVariants.{Function};
ghost use Rattle.shader_info.specs.declared.error.FunctionError.TheVariants.{OutOfMemory};
ghost use Rattle.sample_reports.specs.Reports.{IsModuleReport, locations_of};
ghost use Rattle.sample_reports.specs.Reporting.{AddsReport, AreReportsOf, ReportsFunction, ReportsAll, ReportsRefusal};
ghost use Rattle.sample_reports.specs.Reporting.{reported_kind};
ghost use Rattle.shader_resolve.specs.WellFormed.{IsWellFormed};
ghost use Rattle.shader_passes.specs.Causes.{settings_of};

use crate::report::{FaultKind, FunctionReport, LocationReport, ModuleReport};
use shader_analysis::{ModuleInfo, analyze_module};
use shader_arena::Handle;
use shader_info::{
    AnalysisError, AnalysisLocation, Capabilities, FunctionError, FunctionInfo, ValidationFlags,
};
use shader_ir::{Items, Module, mark};
use std::alloc::{AllocError, Global};

/// Returns the reference count of each expression.
fn counts_of(alloc: Global, info: &FunctionInfo) -> Result<Items<usize>, AllocError>
    ensures { IfOk result (λ counts. counts ≡ map (λ e. e.ref_count) info.now.expressions) }
{
    let counts: Vec<usize> = info
        .expressions
        .as_slice()
        .iter()
        .map(|expression| expression.ref_count)
        .collect(alloc)?;
    Ok(Items::from(counts))
}

/// Returns the report on a function.
fn function_report(alloc: Global, info: &FunctionInfo) -> Result<FunctionReport, AllocError>
    ensures { IfOk result (ReportsFunction info.now) }
{
    Ok(FunctionReport {
        uses: info.global_uses.copy(alloc)?,
        pairs: info.sorted_pairs(alloc)?,
        counts: counts_of(alloc, info)?,
        varies: info.uniformity.non_uniform_result.is_some(),
    })
}

/// Adds the report on the function at a location.
fn add_report(
    alloc: Global,
    location: AnalysisLocation,
    info: &FunctionInfo,
    reports: &mut Vec<LocationReport>,
) -> Result<(), AllocError>
    ensures { OnOk result (AddsReport location info.now reports.old.items reports.new.items) }
{
    let report = function_report(alloc, info)?;
    reports.push(LocationReport { location, report })?;
    Ok(())
}

/// Adds the reports on all functions.
fn add_functions(
    alloc: Global,
    module: &Module,
    infos: &ModuleInfo,
    reports: &mut Vec<LocationReport>,
) -> Result<(), AllocError>
    requires stored { length infos.now.functions ≡ length «module».now.functions }
    requires none { reports.old.items ≡ [] }
    ensures { OnOk result (AreReportsOf infos.now (map Function (range_with_len 0 (length «module».now.functions))) reports.new.items) }
{
    for index in 0..module.functions.len() {
        let handle: Handle<mark::Function> = Handle::from_index(index as u32);
        let location = AnalysisLocation::Function(handle);
        add_report(alloc, location, &infos[handle], reports)?;
    }
    Ok(())
}

/// Adds the reports on all entry points after those on the functions.
fn add_entry_points(
    alloc: Global,
    module: &Module,
    infos: &ModuleInfo,
    reports: &mut Vec<LocationReport>,
) -> Result<(), AllocError>
    requires stored { length infos.now.entry_points ≡ length «module».now.entry_points }
    requires functions { AreReportsOf infos.now (map Function (range_with_len 0 (length «module».now.functions))) reports.old.items }
    ensures { OnOk result (AreReportsOf infos.now (locations_of «module».now) reports.new.items) }
{
    for index in 0..module.entry_points.len() {
        let location = AnalysisLocation::EntryPoint(index);
        add_report(alloc, location, infos.get_entry_point(index), reports)?;
    }
    Ok(())
}

/// Returns the report on a module without a fault.
fn accepted(alloc: Global, module: &Module, infos: &ModuleInfo) -> Result<ModuleReport, AllocError>
    requires functions { length infos.now.functions ≡ length «module».now.functions }
    requires entry_points { length infos.now.entry_points ≡ length «module».now.entry_points }
    ensures { IfOk result (ReportsAll «module».now infos.now) }
{
    let mut reports = Vec::new(alloc);
    add_functions(alloc, module, infos, &mut reports)?;
    add_entry_points(alloc, module, infos, &mut reports)?;
    Ok(ModuleReport::Accepted(Items::from(reports)))
}

/// Returns the kind of a fault, or `None` for an allocation failure.
fn kind_of(cause: &FunctionError) -> Option<FaultKind>
    ensures { result ≡ reported_kind cause.now }
{
    match cause {
        FunctionError::Expression { .. } => Some(FaultKind::Expression),
        FunctionError::NonUniformControlFlow(..) => Some(FaultKind::NonUniformControlFlow),
        FunctionError::CountFull(_) => Some(FaultKind::CountFull),
        FunctionError::OutOfMemory => None,
    }
}

/// Returns the report on a module with a fault, or an error if the analysis ran out of memory.
fn refused(error: &AnalysisError) -> Result<ModuleReport, AllocError>
    ensures report { IfOk result (ReportsRefusal error.now) }
    ensures memory { IfErr result (λ _. error.now.cause ≡ OutOfMemory) }
{
    match kind_of(&error.cause) {
        Some(kind) => Ok(ModuleReport::Refused(error.place, kind)),
        None => Err(AllocError),
    }
}

/// Reports on a module that `check_module` accepts: exactly the interprocedural results, or the first faulty location with one of its
/// faults.
///
/// # Errors
///
/// `AllocError` if allocation fails.
pub fn report_module(
    alloc: Global,
    module: &Module,
    flags: ValidationFlags,
    capabilities: Capabilities,
) -> Result<ModuleReport, AllocError>
    requires { IsWellFormed «module».now }
    ensures { IfOk result (IsModuleReport «module».now (settings_of flags capabilities)) }
{
    match analyze_module(alloc, module, flags, capabilities) {
        Ok(infos) => accepted(alloc, module, &infos),
        Err(error) => refused(&error),
    }
}
