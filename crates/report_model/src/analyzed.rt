//! A module that is checked, laid out and analysed.
ghost use Rattle.std.specs.Prelude.{◌≡◌, IfOk, option_map};
ghost use Rattle.report_model.specs.Analyzed.{AreLayouts, IsAnalysis, IsAnalyzed, IsInfo, info_of, is_accepted, is_sound, sound_of};
ghost use Rattle.report_model.specs.Analyzed.{uniformity_of};
ghost use Rattle.report_model.specs.Fitting.{Fits, FitsAnalysis, FitsInfo, FitsLayouts};
ghost use Rattle.shader_passes.specs.Causes.{settings_of};
ghost use Rattle.shader_resolve.specs.WellFormed.{IsWellFormed};

use shader_analysis::{ModuleInfo, analyze_module, is_fault};
use shader_info::{AnalysisError, Capabilities, ValidationFlags};
use shader_ir::Module;
use shader_ir::proc::{LayoutError, Layouter, UpdateError};
use shader_resolve::{FaultAt, find_fault};
use shader_uniformity::{Uniformity, find_divergence};
use std::alloc::{AllocError, Global};

/// The layouts of a well-formed module, the results of its analysis, and the verdict on its control flow.
#[derive(Drop)]
pub struct Analysis {
    /// The layouts of the types, up to the first type that has none.
    pub layouts: Layouter,
    /// The first type that has no layout, and the reason.
    pub layout_error: Option<LayoutError>,
    /// The results of the analysis, or the fault of the first faulty location. It is no allocation failure.
    pub info: Result<ModuleInfo, AnalysisError>,
    /// Where control flow has to be uniform and isn't (WGSL, "Uniformity"), if that is checked and the module has no other fault.
    pub uniformity: Option<Uniformity>,
}

/// The layouts and infos of a module without a fault besides its control flow.
#[derive(Clone, Copy)]
pub struct Sound<'a> {
    pub layouts: &'a Layouter,
    pub info: &'a ModuleInfo,
}

/// The result of checking a module.
#[derive(Drop)]
pub enum Analyzed {
    /// The module isn't well formed: its first faulty location, and a fault there.
    Fault(FaultAt),
    /// The module is well formed.
    WellFormed(Analysis),
}

impl Analysis {
    /// Returns whether all types have a layout, and the analysis accepts the module.
    pub fn is_sound(&self) -> bool
        ensures { result ≡ is_sound self.now.layout_error self.now.info }
    {
        self.layout_error.is_none() && self.info.is_ok()
    }
}

impl Analyzed {
    /// Returns the results of the analysis, if it accepts the module.
    pub fn info(&self) -> Option<&ModuleInfo>
        ensures { option_map (λ info. info.now) result ≡ info_of self.now }
    {
        match self {
            Analyzed::Fault(_) => None,
            Analyzed::WellFormed(analysis) => analysis.info.as_ref().ok(),
        }
    }

    /// Returns the layouts and infos of a module, if all types have a layout and the analysis accepts it.
    pub fn sound(&self) -> Option<Sound<'_>>
        ensures { option_map (λ sound. (sound.layouts.now, sound.info.now)) result ≡ sound_of self.now }
    {
        match self {
            Analyzed::Fault(_) => None,
            Analyzed::WellFormed(analysis) => match (analysis.layout_error, &analysis.info) {
                (None, Ok(info)) => Some(Sound {
                    layouts: &analysis.layouts,
                    info,
                }),
                _ => None,
            },
        }
    }

    /// Returns the verdict on control flow, if that was decided.
    pub fn uniformity(&self) -> Option<&Uniformity>
        ensures { option_map (λ found. found.now) result ≡ uniformity_of self.now }
    {
        match self {
            Analyzed::Fault(_) => None,
            Analyzed::WellFormed(analysis) => analysis.uniformity.as_ref(),
        }
    }

    /// Returns whether the module has no fault of those that were checked.
    pub fn is_accepted(&self) -> bool
        ensures { result ≡ is_accepted self.now }
    {
        match self {
            Analyzed::Fault(_) => false,
            Analyzed::WellFormed(analysis) => match &analysis.uniformity {
                Some(found) => found.is_accepted(),
                None => analysis.is_sound(),
            },
        }
    }
}

/// Lays out the types of a module, up to the first type that has no layout.
fn lay_out(alloc: Global, module: &Module) -> Result<(Layouter, Option<LayoutError>), AllocError>
    requires { IsWellFormed «module».now }
    ensures layouts { IfOk result (λ laid. AreLayouts «module».now laid.0 laid.1) }
    ensures fits { IfOk result (λ laid. FitsLayouts «module».now laid.0 laid.1) }
{
    let ctx = module.to_ctx();
    let mut layouts = Layouter::new(alloc);
    match layouts.update(ctx) {
        Ok(()) => Ok((layouts, None)),
        Err(UpdateError::Layout(error)) => Ok((layouts, Some(error))),
        Err(UpdateError::OutOfMemory) => Err(AllocError),
    }
}

/// Analyses a module.
fn info_of(
    alloc: Global,
    module: &Module,
    flags: ValidationFlags,
    capabilities: Capabilities,
) -> Result<Result<ModuleInfo, AnalysisError>, AllocError>
    requires { IsWellFormed «module».now }
    ensures info { IfOk result (IsInfo «module».now (settings_of flags capabilities)) }
    ensures fits { IfOk result (FitsInfo «module».now) }
{
    match analyze_module(alloc, module, flags, capabilities) {
        Ok(info) => Ok(Ok(info)),
        Err(error) => {
            if is_fault(&error.cause) {
                Ok(Err(error))
            } else {
                Err(AllocError)
            }
        }
    }
}

/// Lays out and analyses a well-formed module.
///
/// Control flow is checked first, since that takes as much memory as all else together. That memory depends on the highest handle or
/// argument that the module names, which may itself be a fault. So a failed allocation counts only if the analysis finds no fault.
fn analysis_of(
    alloc: Global,
    module: &Module,
    flags: ValidationFlags,
    capabilities: Capabilities,
    checks_uniformity: bool,
) -> Result<Analysis, AllocError>
    requires { IsWellFormed «module».now }
    ensures analysis { IfOk result (IsAnalysis «module».now (settings_of flags capabilities) checks_uniformity) }
    ensures fits { IfOk result (FitsAnalysis «module».now) }
{
    let early = if checks_uniformity {
        find_divergence(alloc, module).ok()
    } else {
        None
    };
    let (layouts, layout_error) = lay_out(alloc, module)?;
    let info = info_of(alloc, module, flags, capabilities)?;
    let uniformity = if checks_uniformity && layout_error.is_none() && info.is_ok() {
        match early {
            Some(found) => Some(found),
            None => Some(find_divergence(alloc, module)?),
        }
    } else {
        None
    };
    Ok(Analysis {
        layouts,
        layout_error,
        info,
        uniformity,
    })
}

/// Checks, lays out and analyses a module, and decides whether its control flow is uniform if that is to be checked.
///
/// Assumes nothing of the module's handles. The check, the analysis and the one of control flow recurse along nested blocks, so call
/// `nests_within` first on a module from outside.
///
/// # Errors
///
/// `AllocError` if an allocation fails, or a function has 2^32 statements.
pub fn analyze(
    alloc: Global,
    module: &Module,
    flags: ValidationFlags,
    capabilities: Capabilities,
    checks_uniformity: bool,
) -> Result<Analyzed, AllocError>
    ensures analyzed { IfOk result (IsAnalyzed «module».now (settings_of flags capabilities) checks_uniformity) }
    ensures fits { IfOk result (Fits «module».now) }
{
    match find_fault(module) {
        Some(found) => Ok(Analyzed::Fault(found)),
        None => {
            let analysis = analysis_of(alloc, module, flags, capabilities, checks_uniformity)?;
            Ok(Analyzed::WellFormed(analysis))
        }
    }
}
