//! The checks that a back end makes for a module.
ghost use Rattle.std.specs.Prelude.{◌≡◌, length, IfOk, OnOk};
ghost use Rattle.report_model.specs.Fitting.{HasInfos};
ghost use Rattle.shader_bounds.specs.Lengths.{AreSizesKnown};
ghost use Rattle.shader_bounds.specs.Typed.{IsFunctionOf};
ghost use Rattle.shader_resolve.specs.WellFormed.{IsWellFormed};
ghost use Rattle.shader_report_bounds.specs.Bounds.{AddsBounds, AreBounds, AreExact, AreModuleBounds, entry_functions};

use crate::function::{FunctionBounds, bounds_of};
use crate::sizes::first_unsized;
use shader_analysis::ModuleInfo;
use shader_arena::Handle;
use shader_bounds::BoundsCheckPolicies;
use shader_info::FunctionInfo;
use shader_ir::{Function, Module, mark};
use std::alloc::{AllocError, Global};

/// The checks that a back end makes for a module.
#[derive(Drop)]
pub enum ModuleBounds {
    /// Lengths aren't known before this override has a value that is a valid size.
    Unsized(Handle<mark::Override>),
    /// The checks of each function, and of each entry point.
    Found(Vec<FunctionBounds>, Vec<FunctionBounds>),
}

/// Adds the checks of a function.
fn add_bounds(
    alloc: Global,
    module: &Module,
    function: &Function,
    info: &FunctionInfo,
    policies: BoundsCheckPolicies,
    bounds: &mut Vec<FunctionBounds>,
) -> Result<(), AllocError>
    requires well_formed { IsWellFormed «module».now }
    requires function { IsFunctionOf «module».now function.now }
    ensures { OnOk result (AddsBounds «module».now function.now info.now policies bounds.old.items bounds.new.items) }
{
    let more = bounds_of(alloc, module, function, info, policies)?;
    bounds.push(more)?;
    Ok(())
}

/// Returns the checks of each function.
#[tactic(auto, using(shader_bounds::proofs::SearchLemmas::is_function_at))]
fn functions_of(
    alloc: Global,
    module: &Module,
    infos: &ModuleInfo,
    policies: BoundsCheckPolicies,
) -> Result<Vec<FunctionBounds>, AllocError>
    requires well_formed { IsWellFormed «module».now }
    requires stored { length infos.now.functions ≡ length «module».now.functions }
    ensures { IfOk result (λ bounds. AreBounds «module».now policies «module».now.functions infos.now.functions bounds.items) }
{
    let mut bounds = Vec::new(alloc);
    for index in 0..module.functions.len() {
        let handle: Handle<mark::Function> = Handle::from_index(index as u32);
        let function = &module.functions[handle];
        let info = &infos[handle];
        add_bounds(alloc, module, function, info, policies, &mut bounds)?;
    }
    Ok(bounds)
}

/// Returns the checks of each entry point.
#[tactic(auto, using(shader_bounds::proofs::SearchLemmas::is_entry_point_at))]
fn entry_points_of(
    alloc: Global,
    module: &Module,
    infos: &ModuleInfo,
    policies: BoundsCheckPolicies,
) -> Result<Vec<FunctionBounds>, AllocError>
    requires well_formed { IsWellFormed «module».now }
    requires stored { length infos.now.entry_points ≡ length «module».now.entry_points }
    ensures { IfOk result (λ bounds. AreBounds «module».now policies (entry_functions «module».now) infos.now.entry_points bounds.items) }
{
    let mut bounds = Vec::new(alloc);
    for index in 0..module.entry_points.len() {
        let entry = &module.entry_points[index];
        let info = infos.get_entry_point(index);
        add_bounds(alloc, module, &entry.function, info, policies, &mut bounds)?;
    }
    Ok(bounds)
}

/// Returns the checks of an analysed module whose sizes are known.
fn found_by(
    alloc: Global,
    module: &Module,
    infos: &ModuleInfo,
    policies: BoundsCheckPolicies,
) -> Result<ModuleBounds, AllocError>
    requires well_formed { IsWellFormed «module».now }
    requires fits { HasInfos «module».now infos.now }
    requires exact { AreExact «module».now infos.now }
    requires sizes { AreSizesKnown «module».now }
    ensures { IfOk result (AreModuleBounds «module».now policies) }
{
    let functions = functions_of(alloc, module, infos, policies)?;
    let entry_points = entry_points_of(alloc, module, infos, policies)?;
    Ok(ModuleBounds::Found(functions, entry_points))
}

/// Returns the checks that a back end makes for a module under the policies, by the infos of its functions.
///
/// # Errors
///
/// `AllocError` if an allocation fails.
pub fn find_bounds(
    alloc: Global,
    module: &Module,
    infos: &ModuleInfo,
    policies: BoundsCheckPolicies,
) -> Result<ModuleBounds, AllocError>
    requires well_formed { IsWellFormed «module».now }
    requires fits { HasInfos «module».now infos.now }
    requires exact { AreExact «module».now infos.now }
    ensures { IfOk result (AreModuleBounds «module».now policies) }
{
    match first_unsized(module) {
        Some(handle) => Ok(ModuleBounds::Unsized(handle)),
        None => found_by(alloc, module, infos, policies),
    }
}
