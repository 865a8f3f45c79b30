//! A module that is analysed function by function.
ghost use Rattle.std.specs.Prelude.{◌≡◌, ◌<◌, length};
ghost use Rattle.shader_typing.specs.WellFormed.{IsWellFormed};

use shader_typing::ir::Module;
use shader_typing::valid::{
    AnalysisError, AnalysisLocation, Capabilities, FunctionInfo, ModuleInfo, ValidationFlags,
};
use std::alloc::Global;

/// Returns the info of a module's first entry point, over those of its two functions.
///
/// # Errors
///
/// Those of `process_function`, or an allocation failure.
#[tactic(auto, using(shader_typing::proofs::Growing::entry_can_be_processed, shader_typing::proofs::Growing::none_are_stored))]
pub fn entry_point_of_two(alloc: Global, module: &Module) -> Result<FunctionInfo, AnalysisError>
    requires well_formed { IsWellFormed «module».now }
    requires functions { length «module».now.functions ≡ 2 }
    requires entry_points { 0 < length «module».now.entry_points }
{
    let mut info = ModuleInfo::new(alloc);
    let flags = ValidationFlags::CONTROL_FLOW_UNIFORMITY;
    info.add_next(module, flags, Capabilities(0))?;
    info.add_next(module, flags, Capabilities(0))?;
    let location = AnalysisLocation::EntryPoint(0);
    info.process_function(location, module, flags, Capabilities(0))
}
