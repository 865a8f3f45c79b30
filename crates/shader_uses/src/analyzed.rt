//! What a reflection tool reads off an analysed module.
ghost use Rattle.std.specs.Prelude.{◌≡◌, ◌<◌, ◌↔◌, ℕ, Contains, Some, IfErr, IfOk, IsTrue, length, slice_get};
ghost use Rattle.std.specs.List.Sorted.{IsStrictlyIncreasing};
ghost use Rattle.shader_typing.specs.ExactRecord.{IsExactRecord};
ghost use Rattle.shader_typing.specs.Function.{Function};
ghost use Rattle.shader_typing.specs.InfoAnswers.{HasResultOrigin};
ghost use Rattle.shader_typing.specs.Infos.{InGlobal, Reads, Writes};
ghost use Rattle.shader_typing.specs.Kills.{Kills};
ghost use Rattle.shader_typing.specs.Pairs.{IsPair};
ghost use Rattle.shader_typing.specs.Uses.{Uses};
ghost use Rattle.shader_typing.specs.WellFormed.{IsWellFormed};

use shader_typing::arena::Handle;
use shader_typing::ir::{Module, mark};
use shader_typing::valid::{
    AnalysisError, Capabilities, Flags, GlobalUse, ModuleFault, ModuleInfo, ValidationFlags,
    analyze_module, check_module,
};
use std::alloc::{AllocError, Global};

/// The reason why a module has no info.
#[derive(Debug, Drop)]
pub enum Refused {
    /// It isn't well formed.
    Fault(ModuleFault),
    /// The analysis refuses it, or an allocation failed.
    Analysis(AnalysisError),
}

impl From<ModuleFault> for Refused {
    fn from(fault: ModuleFault) -> Refused {
        Refused::Fault(fault)
    }
}

impl From<AnalysisError> for Refused {
    fn from(error: AnalysisError) -> Refused {
        Refused::Analysis(error)
    }
}

/// Returns the info of a module, once it is found well formed.
///
/// # Errors
///
/// The reason why it has none.
pub fn analyzed(alloc: Global, module: &Module) -> Result<ModuleInfo, Refused>
    ensures well_formed { IfOk result (λ _. IsWellFormed «module».now) }
    ensures exact { IfOk result (IsExactRecord «module».now) }
{
    check_module(module)?;
    let flags = ValidationFlags::CONTROL_FLOW_UNIFORMITY;
    let info = analyze_module(alloc, module, flags, Capabilities(0))?;
    Ok(info)
}

/// Returns whether the result of a function may differ among invocations.
#[tactic(auto, using(shader_typing::proofs::Answering::function_count, shader_typing::proofs::Answering::result_varies))]
pub fn result_varies(module: &Module, info: &ModuleInfo, function: Handle<mark::Function>) -> bool
    requires exact { IsExactRecord «module».now info.now }
    requires there { function < length «module».now.functions }
    ensures { (f : Function) → slice_get «module».now.functions function ≡ Some f → IsTrue result ↔ HasResultOrigin «module».now f }
{
    info[function].uniformity.non_uniform_result.is_some()
}

/// Returns whether a function may end some invocations while others go on, by itself or in a function that it calls.
#[tactic(auto, using(shader_typing::proofs::Answering::function_count, shader_typing::proofs::Answering::kills))]
pub fn kills(module: &Module, info: &ModuleInfo, function: Handle<mark::Function>) -> bool
    requires exact { IsExactRecord «module».now info.now }
    requires there { function < length «module».now.functions }
    ensures { (f : Function) → slice_get «module».now.functions function ≡ Some f → IsTrue result ↔ Kills «module».now f }
{
    info[function].may_kill
}

/// Returns whether a function writes a global, by itself or in a function that it calls.
#[tactic(auto, using(shader_typing::proofs::Answering::function_count, shader_typing::proofs::Answering::global_count, shader_typing::proofs::Answering::writes))]
pub fn writes(
    module: &Module,
    info: &ModuleInfo,
    function: Handle<mark::Function>,
    global: Handle<mark::GlobalVariable>,
) -> bool
    requires exact { IsExactRecord «module».now info.now }
    requires there { function < length «module».now.functions }
    requires global { global < length «module».now.global_variables }
    ensures { (f : Function) → slice_get «module».now.functions function ≡ Some f →
        IsTrue result ↔ Uses «module».now f global Writes }
{
    let _function = &module.functions[function];
    info[function][global].intersects(GlobalUse::WRITE)
}

/// Returns the globals that a function reads, by itself or in a function that it calls, in ascending order.
///
/// # Errors
///
/// `AllocError` if memory for the list can't be allocated. None is taken if the function reads no global.
#[tactic(auto, using(shader_typing::proofs::Answering::function_count))]
pub fn globals_read(
    alloc: Global,
    module: &Module,
    info: &ModuleInfo,
    function: Handle<mark::Function>,
) -> Result<Vec<Handle<mark::GlobalVariable>>, AllocError>
    requires exact { IsExactRecord «module».now info.now }
    requires there { function < length «module».now.functions }
    ensures ascending { IfOk result (λ globals. IsStrictlyIncreasing globals.items) }
    ensures read { IfOk result (λ globals. (f : Function) (global : ℕ) → slice_get «module».now.functions function ≡ Some f →
        global < length «module».now.global_variables → Contains globals.items global ↔ Uses «module».now f global Reads) }
    ensures memory { IfErr result (λ _. (f : Function) → slice_get «module».now.functions function ≡ Some f →
        (global : ℕ) × Uses «module».now f global Reads) }
{
    let _count = module.global_variables.len();
    info[function].globals_used(alloc, GlobalUse::READ)
}

/// Returns whether a function samples a global image with a global sampler, by itself or in a
/// function that it calls.
#[tactic(auto, using(shader_typing::proofs::Answering::function_count))]
pub fn samples(
    module: &Module,
    info: &ModuleInfo,
    function: Handle<mark::Function>,
    image: Handle<mark::GlobalVariable>,
    sampler: Handle<mark::GlobalVariable>,
) -> bool
    requires exact { IsExactRecord «module».now info.now }
    requires there { function < length «module».now.functions }
    ensures { (f : Function) → slice_get «module».now.functions function ≡ Some f →
        IsTrue result ↔ IsPair «module».now f (InGlobal image) (InGlobal sampler) }
{
    info[function].has_sampling_key(image, sampler)
}
