//! The analysis of one function, given the infos of the functions before it.
//!
//! `find_info` makes a record of each expression from those before it: its type, a source that makes it non-uniform and what it needs
//! of the flow; and beside the records a list of the globals that the expressions point into. Then one walk goes over all operands and
//! statements. It counts references in the records, joins uses of globals, detects disrupted flow, and finds what makes the result
//! non-uniform and what the function needs of the flow. Pairs of an image and a sampler are collected after it, and callees are looked for
//! only if the walk met a call. Nothing looks into a callee; what its info records is read.
//!
//! The analysis is sound and complete. The clause `steps` says that the info meets the step equations over the stored infos, `fault` that a
//! rejection reports a fault, unless an allocation failed, and `clean` that an accepted function has none. In a well-formed module
//! functions call earlier ones only, so by induction (`shader_analysis_spec::laws`) the infos are exact and the faults are those of the
//! interprocedural definitions. No iteration to a fixed point is needed.
mod passes;

ghost use Rattle.std.specs.Prelude.{◌≡◌, IfErr, IfOk, OnOk, false};
ghost use Rattle.shader_analysis_spec.specs.Faults.{Cause};
ghost use Rattle.shader_analysis_spec.specs.StepFaults.{StepFault};
ghost use Rattle.shader_analysis_spec.specs.Steps.{MeetsSteps};
ghost use Rattle.shader_info.specs.Fit.{Fits};
ghost use Rattle.shader_passes.specs.Causes.{IsNamed, settings_of};
ghost use Rattle.shader_passes.specs.InfoOf.{info_of, infos_of};
ghost use Rattle.shader_passes.specs.RecordedPairs.{HaveArguments};
ghost use Rattle.shader_analysis.specs.Analyzable.{IsAnalyzable};
ghost use Rattle.shader_analysis.specs.NewInfo.{IsNewInfo};

use bitflags::Flags;
use passes::{check_flow, no_uses, sampling_pairs, walked};
use shader_expression_types::record_expressions;
use shader_info::{
    Capabilities, FunctionError, FunctionInfo, Uniformity, UniformityRequirements, ValidationFlags,
};
use shader_ir::{Function, Items, Module, ShaderStages};
use std::alloc::Global;
use std::collections::HashSet;

fn all_stages() -> ShaderStages
    ensures { result.0 ≡ 31 }
{
    ShaderStages::VERTEX
        | ShaderStages::FRAGMENT
        | ShaderStages::COMPUTE
        | ShaderStages::MESH
        | ShaderStages::TASK
}

/// Returns the info of a function of which nothing is found yet.
#[inline(always)]
pub(crate) fn new_info(alloc: Global) -> FunctionInfo
    ensures { IsNewInfo result }
{
    FunctionInfo {
        available_stages: all_stages(),
        uniformity: Uniformity {
            non_uniform_result: None,
            requirements: UniformityRequirements::empty(),
        },
        may_kill: false,
        sampling_set: HashSet::new(alloc),
        global_uses: Items::new(alloc),
        expressions: Items::new(alloc),
        sampling: HashSet::new(alloc),
        dual_source_blending: false,
    }
}

/// Computes the info of a function in a new one, given the infos of the functions before it. After an error the info is of no use.
#[inline(always)]
pub(crate) fn find_info(
    alloc: Global,
    module: &Module,
    infos: &[FunctionInfo],
    function: &Function,
    flags: ValidationFlags,
    capabilities: Capabilities,
    info: &mut FunctionInfo,
) -> Result<(), FunctionError>
    requires analyzable { IsAnalyzable «module».now infos.now function.now }
    requires new { IsNewInfo info.old }
    ensures steps { OnOk result (MeetsSteps «module».now (infos_of infos.now) function.now (info_of info.new)) }
    ensures with_arguments { OnOk result (HaveArguments info.new.sampling.keys) }
    ensures fits { OnOk result (Fits «module».now function.now info.new) }
    ensures stages { OnOk result (info.new.available_stages.0 ≡ 31) }
    ensures one_source { OnOk result (info.new.dual_source_blending ≡ false) }
    ensures clean { IfOk result (λ _. (cause : Cause) → StepFault «module».now (infos_of infos.now) function.now
        (settings_of flags capabilities) cause → ⊥) }
    ensures fault { IfErr result (IsNamed (StepFault «module».now (infos_of infos.now) function.now (settings_of flags capabilities))) }
{
    let mut records = Vec::with_capacity(alloc, function.expressions.len())?;
    let mut roots = Vec::with_capacity(alloc, function.expressions.len())?;
    record_expressions(
        alloc,
        module,
        infos,
        function,
        capabilities,
        &mut records,
        &mut roots,
    )?;
    let mut uses = no_uses(alloc, module)?;
    let found = walked(infos, function, &mut records, roots.as_slice(), &mut uses)?;
    sampling_pairs(
        infos,
        function,
        found.calls,
        &mut info.sampling_set,
        &mut info.sampling,
    )?;
    check_flow(module, infos, function, &found, flags)?;
    info.uniformity = found.uniformity;
    info.may_kill = found.may_kill;
    info.global_uses = Items::from(uses);
    info.expressions = Items::from(records);
    Ok(())
}
