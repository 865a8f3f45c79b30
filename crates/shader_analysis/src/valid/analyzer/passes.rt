//! Computes a function's pairs, reference counts, kills and uses of globals, or the error that rejects the function.
ghost use Rattle.std.specs.Prelude.{◌≡◌, ◌≢◌, ◌<◌, ◌≤◌, ◌^◌, ℕ, Bool, List, IfErr, IfOk, IfSome, IsTrue, None, Some, false, length};
ghost use Rattle.std.specs.Prelude.{[], OnOk, replicate};
ghost use Rattle.std.specs.List.{list_any};
ghost use Rattle.shader_analysis_spec.specs.Counts.{count_of};
ghost use Rattle.shader_analysis_spec.specs.Faults.{Disruptor, NoResource, NonUniformControlFlow, Settings};
ghost use Rattle.shader_analysis_spec.specs.StepFaults.{StepFault};
ghost use Rattle.shader_analysis_spec.specs.Filters.{HaveEarlierParents};
ghost use Rattle.shader_analysis_spec.specs.Needs.{Need};
ghost use Rattle.shader_analysis_spec.specs.Program.{Module, statements};
ghost use Rattle.shader_passes.specs.Calling.{is_call};
ghost use Rattle.shader_passes.specs.Causes.{IsNamed, settings_of};
ghost use Rattle.shader_info.specs.declared.error.ExpressionError.TheVariants as expression;
ghost use Rattle.shader_info.specs.declared.error.FunctionError.TheVariants as error;
ghost use Rattle.shader_info.specs.declared.flags.Capabilities.{Capabilities};
ghost use Rattle.shader_info.specs.declared.info.FunctionInfo.{FunctionInfo};
ghost use Rattle.shader_analysis_spec.specs.Infos.{Info};
ghost use Rattle.shader_passes.specs.Conditions.{EachFits, GlobalsWithin};
ghost use Rattle.shader_passes.specs.Counting.{bits_in, counts_in};
ghost use Rattle.shader_passes.specs.Records.{facts_in};
ghost use Rattle.shader_passes.specs.Results.{computed_facts, computed_pairs};
ghost use Rattle.shader_passes.specs.Walked.{IsCounted, IsFound};
ghost use Rattle.shader_pass_laws.specs.OfTheStep.{HasUses};
ghost use Rattle.shader_passes.specs.InfoOf.{PointsBackwards, infos_of};
ghost use Rattle.shader_passes.specs.RecordedPairs.{HaveArguments, SameMembers, pairs_in};
ghost use Rattle.shader_analysis.specs.Analyzable.{ChecksFlow};

use bitflags::Flags;
use shader_arena::Handle;
use shader_info::{
    ExpressionError, ExpressionInfo, FunctionError, FunctionInfo, GlobalUse, Sampling, SamplingKey,
    ValidationFlags,
};
use shader_ir::{Function, Module, Severity, mark};
use shader_passes::callees::name_globals;
use shader_passes::facts::{Facts, Root};
use shader_passes::filters::derivative_severity;
use shader_passes::flow::FlowViolation;
use shader_passes::pairs::collect_pairs;
use shader_passes::walk::{Found, walk_function};
use std::alloc::{AllocError, Global};
use std::collections::HashSet;

/// Returns an error for an expression with an image or a sampler that is no resource, if there is one. Allocates nothing.
#[inline(always)]
fn check_resources(missing: Option<Handle<mark::Expression>>) -> Result<(), FunctionError>
    ensures ok { IfOk result (λ _. missing ≡ None) }
    ensures missing { IfErr result (λ failure. (e : ℕ) × (missing ≡ Some e)
        × (failure ≡ error.Expression e expression.ExpectedGlobalOrArgument)) }
{
    match missing {
        Some(handle) => Err(FunctionError::Expression {
            handle,
            source: ExpressionError::ExpectedGlobalOrArgument,
        }),
        None => Ok(()),
    }
}

/// Collects the pairs of an image and a sampler in empty sets, or returns the error for one that is no resource. `calls` is false only if
/// the function's body has no call.
#[inline(always)]
pub fn sampling_pairs(
    infos: &[FunctionInfo],
    function: &Function,
    calls: bool,
    sampling_set: &mut HashSet<SamplingKey>,
    sampling: &mut HashSet<Sampling>,
) -> Result<(), FunctionError>
    requires calls { (calls ≡ false) → list_any is_call (statements function.now.body) ≡ false }
    requires no_globals { sampling_set.old.keys ≡ [] }
    requires no_arguments { sampling.old.keys ≡ [] }
    ensures members { OnOk result (SameMembers (pairs_in sampling_set.new.keys sampling.new.keys)
        (computed_pairs infos.now function.now)) }
    ensures with_arguments { OnOk result (HaveArguments sampling.new.keys) }
    ensures resources { IfOk result (λ _. (m : Module) (settings : Settings) (e : ℕ) →
        StepFault m (infos_of infos.now) function.now settings (NoResource e) → ⊥) }
    ensures fault { IfErr result (λ failure. (m : Module) (settings : Settings) →
        IsNamed (StepFault m (infos_of infos.now) function.now settings) failure) }
{
    let missing = collect_pairs(infos, function, calls, sampling_set, sampling)?;
    check_resources(missing)?;
    Ok(())
}

/// Returns a list with no use of any of the module's globals.
#[inline(always)]
pub fn no_uses(alloc: Global, module: &Module) -> Result<Vec<GlobalUse>, AllocError>
    ensures { IfOk result (λ uses. bits_in uses.items ≡ replicate (length «module».now.global_variables) 0) }
{
    let count = module.global_variables.len();
    let mut uses = Vec::with_capacity(alloc, count)?;
    uses.resize(count, GlobalUse(0))?;
    Ok(uses)
}

/// Returns an error if a reference count overflows.
fn check_counts(function: &Function, found: &Found) -> Result<(), FunctionError>
    requires { IfSome found.now.full (λ e. 2 ^ 64 ≤ count_of function.now e) }
    ensures ok { IfOk result (λ _. found.now.full ≡ None) }
    ensures full { IfErr result (λ failure. (e : ℕ) × (failure ≡ error.CountFull e)) }
    ensures fault { IfErr result (λ failure. (m : Module) (infos : List Info) (settings : Settings) →
        IsNamed (StepFault m infos function.now settings) failure) }
{
    match found.full {
        Some(handle) => Err(FunctionError::CountFull(handle)),
        None => Ok(()),
    }
}

/// Walks a function as `walked` does, over slices.
fn walked_in(
    infos: &[FunctionInfo],
    function: &Function,
    records: &mut [ExpressionInfo],
    roots: &[Root],
    uses: &mut [GlobalUse],
) -> Result<Found, FunctionError>
    requires long { length records.old ≡ length roots.now }
    requires uncounted { counts_in records.old ≡ replicate (length function.now.expressions) 0 }
    requires unused { bits_in uses.old ≡ replicate (length uses.old) 0 }
    ensures counted { IfOk result (λ _. IsCounted function.now roots.now records.old records.new None) }
    ensures uses { IfOk result (λ _. (m : Module) → PointsBackwards function.now → GlobalsWithin m function.now → EachFits m infos.now →
        length uses.old ≡ length m.global_variables → facts_in records.old roots.now ≡ computed_facts m infos.now function.now →
        HasUses m infos.now function.now (bits_in uses.new)) }
    ensures found { IfOk result (λ found. (m : Module) →
        facts_in records.old roots.now ≡ computed_facts m infos.now function.now → IsFound m infos.now function.now found) }
    ensures fault { IfErr result (λ failure. (m : Module) (infos : List Info) (settings : Settings) →
        IsNamed (StepFault m infos function.now settings) failure) }
    ensures full { IfErr result (λ failure. (e : ℕ) × (failure ≡ error.CountFull e)) }
{
    let found = walk_function(infos, function, records, roots, uses);
    let facts = Facts::new(records, roots);
    name_globals(&facts, uses, &function.named_expressions);
    check_counts(function, &found)?;
    Ok(found)
}

/// Walks a function whose expressions have records: counts all operands in these, and joins all uses of globals, its own, those of its
/// callees and the queries of globals that it only names. Or returns the error for a count that overflows. Allocates nothing.
#[inline(always)]
pub fn walked(
    infos: &[FunctionInfo],
    function: &Function,
    records: &mut Vec<ExpressionInfo>,
    roots: &[Root],
    uses: &mut Vec<GlobalUse>,
) -> Result<Found, FunctionError>
    requires long { length records.old.items ≡ length roots.now }
    requires uncounted { counts_in records.old.items ≡ replicate (length function.now.expressions) 0 }
    requires unused { bits_in uses.old.items ≡ replicate (length uses.old.items) 0 }
    ensures counted { IfOk result (λ _. IsCounted function.now roots.now records.old.items records.new.items None) }
    ensures uses { IfOk result (λ _. (m : Module) → PointsBackwards function.now → GlobalsWithin m function.now → EachFits m infos.now →
        length uses.old.items ≡ length m.global_variables →
        facts_in records.old.items roots.now ≡ computed_facts m infos.now function.now →
        HasUses m infos.now function.now (bits_in uses.new.items)) }
    ensures found { IfOk result (λ found. (m : Module) →
        facts_in records.old.items roots.now ≡ computed_facts m infos.now function.now → IsFound m infos.now function.now found) }
    ensures fault { IfErr result (λ failure. (m : Module) (infos : List Info) (settings : Settings) →
        IsNamed (StepFault m infos function.now settings) failure) }
    ensures full { IfErr result (λ failure. (e : ℕ) × (failure ≡ error.CountFull e)) }
{
    walked_in(
        infos,
        function,
        records.as_mut_slice(),
        roots,
        uses.as_mut_slice(),
    )
}

/// Returns whether a non-uniform control flow violation is an error in the function.
fn checks_flow(module: &Module, function: &Function, flags: ValidationFlags) -> bool
    requires parents { HaveEarlierParents «module».now.diagnostic_filters }
    requires leaf { IfSome function.now.diagnostic_filter_leaf (λ leaf. leaf < length «module».now.diagnostic_filters) }
    ensures on { IsTrue result → ChecksFlow «module».now function.now flags }
    ensures off { (result ≡ false) → ChecksFlow «module».now function.now flags → ⊥ }
{
    flags.contains(ValidationFlags::CONTROL_FLOW_UNIFORMITY)
        && matches!(
            derivative_severity(&module.diagnostic_filters, function.diagnostic_filter_leaf),
            Severity::Error
        )
}

/// Returns the error for a non-uniform control flow violation.
fn flow_violation_error(flow_violation: &FlowViolation) -> FunctionError
    ensures { result ≡ error.NonUniformControlFlow flow_violation.now.requirements flow_violation.now.expression
        flow_violation.now.disruptor }
{
    FunctionError::NonUniformControlFlow(
        flow_violation.requirements,
        flow_violation.expression,
        flow_violation.disruptor,
    )
}

/// Returns the first non-uniform control flow violation if that is an error. Allocates nothing.
pub fn check_flow(
    module: &Module,
    infos: &[FunctionInfo],
    function: &Function,
    found: &Found,
    flags: ValidationFlags,
) -> Result<(), FunctionError>
    requires parents { HaveEarlierParents «module».now.diagnostic_filters }
    requires leaf { IfSome function.now.diagnostic_filter_leaf (λ leaf. leaf < length «module».now.diagnostic_filters) }
    requires operands { PointsBackwards function.now }
    requires found { IsFound «module».now infos.now function.now found.now }
    ensures undisrupted { IfOk result (λ _. (capabilities : Capabilities) (needs : Need → Bool) (e : ℕ) (flow_disruptor : Disruptor) →
        StepFault «module».now (infos_of infos.now) function.now (settings_of flags capabilities)
        (NonUniformControlFlow needs e flow_disruptor) → ⊥) }
    ensures fault { IfErr result (λ failure. (capabilities : Capabilities) →
        IsNamed (StepFault «module».now (infos_of infos.now) function.now (settings_of flags capabilities)) failure) }
    ensures allocates_nothing { IfErr result (λ failure. failure ≢ error.OutOfMemory) }
{
    // A chain of filters is walked only where there is something to refuse.
    if let Some(flow_violation) = &found.first {
        if checks_flow(module, function, flags) {
            return Err(flow_violation_error(flow_violation));
        }
    }
    Ok(())
}
