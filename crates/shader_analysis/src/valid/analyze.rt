//! The analysis of a module.
ghost use Rattle.std.specs.Prelude.{◌≡◌, ◌<◌, ◌+◌, [], ◌∷◌, ◌++◌, IfErr, IfOk, OnOk, length};
ghost use Rattle.shader_analysis_spec.specs.Derivable.{AreTypes};
ghost use Rattle.shader_analysis_spec.specs.Exact.{IsExactModule};
ghost use Rattle.shader_analysis_spec.specs.Faults.{IsAccepted, IsFirstFault, Settings};
ghost use Rattle.shader_analysis_spec.specs.Program.{Module};
ghost use Rattle.shader_expression_types.specs.Checked.{untyped_error};
ghost use Rattle.shader_info.specs.declared.error.AnalysisLocation.TheVariants as site;
ghost use Rattle.shader_resolve.specs.Context.{context_of};
ghost use Rattle.shader_resolve.specs.WellFormed.{IsWellFormed};
ghost use Rattle.shader_passes.specs.Causes.{IsNamed, settings_of};
ghost use Rattle.shader_passes.specs.InfoOf.{infos_of};
ghost use Rattle.shader_analysis.specs.Analyzed.{EntryPointsAnalyzed, FunctionsAnalyzed, TypesComputed};
ghost use Rattle.shader_analysis.specs.Fitting.{AllFit, AllUnrestricted};
ghost use Rattle.shader_analysis.specs.Recording.{RecordsAllPairs};
ghost use Rattle.shader_analysis.specs.Processed.{site_of};
ghost use Rattle.shader_analysis.specs.Reached.{IsReached};

use crate::valid::ModuleInfo;
use shader_arena::{Arena, Handle};
use shader_expression_types::untyped;
use shader_info::{
    AnalysisError, AnalysisLocation, Capabilities, FunctionError, FunctionInfo, ValidationFlags,
};
use shader_ir::{LocalVariable, Module, mark};
use shader_resolve::{ResolveContext, ResolveError};
use std::alloc::Global;

/// Returns the analysis error for a global expression without a type.
fn type_error(handle: Handle<mark::Expression>, failure: ResolveError) -> AnalysisError
    ensures place { result.place ≡ site.ConstExpression handle }
    ensures cause { result.cause ≡ untyped_error handle failure }
{
    AnalysisError {
        place: AnalysisLocation::ConstExpression(handle),
        cause: untyped(handle, failure),
    }
}

/// Returns the module data that the types of global expressions depend on; there are no locals and no arguments.
fn global_context<'a>(
    module: &'a Module,
    locals: &'a Arena<LocalVariable, mark::LocalVariable>,
) -> ResolveContext<'a>
    requires { locals.now ≡ [] }
    ensures { result ≡ context_of «module».now [] [] }
{
    ResolveContext::with_locals(module, locals, &[])
}

/// Adds the type of the next global expression.
fn add_type(
    module: &Module,
    context: &ResolveContext<'_>,
    handle: Handle<mark::Expression>,
    info: &mut ModuleInfo,
) -> Result<(), AnalysisError>
    requires well_formed { IsWellFormed «module».now }
    requires context { context.now ≡ context_of «module».now [] [] }
    requires next { handle ≡ length info.old.global_expressions }
    requires there { handle < length «module».now.global_expressions }
    requires found { TypesComputed «module».now info.old.global_expressions }
    ensures rest { OnOk result (info.new ≡ record info.old { global_expressions = info.new.global_expressions }) }
    ensures one { OnOk result (length info.new.global_expressions ≡ length info.old.global_expressions + 1) }
    ensures found { OnOk result (TypesComputed «module».now info.new.global_expressions) }
    ensures place { IfErr result (λ error. error.place ≡ site.ConstExpression handle) }
    ensures reached { IfErr result (λ error. (settings : Settings) → IsReached «module».now settings (site_of error.place)) }
    ensures refused { IfErr result (λ error. (settings : Settings) →
        IsNamed (IsFirstFault «module».now settings (site_of error.place)) error.cause) }
{
    match info.process_const_expression(handle, context, module.to_ctx()) {
        Ok(()) => Ok(()),
        Err(failure) => Err(type_error(handle, failure)),
    }
}

/// Adds the types of all global expressions.
fn add_types(alloc: Global, module: &Module, info: &mut ModuleInfo) -> Result<(), AnalysisError>
    requires well_formed { IsWellFormed «module».now }
    requires none { info.old.global_expressions ≡ [] }
    ensures rest { OnOk result (info.new ≡ record info.old { global_expressions = info.new.global_expressions }) }
    ensures types { OnOk result (AreTypes (context_of «module».now [] []) «module».now.global_expressions info.new.global_expressions) }
    ensures reached { IfErr result (λ error. (settings : Settings) → IsReached «module».now settings (site_of error.place)) }
    ensures refused { IfErr result (λ error. (settings : Settings) →
        IsNamed (IsFirstFault «module».now settings (site_of error.place)) error.cause) }
{
    let locals = Arena::new(alloc);
    let context = global_context(module, &locals);
    for (handle, _) in module.global_expressions.iter() {
        add_type(module, &context, handle, info)?;
    }
    Ok(())
}

/// Adds the info of the next entry point.
fn add_entry_point(
    index: usize,
    info: &mut ModuleInfo,
    found: FunctionInfo,
) -> Result<(), AnalysisError>
    ensures ok { OnOk result (info.new ≡ record info.old { entry_points = info.old.entry_points ++ found ∷ [] }) }
    ensures place { IfErr result (λ error. error.place ≡ site.EntryPoint index) }
    ensures refused { IfErr result (λ error. (m : Module) (settings : Settings) →
        IsNamed (IsFirstFault m settings (site_of error.place)) error.cause) }
{
    match info.add_entry_point(found) {
        Ok(()) => Ok(()),
        Err(_) => Err(AnalysisError {
            place: AnalysisLocation::EntryPoint(index),
            cause: FunctionError::OutOfMemory,
        }),
    }
}

/// Adds the infos of all functions.
#[tactic(auto, using(crate::proofs::NextLemmas::no_functions))]
fn add_functions(
    module: &Module,
    flags: ValidationFlags,
    capabilities: Capabilities,
    info: &mut ModuleInfo,
) -> Result<(), AnalysisError>
    requires well_formed { IsWellFormed «module».now }
    requires types { AreTypes (context_of «module».now [] []) «module».now.global_expressions info.old.global_expressions }
    requires none { info.old.functions ≡ [] }
    ensures rest { OnOk result (info.new ≡ record info.old { functions = info.new.functions }) }
    ensures all { OnOk result (length info.new.functions ≡ length «module».now.functions) }
    ensures found { OnOk result (FunctionsAnalyzed «module».now (settings_of flags capabilities) info.new.functions) }
    ensures reached { IfErr result (λ error. IsReached «module».now (settings_of flags capabilities) (site_of error.place)) }
    ensures refused { IfErr result (λ error. IsNamed (IsFirstFault «module».now (settings_of flags capabilities) (site_of error.place))
        error.cause) }
{
    while info.function_count() < module.functions.len() {
        info.add_next(module, flags, capabilities)?;
    }
    Ok(())
}

/// Analyses the next entry point and adds its info.
fn analyze_entry_point(
    module: &Module,
    index: usize,
    flags: ValidationFlags,
    capabilities: Capabilities,
    info: &mut ModuleInfo,
) -> Result<(), AnalysisError>
    requires well_formed { IsWellFormed «module».now }
    requires types { AreTypes (context_of «module».now [] []) «module».now.global_expressions info.old.global_expressions }
    requires all { length info.old.functions ≡ length «module».now.functions }
    requires functions { FunctionsAnalyzed «module».now (settings_of flags capabilities) info.old.functions }
    requires next { index ≡ length info.old.entry_points }
    requires there { index < length «module».now.entry_points }
    requires found { EntryPointsAnalyzed «module».now (settings_of flags capabilities) info.old.entry_points }
    ensures rest { OnOk result (info.new ≡ record info.old { entry_points = info.new.entry_points }) }
    ensures one { OnOk result (length info.new.entry_points ≡ length info.old.entry_points + 1) }
    ensures found { OnOk result (EntryPointsAnalyzed «module».now (settings_of flags capabilities) info.new.entry_points) }
    ensures place { IfErr result (λ error. error.place ≡ site.EntryPoint index) }
    ensures reached { IfErr result (λ error. IsReached «module».now (settings_of flags capabilities) (site_of error.place)) }
    ensures refused { IfErr result (λ error. IsNamed (IsFirstFault «module».now (settings_of flags capabilities) (site_of error.place))
        error.cause) }
{
    let location = AnalysisLocation::EntryPoint(index);
    let found = info.process_function(location, module, flags, capabilities)?;
    add_entry_point(index, info, found)
}

/// Adds the infos of all entry points.
#[tactic(auto, using(crate::proofs::NextLemmas::no_entry_points))]
fn add_entry_points(
    module: &Module,
    flags: ValidationFlags,
    capabilities: Capabilities,
    info: &mut ModuleInfo,
) -> Result<(), AnalysisError>
    requires well_formed { IsWellFormed «module».now }
    requires types { AreTypes (context_of «module».now [] []) «module».now.global_expressions info.old.global_expressions }
    requires all { length info.old.functions ≡ length «module».now.functions }
    requires found { FunctionsAnalyzed «module».now (settings_of flags capabilities) info.old.functions }
    requires none { info.old.entry_points ≡ [] }
    ensures rest { OnOk result (info.new ≡ record info.old { entry_points = info.new.entry_points }) }
    ensures all { OnOk result (length info.new.entry_points ≡ length «module».now.entry_points) }
    ensures found { OnOk result (EntryPointsAnalyzed «module».now (settings_of flags capabilities) info.new.entry_points) }
    ensures reached { IfErr result (λ error. IsReached «module».now (settings_of flags capabilities) (site_of error.place)) }
    ensures refused { IfErr result (λ error. IsNamed (IsFirstFault «module».now (settings_of flags capabilities) (site_of error.place))
        error.cause) }
{
    for index in 0..module.entry_points.len() {
        analyze_entry_point(module, index, flags, capabilities, info)?;
    }
    Ok(())
}

/// Analyses a module that `check_module` accepts: its global expressions, functions and entry points, in this order.
///
/// # Errors
///
/// A fault of the first faulty location; or an allocation failure, with a location before which there is no fault. No partial result is
/// returned.
pub fn analyze_module(
    alloc: Global,
    module: &Module,
    flags: ValidationFlags,
    capabilities: Capabilities,
) -> Result<ModuleInfo, AnalysisError>
    requires { IsWellFormed «module».now }
    ensures exact { IfOk result (λ info. IsExactModule «module».now info.global_expressions (infos_of info.functions)
        (infos_of info.entry_points)) }
    ensures pairs { IfOk result (RecordsAllPairs «module».now) }
    ensures fit { IfOk result (AllFit «module».now) }
    ensures unrestricted { IfOk result AllUnrestricted }
    ensures accepted { IfOk result (λ _. IsAccepted «module».now (settings_of flags capabilities)) }
    ensures reached { IfErr result (λ error. IsReached «module».now (settings_of flags capabilities) (site_of error.place)) }
    ensures refused { IfErr result (λ error. IsNamed (IsFirstFault «module».now (settings_of flags capabilities) (site_of error.place))
        error.cause) }
{
    let mut info = ModuleInfo::new(alloc);
    add_types(alloc, module, &mut info)?;
    add_functions(module, flags, capabilities, &mut info)?;
    add_entry_points(module, flags, capabilities, &mut info)?;
    Ok(info)
}
