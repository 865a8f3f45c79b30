//! The analysis results for a module.
ghost use Rattle.std.specs.Prelude.{◌≡◌, ◌<◌, ◌≤◌, [], ◌∷◌, ◌++◌, length, slice_get, Some, false, IfErr, IfOk, OnOk, OnErr};
ghost use Rattle.shader_analysis_spec.specs.Faults.{Cause};
ghost use Rattle.shader_analysis_spec.specs.StepFaults.{StepFault};
ghost use Rattle.shader_analysis_spec.specs.Program.{Function};
ghost use Rattle.shader_analysis_spec.specs.Steps.{MeetsSteps};
ghost use Rattle.shader_info.specs.Fit.{Fits};
ghost use Rattle.shader_resolve.specs.WellFormed.{IsWellFormed};
ghost use Rattle.shader_passes.specs.Causes.{IsNamed, settings_of};
ghost use Rattle.shader_passes.specs.InfoOf.{info_of, infos_of};
ghost use Rattle.shader_passes.specs.RecordedPairs.{HaveArguments};
ghost use Rattle.shader_resolve.specs.declared.error.ResolveError.TheVariants as refusal;
ghost use Rattle.shader_analysis.specs.AddedTypes.{AddsType, CanType, IsNextType, IsTypeRefusal};
ghost use Rattle.shader_analysis.specs.Copies.{SameRecord};
ghost use Rattle.shader_analysis.specs.NewInfo.{IsNewInfo};
ghost use Rattle.shader_analysis.specs.Processed.{CanProcess, HasFunction, IsFunctionAt, functions_before, infos_before};

use crate::valid::analyzer::{find_info, new_info};
use crate::valid::copies::{copy_infos, copy_types};
use shader_arena::Handle;
use shader_expression_types::type_of;
use shader_info::{AnalysisError, AnalysisLocation, Capabilities, FunctionInfo, ValidationFlags};
use shader_ir::proc::TypeResolution;
use shader_ir::{Function, GlobalCtx, Module, mark};
use shader_resolve::{ResolveContext, ResolveError};
use std::alloc::{AllocError, AllocFailed, Global};
use std::marker::Model;
use std::ops::Index;

/// The analysis results for a module: the infos of its first functions and entry points, and the types of its first global expressions.
#[derive(Drop)]
pub struct ModuleInfo {
    functions: Vec<FunctionInfo>,
    entry_points: Vec<FunctionInfo>,
    global_expressions: Vec<TypeResolution>,
}

impl Model for ModuleInfo {
    ghost use Rattle.std.specs.Coded.{codes};
    ghost use Rattle.shader_info.specs.contracts.info.FunctionInfo as function;
    ghost use Rattle.shader_ir.specs.contracts.proc.type_resolution.TypeResolution as resolution;
    ghost use Rattle.shader_analysis.specs.Recorded.{Recorded};

    ghost Value = { Recorded };

    ghost coded = { Prim.hlevel (codes, function.the_row.coded, resolution.the_row.coded) };

    ghost view = { λ info. record {
      functions = info.functions.items;
      entry_points = info.entry_points.items;
      global_expressions = info.global_expressions.items;
    } };
}

/// Returns the number of functions before the location.
#[inline(always)]
fn functions_before(module: &Module, location: &AnalysisLocation) -> usize
    ensures { result ≡ functions_before «module».now location.now }
{
    match location {
        AnalysisLocation::ConstExpression(_) => 0,
        AnalysisLocation::Function(handle) => handle.index(),
        AnalysisLocation::EntryPoint(_) => module.functions.len(),
    }
}

/// Returns the function at a location that has one.
#[inline(always)]
fn function_at<'a>(module: &'a Module, location: &AnalysisLocation) -> &'a Function
    requires { HasFunction «module».now location.now }
    ensures { IsFunctionAt «module».now location.now result.now }
{
    match location {
        AnalysisLocation::Function(handle) => &module.functions[*handle],
        AnalysisLocation::EntryPoint(index) => &module.entry_points.as_slice()[*index].function,
        AnalysisLocation::ConstExpression(_) => unreachable!(),
    }
}

/// Computes the type of a global expression, given the types of the earlier ones.
fn next_type(
    alloc: Global,
    types: &[TypeResolution],
    handle: Handle<mark::Expression>,
    resolve_context: &ResolveContext<'_>,
    gctx: &GlobalCtx<'_>,
) -> Result<TypeResolution, ResolveError>
    requires { CanType resolve_context.now gctx.now.global_expressions.now types.now handle }
    ensures next { IfOk result (IsNextType resolve_context.now gctx.now.global_expressions.now types.now) }
    ensures refused { IfErr result (IsTypeRefusal resolve_context.now gctx.now.global_expressions.now types.now) }
{
    let expression = &gctx.global_expressions[handle];
    type_of(alloc, resolve_context, types, expression)
}

impl ModuleInfo {
    /// Returns an empty record. This allocates nothing; the other calls take memory from `alloc`.
    pub fn new(alloc: Global) -> ModuleInfo
        ensures { result ≡ record { functions = []; entry_points = []; global_expressions = [] } }
    {
        ModuleInfo {
            functions: Vec::new(alloc),
            entry_points: Vec::new(alloc),
            global_expressions: Vec::new(alloc),
        }
    }

    /// Returns an equal record.
    ///
    /// # Errors
    ///
    /// `AllocError` if allocating a list, or copying an info or a type, fails.
    pub fn copy(&self, alloc: Global) -> Result<ModuleInfo, AllocError>
        ensures { IfOk result (SameRecord self.now) }
    {
        Ok(ModuleInfo {
            functions: copy_infos(alloc, self.functions.as_slice())?,
            entry_points: copy_infos(alloc, self.entry_points.as_slice())?,
            global_expressions: copy_types(alloc, self.global_expressions.as_slice())?,
        })
    }

    /// Returns the number of functions that have an info. They are the first of the module's.
    pub fn function_count(&self) -> usize
        ensures { result ≡ length self.now.functions }
    {
        self.functions.len()
    }

    /// Returns the number of entry points that have an info. They are the first of the module's.
    pub fn entry_point_count(&self) -> usize
        ensures { result ≡ length self.now.entry_points }
    {
        self.entry_points.len()
    }

    /// Returns the number of global expressions that have a type. They are the first of the module's.
    pub fn global_expression_count(&self) -> usize
        ensures { result ≡ length self.now.global_expressions }
    {
        self.global_expressions.len()
    }

    /// Returns the allocator of the lists.
    pub(crate) fn allocator(&self) -> Global {
        *self.functions.allocator()
    }

    /// Makes room for the infos of more functions.
    pub(crate) fn reserve(&mut self, count: usize) -> Result<(), AllocError>
        ensures { self.new ≡ self.old }
    {
        self.functions.reserve_exact(count)
    }

    /// Adds the info of the next function.
    ///
    /// # Errors
    ///
    /// `AllocFailed` with the info if the memory for it can't be allocated.
    #[inline(always)]
    pub fn add_function(&mut self, info: FunctionInfo) -> Result<(), AllocFailed<FunctionInfo>>
        ensures ok { OnOk result (self.new ≡ record self.old { functions = self.old.functions ++ info ∷ [] }) }
        ensures value_returned { IfErr result (λ failed. failed.value ≡ info) }
        ensures err { OnErr result (self.new ≡ self.old) }
    {
        self.functions.push(info)
    }

    /// Adds the info of the next entry point.
    ///
    /// # Errors
    ///
    /// `AllocFailed` with the info if the memory for it can't be allocated.
    pub fn add_entry_point(&mut self, info: FunctionInfo) -> Result<(), AllocFailed<FunctionInfo>>
        ensures ok { OnOk result (self.new ≡ record self.old { entry_points = self.old.entry_points ++ info ∷ [] }) }
        ensures value_returned { IfErr result (λ failed. failed.value ≡ info) }
        ensures err { OnErr result (self.new ≡ self.old) }
    {
        self.entry_points.push(info)
    }

    /// Computes and adds the type of the next global expression.
    ///
    /// # Errors
    ///
    /// The refusal by the expression's typing rule, given the types of the earlier ones; or an allocation failure.
    pub fn process_const_expression(
        &mut self,
        handle: Handle<mark::Expression>,
        resolve_context: &ResolveContext<'_>,
        gctx: GlobalCtx<'_>,
    ) -> Result<(), ResolveError>
        requires { CanType resolve_context.now gctx.global_expressions.now self.old.global_expressions handle }
        ensures ok { OnOk result (AddsType resolve_context.now gctx.entry.global_expressions.now self.old self.new) }
        ensures err { OnErr result (self.new ≡ self.old) }
        ensures refused { IfErr result (IsTypeRefusal resolve_context.now gctx.entry.global_expressions.now self.old.global_expressions) }
    {
        let alloc = *self.global_expressions.allocator();
        let types = self.global_expressions.as_slice();
        let ty = next_type(alloc, types, handle, resolve_context, &gctx)?;
        self.add_type(ty)?;
        Ok(())
    }

    /// Adds the type of the next global expression.
    fn add_type(&mut self, ty: TypeResolution) -> Result<(), ResolveError>
        ensures ok { OnOk result (self.new ≡ record self.old { global_expressions = self.old.global_expressions ++ ty ∷ [] }) }
        ensures err { OnErr result (self.new ≡ self.old) }
        ensures memory { IfErr result (λ failure. failure ≡ refusal.OutOfMemory) }
    {
        match self.global_expressions.push(ty) {
            Ok(()) => Ok(()),
            Err(_) => Err(ResolveError::OutOfMemory),
        }
    }

    /// Returns the infos of the functions before the location.
    #[inline(always)]
    fn infos_before<'a>(
        &'a self,
        module: &Module,
        location: &AnalysisLocation,
    ) -> &'a [FunctionInfo]
        requires { functions_before «module».now location.now ≤ length self.now.functions }
        ensures { result.now ≡ infos_before «module».now self.now location.now }
    {
        let count = functions_before(module, location);
        let infos = self.functions.as_slice();
        &infos[..count]
    }

    /// Analyses the function at a location, given the infos of the functions before it.
    ///
    /// The module must be well formed, which `check_module` establishes, and each stored info must fit its function, which
    /// `FunctionInfo::fits` establishes; each info that this call returns does. The call adds nothing: `add_function` and `add_entry_point`
    /// do.
    ///
    /// # Errors
    ///
    /// A fault of the function at the location; or an allocation failure.
    pub fn process_function(
        &self,
        location: AnalysisLocation,
        module: &Module,
        flags: ValidationFlags,
        capabilities: Capabilities,
    ) -> Result<FunctionInfo, AnalysisError>
        requires well_formed { IsWellFormed «module».now }
        requires stored { CanProcess «module».now self.now location }
        ensures steps { IfOk result (λ info. (f : Function) → IsFunctionAt «module».now location f →
            MeetsSteps «module».now (infos_of (infos_before «module».now self.now location)) f (info_of info)) }
        ensures with_arguments { IfOk result (λ info. HaveArguments info.sampling.keys) }
        ensures fits { IfOk result (λ info. (f : Function) → IsFunctionAt «module».now location f → Fits «module».now f info) }
        ensures stages { IfOk result (λ info. info.available_stages.0 ≡ 31) }
        ensures one_source { IfOk result (λ info. info.dual_source_blending ≡ false) }
        ensures clean { IfOk result (λ _. (f : Function) (cause : Cause) → IsFunctionAt «module».now location f →
            StepFault «module».now (infos_of (infos_before «module».now self.now location)) f (settings_of flags capabilities) cause → ⊥) }
        ensures place { IfErr result (λ error. error.place ≡ location) }
        ensures fault { IfErr result (λ error. (f : Function) → IsFunctionAt «module».now location f →
            IsNamed (StepFault «module».now (infos_of (infos_before «module».now self.now location)) f (settings_of flags capabilities))
            error.cause) }
    {
        let mut info = new_info(*self.functions.allocator());
        self.process_into(location, module, flags, capabilities, &mut info)?;
        Ok(info)
    }

    /// Analyses a function as `process_function` does, in a new info.
    #[inline(always)]
    pub(crate) fn process_into(
        &self,
        location: AnalysisLocation,
        module: &Module,
        flags: ValidationFlags,
        capabilities: Capabilities,
        info: &mut FunctionInfo,
    ) -> Result<(), AnalysisError>
        requires well_formed { IsWellFormed «module».now }
        requires stored { CanProcess «module».now self.now location }
        requires new { IsNewInfo info.old }
        ensures steps { OnOk result ((f : Function) → IsFunctionAt «module».now location f →
            MeetsSteps «module».now (infos_of (infos_before «module».now self.now location)) f (info_of info.new)) }
        ensures with_arguments { OnOk result (HaveArguments info.new.sampling.keys) }
        ensures fits { OnOk result ((f : Function) → IsFunctionAt «module».now location f → Fits «module».now f info.new) }
        ensures stages { OnOk result (info.new.available_stages.0 ≡ 31) }
        ensures one_source { OnOk result (info.new.dual_source_blending ≡ false) }
        ensures clean { IfOk result (λ _. (f : Function) (cause : Cause) → IsFunctionAt «module».now location f →
            StepFault «module».now (infos_of (infos_before «module».now self.now location)) f (settings_of flags capabilities) cause → ⊥) }
        ensures place { IfErr result (λ error. error.place ≡ location) }
        ensures fault { IfErr result (λ error. (f : Function) → IsFunctionAt «module».now location f →
            IsNamed (StepFault «module».now (infos_of (infos_before «module».now self.now location)) f (settings_of flags capabilities))
            error.cause) }
    {
        let alloc = *self.functions.allocator();
        let function = function_at(module, &location);
        let infos = self.infos_before(module, &location);
        match find_info(alloc, module, infos, function, flags, capabilities, info) {
            Ok(()) => Ok(()),
            Err(cause) => Err(AnalysisError {
                place: location,
                cause,
            }),
        }
    }

    /// Returns the info of an entry point, given its position in the module's list.
    pub fn get_entry_point(&self, index: usize) -> &FunctionInfo
        requires { index < length self.now.entry_points }
        ensures { slice_get self.now.entry_points index ≡ Some result.now }
    {
        &self.entry_points[index]
    }
}

impl Index<Handle<mark::Function>> for ModuleInfo {
    type Output = FunctionInfo;

    ghost can_index = { λ info handle. handle < length info.functions };

    ghost index_gives = { λ info handle function. slice_get info.functions handle ≡ Some function };

    fn index(&self, handle: Handle<mark::Function>) -> &FunctionInfo {
        &self.functions[handle.index()]
    }
}

impl Index<Handle<mark::Expression>> for ModuleInfo {
    type Output = TypeResolution;

    ghost can_index = { λ info handle. handle < length info.global_expressions };

    ghost index_gives = { λ info handle ty. slice_get info.global_expressions handle ≡ Some ty };

    fn index(&self, handle: Handle<mark::Expression>) -> &TypeResolution {
        &self.global_expressions[handle.index()]
    }
}
