//! The analysis of a module function by function.
ghost use Rattle.std.specs.Prelude.{◌≡◌, ◌<◌, ◌+◌, ◌++◌, ◌∷◌, [], IfErr, OnErr, OnOk, Some, length, slice_get};
ghost use Rattle.shader_analysis_spec.specs.StepFaults.{StepFault};
ghost use Rattle.shader_analysis_spec.specs.Program.{Function};
ghost use Rattle.shader_info.specs.declared.error.AnalysisLocation.TheVariants as site;
ghost use Rattle.shader_info.specs.declared.error.FunctionError.TheVariants.{OutOfMemory};
ghost use Rattle.shader_resolve.specs.WellFormed.{IsWellFormed};
ghost use Rattle.shader_passes.specs.Causes.{IsNamed, settings_of};
ghost use Rattle.shader_passes.specs.InfoOf.{infos_of};
ghost use Rattle.shader_analysis.specs.Analyzable.{AreStored};
ghost use Rattle.shader_analysis.specs.Growth.{AddsNext};

use crate::valid::ModuleInfo;
use crate::valid::analyzer::new_info;
use shader_arena::Handle;
use shader_info::{
    AnalysisError, AnalysisLocation, Capabilities, FunctionError, FunctionInfo, ValidationFlags,
};
use shader_ir::{Module, mark};

/// Returns the error of a function for whose info there is no memory.
fn out_of_memory(handle: Handle<mark::Function>) -> AnalysisError
    ensures { result ≡ record { place = site.Function handle; cause = OutOfMemory } }
{
    AnalysisError {
        place: AnalysisLocation::Function(handle),
        cause: FunctionError::OutOfMemory,
    }
}

impl ModuleInfo {
    /// Makes room for the infos of all functions, before the first.
    #[inline(always)]
    fn make_room(
        &mut self,
        handle: Handle<mark::Function>,
        function_count: usize,
    ) -> Result<(), AnalysisError>
        ensures same { self.new ≡ self.old }
        ensures place { IfErr result (λ error. error.place ≡ site.Function handle) }
        ensures memory { IfErr result (λ error. error.cause ≡ OutOfMemory) }
    {
        if self.function_count() > 0 {
            return Ok(());
        }
        match self.reserve(function_count) {
            Ok(()) => Ok(()),
            Err(_) => Err(out_of_memory(handle)),
        }
    }

    /// Adds the info of the next of so many functions, which is found there.
    #[inline(always)]
    fn add_found(
        &mut self,
        handle: Handle<mark::Function>,
        function_count: usize,
        found: FunctionInfo,
    ) -> Result<(), AnalysisError>
        ensures ok { OnOk result (self.new ≡ record self.old { functions = self.old.functions ++ found ∷ [] }) }
        ensures err { OnErr result (self.new ≡ self.old) }
        ensures place { IfErr result (λ error. error.place ≡ site.Function handle) }
        ensures memory { IfErr result (λ error. error.cause ≡ OutOfMemory) }
    {
        self.make_room(handle, function_count)?;
        match self.add_function(found) {
            Ok(()) => Ok(()),
            Err(_) => Err(out_of_memory(handle)),
        }
    }

    /// Analyses the function that comes next, that at `function_count`, given the infos of those before it, and adds its info.
    ///
    /// # Errors
    ///
    /// A fault of the function, as of `process_function`; or an allocation failure. Then nothing is added.
    #[tactic(auto, using(crate::proofs::Growing::next_can_be_processed, crate::proofs::Growing::next_is_stored))]
    pub fn add_next(
        &mut self,
        module: &Module,
        flags: ValidationFlags,
        capabilities: Capabilities,
    ) -> Result<(), AnalysisError>
        requires well_formed { IsWellFormed «module».now }
        requires more { length self.old.functions < length «module».now.functions }
        requires stored { AreStored «module».now self.old.functions }
        ensures stored { AreStored «module».now self.new.functions }
        ensures one { OnOk result (length self.new.functions ≡ length self.old.functions + 1) }
        ensures added { OnOk result (AddsNext «module».now (settings_of flags capabilities) self.old self.new) }
        ensures err { OnErr result (self.new ≡ self.old) }
        ensures place { IfErr result (λ error. error.place ≡ site.Function (length self.old.functions)) }
        ensures fault { IfErr result (λ error. (f : Function) → slice_get «module».now.functions (length self.old.functions) ≡ Some f →
            IsNamed (StepFault «module».now (infos_of self.old.functions) f (settings_of flags capabilities)) error.cause) }
    {
        let count = self.function_count();
        prove!(count < module.functions.len());
        let handle: Handle<mark::Function> = Handle::from_index(count as u32);
        let location = AnalysisLocation::Function(handle);
        let mut found = new_info(self.allocator());
        self.process_into(location, module, flags, capabilities, &mut found)?;
        self.add_found(handle, module.functions.len(), found)?;
        Ok(())
    }
}
