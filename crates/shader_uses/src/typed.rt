//! The type of an expression, given the types of the expressions before it.
ghost use Rattle.std.specs.Prelude.{◌≡◌, ◌<◌, All, IfOk, Some, length, slice_get};
ghost use Rattle.shader_typing.specs.Derivable.{Derives};
ghost use Rattle.shader_typing.specs.Function.{Function};
ghost use Rattle.shader_typing.specs.Key.{FitsTypes};
ghost use Rattle.shader_typing.specs.Context.{context_of};
ghost use Rattle.shader_typing.specs.TypesTyped.{AreOfTheFirst};
ghost use Rattle.shader_typing.specs.WellFormed.{IsWellFormed};

use shader_typing::arena::Handle;
use shader_typing::ir::{Function, Module, mark};
use shader_typing::proc::{ResolveContext, ResolveError, TypeResolution, type_of};
use shader_typing::valid::{ModuleFault, check_module};
use std::alloc::Global;

/// Returns the module data that the types of a function's expressions depend on.
fn context_of<'a>(module: &'a Module, function: &'a Function) -> ResolveContext<'a>
    ensures { result ≡ context_of «module».now function.now.local_variables function.now.arguments }
{
    ResolveContext::with_locals(
        module,
        &function.local_variables,
        function.arguments.as_slice(),
    )
}

/// Returns the type of the next expression of a function, where `stored` are the types of those before it.
///
/// # Errors
///
/// The refusal by the expression's typing rule, or an allocation failure.
#[tactic(auto, using(shader_typing::proofs::Fitting::types_in_range, shader_typing::proofs::Fitting::names_in_range))]
pub fn type_of_next(
    alloc: Global,
    module: &Module,
    function: Handle<mark::Function>,
    stored: &[TypeResolution],
    expression: Handle<mark::Expression>,
) -> Result<TypeResolution, ResolveError>
    requires well_formed { IsWellFormed «module».now }
    requires function { function < length «module».now.functions }
    requires next { expression ≡ length stored.now }
    requires there { (f : Function) → slice_get «module».now.functions function ≡ Some f → expression < length f.expressions }
    requires fit { All (FitsTypes «module».now.types) stored.now }
    ensures fits { IfOk result (λ ty. FitsTypes «module».now.types ty) }
    ensures derived { IfOk result (λ ty. (f : Function) → slice_get «module».now.functions function ≡ Some f →
        AreOfTheFirst (context_of «module».now f.local_variables f.arguments) f.expressions stored.now →
        Derives (context_of «module».now f.local_variables f.arguments) f.expressions expression ty) }
{
    let function = &module.functions[function];
    let context = context_of(module, function);
    type_of(alloc, &context, stored, &function.expressions[expression])
}

/// The reason why the sum has no type.
#[derive(Debug, Drop)]
pub enum Untyped {
    /// The module isn't well formed.
    Fault(ModuleFault),
    /// It has no such expression, or no such type.
    Absent,
    /// The typing rule refuses the expression, or an allocation failed.
    Refused(ResolveError),
}

/// Returns the type of expression 2 of a module's first function, where expressions 0 and 1 have the stored types.
///
/// # Errors
///
/// The reason why it has none.
pub fn type_of_third(
    alloc: Global,
    module: &Module,
    stored: &[TypeResolution],
) -> Result<TypeResolution, Untyped>
    requires { length stored.now ≡ 2 }
    ensures { IfOk result (λ ty. FitsTypes «module».now.types ty) }
{
    if let Err(fault) = check_module(module) {
        return Err(Untyped::Fault(fault));
    }
    let function = Handle::from_index(0);
    let third = Handle::from_index(2);
    if !module.functions.contains_handle(function) {
        return Err(Untyped::Absent);
    }
    if !module.functions[function]
        .expressions
        .contains_handle(third)
    {
        return Err(Untyped::Absent);
    }
    if !stored
        .iter()
        .all(|resolution| resolution.fits(&module.types))
    {
        return Err(Untyped::Absent);
    }
    match type_of_next(alloc, module, function, stored, third) {
        Ok(ty) => Ok(ty),
        Err(failure) => Err(Untyped::Refused(failure)),
    }
}
