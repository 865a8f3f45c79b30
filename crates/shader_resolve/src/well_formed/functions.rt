//! Checks of functions.
ghost use Rattle.std.specs.Prelude.{◌≡◌, length, nat_lt, slice_get};
ghost use Rattle.std.specs.List.{list_all};
ghost use Rattle.shader_resolve.specs.ModuleTests.{check_argument, check_function, every, function_in_range, in_list};
ghost use Rattle.shader_resolve.specs.ModuleTests.{is_pointer_type, is_value_pointer, local_in_range, result_in_range};

use super::expressions::{check_expressions, is_below, is_optional_below};
use super::statements::check_block;
use super::{Bounds, ModuleFault};
use shader_arena::Handle;
use shader_ir::{Function, FunctionArgument, FunctionResult, Module, TypeInner, mark};

/// Returns the first violation of a function with this many earlier ones.
pub fn check_function(
    module: &Module,
    earlier: usize,
    function: &Function,
) -> Result<(), ModuleFault>
    ensures { result ≡ check_function «module».now earlier function.now }
{
    if !function_in_range(module, function) {
        return Err(ModuleFault::HandleOutOfRange);
    }
    check_arguments(module, function.arguments.as_slice())?;
    let bounds = Bounds {
        earlier,
        locals: function.local_variables.len(),
        expressions: function.expressions.len(),
    };
    check_expressions(module, bounds, &function.expressions)?;
    check_block(&function.body, module, bounds)
}

/// Returns whether the handles of a function are in range, except those of its arguments, expressions and statements.
pub fn function_in_range(module: &Module, function: &Function) -> bool
    ensures { result ≡ function_in_range «module».now function.now }
{
    result_in_range(module, function.result)
        && locals_in_range(module, function)
        && named_in_range(function)
        && is_optional_below(
            function.diagnostic_filter_leaf,
            module.diagnostic_filters.len(),
        )
}

pub fn check_arguments(module: &Module, arguments: &[FunctionArgument]) -> Result<(), ModuleFault>
    ensures { result ≡ in_list (check_argument «module».now) arguments.now }
{
    for argument in arguments {
        check_argument(module, argument)?;
    }
    Ok(())
}

fn check_argument(module: &Module, argument: &FunctionArgument) -> Result<(), ModuleFault>
    ensures { result ≡ check_argument «module».now argument.now }
{
    if !is_below(argument.ty, module.types.len()) {
        return Err(ModuleFault::HandleOutOfRange);
    }
    if is_pointer_type(module, argument.ty) {
        return Err(ModuleFault::ValuePointerArgument);
    }
    Ok(())
}

fn result_in_range(module: &Module, function_result: Option<FunctionResult>) -> bool
    ensures { result ≡ result_in_range «module».now function_result }
{
    match function_result {
        Some(function_result) => is_below(function_result.ty, module.types.len()),
        None => true,
    }
}

fn named_in_range(function: &Function) -> bool
    ensures { result ≡ list_all (λ entry. nat_lt entry.0 (length function.now.expressions)) function.now.named_expressions }
{
    for (expression, _) in function.named_expressions.iter() {
        if !is_below(*expression, function.expressions.len()) {
            return false;
        }
    }
    true
}

fn locals_in_range(module: &Module, function: &Function) -> bool
    ensures { result ≡ every (λ position variable. local_in_range «module».now function.now variable) function.now.local_variables }
{
    for (_, variable) in function.local_variables.iter() {
        if !is_below(variable.ty, module.types.len())
            || !is_optional_below(variable.init, function.expressions.len())
        {
            return false;
        }
    }
    true
}

fn is_pointer_type(module: &Module, ty: Handle<mark::Type>) -> bool
    ensures { result ≡ is_pointer_type (slice_get «module».now.types ty) }
{
    module.types.contains_handle(ty) && is_value_pointer(&module.types[ty].inner)
}

fn is_value_pointer(inner: &TypeInner) -> bool
    ensures { result ≡ is_value_pointer inner.now }
{
    matches!(inner, TypeInner::ValuePointer { .. })
}
