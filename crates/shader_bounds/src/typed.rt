//! The recorded types of a function's expressions.
ghost use Rattle.std.specs.Prelude.{◌≡◌};
ghost use Rattle.std.specs.Option.{option_copied};
ghost use Rattle.shader_bounds.specs.Typed.{type_at};

use shader_arena::Handle;
use shader_info::FunctionInfo;
use shader_ir::mark;
use shader_ir::proc::TypeResolution;

/// Returns the recorded type of an expression, if any.
pub(crate) fn type_of(
    info: &FunctionInfo,
    expression: Handle<mark::Expression>,
) -> Option<&TypeResolution>
    ensures { option_copied result ≡ type_at info.now expression }
{
    match info.expressions.as_slice().get(expression.index()) {
        Some(expression) => Some(&expression.ty),
        None => None,
    }
}
