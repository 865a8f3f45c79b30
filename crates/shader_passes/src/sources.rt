//! Expressions that are non-uniform by themselves.
ghost use Rattle.std.specs.Prelude.{◌≡◌, slice_get};
ghost use Rattle.shader_analysis_spec.specs.Origins.{argument_varies, binding_varies, built_in_varies, global_varies, is_source};
ghost use Rattle.shader_analysis_spec.specs.Origins.{space_varies};

use bitflags::Flags;
use shader_arena::{Arena, Handle};
use shader_ir::{
    AddressSpace, Binding, BuiltIn, Expression, Function, FunctionArgument, GlobalVariable, Module,
    StorageAccess, mark,
};

/// Returns whether the invocations of a work group may read different values from the space (WGSL, "Uniformity").
fn space_varies(space: AddressSpace) -> bool
    ensures { result ≡ space_varies space }
{
    match space {
        AddressSpace::Function
        | AddressSpace::Private
        | AddressSpace::RayPayload
        | AddressSpace::IncomingRayPayload
        | AddressSpace::Handle => true,
        AddressSpace::Storage { access } => access.contains(StorageAccess::STORE),
        AddressSpace::WorkGroup
        | AddressSpace::Uniform
        | AddressSpace::Immediate
        | AddressSpace::TaskPayload => false,
    }
}

fn variable_varies(
    variables: &Arena<GlobalVariable, mark::GlobalVariable>,
    variable: Handle<mark::GlobalVariable>,
) -> bool
    ensures { result ≡ global_varies (slice_get variables.now variable) }
{
    if variables.contains_handle(variable) {
        space_varies(variables[variable].space)
    } else {
        false
    }
}

/// Returns whether the built-in value differs among the invocations of a work group.
fn built_in_varies(built_in: BuiltIn) -> bool
    ensures { result ≡ built_in_varies built_in }
{
    match built_in {
        BuiltIn::WorkGroupId | BuiltIn::WorkGroupSize | BuiltIn::NumWorkGroups => false,
        BuiltIn::Other(_) => true,
    }
}

/// Returns whether a value with this binding differs among the invocations of a work group.
fn binding_varies(binding: Option<Binding>) -> bool
    ensures { result ≡ binding_varies binding }
{
    match binding {
        Some(Binding::BuiltIn(built_in)) => built_in_varies(built_in),
        _ => true,
    }
}

fn argument_varies(arguments: &[FunctionArgument], index: u32) -> bool
    ensures { result ≡ argument_varies (slice_get arguments.now index) }
{
    match arguments.get(index as usize) {
        Some(argument) => binding_varies(argument.binding),
        None => true,
    }
}

/// Returns whether the expression's value may differ among invocations by itself.
pub fn is_source(module: &Module, function: &Function, expression: &Expression) -> bool
    ensures { result ≡ is_source «module».now function.now expression.now }
{
    match expression {
        Expression::FunctionArgument(index) => {
            argument_varies(function.arguments.as_slice(), *index)
        }
        Expression::GlobalVariable(variable) => {
            variable_varies(&module.global_variables, *variable)
        }
        Expression::LocalVariable(_)
        | Expression::AtomicResult { .. }
        | Expression::RayQueryProceedResult
        | Expression::SubgroupBallotResult
        | Expression::SubgroupOperationResult { .. } => true,
        _ => false,
    }
}
