//! The types that need a local variable, to which pointers out of bounds are redirected.
ghost use Rattle.std.specs.Prelude.{◌≡◌, ◌↔◌, ℕ, IfOk, IsOk, IsTrue, OnOk, slice_get};
ghost use Rattle.std.specs.List.{Contains, zip};
ghost use Rattle.std.specs.Option.{option_copied};
ghost use Rattle.shader_ir.specs.BodyOf.{step_of};
ghost use Rattle.shader_ir.specs.Occurs.{statements};
ghost use Rattle.shader_passes.specs.StatementLists.{steps_of};
ghost use Rattle.shader_resolve.specs.WellFormed.{AtEach, IsWellFormed, OperandsBelow};
ghost use Rattle.shader_bounds.specs.Adds.{Adds};
ghost use Rattle.shader_bounds.specs.Locals.{AllPass, CallPasses, IsOutOfBoundsType, NeedsLocal, PairsPass};
ghost use Rattle.shader_bounds.specs.Locals.{PassesUnchecked, StepPasses, pointed, pointed_at};
ghost use Rattle.shader_bounds.specs.Typed.{IsFunctionOf, Records};
ghost use Rattle.shader_bounds.specs.declared.policies.BoundsCheckPolicy.TheVariants.{ReadZeroSkipWrite};

use crate::chains::chain_needs_check;
use crate::{BoundsCheckPolicies, BoundsCheckPolicy};
use shader_arena::{Handle, UniqueArena};
use shader_info::FunctionInfo;
use shader_ir::{Function, FunctionArgument, Module, Statement, Type, TypeInner, mark};
use shader_passes::flatten::statements_of;
use std::alloc::{AllocError, Global};
use std::collections::HashSet;

/// Returns the type that a pointer points to, if it is in the arena.
fn pointed(inner: &TypeInner) -> Option<Handle<mark::Type>>
    ensures { result ≡ pointed inner.now }
{
    match inner {
        TypeInner::Pointer { base, .. } => Some(*base),
        _ => None,
    }
}

/// Returns the type that a pointer of the type at a handle points to.
fn pointed_at(
    types: &UniqueArena<Type, mark::Type>,
    ty: Handle<mark::Type>,
) -> Option<Handle<mark::Type>>
    ensures { result ≡ pointed_at types.now ty }
{
    if types.contains_handle(ty) {
        pointed(&types[ty].inner)
    } else {
        None
    }
}

fn add(locals: &mut HashSet<Handle<mark::Type>>, ty: Handle<mark::Type>) -> Result<(), AllocError>
    ensures { OnOk result (Adds (Contains locals.old.keys) (Contains locals.new.keys) (λ e. ty ≡ e)) }
{
    locals.insert(ty)?;
    Ok(())
}

/// Adds the pointee's type of the parameter if the argument may be out of bounds.
fn add_passed(
    module: &Module,
    function: &Function,
    info: &FunctionInfo,
    parameter: &FunctionArgument,
    argument: Handle<mark::Expression>,
    locals: &mut HashSet<Handle<mark::Type>>,
) -> Result<(), AllocError>
    requires { AtEach OperandsBelow function.now.expressions }
    ensures { OnOk result (Adds (Contains locals.old.keys) (Contains locals.new.keys)
        (λ ty. PassesUnchecked «module».now function.now (Records info.now) ty parameter.now argument)) }
{
    match pointed_at(&module.types, parameter.ty) {
        Some(ty) => {
            if chain_needs_check(module, function, info, argument) {
                add(locals, ty)?;
            }
        }
        None => {}
    }
    Ok(())
}

/// Adds the types of parameters with these arguments.
fn add_arguments(
    module: &Module,
    function: &Function,
    info: &FunctionInfo,
    parameters: &[FunctionArgument],
    arguments: &[Handle<mark::Expression>],
    locals: &mut HashSet<Handle<mark::Type>>,
) -> Result<(), AllocError>
    requires { AtEach OperandsBelow function.now.expressions }
    ensures { OnOk result (Adds (Contains locals.old.keys) (Contains locals.new.keys)
        (PairsPass «module».now function.now (Records info.now) (zip parameters.now arguments.now))) }
{
    for (parameter, argument) in parameters.iter().zip(arguments.iter()) {
        add_passed(module, function, info, parameter, *argument, locals)?;
    }
    Ok(())
}

/// Returns a function of the module, if it is in range.
fn called(module: &Module, callee: Handle<mark::Function>) -> Option<&Function>
    ensures { option_copied result ≡ slice_get «module».now.functions callee }
{
    if module.functions.contains_handle(callee) {
        Some(&module.functions[callee])
    } else {
        None
    }
}

/// Adds the types of a call.
fn add_call(
    module: &Module,
    function: &Function,
    info: &FunctionInfo,
    callee: Handle<mark::Function>,
    arguments: &[Handle<mark::Expression>],
    locals: &mut HashSet<Handle<mark::Type>>,
) -> Result<(), AllocError>
    requires { AtEach OperandsBelow function.now.expressions }
    ensures { OnOk result (Adds (Contains locals.old.keys) (Contains locals.new.keys)
        (λ ty. CallPasses «module».now function.now (Records info.now) ty callee arguments.now)) }
{
    match called(module, callee) {
        Some(called) => {
            let parameters = called.arguments.as_slice();
            add_arguments(module, function, info, parameters, arguments, locals)
        }
        None => Ok(()),
    }
}

/// Adds the types of a statement, except those of its blocks.
fn add_statement(
    module: &Module,
    function: &Function,
    info: &FunctionInfo,
    statement: &Statement,
    locals: &mut HashSet<Handle<mark::Type>>,
) -> Result<(), AllocError>
    requires { AtEach OperandsBelow function.now.expressions }
    ensures { OnOk result (Adds (Contains locals.old.keys) (Contains locals.new.keys)
        (λ ty. StepPasses «module».now function.now (Records info.now) ty (step_of statement.now))) }
{
    match statement {
        Statement::Call {
            function: callee,
            arguments,
            ..
        } => add_call(
            module,
            function,
            info,
            *callee,
            arguments.as_slice(),
            locals,
        ),
        _ => Ok(()),
    }
}

/// Adds the types of all statements.
fn add_statements(
    module: &Module,
    function: &Function,
    info: &FunctionInfo,
    all: &[&Statement],
    locals: &mut HashSet<Handle<mark::Type>>,
) -> Result<(), AllocError>
    requires { AtEach OperandsBelow function.now.expressions }
    ensures { OnOk result (Adds (Contains locals.old.keys) (Contains locals.new.keys)
        (AllPass «module».now function.now (Records info.now) (steps_of all.now))) }
{
    for statement in all {
        add_statement(module, function, info, statement, locals)?;
    }
    Ok(())
}

/// Returns the statements of a function, at any depth.
fn all_statements(alloc: Global, function: &Function) -> Result<Vec<&Statement>, AllocError>
    ensures { IfOk result (λ all. steps_of all.items ≡ statements function.now.body) }
{
    statements_of(alloc, &function.body)
}

/// Returns the types that need a local variable if indexes out of bounds read zero.
fn needed_locals(
    alloc: Global,
    module: &Module,
    function: &Function,
    info: &FunctionInfo,
) -> Result<HashSet<Handle<mark::Type>>, AllocError>
    requires { AtEach OperandsBelow function.now.expressions }
    ensures { IfOk result (λ locals. (ty : ℕ) → Contains locals.keys ty ↔ NeedsLocal «module».now function.now (Records info.now) ty) }
{
    let mut locals = HashSet::new(alloc);
    let all = all_statements(alloc, function)?;
    add_statements(module, function, info, all.as_slice(), &mut locals)?;
    Ok(locals)
}

/// Returns the types that need a local variable to replace the pointee of a pointer out of bounds: those to which the parameters of called
/// functions point, if an argument is reached by accesses one of which needs a check, except accesses to members of structs. There are none
/// if `index` has another policy than `ReadZeroSkipWrite`.
///
/// The module is well formed if `check_module` returns `Ok`.
///
/// # Errors
///
/// `AllocError` if allocating one reference per statement or one entry per type fails. Only `ReadZeroSkipWrite` allocates.
pub fn oob_local_types(
    alloc: Global,
    module: &Module,
    function: &Function,
    info: &FunctionInfo,
    policies: BoundsCheckPolicies,
) -> Result<HashSet<Handle<mark::Type>>, AllocError>
    requires well_formed { IsWellFormed «module».now }
    requires function { IsFunctionOf «module».now function.now }
    ensures types { IfOk result (λ locals. (ty : ℕ) → Contains locals.keys ty
        ↔ IsOutOfBoundsType «module».now function.now (Records info.now) policies ty) }
    ensures free { (policies.index ≡ ReadZeroSkipWrite → ⊥) → IsOk result }
{
    if policies.index == BoundsCheckPolicy::ReadZeroSkipWrite {
        needed_locals(alloc, module, function, info)
    } else {
        Ok(HashSet::new(alloc))
    }
}
