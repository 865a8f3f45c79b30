//! The samples of a derivative in a branch, on a uniform condition and on one that isn't.
ghost use Rattle.std.specs.Prelude.{◌≡◌, IfOk};
ghost use Rattle.shader_ir.specs.BodyOf.{body_of};
ghost use Rattle.shader_ir.specs.declared.types.AddressSpace.TheVariants.{Uniform};
ghost use Rattle.shader_samples.specs.Samples.{derivative_of_first, derivative_off_module, on_shared, on_varying};
ghost use Rattle.shader_samples.specs.Samples.{over_two_vectors, storing, variable, with_derivatives};

use crate::builders::{
    at, branch, derivatives_off, emit, function_of, global, module_of, number, resource, store,
};
use shader_arena::Handle;
use shader_ir::{
    AddressSpace, DerivativeAxis, DerivativeControl, Expression, Function, GlobalVariable, Module,
    Scalar, Statement, TypeInner, VectorSize,
};
use std::alloc::{AllocError, Global};

fn derivative_of_first() -> Expression
    ensures { result ≡ derivative_of_first }
{
    Expression::Derivative {
        axis: DerivativeAxis::X,
        ctrl: DerivativeControl::None,
        expr: at(0),
    }
}

fn uniform(ty: u32) -> GlobalVariable
    ensures { result ≡ variable Uniform ty }
{
    GlobalVariable {
        name: None,
        space: AddressSpace::Uniform,
        ty: Handle::from_index(ty),
        init: None,
    }
}

/// Builds a function of these statements over the expressions `0u`, `dpdx(0u)`, `v`, `u`, `arrayLength(&u)` and `v.y`.
fn function(alloc: Global, statements: Vec<Statement>) -> Result<Function, AllocError>
    ensures { IfOk result (λ built. built ≡ with_derivatives (body_of statements.items)) }
{
    let (base, index) = (at(2), 1);
    let expressions = vec![in alloc;
        number(0),
        derivative_of_first(),
        global(0),
        global(1),
        Expression::ArrayLength(at(3)),
        Expression::AccessIndex { base, index },
    ]?;
    function_of(alloc, expressions, statements)
}

fn over_two_vectors(alloc: Global, function: Function) -> Result<Module, AllocError>
    ensures { IfOk result (λ built. built ≡ over_two_vectors function) }
{
    let ty = TypeInner::Vector {
        size: VectorSize::Bi,
        scalar: Scalar::F32,
    };
    let types = vec![in alloc; ty]?;
    let globals = vec![in alloc; resource(0), uniform(0)]?;
    module_of(alloc, types, globals, vec![in alloc; function]?)
}

/// Builds a module with a function of these statements, over expressions that no front end would write: `0u`, `dpdx(0u)`, `v`, `u`,
/// `arrayLength(&u)` and `v.y`, where `v` and `u` are vectors of two floats. The first may differ among invocations, the second doesn't.
///
/// # Errors
///
/// `AllocError` if allocation fails.
pub fn with_derivatives(alloc: Global, statements: Vec<Statement>) -> Result<Module, AllocError>
    ensures { IfOk result (λ built. built ≡ over_two_vectors (with_derivatives (body_of statements.items))) }
{
    over_two_vectors(alloc, function(alloc, statements)?)
}

/// Returns the statements `0u = dpdx(0u);`.
fn store_derivative(alloc: Global) -> Result<Vec<Statement>, AllocError>
    ensures { IfOk result (λ built. body_of built.items ≡ storing) }
{
    Ok(vec![in alloc; emit(0, 2), store(0, 1)]?)
}

/// Builds a module that takes the derivative in a branch on `u`, which is uniform.
///
/// ```text
/// if u {} else { 0u = dpdx(0u); }
/// ```
///
/// # Errors
///
/// `AllocError` if allocation fails.
pub fn derivative_uniform(alloc: Global) -> Result<Module, AllocError>
    ensures { IfOk result (λ built. built ≡ over_two_vectors (with_derivatives on_shared)) }
{
    let choice = branch(3, Vec::new(alloc), store_derivative(alloc)?);
    with_derivatives(alloc, vec![in alloc; emit(2, 4), choice]?)
}

/// Returns the statements `if v { 0u = dpdx(0u); }`.
fn on_what_differs(alloc: Global) -> Result<Vec<Statement>, AllocError>
    ensures { IfOk result (λ built. body_of built.items ≡ on_varying) }
{
    let choice = branch(2, store_derivative(alloc)?, Vec::new(alloc));
    Ok(vec![in alloc; emit(2, 4), choice]?)
}

/// Builds a module that takes the derivative in a branch on `v`, which may differ among invocations.
///
/// ```text
/// if v { 0u = dpdx(0u); }
/// ```
///
/// # Errors
///
/// `AllocError` if allocation fails.
pub fn derivative(alloc: Global) -> Result<Module, AllocError>
    ensures { IfOk result (λ built. built ≡ over_two_vectors (with_derivatives on_varying)) }
{
    with_derivatives(alloc, on_what_differs(alloc)?)
}

/// Builds `derivative` with `@diagnostic(off, derivative_uniformity)` on the function.
///
/// # Errors
///
/// `AllocError` if allocation fails.
pub fn derivative_off(alloc: Global) -> Result<Module, AllocError>
    ensures { IfOk result (λ built. built ≡ derivative_off_module) }
{
    let filters = derivatives_off(alloc)?;
    let mut function = function(alloc, on_what_differs(alloc)?)?;
    function.diagnostic_filter_leaf = Some(Handle::from_index(0));
    let mut module = over_two_vectors(alloc, function)?;
    module.diagnostic_filters = filters;
    Ok(module)
}
