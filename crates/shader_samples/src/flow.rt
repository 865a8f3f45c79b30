//! The samples of an expression that needs uniform flow after a return that only some invocations reach.
ghost use Rattle.std.specs.Prelude.{◌≡◌, ◌≤◌, [], ◌∷◌, length, IfOk, None, false, pos, true};
ghost use Rattle.shader_arena.specs.Positions.{most_items};
ghost use Rattle.shader_ir.specs.Body.{Emit, End, If, Leaf, Return};
ghost use Rattle.shader_ir.specs.BodyOf.{body_of};
ghost use Rattle.shader_ir.specs.declared.statement.SwitchValue.TheVariants.{Default, I32};
ghost use Rattle.shader_samples.specs.Samples.{exit_module, exit_off_module, just, matrix_load, over_a_float, switching, with_matrix};

use crate::builders::{
    argument, at, branch, case, derivatives_off, emit, function_of, global, module_of, number,
    storage,
};
use shader_arena::Handle;
use shader_ir::{
    CooperativeData, CooperativeRole, CooperativeSize, Expression, Function, Items, Literal,
    Module, Scalar, Statement, SwitchCase, SwitchValue, TypeInner,
};
use std::alloc::{AllocError, Global};

/// Returns the load of a matrix of 8 columns and 8 rows at expression 2, with expression 3 as the stride of columns.
fn load() -> Expression
    ensures { result ≡ matrix_load }
{
    Expression::CooperativeLoad {
        columns: CooperativeSize::Eight,
        rows: CooperativeSize::Eight,
        role: CooperativeRole::A,
        tile: CooperativeData {
            pointer: at(2),
            stride: at(3),
            row_major: false,
        },
    }
}

/// Builds a function of these statements over its argument `b`, a bool, and the expressions `b`, `0i`, `g`, `8u` and
/// `coopLoad<coop_mat8x8<f32, A>>(&g, 8u)`, a matrix that a whole subgroup has to load.
///
/// # Errors
///
/// `AllocError` if allocation fails.
pub fn with_matrix(alloc: Global, statements: Vec<Statement>) -> Result<Function, AllocError>
    ensures { IfOk result (λ built. built ≡ with_matrix (body_of statements.items)) }
{
    let expressions = vec![in alloc;
        Expression::FunctionArgument(0),
        Expression::Literal(Literal::I32(0)),
        global(0),
        number(8),
        load(),
    ]?;
    let mut function = function_of(alloc, expressions, statements)?;
    function.arguments = Items::from(vec![in alloc; argument(1)]?);
    Ok(function)
}

/// Builds a module of the functions over `var<storage, read_write> g: f32`. Type 1 is bool.
///
/// # Errors
///
/// `AllocError` if allocation fails.
pub fn over_a_float(alloc: Global, functions: Vec<Function>) -> Result<Module, AllocError>
    requires { length functions.items ≤ most_items }
    ensures { IfOk result (λ built. built ≡ over_a_float functions.items) }
{
    let types = vec![in alloc;
        TypeInner::Scalar(Scalar::F32),
        TypeInner::Scalar(Scalar::BOOL),
    ]?;
    module_of(alloc, types, vec![in alloc; storage(0)]?, functions)
}

/// Builds `case 0: { if b { return; } }`.
fn first_case(alloc: Global, fall_through: bool) -> Result<SwitchCase, AllocError>
    ensures { IfOk result (λ built. built ≡ record {
      value = I32 (pos 0);
      body = just (If 0 (just (Leaf (Return None))) End);
      fall_through =
          fall_through;
    }) }
{
    let exit = vec![in alloc; Statement::Return { value: None }]?;
    let statements = vec![in alloc; branch(0, exit, Vec::new(alloc))]?;
    Ok(case(SwitchValue::I32(0), statements, fall_through))
}

/// Builds `default: { coopLoad<..>(..); }`.
fn last_case(alloc: Global) -> Result<SwitchCase, AllocError>
    ensures { IfOk result (λ built. built ≡ record { value = Default; body = just (Leaf (Emit 4 5)); fall_through = false }) }
{
    let statements = vec![in alloc; emit(4, 5)]?;
    Ok(case(SwitchValue::Default, statements, false))
}

fn switching(alloc: Global, fall_through: bool) -> Result<Function, AllocError>
    ensures { IfOk result (λ built. built ≡ switching fall_through) }
{
    let cases = vec![in alloc; first_case(alloc, fall_through)?, last_case(alloc)?]?;
    let selector = at(1);
    let statements = vec![in alloc; Statement::Switch { selector, cases }]?;
    with_matrix(alloc, statements)
}

/// Builds a module that loads a matrix for a whole subgroup in a case that another case falls into, from which some invocations have
/// returned. WGSL has no such fall-through:
///
/// ```text
/// var<storage, read_write> g: f32;
/// fn f(b: bool) {
///     switch 0 {
///         case 0: { if b { return; } fallthrough; }
///         default: { coopLoad<coop_mat8x8<f32, A>>(&g, 8u); }
///     }
/// }
/// ```
///
/// # Errors
///
/// `AllocError` if allocation fails.
pub fn exit(alloc: Global) -> Result<Module, AllocError>
    ensures { IfOk result (λ built. built ≡ exit_module true) }
{
    let function = switching(alloc, true)?;
    over_a_float(alloc, vec![in alloc; function]?)
}

/// Builds `exit` without the fall-through: either some invocations return, or all load the matrix.
///
/// # Errors
///
/// `AllocError` if allocation fails.
pub fn no_fall(alloc: Global) -> Result<Module, AllocError>
    ensures { IfOk result (λ built. built ≡ exit_module false) }
{
    let function = switching(alloc, false)?;
    over_a_float(alloc, vec![in alloc; function]?)
}

/// Builds `exit` with `@diagnostic(off, derivative_uniformity)` on the function.
///
/// # Errors
///
/// `AllocError` if allocation fails.
pub fn exit_off(alloc: Global) -> Result<Module, AllocError>
    ensures { IfOk result (λ built. built ≡ exit_off_module) }
{
    let filters = derivatives_off(alloc)?;
    let mut function = switching(alloc, true)?;
    function.diagnostic_filter_leaf = Some(Handle::from_index(0));
    let mut module = over_a_float(alloc, vec![in alloc; function]?)?;
    module.diagnostic_filters = filters;
    Ok(module)
}
