//! Whether an expression may as well be computed at the start of its function: then it reads nothing that changes.
ghost use Rattle.std.specs.Prelude.{◌≡◌, true, IfOk};
ghost use Rattle.std.specs.List.{list_all};
ghost use Rattle.report_findings.specs.Steady.{IsSteady, changes, has_steady_operands, is_argument, is_let, is_steady_by, is_steady_next};
ghost use Rattle.report_findings.specs.Steady.{is_steady_value, steady_table};

use shader_arena::Handle;
use shader_ir::proc::expression_operands;
use shader_ir::{Expression, Function, Module, mark};
use shader_uniformity::Place;
use shader_uniformity::places::{place_at, places};
use std::alloc::{AllocError, Global};

/// Checks whether what an expression of that form reads may change, where it leads to memory of that place. Its operands may change, too.
pub fn changes(expression: &Expression, place: Place) -> bool
    ensures { result ≡ changes place expression.now }
{
    match expression {
        Expression::GlobalVariable(_) => !matches!(place, Place::Fixed),
        Expression::LocalVariable(_)
        | Expression::CallResult(_)
        | Expression::AtomicResult { .. }
        | Expression::WorkGroupUniformLoadResult { .. }
        | Expression::RayQueryProceedResult
        | Expression::RayQueryVertexPositions { .. }
        | Expression::RayQueryGetIntersection { .. }
        | Expression::SubgroupBallotResult
        | Expression::SubgroupOperationResult { .. } => true,
        _ => false,
    }
}

/// Checks whether an expression is an argument.
fn is_argument(expression: &Expression) -> bool
    ensures { result ≡ is_argument expression.now }
{
    matches!(expression, Expression::FunctionArgument(_))
}

/// Checks whether an expression is named by a `let`, which stands where it is computed.
fn is_let(function: &Function, handle: Handle<mark::Expression>) -> bool
    ensures { result ≡ is_let function.now handle }
{
    let is_named = function.named_expressions.get(&handle).is_some();
    match function.expressions.try_get(handle) {
        Some(expression) => is_named && !is_argument(expression),
        None => is_named,
    }
}

/// Checks whether the table of the first expressions has an expression, and as steady.
fn is_steady_by(steady: &[bool], handle: Handle<mark::Expression>) -> bool
    ensures { result ≡ is_steady_by steady.now handle }
{
    match steady.get(handle.index()) {
        Some(is_steady) => *is_steady,
        None => false,
    }
}

/// Checks whether an expression is steady by a table, and no `let`.
fn is_steady_value(function: &Function, steady: &[bool], handle: Handle<mark::Expression>) -> bool
    ensures { result ≡ is_steady_value function.now steady.now handle }
{
    !is_let(function, handle) && is_steady_by(steady, handle)
}

/// Checks whether the operands of an expression are steady by a table, and none is a `let`.
fn has_steady_operands(function: &Function, steady: &[bool], expression: &Expression) -> bool
    ensures { result ≡ has_steady_operands function.now steady.now expression.now }
{
    for (operand, _) in expression_operands(expression) {
        if !is_steady_value(function, steady, operand) {
            return false;
        }
    }
    true
}

/// Checks whether an expression reads nothing that changes, and the table has its operands as steady.
fn is_steady_next(
    function: &Function,
    places: &[Place],
    steady: &[bool],
    handle: Handle<mark::Expression>,
    expression: &Expression,
) -> bool
    ensures { result ≡ is_steady_next function.now places.now steady.now handle expression.now }
{
    !changes(expression, place_at(places, handle))
        && has_steady_operands(function, steady, expression)
}

/// Returns for each expression of an entry point whether it reads nothing that changes while the entry point runs, and its text names no
/// `let`.
///
/// # Errors
///
/// `AllocError` if an allocation fails.
pub fn steady_expressions(
    alloc: Global,
    module: &Module,
    function: &Function,
) -> Result<Vec<bool>, AllocError>
    ensures { IfOk result (λ steady. steady.items ≡ steady_table «module».now function.now) }
{
    let places = places(alloc, module, &function.expressions)?;
    let mut steady = Vec::new(alloc);
    for (handle, expression) in function.expressions.iter() {
        let is_steady = is_steady_next(
            function,
            places.as_slice(),
            steady.as_slice(),
            handle,
            expression,
        );
        steady.push(is_steady)?;
    }
    Ok(steady)
}

/// Returns whether an expression of an entry point reads nothing that changes while the entry point runs, and its text names no `let`.
///
/// # Errors
///
/// `AllocError` if an allocation fails.
pub fn is_steady(
    alloc: Global,
    module: &Module,
    function: &Function,
    expression: Handle<mark::Expression>,
) -> Result<bool, AllocError>
    ensures { IfOk result (λ found. found ≡ true → IsSteady «module».now function.now expression) }
{
    let steady = steady_expressions(alloc, module, function)?;
    Ok(is_steady_by(steady.as_slice(), expression))
}

/// Checks whether some expressions of an entry point are steady by a table, and none is a `let`.
pub fn are_steady_values(
    function: &Function,
    steady: &[bool],
    values: &[Handle<mark::Expression>],
) -> bool
    ensures { result ≡ list_all (is_steady_value function.now steady.now) values.now }
{
    values
        .iter()
        .all(|value| is_steady_value(function, steady, *value))
}
