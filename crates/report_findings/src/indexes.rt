//! The argument by which the index of an array of resources may differ between invocations.

use report_places::{BodyPlace, expression_at};
use shader_arena::Handle;
use shader_ir::proc::expression_operands;
use shader_ir::{Expression, Function, Module, Statement, mark};
use std::alloc::{AllocError, Global};

/// The most expressions that are looked at.
const MOST_EXPRESSIONS: usize = 64;

/// Returns the value that a function returns at its end.
fn returned(function: &Function) -> Option<Handle<mark::Expression>> {
    match function.body.statements.as_slice().last()? {
        Statement::Return { value } => *value,
        _ => None,
    }
}

/// Returns the nearest argument from which the value of an expression is computed.
fn argument_within(
    alloc: Global,
    function: &Function,
    value: Handle<mark::Expression>,
) -> Result<Option<u32>, AllocError> {
    let mut pending = Vec::new(alloc);
    pending.push(value)?;
    for position in 0..MOST_EXPRESSIONS {
        let Some(handle) = pending.as_slice().get(position) else {
            return Ok(None);
        };
        match function.expressions.try_get(*handle) {
            Some(Expression::FunctionArgument(index)) => return Ok(Some(*index)),
            Some(expression) => {
                for (operand, _) in expression_operands(expression) {
                    pending.push(operand)?;
                }
            }
            None => {}
        }
    }
    Ok(None)
}

/// Returns the argument of a called function from which its result is computed.
fn argument_of_call(
    alloc: Global,
    module: &Module,
    callee: Handle<mark::Function>,
) -> Result<Option<(BodyPlace, u32)>, AllocError> {
    let Some(function) = module.functions.try_get(callee) else {
        return Ok(None);
    };
    let Some(value) = returned(function) else {
        return Ok(None);
    };
    match argument_within(alloc, function, value)? {
        Some(index) => Ok(Some((BodyPlace::Function(callee.index()), index))),
        None => Ok(None),
    }
}

/// Returns the argument that is the index of an access, or from which a called function computes it, with the function that has it.
pub fn index_argument(
    alloc: Global,
    module: &Module,
    place: &BodyPlace,
    access: Handle<mark::Expression>,
) -> Result<Option<(BodyPlace, u32)>, AllocError> {
    let Some(Expression::Access { index, .. }) = expression_at(module, place, access) else {
        return Ok(None);
    };
    match expression_at(module, place, *index) {
        Some(Expression::FunctionArgument(argument)) => Ok(Some((*place, *argument))),
        Some(Expression::CallResult(callee)) => argument_of_call(alloc, module, *callee),
        _ => Ok(None),
    }
}
