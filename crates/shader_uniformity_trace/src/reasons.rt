//! The reason why each expression of a function, and its result, may differ among invocations: the next link to a source.
ghost use Rattle.std.specs.Prelude.{◌≡◌, [], IfOk};
ghost use Rattle.std.specs.List.{enumerate_from};
ghost use Rattle.shader_ir.specs.BodyOf.{step_of};
ghost use Rattle.shader_passes.specs.StatementLists.{steps_of};
ghost use Rattle.shader_uniformity_trace.specs.Reasons.{by_callee, first_given, first_reason, statement_reason, led_to, operand_reason};
ghost use Rattle.shader_uniformity_trace.specs.Reasons.{own_reason};
ghost use Rattle.shader_uniformity_trace.specs.Reasons.{reason_at, result_reason_at, reasons_after};

use crate::link::{FunctionLocation, Link};
use shader_arena::Handle;
use shader_ir::proc::{Operands, expression_operands, statement_operands};
use shader_ir::{Expression, Function, Module, Statement, mark};
use shader_passes::facts::callee_of;
use shader_passes::sources::is_source;
use std::alloc::{AllocError, Global};

/// The reason why a value may differ among invocations.
#[derive(Clone, Copy)]
pub enum Reason {
    /// The value is a source.
    Source,
    /// The value depends on this one, which may differ.
    Through(Link),
}

/// The reasons for the values of a function, or `None` for a value that is uniform.
#[derive(Drop)]
pub struct Trace {
    /// The reason for each expression.
    pub expressions: Vec<Option<Reason>>,
    /// The reason for the function's result.
    pub result: Option<Reason>,
}

/// Returns the reason for an expression.
pub fn reason_at(reasons: &[Option<Reason>], expression: Handle<mark::Expression>) -> Option<Reason>
    ensures { result ≡ reason_at reasons.now expression }
{
    match reasons.get(expression.index()) {
        Some(reason) => *reason,
        None => None,
    }
}

/// Returns the reason for a function's result.
pub fn result_reason_at(traces: &[Trace], index: usize) -> Option<Reason>
    ensures { result ≡ result_reason_at traces.now index }
{
    match traces.get(index) {
        Some(trace) => trace.result,
        None => None,
    }
}

/// Returns the reason for a value that depends on the link, given the reason for the link.
fn led_to(link: Link, reason: Option<Reason>) -> Option<Reason>
    ensures { result ≡ led_to link reason }
{
    match reason {
        Some(_) => Some(Reason::Through(link)),
        None => None,
    }
}

/// Returns the reason by an operand.
fn operand_reason(
    location: &FunctionLocation,
    reasons: &[Option<Reason>],
    operand: Handle<mark::Expression>,
) -> Option<Reason>
    ensures { result ≡ operand_reason location.now reasons.now operand }
{
    led_to(
        Link::Expression(*location, operand),
        reason_at(reasons, operand),
    )
}

/// Returns the reason by the first operand that may differ.
fn first_reason(
    location: &FunctionLocation,
    reasons: &[Option<Reason>],
    operands: Operands<'_>,
) -> Option<Reason>
    ensures { result ≡ first_reason location.now reasons.now operands.entry }
{
    for (operand, _) in operands {
        if let Some(reason) = operand_reason(location, reasons, operand) {
            return Some(reason);
        }
    }
    None
}

/// Returns the reason by the result of a callee.
fn by_callee(traces: &[Trace], callee: Option<Handle<mark::Function>>) -> Option<Reason>
    ensures { result ≡ by_callee traces.now callee }
{
    match callee {
        Some(function) => {
            let link = Link::Result(FunctionLocation::Function(function));
            led_to(link, result_reason_at(traces, function.index()))
        }
        None => None,
    }
}

/// Returns the reason for an expression, given those for the expressions before it.
fn own_reason(
    module: &Module,
    traces: &[Trace],
    location: &FunctionLocation,
    function: &Function,
    reasons: &[Option<Reason>],
    expression: &Expression,
) -> Option<Reason>
    ensures { result ≡ own_reason «module».now traces.now location.now function.now reasons.now expression.now }
{
    if is_source(module, function, expression) {
        return Some(Reason::Source);
    }
    by_callee(traces, callee_of(expression)).or(first_reason(
        location,
        reasons,
        expression_operands(expression),
    ))
}

/// Computes the reasons for the expressions of a function.
///
/// # Errors
///
/// `AllocError` if the memory for one reason per expression can't be allocated.
pub fn reasons_of(
    alloc: Global,
    module: &Module,
    traces: &[Trace],
    location: &FunctionLocation,
    function: &Function,
) -> Result<Vec<Option<Reason>>, AllocError>
    ensures { IfOk result (λ reasons. reasons.items ≡ reasons_after «module».now traces.now location.now function.now []
        (enumerate_from 0 function.now.expressions)) }
{
    let mut reasons = Vec::with_capacity(alloc, function.expressions.len())?;
    for (_, expression) in function.expressions.iter() {
        let reason = own_reason(module, traces, location, function, &reasons, expression);
        reasons.push(reason)?;
    }
    Ok(reasons)
}

/// Returns the reason that a statement contributes for the function's result.
fn statement_reason(
    location: &FunctionLocation,
    traces: &[Trace],
    reasons: &[Option<Reason>],
    statement: &Statement,
) -> Option<Reason>
    ensures { result ≡ statement_reason location.now traces.now reasons.now (step_of statement.now) }
{
    match statement {
        Statement::Return { .. } | Statement::CooperativeStore { .. } => {
            first_reason(location, reasons, statement_operands(statement))
        }
        Statement::Call { function, .. } => by_callee(traces, Some(*function)),
        _ => None,
    }
}

/// Returns the reason by the first statement that makes the function's result differ.
pub fn first_given(
    location: &FunctionLocation,
    traces: &[Trace],
    reasons: &[Option<Reason>],
    all: &[&Statement],
) -> Option<Reason>
    ensures { result ≡ first_given location.now traces.now reasons.now (steps_of all.now) }
{
    for statement in all {
        if let Some(reason) = statement_reason(location, traces, reasons, statement) {
            return Some(reason);
        }
    }
    None
}
