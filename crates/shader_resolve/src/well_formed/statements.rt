//! Checks of statements, at any depth.
ghost use Rattle.std.specs.Prelude.{◌≡◌, slice_get};
ghost use Rattle.shader_arena.specs.Positions.{positions_between};
ghost use Rattle.shader_ir.specs.BodyOf.{step_of};
ghost use Rattle.shader_resolve.specs.ModuleTests.{all_below, check_statement, counts_match, in_body};
ghost use Rattle.shader_resolve.specs.ModuleTests.{in_within, is_emitted, statement_in_range, takes_arguments};
ghost use Rattle.shader_resolve.specs.Statements.{proceed_result, statement_callee, statement_result};

use super::expressions::{is_below, is_optional_below};
use super::operands::statement_operands_below;
use super::{Bounds, ModuleFault};
use shader_arena::{Handle, Range};
use shader_ir::{Block, Module, RayQueryFunction, Statement, mark};

/// Returns the first violation in a block's statements, each statement before those in its blocks.
#[cycle(blocks)]
pub fn check_block(block: &Block, module: &Module, bounds: Bounds) -> Result<(), ModuleFault>
    ensures { result ≡ in_body (check_statement «module».now bounds) block.now }
{
    for statement in &block.statements {
        check_statement(module, bounds, statement)?;
        check_blocks(statement, module, bounds)?;
    }
    Ok(())
}

/// Returns the first violation in the blocks of a statement.
#[cycle(blocks)]
fn check_blocks(statement: &Statement, module: &Module, bounds: Bounds) -> Result<(), ModuleFault>
    ensures { result ≡ in_within (check_statement «module».now bounds) (step_of statement.now) }
{
    match statement {
        Statement::Block(block) => check_block(block, module, bounds),
        Statement::If { accept, reject, .. } => {
            check_block(accept, module, bounds)?;
            check_block(reject, module, bounds)
        }
        Statement::Switch { cases, .. } => {
            for case in cases {
                check_block(&case.body, module, bounds)?;
            }
            Ok(())
        }
        Statement::Loop {
            body,
            continuing,
            ..
        } => {
            check_block(body, module, bounds)?;
            check_block(continuing, module, bounds)
        }
        _ => Ok(()),
    }
}

/// Returns the first violation of a statement, without the statements in its blocks.
fn check_statement(
    module: &Module,
    bounds: Bounds,
    statement: &Statement,
) -> Result<(), ModuleFault>
    ensures { result ≡ check_statement «module».now bounds (step_of statement.now) }
{
    if !statement_in_range(module, bounds.expressions, statement) {
        return Err(ModuleFault::HandleOutOfRange);
    }
    if !is_optional_below(statement_callee(statement), bounds.earlier) {
        return Err(ModuleFault::CalleeNotEarlier);
    }
    if !counts_match(module, statement) {
        return Err(ModuleFault::ArgumentCount);
    }
    if !is_emitted(bounds.expressions, statement) {
        return Err(ModuleFault::EmitRange);
    }
    Ok(())
}

/// Returns whether the handles of a statement are in range, except the range of an `Emit`.
fn statement_in_range(module: &Module, expressions: usize, statement: &Statement) -> bool
    ensures { result ≡ statement_in_range «module».now expressions (step_of statement.now) }
{
    statement_operands_below(statement, expressions)
        && is_optional_below(statement_result(statement), expressions)
        && is_optional_below(statement_callee(statement), module.functions.len())
}

/// Returns the expression that stands for a statement's result.
fn statement_result(statement: &Statement) -> Option<Handle<mark::Expression>>
    ensures { result ≡ statement_result (step_of statement.now) }
{
    match statement {
        Statement::Call { result, .. } => *result,
        Statement::Atomic { result, .. }
        | Statement::WorkGroupUniformLoad { result, .. }
        | Statement::SubgroupBallot { result, .. }
        | Statement::SubgroupGather { result, .. }
        | Statement::SubgroupCollectiveOperation { result, .. } => Some(*result),
        Statement::RayQuery { fun, .. } => proceed_result(*fun),
        Statement::Emit(_)
        | Statement::Block(_)
        | Statement::If { .. }
        | Statement::Switch { .. }
        | Statement::Loop { .. }
        | Statement::Break
        | Statement::Continue
        | Statement::Return { .. }
        | Statement::Kill
        | Statement::ControlBarrier(_)
        | Statement::MemoryBarrier(_)
        | Statement::Store { .. }
        | Statement::ImageStore { .. }
        | Statement::ImageAtomic { .. }
        | Statement::RayPipelineFunction(_)
        | Statement::CooperativeStore { .. } => None,
    }
}

fn proceed_result(fun: RayQueryFunction) -> Option<Handle<mark::Expression>>
    ensures { result ≡ proceed_result fun }
{
    match fun {
        RayQueryFunction::Proceed { result } => Some(result),
        RayQueryFunction::Initialize { .. }
        | RayQueryFunction::GenerateIntersection { .. }
        | RayQueryFunction::ConfirmIntersection
        | RayQueryFunction::Terminate => None,
    }
}

/// Returns the function that a statement calls.
fn statement_callee(statement: &Statement) -> Option<Handle<mark::Function>>
    ensures { result ≡ statement_callee (step_of statement.now) }
{
    match statement {
        Statement::Call { function, .. } => Some(*function),
        _ => None,
    }
}

/// Returns whether a statement passes as many arguments as its callee takes, if it calls a function in range.
fn counts_match(module: &Module, statement: &Statement) -> bool
    ensures { result ≡ counts_match «module».now (step_of statement.now) }
{
    match statement {
        Statement::Call {
            function,
            arguments,
            ..
        } => takes_arguments(module, *function, arguments.len()),
        _ => true,
    }
}

fn takes_arguments(module: &Module, callee: Handle<mark::Function>, count: usize) -> bool
    ensures { result ≡ takes_arguments (slice_get «module».now.functions callee) count }
{
    if !module.functions.contains_handle(callee) {
        return true;
    }
    module.functions[callee].arguments.len() == count
}

/// Returns whether the expressions that a statement emits are below a bound.
fn is_emitted(expressions: usize, statement: &Statement) -> bool
    ensures { result ≡ is_emitted expressions (step_of statement.now) }
{
    match statement {
        Statement::Emit(range) => range_below(range, expressions),
        _ => true,
    }
}

/// Returns whether a range is below a bound. The last handle decides, so the time doesn't depend on the length of the range.
#[tactic(auto, using(crate::proofs::RangeLemmas::positions_below))]
fn range_below(range: &Range<mark::Expression>, bound: usize) -> bool
    ensures { result ≡ all_below bound (positions_between range.now.0 range.now.1) }
{
    match range.first_and_last() {
        Some((_, last)) => is_below(last, bound),
        None => true,
    }
}
