//! Which functions have no effect besides those on their own variables, and read nothing that is written while the shader runs.
ghost use Rattle.std.specs.Prelude.{◌≡◌, IfOk, slice_get};
ghost use Rattle.shader_ir.specs.BodyOf.{cases_of, step_of};
ghost use Rattle.report_findings.specs.Effects.{are_quiet_cases, is_local, is_quiet_at, is_quiet_block, is_quiet_function, is_quiet_step};
ghost use Rattle.report_findings.specs.Effects.{first_quiet, is_quiet_leaf, is_quiet_next, read_own, reads_own};

use crate::steady::changes;
use shader_arena::Handle;
use shader_ir::{Block, Expression, Function, Module, Statement, SwitchCase, mark};
use shader_uniformity::places::{place_at, places};
use shader_uniformity::{Place, function_at};
use std::alloc::{AllocError, Global};

/// Checks whether an expression reads the function's own variables, or nothing that is written, where it leads to memory of that place.
fn reads_own(expression: &Expression, place: Place) -> bool
    ensures { result ≡ reads_own place expression.now }
{
    match expression {
        Expression::LocalVariable(_) | Expression::CallResult(_) => true,
        other => !changes(other, place),
    }
}

/// Checks whether memory is a variable of the function itself.
fn is_local(place: Place) -> bool
    ensures { result ≡ is_local place }
{
    match place {
        Place::Local(_) => true,
        Place::Pointee(_) | Place::Shared | Place::Fixed => false,
    }
}

/// Checks whether the first functions have a function, and as one without an effect.
pub fn is_quiet_at(quiet: &[bool], function: Handle<mark::Function>) -> bool
    ensures { result ≡ is_quiet_at quiet.now function }
{
    match quiet.get(function.index()) {
        Some(is_quiet) => *is_quiet,
        None => false,
    }
}

/// Checks whether a statement without blocks has no effect.
fn is_quiet_leaf(places: &[Place], quiet: &[bool], statement: &Statement) -> bool
    ensures { result ≡ is_quiet_leaf places.now quiet.now (step_of statement.now) }
{
    match statement {
        Statement::Emit(_) | Statement::Break | Statement::Continue | Statement::Return { .. } =>
            true,
        Statement::Store { pointer, .. } => is_local(place_at(places, *pointer)),
        Statement::Call { function, .. } => is_quiet_at(quiet, *function),
        _ => false,
    }
}

/// Checks whether the cases of a statement have no effect.
#[cycle(affecting)]
fn are_quiet_cases(places: &[Place], quiet: &[bool], cases: &[SwitchCase]) -> bool
    ensures { result ≡ are_quiet_cases places.now quiet.now (cases_of cases.now) }
{
    for case in cases {
        if !is_quiet_block(places, quiet, &case.body) {
            return false;
        }
    }
    true
}

/// Checks whether a statement has no effect.
#[cycle(affecting)]
fn is_quiet_statement(places: &[Place], quiet: &[bool], statement: &Statement) -> bool
    ensures { result ≡ is_quiet_step places.now quiet.now (step_of statement.now) }
{
    match statement {
        Statement::Block(inner) => is_quiet_block(places, quiet, inner),
        Statement::If { accept, reject, .. } => {
            is_quiet_block(places, quiet, accept) && is_quiet_block(places, quiet, reject)
        }
        Statement::Loop {
            body,
            continuing,
            ..
        } => is_quiet_block(places, quiet, body) && is_quiet_block(places, quiet, continuing),
        Statement::Switch { cases, .. } => are_quiet_cases(places, quiet, cases.as_slice()),
        other => is_quiet_leaf(places, quiet, other),
    }
}

/// Checks whether the statements of a block have no effect.
#[cycle(affecting)]
fn is_quiet_block(places: &[Place], quiet: &[bool], block: &Block) -> bool
    ensures { result ≡ is_quiet_block places.now quiet.now block.now }
{
    for statement in &block.statements {
        if !is_quiet_statement(places, quiet, statement) {
            return false;
        }
    }
    true
}

/// Checks whether expressions read the function's own variables, or nothing that is written.
fn read_own(places: &[Place], function: &Function) -> bool
    ensures { result ≡ read_own places.now function.now.expressions }
{
    for (handle, expression) in function.expressions.iter() {
        if !reads_own(expression, place_at(places, handle)) {
            return false;
        }
    }
    true
}

/// Checks whether a function has no effect and reads nothing that is written, given that of the functions before it.
fn is_quiet_function(
    alloc: Global,
    module: &Module,
    quiet: &[bool],
    function: &Function,
) -> Result<bool, AllocError>
    ensures { IfOk result (λ found. found ≡ is_quiet_function «module».now quiet.now function.now) }
{
    let places = places(alloc, module, &function.expressions)?;
    Ok(
        read_own(places.as_slice(), function)
            && is_quiet_block(places.as_slice(), quiet, &function.body),
    )
}

/// Checks whether the function at an index has no effect and reads nothing that is written, given that of the functions before it.
fn is_quiet_next(
    alloc: Global,
    module: &Module,
    quiet: &[bool],
    index: usize,
) -> Result<bool, AllocError>
    ensures { IfOk result (λ found. found ≡ is_quiet_next «module».now quiet.now (slice_get «module».now.functions index)) }
{
    match function_at(module, index) {
        Some(function) => is_quiet_function(alloc, module, quiet, function),
        None => Ok(false),
    }
}

/// Returns for each of so many functions whether it has no effect besides those on its own variables, and reads nothing that is written
/// while the shader runs besides them and what an argument points to. Calls of later functions count as effects.
///
/// # Errors
///
/// `AllocError` if an allocation fails.
pub fn quiet_functions(
    alloc: Global,
    module: &Module,
    count: usize,
) -> Result<Vec<bool>, AllocError>
    ensures { IfOk result (λ quiet. quiet.items ≡ first_quiet «module».now count) }
{
    let mut quiet = Vec::new(alloc);
    for index in 0..count {
        let is_quiet = is_quiet_next(alloc, module, quiet.as_slice(), index)?;
        quiet.push(is_quiet)?;
    }
    Ok(quiet)
}
