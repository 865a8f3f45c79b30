//! The first statement in whose text an expression stands.

use crate::body::Body;
use crate::reach::Reach;
use report_expressions::result_of;
use report_places::PathStep;
use shader_ir::{Block, Statement};
use std::alloc::AllocError;

/// Checks whether a statement has no line of its own: it makes a result that is shown where it is used.
pub fn is_shown_elsewhere(body: &Body<'_>, statement: &Statement) -> bool {
    match result_of(statement) {
        Some(result) => !body.has_name(result),
        None => false,
    }
}

/// Checks whether the target stands in the line of a statement.
fn is_user(body: &Body<'_>, reach: &Reach, statement: &Statement) -> bool {
    !is_shown_elsewhere(body, statement) && reach.first_of(body, statement).is_some()
}

/// Goes a step, and returns whether the way leads to a user. Otherwise the step is taken back.
#[cycle(finding)]
fn go(
    body: &Body<'_>,
    reach: &Reach,
    way: &mut Vec<PathStep>,
    step: PathStep,
    block: &Block,
) -> Result<bool, AllocError> {
    way.push(step)?;
    if in_block(body, reach, way, block)? {
        return Ok(true);
    }
    way.pop();
    Ok(false)
}

/// Extends a way to the first user in the blocks of a statement, and returns whether there is one.
#[cycle(finding)]
fn in_statement(
    body: &Body<'_>,
    reach: &Reach,
    way: &mut Vec<PathStep>,
    statement: &Statement,
) -> Result<bool, AllocError> {
    match statement {
        Statement::Block(inner) => go(body, reach, way, PathStep::Block, inner),
        Statement::If { accept, reject, .. } => {
            Ok(
                go(body, reach, way, PathStep::Accept, accept)?
                    || go(body, reach, way, PathStep::Reject, reject)?,
            )
        }
        Statement::Loop {
            body: inner,
            continuing,
            ..
        } => {
            Ok(
                go(body, reach, way, PathStep::Body, inner)?
                    || go(body, reach, way, PathStep::Continuing, continuing)?,
            )
        }
        Statement::Switch { cases, .. } => {
            for (number, case) in cases.iter().enumerate() {
                if go(body, reach, way, PathStep::Case(number), &case.body)? {
                    return Ok(true);
                }
            }
            Ok(false)
        }
        _ => Ok(false),
    }
}

/// Extends a way to the first user in a block, and returns whether there is one. Otherwise the way is as before.
#[cycle(finding)]
pub fn in_block(
    body: &Body<'_>,
    reach: &Reach,
    way: &mut Vec<PathStep>,
    block: &Block,
) -> Result<bool, AllocError> {
    for (index, statement) in block.statements.iter().enumerate() {
        way.push(PathStep::Statement(index))?;
        if is_user(body, reach, statement) || in_statement(body, reach, way, statement)? {
            return Ok(true);
        }
        way.pop();
    }
    Ok(false)
}
