//! The lines of a function's statements: those with marks, and the heads of the blocks around them.

use crate::body::Body;
use crate::heads::{add_beginning, add_break_if, add_head, below_head};
use crate::nesting::Marked;
use crate::rows::{Rows, add_row};
use crate::users::is_shown_elsewhere;
use report_expressions::Line;
use report_places::PathStep;
use shader_arena::Range;
use shader_ir::{Block, Statement, mark};
use std::alloc::AllocError;

/// Checks whether a statement, or one of a nested block, has a line of its own.
#[cycle(showing)]
fn has_line(body: &Body<'_>, statement: &Statement) -> bool {
    match statement {
        Statement::Emit(range) => {
            for expression in range.iter() {
                if body.is_behind(expression) {
                    return false;
                }
                if body.has_name(expression) {
                    return true;
                }
            }
            false
        }
        Statement::Block(inner) => block_has_line(body, inner),
        other => !is_shown_elsewhere(body, other),
    }
}

/// Checks whether a statement of a block has a line.
#[cycle(showing)]
fn block_has_line(body: &Body<'_>, block: &Block) -> bool {
    for statement in &block.statements {
        if has_line(body, statement) {
            return true;
        }
    }
    false
}

/// Prints the values that an `Emit` evaluates and that have marks.
fn list_values(
    body: &Body<'_>,
    rows: &mut Rows,
    range: &Range<mark::Expression>,
    marked: &Marked<'_>,
) -> Result<(), AllocError> {
    for expression in range.iter() {
        if body.is_behind(expression) {
            return Ok(());
        }
        let here = marked.standing(rows.alloc, Some(expression))?;
        if !here.is_empty() {
            let line = Line::Let(expression);
            add_row(body, rows, marked.level, &line, marked.sites, &here)?;
        } else if body.has_name(expression) {
            rows.leave_out(marked.level);
        }
    }
    Ok(())
}

/// Prints the marked lines of a block so many levels deeper, to which sites lead by a step, or leaves the block out.
#[cycle(listing)]
fn list_nested<'a>(
    body: &Body<'a>,
    rows: &mut Rows,
    marked: &Marked<'_>,
    levels: usize,
    step: PathStep,
    block: &'a Block,
) -> Result<(), AllocError> {
    let inside = marked.following(rows.alloc, levels, step)?;
    if !inside.chosen.is_empty() {
        return list_block(body, rows, block, &inside);
    }
    let is_shown = marked.is_for && step == PathStep::Continuing;
    if !is_shown && block_has_line(body, block) {
        rows.leave_out(inside.level);
    }
    Ok(())
}

/// Prints the marked lines of a statement to which sites lead.
#[cycle(listing)]
fn list_statement<'a>(
    body: &Body<'a>,
    rows: &mut Rows,
    statement: &'a Statement,
    marked: &Marked<'_>,
) -> Result<(), AllocError> {
    add_head(body, rows, statement, marked)?;
    match statement {
        Statement::Emit(range) => list_values(body, rows, range, marked),
        Statement::Block(inner) => list_nested(body, rows, marked, 0, PathStep::Block, inner),
        Statement::If { accept, reject, .. } => {
            list_nested(body, rows, marked, 1, PathStep::Accept, accept)?;
            add_beginning(body, rows, marked, 0, PathStep::Reject, &Line::Else)?;
            list_nested(body, rows, marked, 1, PathStep::Reject, reject)
        }
        Statement::Loop {
            body: round,
            continuing,
            break_if,
        } => {
            let below = below_head(rows.alloc, statement, round, marked)?;
            list_nested(body, rows, &below, 1, PathStep::Body, round)?;
            let step = PathStep::Continuing;
            add_beginning(body, rows, &below, 1, step, &Line::Continuing)?;
            list_nested(body, rows, &below, 2, step, continuing)?;
            add_break_if(body, rows, *break_if, marked)
        }
        Statement::Switch { cases, .. } => {
            for (number, case) in cases.iter().enumerate() {
                let (step, line) = (PathStep::Case(number), Line::Case(case.value));
                add_beginning(body, rows, marked, 1, step, &line)?;
                list_nested(body, rows, marked, 2, step, &case.body)?;
            }
            Ok(())
        }
        _ => Ok(()),
    }
}

/// Prints the marked lines of a block to which sites lead, and the heads around them.
#[cycle(listing)]
pub fn list_block<'a>(
    body: &Body<'a>,
    rows: &mut Rows,
    block: &'a Block,
    marked: &Marked<'_>,
) -> Result<(), AllocError> {
    for (index, statement) in block.statements.iter().enumerate() {
        let inside = marked.following(rows.alloc, 0, PathStep::Statement(index))?;
        if !inside.chosen.is_empty() {
            list_statement(body, rows, statement, &inside)?;
        } else if marked.test != Some(index) && has_line(body, statement) {
            rows.leave_out(marked.level);
        }
    }
    Ok(())
}
