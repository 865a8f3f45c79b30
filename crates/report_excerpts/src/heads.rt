//! The heads of statements. naga lowers `while` and `for` to loops whose body begins by a test; a mark on the test stands in the head.

use crate::body::Body;
use crate::nesting::Marked;
use crate::rows::{Rows, add_row};
use crate::sites::Site;
use report_expressions::{Head, Line, head_of};
use report_places::PathStep;
use shader_arena::Handle;
use shader_ir::{Block, Statement, mark};
use std::alloc::{AllocError, Global};

/// Returns the index of the first statement of a block besides an `Emit`.
fn first_index(block: &Block) -> Option<usize> {
    for (index, statement) in block.statements.iter().enumerate() {
        match statement {
            Statement::Emit(_) => {}
            _ => return Some(index),
        }
    }
    None
}

/// Returns the index of the statement in the body of a loop that the head shows, if it shows one.
fn test_of(head: &Head<'_>, round: &Block) -> Option<usize> {
    match head {
        Head::Loop => None,
        Head::While(_) | Head::For(..) => first_index(round),
    }
}

/// Checks whether a head shows the continuing block of its loop.
fn is_for(head: &Head<'_>) -> bool {
    match head {
        Head::Loop | Head::While(_) => false,
        Head::For(..) => true,
    }
}

/// Checks whether a site stands in the head of a loop: at the test, or at the store of a `for`.
fn is_on_head(head: &Head<'_>, round: &Block, site: &Site, steps: usize) -> bool {
    let next = match site.way.as_slice().get(steps.saturating_add(1)) {
        Some(PathStep::Statement(index)) => Some(*index),
        _ => None,
    };
    match site.way.as_slice().get(steps) {
        Some(PathStep::Body) => next.is_some() && next == test_of(head, round),
        Some(PathStep::Continuing) => is_for(head),
        _ => false,
    }
}

/// Returns which sites stand in the head of a loop, or which don't.
fn parted(
    alloc: Global,
    head: &Head<'_>,
    round: &Block,
    marked: &Marked<'_>,
    is_on: bool,
) -> Result<Vec<usize>, AllocError> {
    let mut found = Vec::new(alloc);
    for index in &marked.chosen {
        if let Some(site) = marked.sites.get(*index) {
            if is_on_head(head, round, site, marked.steps) == is_on {
                found.push(*index)?;
            }
        }
    }
    Ok(found)
}

/// Returns the sites below the head of a loop with this body.
pub fn below_head<'s>(
    alloc: Global,
    statement: &Statement,
    round: &Block,
    marked: &Marked<'s>,
) -> Result<Marked<'s>, AllocError> {
    let head = head_of(statement);
    Ok(Marked {
        sites: marked.sites,
        chosen: parted(alloc, &head, round, marked, false)?,
        level: marked.level,
        steps: marked.steps,
        test: test_of(&head, round),
        is_for: is_for(&head),
    })
}

/// Prints the head of a loop with the marks that stand in it.
fn add_loop<'a>(
    body: &Body<'a>,
    rows: &mut Rows,
    statement: &'a Statement,
    round: &'a Block,
    marked: &Marked<'_>,
) -> Result<(), AllocError> {
    let head = head_of(statement);
    let on = parted(rows.alloc, &head, round, marked, true)?;
    let line = match &head {
        Head::Loop => Line::Statement(statement),
        Head::While(condition) => Line::While(*condition),
        Head::For(condition, store) => Line::For(*condition, *store),
    };
    add_row(body, rows, marked.level, &line, marked.sites, &on)
}

/// Prints a statement with its marks, or the head of its blocks. An `Emit` and a block have none.
pub fn add_head<'a>(
    body: &Body<'a>,
    rows: &mut Rows,
    statement: &'a Statement,
    marked: &Marked<'_>,
) -> Result<(), AllocError> {
    match statement {
        Statement::Emit(_) | Statement::Block(_) => Ok(()),
        Statement::Loop { body: round, .. } => add_loop(body, rows, statement, round, marked),
        _ => {
            let here = marked.standing(rows.alloc, None)?;
            let line = Line::Statement(statement);
            add_row(body, rows, marked.level, &line, marked.sites, &here)
        }
    }
}

/// Prints a line that begins a block so many levels deeper, if a site leads into it by a step.
pub fn add_beginning<'a>(
    body: &Body<'a>,
    rows: &mut Rows,
    marked: &Marked<'_>,
    levels: usize,
    step: PathStep,
    line: &Line<'a>,
) -> Result<(), AllocError> {
    if marked.has_none(rows.alloc, step)? {
        return Ok(());
    }
    let level = marked.level.saturating_add(levels);
    add_row(body, rows, level, line, marked.sites, &[])
}

/// Prints the condition under which a round is the last, if it has marks.
pub fn add_break_if(
    body: &Body<'_>,
    rows: &mut Rows,
    condition: Option<Handle<mark::Expression>>,
    marked: &Marked<'_>,
) -> Result<(), AllocError> {
    let here = marked.standing(rows.alloc, None)?;
    match condition {
        Some(condition) if !here.is_empty() => {
            let inside = marked.level.saturating_add(1);
            if marked.has_none(rows.alloc, PathStep::Continuing)? {
                add_row(body, rows, inside, &Line::Continuing, marked.sites, &[])?;
            }
            let line = Line::BreakIf(condition);
            add_row(
                body,
                rows,
                inside.saturating_add(1),
                &line,
                marked.sites,
                &here,
            )
        }
        _ => Ok(()),
    }
}
