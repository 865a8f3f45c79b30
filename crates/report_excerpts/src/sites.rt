//! The lines in which marks stand.

use crate::body::Body;
use crate::marks::Mark;
use crate::reach::Reach;
use crate::steps::statement_on;
use crate::users::{in_block, is_shown_elsewhere};
use report_expressions::result_of;
use report_places::{PathStep, Wanted, find_statement};
use shader_arena::Handle;
use shader_ir::proc::statement_operands;
use shader_ir::{Expression, Statement, mark};
use std::alloc::{AllocError, Global};

/// A mark in a line of the function.
#[derive(Drop)]
pub struct Site {
    /// The way to the statement that the line shows. If it is empty, no statement does.
    pub way: Vec<PathStep>,
    /// The expression whose value the line shows, if it shows no statement.
    pub value: Option<Handle<mark::Expression>>,
    /// The operands on the way to the marked one. If there are none, the whole line is marked.
    pub operands: Vec<Handle<mark::Expression>>,
    /// The sign in front of the marked operand that isn't marked, if there is one.
    pub sign: Option<char>,
    pub label: String,
    pub is_main: bool,
}

/// The line in which a mark stands.
#[derive(Drop)]
struct Shown {
    way: Vec<PathStep>,
    value: Option<Handle<mark::Expression>>,
    operands: Vec<Handle<mark::Expression>>,
}

/// Returns a copy of a way.
fn copy_way(alloc: Global, way: &[PathStep]) -> Result<Vec<PathStep>, AllocError> {
    let mut copy = Vec::new(alloc);
    for step in way {
        copy.push(*step)?;
    }
    Ok(copy)
}

/// Checks whether an expression is an operand of a statement.
fn is_operand(statement: &Statement, expression: Handle<mark::Expression>) -> bool {
    for (operand, _) in statement_operands(statement) {
        if operand == expression {
            return true;
        }
    }
    false
}

/// Returns the way to what evaluates an expression.
fn way_to_value(
    alloc: Global,
    body: &Body<'_>,
    value: Handle<mark::Expression>,
) -> Result<Vec<PathStep>, AllocError> {
    match find_statement(alloc, &body.function.body, &Wanted::Evaluating(value))? {
        Some(found) => copy_way(alloc, found.path.steps.as_slice()),
        None => Ok(Vec::new(alloc)),
    }
}

/// Returns the line that shows the value of an expression: the statement that makes it, or else a `let`.
fn in_value(
    alloc: Global,
    body: &Body<'_>,
    value: Handle<mark::Expression>,
    operands: Vec<Handle<mark::Expression>>,
) -> Result<Shown, AllocError> {
    let way = way_to_value(alloc, body, value)?;
    let value = match body.makers.get(value) {
        Some(_) => None,
        None => Some(value),
    };
    Ok(Shown {
        way,
        value,
        operands,
    })
}

/// Returns the line of the statement to which a way leads, and which shows the target.
fn in_statement(
    alloc: Global,
    body: &Body<'_>,
    reach: &Reach,
    way: Vec<PathStep>,
) -> Result<Shown, AllocError> {
    let first = match statement_on(&body.function.body, &way) {
        Some(user) => reach.first_of(body, user),
        None => None,
    };
    let operands = match first {
        Some(first) => reach.way_from(alloc, first)?,
        None => Vec::new(alloc),
    };
    Ok(Shown {
        way,
        value: None,
        operands,
    })
}

/// Returns the line in which an expression without a name stands: that of the first user with a name, or of the first statement that uses
/// it, or else of the last expression in whose text it stands.
fn in_user(
    alloc: Global,
    body: &Body<'_>,
    expression: Handle<mark::Expression>,
) -> Result<Shown, AllocError> {
    let reach = Reach::of(alloc, body, expression)?;
    if let Some(named) = reach.named {
        return in_value(alloc, body, named, reach.way_within(alloc, named)?);
    }
    let mut way = Vec::new(alloc);
    if in_block(body, &reach, &mut way, &body.function.body)? {
        return in_statement(alloc, body, &reach, way);
    }
    match reach.last {
        Some(last) => in_value(alloc, body, last, reach.way_within(alloc, last)?),
        None => in_value(alloc, body, expression, Vec::new(alloc)),
    }
}

/// Returns the line in which an operand of a statement stands that makes a result, where the result has no name.
fn in_maker(
    alloc: Global,
    body: &Body<'_>,
    made: Handle<mark::Expression>,
    operand: Handle<mark::Expression>,
) -> Result<Shown, AllocError> {
    let mut shown = in_user(alloc, body, made)?;
    shown.operands.push(operand)?;
    Ok(shown)
}

/// Returns the line in which an expression stands.
fn shown_of_expression(
    alloc: Global,
    body: &Body<'_>,
    mark: &Mark<'_>,
    expression: Handle<mark::Expression>,
) -> Result<Shown, AllocError> {
    if let Some(statement) = statement_on(&body.function.body, mark.way) {
        if is_operand(statement, expression) {
            if is_shown_elsewhere(body, statement) {
                if let Some(result) = result_of(statement) {
                    return in_maker(alloc, body, result, expression);
                }
            }
            let mut operands = Vec::new(alloc);
            operands.push(expression)?;
            let way = copy_way(alloc, mark.way)?;
            return Ok(Shown {
                way,
                value: None,
                operands,
            });
        }
    }
    if body.has_name(expression) {
        return in_value(alloc, body, expression, Vec::new(alloc));
    }
    in_user(alloc, body, expression)
}

/// Returns the line in which a mark stands that isn't on an argument.
fn shown_of(alloc: Global, body: &Body<'_>, mark: &Mark<'_>) -> Result<Shown, AllocError> {
    if let Some(expression) = mark.expression {
        return shown_of_expression(alloc, body, mark, expression);
    }
    if let Some(statement) = statement_on(&body.function.body, mark.way) {
        if is_shown_elsewhere(body, statement) {
            if let Some(result) = result_of(statement) {
                return in_user(alloc, body, result);
            }
        }
    }
    Ok(Shown {
        way: copy_way(alloc, mark.way)?,
        value: None,
        operands: Vec::new(alloc),
    })
}

/// Returns the sign in front of a marked operand: that of the load of a pointer, or that a variable is meant as a pointer. Of a cause it is
/// the place that differs, and not the pointer to it.
fn sign_of(body: &Body<'_>, mark: &Mark<'_>) -> Option<char> {
    if mark.operand.is_none() {
        return if mark.is_main { None } else { Some('&') };
    }
    match body.function.expressions.try_get(mark.expression?) {
        Some(Expression::Load { .. }) => Some('*'),
        _ => Some('&'),
    }
}

/// Returns the site of a mark that isn't on an argument.
pub fn site_of(alloc: Global, body: &Body<'_>, mark: &Mark<'_>) -> Result<Site, AllocError> {
    let mut shown = shown_of(alloc, body, mark)?;
    if let Some(operand) = mark.operand {
        shown.operands.push(operand)?;
    }
    let label = String::from_str(alloc, mark.label.as_str())?;
    Ok(Site {
        way: shown.way,
        value: shown.value,
        operands: shown.operands,
        sign: sign_of(body, mark),
        label,
        is_main: mark.is_main,
    })
}
