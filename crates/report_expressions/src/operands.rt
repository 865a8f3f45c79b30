//! The operands of what is printed, by their positions.
ghost use Rattle.std.specs.Prelude.{◌≡◌, ℕ, IfSome, Some, slice_get};
ghost use Rattle.shader_ir.specs.BodyOf.{step_of};
ghost use Rattle.shader_ir.specs.Operands.{expression_operands, statement_operands};
ghost use Rattle.report_expressions.specs.Lines.{line_operands};
ghost use Rattle.report_expressions.specs.Parents.{IsOperandAt, parent_operands};

use crate::line::Line;
use shader_arena::Handle;
use shader_ir::proc::{Label, Operands, expression_operands, statement_operands};
use shader_ir::{Expression, Statement, mark};

/// What has operands.
#[derive(Clone, Copy)]
pub enum Parent<'a> {
    /// An expression.
    Expression(&'a Expression),
    /// A statement that makes a result.
    Statement(&'a Statement),
    /// The line itself.
    Line(&'a Line<'a>),
}

/// Returns the operand at a position of those that are left.
fn nth(mut operands: Operands<'_>, position: usize) -> Option<(Handle<mark::Expression>, Label)>
    ensures { result ≡ slice_get operands.entry position }
{
    let first = operands.next()?;
    if position == 0 {
        Some(first)
    } else {
        nth(operands, position - 1)
    }
}

/// Returns the operand at a position of a statement.
fn statement_operand(statement: &Statement, position: usize) -> Option<Handle<mark::Expression>>
    ensures { IfSome result (IsOperandAt (statement_operands (step_of statement.now)) position) }
{
    match nth(statement_operands(statement), position) {
        Some((operand, _)) => Some(operand),
        None => None,
    }
}

/// Returns the operand at a position of an expression.
fn expression_operand(expression: &Expression, position: usize) -> Option<Handle<mark::Expression>>
    ensures { IfSome result (IsOperandAt (expression_operands expression.now) position) }
{
    match nth(expression_operands(expression), position) {
        Some((operand, _)) => Some(operand),
        None => None,
    }
}

/// Returns the operand at a position of a line.
fn line_operand(line: &Line, position: usize) -> Option<Handle<mark::Expression>>
    ensures { IfSome result (IsOperandAt (line_operands line.now) position) }
{
    match line {
        Line::Expression(operand)
        | Line::Place(operand)
        | Line::Let(operand)
        | Line::While(operand)
        | Line::BreakIf(operand) => { if position == 0 { Some(*operand) } else { None } }
        Line::Statement(statement) => statement_operand(statement, position),
        Line::For(condition, store) => {
            if position == 0 {
                Some(*condition)
            } else {
                statement_operand(store, position - 1)
            }
        }
        Line::Else | Line::Case(_) | Line::Continuing => None,
    }
}

impl Parent<'_> {
    /// Returns the operand at a position.
    pub fn operand(&self, position: usize) -> Option<Handle<mark::Expression>>
        ensures { IfSome result (IsOperandAt (parent_operands self.now) position) }
    {
        match self {
            Parent::Expression(expression) => expression_operand(expression, position),
            Parent::Statement(statement) => statement_operand(statement, position),
            Parent::Line(line) => line_operand(line, position),
        }
    }
}
