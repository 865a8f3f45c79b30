//! The operands of expressions and statements, one after another, and how each is used.
ghost use Rattle.std.specs.Prelude.{◌≡◌, ◌≤◌, slice_get, length};
ghost use Rattle.std.specs.Iterator.{YieldsFirst, item_count};
ghost use Rattle.shader_ir.specs.BodyOf.{step_of};
ghost use Rattle.shader_ir.specs.Cursors.{found_operand};
ghost use Rattle.shader_ir.specs.Operands.{expression_operands, statement_operands};
ghost use Rattle.shader_ir.specs.Slots.{reads};

use crate::proc::visitor::{Visitor, visit_expression, visit_statement};
use crate::{Expression, Statement, mark};
use shader_arena::Handle;
use std::marker::Model;

/// The use of an operand.
#[derive(Clone, Copy, Debug, PartialEq)]
pub enum Label {
    /// A component of it is named; nothing is read or written yet.
    Part,
    /// The value is read.
    Read,
    /// The memory that the operand points to is written.
    Write,
    /// The memory is read and written in one occurrence.
    ReadWrite,
    /// The size or another property is queried; the contents aren't read.
    Query,
    /// The image of an atomic operation.
    Atomic,
}

/// A search for the operand at a position.
#[derive(Clone, Copy)]
enum Search {
    /// It follows this number of operands.
    Ahead(usize),
    /// It is this one.
    Found(Handle<mark::Expression>, Label),
}

impl Search {
    /// Returns the operand, if it was found.
    fn found(self) -> Option<(Handle<mark::Expression>, Label)>
        ensures { result ≡ found_operand self }
    {
        match self {
            Search::Ahead(_) => None,
            Search::Found(operand, label) => Some((operand, label)),
        }
    }
}

impl Visitor for Search {
    ghost use Rattle.shader_ir.specs.Cursors.{search_after};

    ghost step = { search_after };

    #[inline(always)]
    fn visit(&mut self, operand: Handle<mark::Expression>, label: Label) {
        match *self {
            Search::Ahead(0) => *self = Search::Found(operand, label),
            Search::Ahead(count) => *self = Search::Ahead(count - 1),
            Search::Found(..) => {}
        }
    }
}

/// Returns the operand of an expression at a position.
#[tactic(auto, using(crate::proofs::CursorLemmas::searched))]
fn expression_operand(
    expression: &Expression,
    position: usize,
) -> Option<(Handle<mark::Expression>, Label)>
    ensures { result ≡ slice_get (expression_operands expression.now) position }
{
    let mut search = Search::Ahead(position);
    visit_expression(expression, &mut search);
    search.found()
}

/// Returns the operand of a statement at a position.
#[tactic(auto, using(crate::proofs::CursorLemmas::searched))]
fn statement_operand(
    statement: &Statement,
    position: usize,
) -> Option<(Handle<mark::Expression>, Label)>
    ensures { result ≡ slice_get (statement_operands (step_of statement.now)) position }
{
    let mut search = Search::Ahead(position);
    visit_statement(statement, &mut search);
    search.found()
}

/// What hands out the remaining operands.
#[derive(Clone, Copy, Drop)]
enum Rest<'a> {
    /// An expression, from a position on.
    Expression(&'a Expression, usize),
    /// A statement, from a position on.
    Statement(&'a Statement, usize),
    /// A list, of which all are read.
    List(&'a [Handle<mark::Expression>]),
}

/// An iterator over the remaining operands, in order.
#[derive(Drop)]
pub struct Operands<'a> {
    rest: Rest<'a>,
}

/// An iterator over the remaining operands of an expression, in order.
pub type ExpressionOperands<'a> = Operands<'a>;

/// An iterator over the remaining operands of a statement, in order.
pub type StatementOperands<'a> = Operands<'a>;

impl<'a> Model for Operands<'a> {
    ghost use Rattle.std.specs.Prelude.{ℕ, List};
    ghost use Rattle.shader_ir.specs.Cursors.{operands_left, IsShort};
    ghost use Rattle.shader_ir.specs.declared.proc.operands.Label.{Label};

    ghost Value = { List (ℕ × Label) };

    ghost view = { λ operands. operands_left operands.rest };

    ghost invariant = { λ operands. IsShort operands.rest };
}

impl<'a> Iterator for Operands<'a> {
    type Item = (Handle<mark::Expression>, Label);

    ghost next_gives = { YieldsFirst (λ operands. operands) };

    ghost remaining = { item_count (λ operands. operands) };

    #[tactic(auto, using(crate::proofs::CursorLemmas::left_from, crate::proofs::CursorLemmas::none_left))]
    fn next(&mut self) -> Option<(Handle<mark::Expression>, Label)> {
        match self.rest {
            Rest::Expression(expression, position) => {
                let operand = expression_operand(expression, position)?;
                self.rest = Rest::Expression(expression, position + 1);
                Some(operand)
            }
            Rest::Statement(statement, position) => {
                let operand = statement_operand(statement, position)?;
                self.rest = Rest::Statement(statement, position + 1);
                Some(operand)
            }
            Rest::List(list) => {
                let (operand, rest) = list.split_first()?;
                self.rest = Rest::List(rest);
                Some((*operand, Label::Read))
            }
        }
    }
}

/// Returns the operands of an expression, in order.
pub fn expression_operands(expression: &Expression) -> ExpressionOperands<'_>
    ensures { result ≡ expression_operands expression.now }
{
    let rest = match expression {
        Expression::Compose { components, .. } => Rest::List(components.as_slice()),
        _ => Rest::Expression(expression, 0),
    };
    Operands { rest }
}

/// Returns the operands of a statement, in order, without those of the blocks inside.
pub fn statement_operands(statement: &Statement) -> StatementOperands<'_>
    ensures { result ≡ statement_operands (step_of statement.now) }
{
    let rest = match statement {
        Statement::Call { arguments, .. } => Rest::List(arguments.as_slice()),
        _ => Rest::Statement(statement, 0),
    };
    Operands { rest }
}
