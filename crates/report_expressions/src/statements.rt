//! The parts of a line, without those of its operands.
ghost use Rattle.std.specs.Prelude.{◌≡◌, ◌<◌, None, OnOk};
ghost use Rattle.report_expressions.specs.Parts.{AreParts};

use crate::arguments::arguments_of;
use crate::calls::maker_word;
use crate::forms::add_call;
use crate::line::{Line, Source};
use crate::makers::result_of;
use crate::operands::Parent;
use crate::parts::{Part, add_fixed, add_operand, add_word};
use crate::pieces::{Word, number_of};
use crate::references::is_reference;
use crate::roles::Role;
use crate::writing::has_name;
use shader_arena::Handle;
use shader_ir::{Statement, mark};
use std::alloc::{AllocError, Global};

/// Adds the name that a value gets.
fn add_let(
    source: &Source,
    parts: &mut Vec<Part>,
    handle: Handle<mark::Expression>,
) -> Result<(), AllocError>
    requires { AreParts source.now None parts.old.items }
    ensures { OnOk result (AreParts source.now None parts.new.items) }
{
    add_fixed(source, None, parts, "let ")?;
    add_word(source, None, parts, Word::Named(number_of(handle)))?;
    add_fixed(source, None, parts, " = ")
}

/// Adds what stands in front of a statement's operands.
fn add_statement_start(
    source: &Source,
    parts: &mut Vec<Part>,
    statement: &Statement,
) -> Result<(), AllocError>
    requires { AreParts source.now None parts.old.items }
    ensures { OnOk result (AreParts source.now None parts.new.items) }
{
    match statement {
        Statement::If { .. } => add_fixed(source, None, parts, "if ("),
        Statement::Switch { .. } => add_fixed(source, None, parts, "switch ("),
        other => match result_of(other) {
            Some(result) => {
                if has_name(source, result) {
                    add_let(source, parts, result)
                } else {
                    Ok(())
                }
            }
            None => Ok(()),
        },
    }
}

/// Adds what stands in front of what a mark on the line underlines.
pub fn add_start(source: &Source, parts: &mut Vec<Part>) -> Result<(), AllocError>
    requires { AreParts source.now None parts.old.items }
    ensures { OnOk result (AreParts source.now None parts.new.items) }
{
    match source.line {
        Line::Expression(_) | Line::Place(_) | Line::Else | Line::Continuing => Ok(()),
        Line::Let(handle) => {
            if has_name(source, handle) {
                add_let(source, parts, handle)
            } else {
                add_fixed(source, None, parts, "_ = ")
            }
        }
        Line::Statement(statement) => add_statement_start(source, parts, statement),
        Line::While(_) => add_fixed(source, None, parts, "while ("),
        Line::For(..) => add_fixed(source, None, parts, "for (; "),
        Line::BreakIf(_) => add_fixed(source, None, parts, "break if ("),
        Line::Case(_) => Ok(()),
    }
}

/// Adds a store, whose operands stand from a position on.
fn add_store(source: &Source, parts: &mut Vec<Part>, position: usize) -> Result<(), AllocError>
    requires first { position < 2 }
    requires parts { AreParts source.now None parts.old.items }
    ensures { OnOk result (AreParts source.now None parts.new.items) }
{
    add_operand(source, None, parts, position, Role::Place)?;
    add_fixed(source, None, parts, " = ")?;
    add_operand(source, None, parts, position + 1, Role::Whole)
}

/// Adds a return, with its value if it has one.
fn add_return(source: &Source, parts: &mut Vec<Part>, has_value: bool) -> Result<(), AllocError>
    requires { AreParts source.now None parts.old.items }
    ensures { OnOk result (AreParts source.now None parts.new.items) }
{
    add_fixed(source, None, parts, "return")?;
    if has_value {
        add_fixed(source, None, parts, " ")?;
        add_operand(source, None, parts, 0, Role::Whole)?;
    }
    Ok(())
}

/// Adds the call that a statement makes.
fn add_statement_call(
    alloc: Global,
    source: &Source,
    parts: &mut Vec<Part>,
    statement: &Statement,
) -> Result<(), AllocError>
    requires { AreParts source.now None parts.old.items }
    ensures { OnOk result (AreParts source.now None parts.new.items) }
{
    let arguments = arguments_of(alloc, &Parent::Statement(statement))?;
    let name = match statement {
        Statement::Call { function, .. } => Word::Function(number_of(*function)),
        other => maker_word(other),
    };
    add_call(source, None, parts, name, arguments.as_slice())
}

/// Adds a statement, without its blocks.
fn add_statement(
    alloc: Global,
    source: &Source,
    parts: &mut Vec<Part>,
    statement: &Statement,
) -> Result<(), AllocError>
    requires { AreParts source.now None parts.old.items }
    ensures { OnOk result (AreParts source.now None parts.new.items) }
{
    match statement {
        Statement::Emit(_) | Statement::Block(_) => Ok(()),
        Statement::If { .. } | Statement::Switch { .. } => {
            add_operand(source, None, parts, 0, Role::Whole)
        }
        Statement::Loop { .. } => add_fixed(source, None, parts, "loop"),
        Statement::Break => add_fixed(source, None, parts, "break"),
        Statement::Continue => add_fixed(source, None, parts, "continue"),
        Statement::Return { value } => add_return(source, parts, value.is_some()),
        Statement::Kill => add_fixed(source, None, parts, "discard"),
        Statement::ControlBarrier(barrier) => {
            add_word(source, None, parts, Word::Barrier(*barrier))
        }
        Statement::MemoryBarrier(barrier) => {
            add_word(source, None, parts, Word::MemoryBarrier(*barrier))
        }
        Statement::Store { .. } => add_store(source, parts, 0),
        other => add_statement_call(alloc, source, parts, other),
    }
}

/// Returns where an expression stands that is shown as the memory that it points to, if it is a pointer by its form.
fn place_role(source: &Source, handle: Handle<mark::Expression>) -> Role {
    match source.function.expressions.try_get(handle) {
        Some(expression) => {
            if is_reference(source, expression) {
                Role::RootPlace
            } else {
                Role::Root
            }
        }
        None => Role::Root,
    }
}

/// Adds what a mark on the line underlines.
pub fn add_core(alloc: Global, source: &Source, parts: &mut Vec<Part>) -> Result<(), AllocError>
    requires { AreParts source.now None parts.old.items }
    ensures { OnOk result (AreParts source.now None parts.new.items) }
{
    match source.line {
        Line::Expression(_) | Line::Let(_) => add_operand(source, None, parts, 0, Role::Root),
        Line::Place(handle) => add_operand(source, None, parts, 0, place_role(source, handle)),
        Line::Statement(statement) => add_statement(alloc, source, parts, statement),
        Line::While(_) | Line::BreakIf(_) => add_operand(source, None, parts, 0, Role::Whole),
        Line::For(..) => {
            add_operand(source, None, parts, 0, Role::Whole)?;
            add_fixed(source, None, parts, "; ")?;
            add_store(source, parts, 1)
        }
        Line::Else => add_fixed(source, None, parts, "} else"),
        Line::Case(value) => add_word(source, None, parts, Word::Case(value)),
        Line::Continuing => add_fixed(source, None, parts, "continuing"),
    }
}

/// Returns what ends a line.
pub fn line_end(line: &Line) -> &'static str {
    match line {
        Line::Expression(_) | Line::Place(_) => "",
        Line::Let(_) => ";",
        Line::Statement(statement) => match statement {
            Statement::If { .. } | Statement::Switch { .. } => ") {",
            Statement::Loop { .. } => " {",
            Statement::Emit(_) | Statement::Block(_) => "",
            _ => ";",
        },
        Line::While(_) | Line::For(..) => ") {",
        Line::Else | Line::Continuing => " {",
        Line::Case(_) => ": {",
        Line::BreakIf(_) => ");",
    }
}
