//! The pieces of a line: words, and those of the operands between them.
ghost use Rattle.std.specs.Prelude.{◌≡◌, IfOk, IfSome, OnOk, Some, slice_get};
ghost use Rattle.report_expressions.specs.Parents.{parent_operands};
ghost use Rattle.report_expressions.specs.Parts.{AreParts, IsPart, IsSpeaker};
ghost use Rattle.report_expressions.specs.Pieces.{AreReached, AreSaid, IsSaidBy, Reaches};

use crate::arguments::arguments_of;
use crate::calls::{callee_word, maker_word};
use crate::forms::{
    add_access, add_access_index, add_binary, add_call, add_load, add_signed, add_swizzle,
    add_unary, leaf_word,
};
use crate::line::Source;
use crate::operands::Parent;
use crate::parts::{Part, add_fixed, add_word};
use crate::pieces::{Piece, Word, number_of};
use crate::references::is_memory;
use crate::roles::Role;
use crate::says::say;
use shader_arena::Handle;
use shader_ir::{Expression, Statement, mark};
use std::alloc::{AllocError, Global};

/// The most pieces of a line before dots stand for all that has operands.
const MOST_PIECES: usize = 512;

/// How far operands are shown, and whether they belong to the marked one.
#[derive(Clone, Copy)]
pub struct Shown {
    /// So many expressions within one another are shown.
    pub depth: u32,
    pub is_marked: bool,
}

/// Returns whether an expression has a name.
pub fn has_name(source: &Source, handle: Handle<mark::Expression>) -> bool {
    match source.function.named_expressions.get(&handle) {
        Some(name) => !name.as_str().is_empty(),
        None => false,
    }
}

/// Returns whether the marked operand is written.
fn has_mark(pieces: &[Piece]) -> bool {
    for piece in pieces {
        if piece.is_marked {
            return true;
        }
    }
    false
}

/// Returns whether an expression is on the way to the marked operand, which is the first of those that are the same expression.
fn is_on_way(source: &Source, pieces: &[Piece], handle: Handle<mark::Expression>) -> bool {
    for on_way in source.way {
        if *on_way == handle {
            return !has_mark(pieces);
        }
    }
    false
}

/// Returns whether an expression is the marked operand.
fn is_marked_operand(source: &Source, pieces: &[Piece], handle: Handle<mark::Expression>) -> bool {
    match source.way.last() {
        Some(last) => *last == handle && !has_mark(pieces),
        None => false,
    }
}

/// Returns whether an expression has no operands, or loads a variable.
fn is_short(source: &Source, expression: &Expression) -> bool {
    match expression {
        Expression::Literal(_)
        | Expression::Constant(_)
        | Expression::Override(_)
        | Expression::ZeroValue(_)
        | Expression::FunctionArgument(_)
        | Expression::GlobalVariable(_)
        | Expression::LocalVariable(_) => true,
        Expression::Load { pointer } => match source.function.expressions.try_get(*pointer) {
            Some(pointer) => matches!(
                pointer,
                Expression::FunctionArgument(_)
                    | Expression::GlobalVariable(_)
                    | Expression::LocalVariable(_)
            ),
            None => true,
        },
        _ => false,
    }
}

/// Returns the statement that makes an expression, if it is a result.
fn maker_of<'a>(
    source: &Source<'a, '_, '_>,
    handle: Handle<mark::Expression>,
    expression: &Expression,
) -> Option<&'a Statement>
    ensures { IfSome result (λ maker. slice_get source.now.makers.now.statements.items handle ≡ Some (Some maker)) }
{
    match expression {
        Expression::CallResult(_)
        | Expression::AtomicResult { .. }
        | Expression::WorkGroupUniformLoadResult { .. }
        | Expression::RayQueryProceedResult
        | Expression::SubgroupBallotResult
        | Expression::SubgroupOperationResult { .. } => source.makers.get(handle),
        _ => None,
    }
}

/// Adds the call that makes a result, or that an expression is.
fn add_made(
    alloc: Global,
    source: &Source,
    parts: &mut Vec<Part>,
    e: u32,
    expression: &Expression,
    maker: Option<&Statement>,
) -> Result<(), AllocError>
    requires reached { Reaches source.now e }
    requires here { slice_get source.now.function.now.expressions e ≡ Some expression.now }
    requires parts { AreParts source.now (Some e) parts.old.items }
    ensures { OnOk result (AreParts source.now (Some e) parts.new.items) }
{
    let of = Some(e);
    match maker {
        Some(statement) => {
            let arguments = arguments_of(alloc, &Parent::Statement(statement))?;
            match expression {
                Expression::CallResult(callee) => {
                    add_call(
                        source,
                        of,
                        parts,
                        Word::Function(number_of(*callee)),
                        arguments.as_slice(),
                    )
                }
                _ => add_call(
                    source,
                    of,
                    parts,
                    maker_word(statement),
                    arguments.as_slice(),
                ),
            }
        }
        None => match expression {
            Expression::CallResult(callee) => {
                add_word(source, of, parts, Word::Function(number_of(*callee)))?;
                add_fixed(source, of, parts, "(...)")
            }
            _ => add_word(source, of, parts, Word::Numbered(e)),
        },
    }
}

/// Adds a call, or a type with its components.
fn add_called(
    alloc: Global,
    source: &Source,
    parts: &mut Vec<Part>,
    e: u32,
    expression: &Expression,
) -> Result<(), AllocError>
    requires reached { Reaches source.now e }
    requires here { slice_get source.now.function.now.expressions e ≡ Some expression.now }
    requires parts { AreParts source.now (Some e) parts.old.items }
    ensures { OnOk result (AreParts source.now (Some e) parts.new.items) }
{
    let of = Some(e);
    match expression {
        Expression::ZeroValue(ty) => {
            add_word(source, of, parts, Word::Type(number_of(*ty)))?;
            add_fixed(source, of, parts, "()")
        }
        _ => {
            let arguments = arguments_of(alloc, &Parent::Expression(expression))?;
            let name = callee_word(source, e, expression);
            add_call(source, of, parts, name, arguments.as_slice())
        }
    }
}

/// Adds an expression that has operands.
fn add_operation(
    alloc: Global,
    source: &Source,
    parts: &mut Vec<Part>,
    e: u32,
    expression: &Expression,
    role: Role,
) -> Result<(), AllocError>
    requires reached { Reaches source.now e }
    requires here { slice_get source.now.function.now.expressions e ≡ Some expression.now }
    requires parts { AreParts source.now (Some e) parts.old.items }
    ensures { OnOk result (AreParts source.now (Some e) parts.new.items) }
{
    let of = Some(e);
    match expression {
        Expression::Unary { op, .. } => add_unary(source, of, parts, *op, role),
        Expression::Binary { op, .. } => add_binary(source, of, parts, *op, role),
        Expression::Access { .. } => add_access(source, of, parts, expression, role),
        Expression::AccessIndex { base, index } => {
            add_access_index(source, of, parts, expression, *base, *index, role)
        }
        Expression::Swizzle { size, pattern, .. } => {
            add_swizzle(source, of, parts, *size, pattern)
        }
        Expression::Load { .. } => add_load(source, of, parts, role),
        Expression::CallResult(_)
        | Expression::AtomicResult { .. }
        | Expression::WorkGroupUniformLoadResult { .. }
        | Expression::RayQueryProceedResult
        | Expression::SubgroupBallotResult
        | Expression::SubgroupOperationResult { .. } => {
            let maker = source.makers.get(Handle::from_index(e));
            add_made(alloc, source, parts, e, expression, maker)
        }
        _ => add_called(alloc, source, parts, e, expression),
    }
}

/// Returns whether a variable that stands for itself is memory; of another expression false.
fn is_variable_in_memory(source: &Source, expression: &Expression) -> bool {
    match expression {
        Expression::GlobalVariable(global) => is_memory(source, *global),
        Expression::LocalVariable(_) => true,
        _ => false,
    }
}

/// Returns whether a variable is no memory, and so has no sign in front of it.
fn is_resource(source: &Source, expression: &Expression) -> bool {
    match expression {
        Expression::GlobalVariable(global) => !is_memory(source, *global),
        _ => false,
    }
}

/// Returns the parts of an expression that is reached.
fn parts_of(
    alloc: Global,
    source: &Source,
    e: u32,
    expression: &Expression,
    role: Role,
    is_left_out: bool,
) -> Result<Vec<Part>, AllocError>
    requires reached { Reaches source.now e }
    requires here { slice_get source.now.function.now.expressions e ≡ Some expression.now }
    ensures { IfOk result (λ parts. AreParts source.now (Some e) parts.items) }
{
    let mut parts = Vec::new(alloc);
    let of = Some(e);
    if has_name(source, Handle::from_index(e)) && !matches!(role, Role::Root | Role::RootPlace) {
        let word = Word::Named(e);
        add_signed(source, of, &mut parts, word, role, false)?;
        return Ok(parts);
    }
    if is_left_out {
        add_fixed(source, of, &mut parts, "...")?;
        return Ok(parts);
    }
    match leaf_word(e, expression) {
        Some(word) => {
            let role = if is_resource(source, expression) {
                Role::Whole
            } else {
                role
            };
            let is_reference = is_variable_in_memory(source, expression);
            add_signed(source, of, &mut parts, word, role, is_reference)?;
        }
        None => add_operation(alloc, source, &mut parts, e, expression, role)?,
    }
    Ok(parts)
}

/// Returns what has the operands of an expression: the statement that makes it, or itself.
#[tactic(auto, using(crate::proofs::ReachLemmas::are_reached_of, crate::proofs::ReachLemmas::are_reached_by))]
fn parent_of<'a>(
    source: &Source<'a, '_, '_>,
    handle: Handle<mark::Expression>,
    expression: &'a Expression,
) -> Parent<'a>
    requires reached { Reaches source.now handle }
    requires here { slice_get source.now.function.now.expressions handle ≡ Some expression.now }
    ensures { AreReached source.now (parent_operands result) }
{
    match maker_of(source, handle, expression) {
        Some(maker) => Parent::Statement(maker),
        None => Parent::Expression(expression),
    }
}

/// Writes an operand.
#[cycle(writing)]
fn write_operand(
    alloc: Global,
    source: &Source,
    pieces: &mut Vec<Piece>,
    handle: Handle<mark::Expression>,
    role: Role,
    shown: Shown,
) -> Result<(), AllocError>
    requires reached { Reaches source.now handle }
    requires said { AreSaid source.now pieces.old.items }
    ensures { OnOk result (AreSaid source.now pieces.new.items) }
{
    let e = number_of(handle);
    let of = Some(e);
    let is_marked = shown.is_marked || is_marked_operand(source, pieces.as_slice(), handle);
    let Some(expression) = source.function.expressions.try_get(handle) else {
        return say(source, pieces, of, Word::Numbered(e), is_marked);
    };
    let is_short = is_short(source, expression);
    let is_full = shown.depth == 0 || pieces.len() >= MOST_PIECES;
    let is_left_out = is_full && !is_short && !is_on_way(source, pieces.as_slice(), handle);
    let parts = parts_of(alloc, source, e, expression, role, is_left_out)?;
    let inside = Shown {
        depth: depth_inside(expression, shown.depth),
        is_marked,
    };
    let parent = parent_of(source, handle, expression);
    write_parts(
        alloc,
        source,
        pieces,
        of,
        &parent,
        parts.as_slice(),
        handle.index(),
        inside,
    )
}

/// Returns to which depth the operands of an expression are shown. A load stands for the memory, and isn't counted.
fn depth_inside(expression: &Expression, depth: u32) -> u32 {
    match expression {
        Expression::Load { .. } => depth,
        _ => depth.saturating_sub(1),
    }
}

/// Writes a word or an operand. An operand is written only if it stands before a position, so that no expression is written within itself.
#[cycle(writing)]
#[tactic(auto, using(crate::proofs::ReachLemmas::reached_at))]
fn write_part(
    alloc: Global,
    source: &Source,
    pieces: &mut Vec<Piece>,
    of: Option<u32>,
    parent: &Parent,
    part: &Part,
    end: usize,
    shown: Shown,
) -> Result<(), AllocError>
    requires reached { AreReached source.now (parent_operands parent.now) }
    requires part { IsPart source.now of part.now }
    requires said { AreSaid source.now pieces.old.items }
    ensures { OnOk result (AreSaid source.now pieces.new.items) }
{
    match part {
        Part::Word(word) => say(source, pieces, of, *word, shown.is_marked),
        Part::Operand(position, role) => match parent.operand(*position) {
            Some(operand) => {
                if operand.index() < end {
                    write_operand(alloc, source, pieces, operand, *role, shown)
                } else {
                    let number = number_of(operand);
                    say(
                        source,
                        pieces,
                        Some(number),
                        Word::Numbered(number),
                        shown.is_marked,
                    )
                }
            }
            None => Ok(()),
        },
    }
}

/// Writes words and operands.
#[cycle(writing)]
#[tactic(auto, using(crate::proofs::SaidLemmas::is_part_at))]
pub fn write_parts(
    alloc: Global,
    source: &Source,
    pieces: &mut Vec<Piece>,
    of: Option<u32>,
    parent: &Parent,
    parts: &[Part],
    end: usize,
    shown: Shown,
) -> Result<(), AllocError>
    requires reached { AreReached source.now (parent_operands parent.now) }
    requires parts { AreParts source.now of parts.now }
    requires said { AreSaid source.now pieces.old.items }
    ensures { OnOk result (AreSaid source.now pieces.new.items) }
{
    for part in parts {
        write_part(alloc, source, pieces, of, parent, part, end, shown)?;
    }
    Ok(())
}
