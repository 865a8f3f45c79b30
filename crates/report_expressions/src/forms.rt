//! The parts of an expression's text, by its form.
ghost use Rattle.std.specs.Prelude.{◌≡◌, IfOk, IfSome, OnOk, Some, slice_get};
ghost use Rattle.report_expressions.specs.Parts.{AreParts, IsSpeaker};
ghost use Rattle.report_expressions.specs.Pieces.{IsSaidBy, IsWordOf, Reaches};

use crate::arguments::Argument;
use crate::line::Source;
use crate::parts::{Part, add_fixed, add_operand, add_word};
use crate::pieces::{Word, number_of};
use crate::references::{MOST_ACCESSES, is_memory, is_reference, type_of};
use crate::roles::{Role, brackets_operation, brackets_sign};
use report_names::{binary_word, component_word, unary_word};
use shader_arena::Handle;
use shader_ir::{
    BinaryOperator, Expression, SwizzleComponent, TypeInner, UnaryOperator, VectorSize, mark,
};
use std::alloc::AllocError;

/// Returns what stands in front of an operand. A reference is memory by its form, so its address needs a sign; of another pointer the
/// memory does.
pub fn opening(role: Role, is_reference: bool) -> &'static str {
    match role {
        Role::RootPlace | Role::Place => { if is_reference { "" } else { "*" } }
        Role::PlaceBase => { if is_reference { "" } else { "(*" } }
        _ => { if is_reference { "&" } else { "" } }
    }
}

/// Returns what stands behind an operand.
pub fn closing(role: Role, is_reference: bool) -> &'static str {
    match role {
        Role::PlaceBase => { if is_reference { "" } else { ")" } }
        _ => "",
    }
}

/// Returns a bracket if there is to be one.
fn bracket_if(has_brackets: bool, bracket: &'static str) -> &'static str {
    if has_brackets { bracket } else { "" }
}

/// Adds a word with the signs that it needs where it stands.
pub fn add_signed(
    source: &Source,
    of: Option<u32>,
    parts: &mut Vec<Part>,
    word: Word,
    role: Role,
    is_reference: bool,
) -> Result<(), AllocError>
    requires speaker { IsSpeaker source.now of }
    requires word { IsSaidBy source.now of word }
    requires parts { AreParts source.now of parts.old.items }
    ensures { OnOk result (AreParts source.now of parts.new.items) }
{
    add_fixed(source, of, parts, opening(role, is_reference))?;
    add_word(source, of, parts, word)?;
    add_fixed(source, of, parts, closing(role, is_reference))
}

/// Adds an operator in front of its operand.
pub fn add_unary(
    source: &Source,
    of: Option<u32>,
    parts: &mut Vec<Part>,
    op: UnaryOperator,
    role: Role,
) -> Result<(), AllocError>
    requires speaker { IsSpeaker source.now of }
    requires parts { AreParts source.now of parts.old.items }
    ensures { OnOk result (AreParts source.now of parts.new.items) }
{
    let has_brackets = brackets_sign(role);
    add_fixed(source, of, parts, bracket_if(has_brackets, "("))?;
    add_fixed(source, of, parts, unary_word(op))?;
    add_operand(source, of, parts, 0, Role::Unary)?;
    add_fixed(source, of, parts, bracket_if(has_brackets, ")"))
}

/// Adds an operator between its operands.
pub fn add_binary(
    source: &Source,
    of: Option<u32>,
    parts: &mut Vec<Part>,
    op: BinaryOperator,
    role: Role,
) -> Result<(), AllocError>
    requires speaker { IsSpeaker source.now of }
    requires parts { AreParts source.now of parts.old.items }
    ensures { OnOk result (AreParts source.now of parts.new.items) }
{
    let has_brackets = brackets_operation(role, op);
    add_fixed(source, of, parts, bracket_if(has_brackets, "("))?;
    add_operand(source, of, parts, 0, Role::Left(op))?;
    add_fixed(source, of, parts, " ")?;
    add_fixed(source, of, parts, binary_word(op))?;
    add_fixed(source, of, parts, " ")?;
    add_operand(source, of, parts, 1, Role::Right(op))?;
    add_fixed(source, of, parts, bracket_if(has_brackets, ")"))
}

/// Returns where the base of an access stands.
fn base_role(is_reference: bool) -> Role {
    if is_reference {
        Role::PlaceBase
    } else {
        Role::Base
    }
}

/// Adds an element at a computed index.
pub fn add_access(
    source: &Source,
    of: Option<u32>,
    parts: &mut Vec<Part>,
    expression: &Expression,
    role: Role,
) -> Result<(), AllocError>
    requires speaker { IsSpeaker source.now of }
    requires parts { AreParts source.now of parts.old.items }
    ensures { OnOk result (AreParts source.now of parts.new.items) }
{
    let is_reference = is_reference(source, expression);
    add_fixed(source, of, parts, opening(role, is_reference))?;
    add_operand(source, of, parts, 0, base_role(is_reference))?;
    add_fixed(source, of, parts, "[")?;
    add_operand(source, of, parts, 1, Role::Whole)?;
    add_fixed(source, of, parts, "]")?;
    add_fixed(source, of, parts, closing(role, is_reference))
}

/// Adds a constant index.
fn add_index(
    source: &Source,
    of: Option<u32>,
    parts: &mut Vec<Part>,
    index: u32,
) -> Result<(), AllocError>
    requires speaker { IsSpeaker source.now of }
    requires parts { AreParts source.now of parts.old.items }
    ensures { OnOk result (AreParts source.now of parts.new.items) }
{
    add_fixed(source, of, parts, "[")?;
    add_word(source, of, parts, Word::Index(index))?;
    add_fixed(source, of, parts, "]")
}

/// Returns the letter of a component behind its point, or nothing if no vector has it.
fn component_part(index: u32) -> &'static str {
    match index {
        0 => ".x",
        1 => ".y",
        2 => ".z",
        3 => ".w",
        _ => "",
    }
}

/// Adds the choice of a member, an element, a column or a component, by the form of the base.
fn add_choice(
    source: &Source,
    of: Option<u32>,
    parts: &mut Vec<Part>,
    base: Handle<mark::Expression>,
    index: u32,
) -> Result<(), AllocError>
    requires speaker { IsSpeaker source.now of }
    requires parts { AreParts source.now of parts.old.items }
    ensures { OnOk result (AreParts source.now of parts.new.items) }
{
    if let Some(ty) = type_of(source, base, MOST_ACCESSES) {
        if let Some(found) = source.module.types.try_get(ty) {
            match &found.inner {
                TypeInner::Struct { .. } => {
                    return add_word(source, of, parts, Word::Member(number_of(ty), index));
                }
                TypeInner::Array { .. }
                | TypeInner::BindingArray { .. }
                | TypeInner::Matrix { .. } => return add_index(source, of, parts, index),
                _ => {}
            }
        }
    }
    if index < 4 {
        add_fixed(source, of, parts, component_part(index))
    } else {
        add_index(source, of, parts, index)
    }
}

/// Adds a member, an element, a column or a component at a constant index.
pub fn add_access_index(
    source: &Source,
    of: Option<u32>,
    parts: &mut Vec<Part>,
    expression: &Expression,
    base: Handle<mark::Expression>,
    index: u32,
    role: Role,
) -> Result<(), AllocError>
    requires speaker { IsSpeaker source.now of }
    requires parts { AreParts source.now of parts.old.items }
    ensures { OnOk result (AreParts source.now of parts.new.items) }
{
    let is_reference = is_reference(source, expression);
    add_fixed(source, of, parts, opening(role, is_reference))?;
    add_operand(source, of, parts, 0, base_role(is_reference))?;
    add_choice(source, of, parts, base, index)?;
    add_fixed(source, of, parts, closing(role, is_reference))
}

/// Adds the components of a vector.
pub fn add_swizzle(
    source: &Source,
    of: Option<u32>,
    parts: &mut Vec<Part>,
    size: VectorSize,
    pattern: &[SwizzleComponent],
) -> Result<(), AllocError>
    requires speaker { IsSpeaker source.now of }
    requires parts { AreParts source.now of parts.old.items }
    ensures { OnOk result (AreParts source.now of parts.new.items) }
{
    add_operand(source, of, parts, 0, Role::Base)?;
    add_fixed(source, of, parts, ".")?;
    for component in pattern.iter().take(size as usize) {
        add_fixed(source, of, parts, component_word(*component))?;
    }
    Ok(())
}

/// Adds what a pointer points to.
pub fn add_load(
    source: &Source,
    of: Option<u32>,
    parts: &mut Vec<Part>,
    role: Role,
) -> Result<(), AllocError>
    requires speaker { IsSpeaker source.now of }
    requires parts { AreParts source.now of parts.old.items }
    ensures { OnOk result (AreParts source.now of parts.new.items) }
{
    let place = match role {
        Role::Base => Role::PlaceBase,
        _ => Role::Place,
    };
    add_fixed(source, of, parts, opening(role, false))?;
    add_operand(source, of, parts, 0, place)?;
    add_fixed(source, of, parts, closing(role, false))
}

/// Adds a call.
pub fn add_call(
    source: &Source,
    of: Option<u32>,
    parts: &mut Vec<Part>,
    name: Word,
    arguments: &[Argument],
) -> Result<(), AllocError>
    requires speaker { IsSpeaker source.now of }
    requires name { IsSaidBy source.now of name }
    requires parts { AreParts source.now of parts.old.items }
    ensures { OnOk result (AreParts source.now of parts.new.items) }
{
    add_word(source, of, parts, name)?;
    add_fixed(source, of, parts, "(")?;
    let mut is_first = true;
    for argument in arguments {
        add_fixed(source, of, parts, bracket_if(!is_first, ", "))?;
        add_argument(source, of, parts, argument)?;
        is_first = false;
    }
    add_fixed(source, of, parts, ")")
}

/// Adds an argument of a call.
fn add_argument(
    source: &Source,
    of: Option<u32>,
    parts: &mut Vec<Part>,
    argument: &Argument,
) -> Result<(), AllocError>
    requires speaker { IsSpeaker source.now of }
    requires parts { AreParts source.now of parts.old.items }
    ensures { OnOk result (AreParts source.now of parts.new.items) }
{
    match argument {
        Argument::Operand(position) => add_operand(source, of, parts, *position, Role::Whole),
        Argument::Fixed(text) => add_fixed(source, of, parts, text),
    }
}

/// Returns the word for an expression that has no operands, if it is one.
pub fn leaf_word(e: u32, expression: &Expression) -> Option<Word>
    ensures { IfSome result (IsWordOf e (Some expression.now)) }
{
    match expression {
        Expression::Literal(literal) => Some(Word::Literal(*literal)),
        Expression::Constant(constant) => Some(Word::Constant(number_of(*constant))),
        Expression::Override(handle) => Some(Word::Override(number_of(*handle))),
        Expression::FunctionArgument(index) => Some(Word::Argument(*index)),
        Expression::GlobalVariable(global) => Some(Word::Global(number_of(*global))),
        Expression::LocalVariable(local) => Some(Word::Local(number_of(*local))),
        _ => None,
    }
}
