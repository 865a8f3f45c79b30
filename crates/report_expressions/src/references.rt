//! Which expressions stand for memory.

use crate::line::Source;
use shader_arena::Handle;
use shader_ir::{AddressSpace, Expression, TypeInner, VectorSize, mark};

/// The most accesses of one another that are followed. Types nest less deeply.
pub const MOST_ACCESSES: u32 = 64;

/// Returns whether a type is one of pointers.
fn is_pointer_type(source: &Source, ty: Handle<mark::Type>) -> bool {
    match source.module.types.try_get(ty) {
        Some(ty) => matches!(
            ty.inner,
            TypeInner::Pointer { .. } | TypeInner::ValuePointer { .. }
        ),
        None => false,
    }
}

/// Returns whether an argument of the function is a pointer.
pub fn is_pointer_argument(source: &Source, index: u32) -> bool {
    match source.function.arguments.as_slice().get(index as usize) {
        Some(argument) => is_pointer_type(source, argument.ty),
        None => false,
    }
}

/// Returns whether a global variable is memory, and no texture, sampler or acceleration structure.
pub fn is_memory(source: &Source, global: Handle<mark::GlobalVariable>) -> bool {
    match source.module.global_variables.try_get(global) {
        Some(variable) => !matches!(variable.space, AddressSpace::Handle),
        None => false,
    }
}

/// Returns the base of an access, if the expression is one.
fn base_of(expression: &Expression) -> Option<Handle<mark::Expression>> {
    match expression {
        Expression::Access { base, .. } => Some(*base),
        Expression::AccessIndex { base, .. } => Some(*base),
        _ => None,
    }
}

/// Returns whether an expression that accesses nothing is a pointer.
fn is_pointer(source: &Source, expression: &Expression) -> bool {
    match expression {
        Expression::GlobalVariable(global) => is_memory(source, *global),
        Expression::LocalVariable(_) => true,
        Expression::FunctionArgument(index) => is_pointer_argument(source, *index),
        _ => false,
    }
}

/// Returns whether an expression is a pointer by its form: a variable, an argument of pointer type, or an access of one.
pub fn is_reference(source: &Source, expression: &Expression) -> bool {
    let mut at = expression;
    for _step in 0..MOST_ACCESSES {
        let Some(base) = base_of(at) else {
            return is_pointer(source, at);
        };
        let Some(next) = source.function.expressions.try_get(base) else {
            return false;
        };
        at = next;
    }
    false
}

/// Returns the type of a member or of the elements of a type.
fn inner_type(source: &Source, ty: Handle<mark::Type>, index: usize) -> Option<Handle<mark::Type>> {
    let Some(ty) = source.module.types.try_get(ty) else {
        return None;
    };
    match &ty.inner {
        TypeInner::Array { base, .. } => Some(*base),
        TypeInner::BindingArray { base, .. } => Some(*base),
        TypeInner::Struct { members, .. } => match members.as_slice().get(index) {
            Some(member) => Some(member.ty),
            None => None,
        },
        _ => None,
    }
}

/// Returns the type that a pointer type points to, or the type itself.
fn pointee_type(source: &Source, ty: Handle<mark::Type>) -> Handle<mark::Type> {
    match source.module.types.try_get(ty) {
        Some(found) => match &found.inner {
            TypeInner::Pointer { base, .. } => *base,
            _ => ty,
        },
        None => ty,
    }
}

/// Returns the type of an expression that accesses nothing, by its form; of a pointer the type that it points to.
fn form_type(source: &Source, expression: &Expression) -> Option<Handle<mark::Type>> {
    match expression {
        Expression::GlobalVariable(global) => {
            match source.module.global_variables.try_get(*global) {
                Some(variable) => Some(variable.ty),
                None => None,
            }
        }
        Expression::LocalVariable(local) => {
            match source.function.local_variables.try_get(*local) {
                Some(variable) => Some(variable.ty),
                None => None,
            }
        }
        Expression::FunctionArgument(index) => {
            match source.function.arguments.as_slice().get(*index as usize) {
                Some(argument) => Some(pointee_type(source, argument.ty)),
                None => None,
            }
        }
        other => value_type(source, other),
    }
}

/// Returns the type of an expression that is no variable, by its form.
fn value_type(source: &Source, expression: &Expression) -> Option<Handle<mark::Type>> {
    match expression {
        Expression::Constant(constant) => match source.module.constants.try_get(*constant) {
            Some(constant) => Some(constant.ty),
            None => None,
        },
        Expression::ZeroValue(ty) => Some(*ty),
        Expression::Compose { ty, .. } => Some(*ty),
        Expression::AtomicResult { ty, .. } => Some(*ty),
        Expression::WorkGroupUniformLoadResult { ty } => Some(*ty),
        Expression::CallResult(callee) => match source.module.functions.try_get(*callee) {
            Some(function) => match function.result {
                Some(result) => Some(result.ty),
                None => None,
            },
            None => None,
        },
        _ => None,
    }
}

/// Returns the type of an expression, by its form and those of the expressions that it accesses; of a pointer the type that it points to.
/// Of accesses within one another so many are followed.
pub fn type_of(
    source: &Source,
    handle: Handle<mark::Expression>,
    accesses: u32,
) -> Option<Handle<mark::Type>> {
    if accesses == 0 {
        return None;
    }
    let Some(expression) = source.function.expressions.try_get(handle) else {
        return None;
    };
    match expression {
        Expression::Load { pointer } => type_of(source, *pointer, accesses - 1),
        Expression::Access { base, .. } => {
            let Some(ty) = type_of(source, *base, accesses - 1) else {
                return None;
            };
            inner_type(source, ty, 0)
        }
        Expression::AccessIndex { base, index } => {
            let Some(ty) = type_of(source, *base, accesses - 1) else {
                return None;
            };
            inner_type(source, ty, *index as usize)
        }
        other => form_type(source, other),
    }
}

/// The most expressions within one another of which the size of a vector is asked.
const MOST_ASKED: u32 = 16;

/// Returns the size of a vector type.
fn type_size(source: &Source, ty: Option<Handle<mark::Type>>) -> Option<VectorSize> {
    let Some(ty) = ty else {
        return None;
    };
    match source.module.types.try_get(ty) {
        Some(found) => match &found.inner {
            TypeInner::Vector { size, .. } => Some(*size),
            _ => None,
        },
        None => None,
    }
}

/// Returns the operand that is a vector of the same size as the expression, if the expression has one by its form.
fn alike_operand(expression: &Expression) -> Option<Handle<mark::Expression>> {
    match expression {
        Expression::Unary { expr, .. }
        | Expression::Derivative { expr, .. }
        | Expression::As { expr, .. } => Some(*expr),
        Expression::Math { arg, .. } => Some(*arg),
        Expression::Select { accept, .. } => Some(*accept),
        Expression::Binary { left, .. } => Some(*left),
        _ => None,
    }
}

/// Returns the size of a vector that an expression is by its form, or by that of an operand.
fn size_of(source: &Source, handle: Handle<mark::Expression>, asked: u32) -> Option<VectorSize> {
    if asked == 0 {
        return None;
    }
    let Some(expression) = source.function.expressions.try_get(handle) else {
        return None;
    };
    match expression {
        Expression::Splat { size, .. } => Some(*size),
        Expression::Swizzle { size, .. } => Some(*size),
        Expression::ImageSample {
            depth_ref: None,
            ..
        } => Some(VectorSize::Quad),
        other => match alike_operand(other) {
            Some(operand) => size_of(source, operand, asked - 1),
            None => type_size(source, type_of(source, handle, MOST_ACCESSES)),
        },
    }
}

/// Returns the size of the vector to which a conversion converts, if its operand is a vector by its form.
pub fn vector_size(source: &Source, expression: &Expression) -> Option<VectorSize> {
    match alike_operand(expression) {
        Some(operand) => size_of(source, operand, MOST_ASKED),
        None => None,
    }
}
